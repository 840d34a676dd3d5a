// Boxes.
ghost use Rattle.std.specs.Prelude.{◌≡◌, IfOk};

use crate::NoMem;
use std::alloc::Global;
use std::marker::Model;

/// A box that contracts see as the value in it, and in which a tree may hold its own kind.
#[derive(Debug, Drop)]
pub struct Own<T> {
    inner: Box<T>,
}

impl<T> Model for Own<T> {
    ghost Value = { T };

    ghost coded = { T.code };

    ghost view = { λ b. b.inner.value };
}

impl<T> Own<T> {
    pub fn get(&self) -> &T
        ensures { result.now ≡ self.now }
    {
        &self.inner
    }

    pub fn into_inner(self) -> T
        ensures { result ≡ self }
    {
        let Own { inner } = self;
        Box::into_inner(inner)
    }
}

impl<T: Drop> Own<T> {
    pub fn new(alloc: Global, value: T) -> Result<Own<T>, NoMem>
        ensures { IfOk result (λ b. b ≡ value) }
    {
        Ok(Own {
            inner: Box::new(alloc, value)?,
        })
    }
}
