// Tables of names. The first binding of a name in a scope stands.
ghost use Rattle.std.specs.Prelude.{◌≡◌, [], IfOk, OnOk, length, map, slice_get};
ghost use Rattle.std.specs.Option.{option_copied};
ghost use Rattle.names_bound.specs.Table as spec;

use crate::stand::Stand;
use indexmap::IndexMap;
use rpy_base::{NoMem, Seq};
use rpy_nodes::NameId;
use std::alloc::Global;
use std::marker::Model;

/// A name in a scope: a module or a class, by its number.
#[derive(Clone, Copy, Debug, PartialEq, Eq, Hash)]
pub struct Key {
    pub scope: usize,
    pub name: NameId,
}

#[derive(Clone, Copy, Debug, PartialEq, Eq)]
pub enum Bound {
    Is(Stand),
    /// What a name of another module stands for.
    From(usize, NameId),
}

/// What a name is bound to, and the place of the member that binds it.
#[derive(Clone, Copy, Debug, PartialEq, Eq)]
pub struct Binding {
    pub place: usize,
    pub bound: Bound,
}

/// A table, which contracts see as the list of its entries.
#[derive(Drop)]
pub struct Table {
    map: IndexMap<Key, Binding>,
}

impl Model for Table {
    ghost use Rattle.std.specs.Prelude.{List};
    ghost use Rattle.names_bound.specs.declared.table.Key.{Key};
    ghost use Rattle.names_bound.specs.declared.table.Binding.{Binding};

    ghost Value = { List (Key × Binding) };

    ghost view = { λ t. t.map.entries };
}

impl Table {
    pub fn new(alloc: Global) -> Table
        ensures { result ≡ [] }
    {
        Table {
            map: IndexMap::new(alloc),
        }
    }

    pub fn len(&self) -> usize
        ensures { result ≡ length self.now }
    {
        self.map.len()
    }

    /// What a name is bound to.
    pub fn get(&self, scope: usize, name: NameId) -> Option<Binding>
        ensures { result ≡ spec.look self.now scope name }
    {
        self.map.get(&Key { scope, name }).copied()
    }

    /// Whether a name is not bound.
    pub fn is_fresh(&self, scope: usize, name: NameId) -> bool
        ensures { result ≡ spec.is_fresh self.now scope name }
    {
        match self.get(scope, name) {
            None => true,
            Some(_) => false,
        }
    }

    /// The names that are bound, each in its scope.
    pub fn keys(&self, alloc: Global) -> Result<Seq<Key>, NoMem>
        ensures { IfOk result (λ keys. keys ≡ map (λ e. e.0) self.now) }
    {
        let keys = self.map.keys().copied().collect(alloc)?;
        Ok(Seq::from_vec(keys))
    }

    /// A name is bound where it is not yet. Whether it was not.
    pub fn bind(&mut self, scope: usize, name: NameId, binding: Binding) -> Result<bool, NoMem>
        ensures fresh { IfOk result (λ fresh. fresh ≡ spec.is_fresh self.old scope name) }
        ensures table { OnOk result (self.new ≡ spec.bind self.old scope name binding) }
    {
        match self.get(scope, name) {
            Some(_) => Ok(false),
            None => {
                self.map.insert(Key { scope, name }, binding)?;
                Ok(true)
            }
        }
    }
}
