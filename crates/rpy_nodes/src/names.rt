// Names by number, in the order in which they are first seen.
ghost use Rattle.std.specs.Prelude.{◌≡◌, [], IfOk, OnOk, slice_get, length};
ghost use Rattle.std.specs.Option.{option_copied};
ghost use Rattle.rpy_nodes.specs.Names as spec;

use indexmap::IndexSet;
use rpy_base::{NoMem, Text};
use std::alloc::Global;
use std::marker::Model;

/// The number of a name.
pub type NameId = usize;

/// The names so far. Contracts see them as a list, in which none stands twice.
#[derive(Drop)]
pub struct Names {
    set: IndexSet<Text>,
}

impl Model for Names {
    ghost use Rattle.std.specs.Prelude.{List, ℕ};
    ghost use Rattle.std.specs.Coded.{coded_list, coded_ℕ};

    ghost Value = { List (List ℕ) };

    ghost view = { λ n. n.set.keys };
}

impl Names {
    pub fn new(alloc: Global) -> Names
        ensures { result ≡ [] }
    {
        Names {
            set: IndexSet::new(alloc),
        }
    }

    pub fn len(&self) -> usize
        ensures { result ≡ length self.now }
    {
        self.set.len()
    }

    /// The number of a name, which is a new one where the name is new.
    pub fn number(&mut self, alloc: Global, name: &Text) -> Result<NameId, NoMem>
        ensures number { IfOk result (λ n. n ≡ spec.number self.old name.now) }
        ensures names { OnOk result (self.new ≡ spec.with_name self.old name.now) }
    {
        let copy = name.copy(alloc)?;
        let (number, _) = self.set.insert_full(copy)?;
        Ok(number)
    }

    /// The name of a number.
    pub fn text(&self, number: NameId) -> Option<&Text>
        ensures { option_copied result ≡ slice_get self.now number }
    {
        self.set.get_index(number)
    }
}
