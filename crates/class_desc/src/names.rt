// Names in the order in which they are first met.
ghost use Rattle.std.specs.Prelude.{◌≡◌, [], OnOk, slice_get, length};
ghost use Rattle.std.specs.Option.{option_copied};
ghost use Rattle.class_desc.specs.Stores as spec;

use indexmap::IndexSet;
use rpy_base::{NoMem, Text};
use std::alloc::Global;
use std::marker::Model;

/// Names, which contracts see as a list in which none stands twice.
#[derive(Drop)]
pub struct Names {
    set: IndexSet<Text>,
}

impl Model for Names {
    ghost use Rattle.std.specs.Prelude.{List, ℕ};
    ghost use Rattle.std.specs.Coded.{coded_list, coded_ℕ};

    ghost Value = { List (List ℕ) };

    ghost coded = { coded_list (coded_list coded_ℕ) };

    ghost view = { λ n. n.set.keys };
}

impl Names {
    /// No names. It takes no memory.
    pub fn new(alloc: Global) -> Names
        ensures { result ≡ [] }
    {
        Names {
            set: IndexSet::new(alloc),
        }
    }

    pub fn len(&self) -> usize
        ensures { result ≡ length self.now }
    {
        self.set.len()
    }

    /// A name is added, at the end, where it is not there yet.
    pub fn add(&mut self, alloc: Global, name: &Text) -> Result<(), NoMem>
        ensures { OnOk result (self.new ≡ spec.with_name self.old name.now) }
    {
        let copy = name.copy(alloc)?;
        self.set.insert(copy)?;
        Ok(())
    }

    /// Whether a name is there.
    pub fn has(&self, name: &Text) -> bool
        ensures { result ≡ spec.has self.now name.now }
    {
        self.set.contains(name)
    }

    /// The name at a place.
    pub fn get(&self, at: usize) -> Option<&Text>
        ensures { option_copied result ≡ slice_get self.now at }
    {
        self.set.get_index(at)
    }
}
