// The locals of a function, in the order in which they are first bound.
ghost use Rattle.std.specs.Prelude.{◌≡◌, [], IfOk, OnOk, length};
ghost use Rattle.names_found.specs.Locals as spec;

use indexmap::IndexSet;
use rpy_base::NoMem;
use rpy_nodes::{Act, Event, NameId, Parameter};
use std::alloc::Global;
use std::marker::Model;

/// Names of locals. Contracts see them as a list, in which none stands twice.
#[derive(Drop)]
pub struct Locals {
    set: IndexSet<usize>,
}

impl Model for Locals {
    ghost use Rattle.std.specs.Prelude.{List, ℕ};
    ghost use Rattle.std.specs.Coded.{coded_list, coded_ℕ};

    ghost Value = { List ℕ };

    ghost view = { λ n. n.set.keys };
}

impl Locals {
    pub fn new(alloc: Global) -> Locals
        ensures { result ≡ [] }
    {
        Locals {
            set: IndexSet::new(alloc),
        }
    }

    pub fn len(&self) -> usize
        ensures { result ≡ length self.now }
    {
        self.set.len()
    }

    /// The number of a local.
    pub fn number(&self, name: NameId) -> Option<usize>
        ensures { result ≡ spec.number self.now name }
    {
        self.set.get_index_of(&name)
    }

    pub fn add(&mut self, name: NameId) -> Result<(), NoMem>
        ensures { OnOk result (self.new ≡ spec.add self.old name) }
    {
        self.set.insert_full(name)?;
        Ok(())
    }

    fn add_parameters(&mut self, parameters: &[Parameter]) -> Result<(), NoMem>
        ensures { OnOk result (self.new ≡ spec.add_parameters self.old parameters.now) }
    {
        for parameter in parameters {
            self.add(parameter.name)?;
        }
        Ok(())
    }

    fn add_bound(&mut self, act: Act) -> Result<(), NoMem>
        ensures { OnOk result (self.new ≡ spec.add_bound self.old act) }
    {
        match act {
            Act::Bind(name) => self.add(name),
            Act::Catch(name) => self.add(name),
            _ => Ok(()),
        }
    }

    fn add_events(&mut self, events: &[Event]) -> Result<(), NoMem>
        ensures { OnOk result (self.new ≡ spec.add_events self.old events.now) }
    {
        for event in events {
            self.add_bound(event.act)?;
        }
        Ok(())
    }

    /// The locals of a function: its parameters, then what its body binds.
    pub fn of(alloc: Global, parameters: &[Parameter], body: &[Event]) -> Result<Locals, NoMem>
        ensures { IfOk result (λ locals. locals ≡ spec.of parameters.now body.now) }
    {
        let mut locals = Locals::new(alloc);
        locals.add_parameters(parameters)?;
        locals.add_events(body)?;
        Ok(locals)
    }
}
