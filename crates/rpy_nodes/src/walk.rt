// The walk over the trees, which gives each node its number and its events.
ghost use Rattle.std.specs.Prelude.{◌≡◌, OnOk, IfOk};
ghost use Rattle.rpy_nodes.specs.Walk as spec;

use crate::event::{Act, Event};
use crate::names::{NameId, Names};
use rpy_base::{NoMem, Seq, Text};
use rpy_tree::NodeId;
use std::alloc::Global;
use std::mem;

/// The names so far, the number of the next node, and the events since the last cut.
#[derive(Drop)]
pub struct Walk {
    pub names: Names,
    pub next: NodeId,
    pub events: Seq<Event>,
}

impl Walk {
    pub fn new(alloc: Global) -> Walk {
        Walk {
            names: Names::new(alloc),
            next: 0,
            events: Seq::new(alloc),
        }
    }

    /// The number of a name.
    pub fn number(&mut self, alloc: Global, name: &Text) -> Result<NameId, NoMem>
        ensures number { IfOk result (λ n. n ≡ spec.number_in self.old name.now) }
        ensures walk { OnOk result (self.new ≡ spec.seen self.old name.now) }
    {
        self.names.number(alloc, name)
    }

    /// A node that has no events. There is no memory for more than 2 ^ 32 - 1 nodes.
    pub fn skip(&mut self) -> Result<NodeId, NoMem>
        ensures node { IfOk result (λ n. n ≡ self.old.next) }
        ensures walk { OnOk result (self.new ≡ spec.skip self.old) }
    {
        let node = self.next;
        if node == u32::MAX {
            return Err(NoMem);
        }
        self.next = node + 1;
        Ok(node)
    }

    /// A node.
    pub fn push(&mut self, act: Act) -> Result<(), NoMem>
        ensures { OnOk result (self.new ≡ spec.push act self.old) }
    {
        let node = self.skip()?;
        self.events.push(Event { node, act })
    }

    /// What stands at the next node and is none itself.
    pub fn note(&mut self, act: Act) -> Result<(), NoMem>
        ensures { OnOk result (self.new ≡ spec.note act self.old) }
    {
        let node = self.next;
        self.events.push(Event { node, act })
    }

    /// The events so far, which are cut off.
    pub fn cut(&mut self, alloc: Global) -> Seq<Event>
        ensures events { result ≡ self.old.events }
        ensures walk { self.new ≡ spec.cut self.old }
    {
        mem::replace(&mut self.events, Seq::new(alloc))
    }
}
