// What the modules of a program say, one after the other.
use crate::event::Event;
use crate::names::{NameId, Names};
use rpy_base::Seq;
use rpy_tree::NodeId;

/// A parameter. Its default has its events in a list of its own.
#[derive(Drop)]
pub struct Parameter {
    pub node: NodeId,
    pub name: NameId,
    pub default: Option<Seq<Event>>,
}

/// A member of a module or of a class, with the events of its expressions and statements.
#[derive(Drop)]
pub enum What {
    Import(Seq<NameId>),
    /// The path of the module, and the names that are taken from it.
    From(Seq<NameId>, Seq<NameId>),
    Constant(NameId, Seq<Event>),
    /// A function: its name, its parameters, whether the last has a star, and its body.
    Def(NameId, Seq<Parameter>, bool, Seq<Event>),
    /// A class and the path of its base. What its body holds follows.
    Class(NameId, Seq<NameId>),
}

/// A member, with the place of its file, the place of the module's member that it is or stands in,
/// whether it stands in the body of the class before it, and its node.
#[derive(Drop)]
pub struct Unit {
    pub file: usize,
    pub place: usize,
    pub inside: bool,
    pub node: NodeId,
    pub what: What,
}

/// All members in node order, how many nodes they have, the names of the modules, and all names.
#[derive(Drop)]
pub struct Listing {
    pub names: Names,
    pub modules: Seq<NameId>,
    pub nodes: NodeId,
    pub units: Seq<Unit>,
}
