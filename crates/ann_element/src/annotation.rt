// What an annotator says of a whole program.
use crate::element::Element;
use crate::sites::Sites;
use rpy_base::{Seq, Text};
use rpy_tree::{ClassId, NodeId};

/// Where a conflict stands: at a node of the program, at a parameter (its node), at the result of a
/// function (the function's node), at an attribute (the node of its home class), or at the keys or the
/// items of the lists or dicts of a class of sites (the node of its least site).
#[derive(Drop)]
pub struct Spot {
    pub node: NodeId,
    pub kind: SpotKind,
}

#[derive(Drop)]
pub enum SpotKind {
    Node,
    Param,
    Result,
    Attr(Text),
    Keys,
    Items,
}

/// The least annotation of a program and of its graphs. Nodes, functions, classes and sites stand by
/// their numbers; elements have the least site of a class for each of its sites.
#[derive(Drop)]
pub struct Annotation {
    /// The element of each node's value.
    pub nodes: Seq<Element>,
    /// Whether the node reads a local that may be unbound there.
    pub unbound: Seq<bool>,
    /// The elements of each function's parameters, a starred one aside.
    pub params: Seq<Seq<Element>>,
    pub results: Seq<Element>,
    /// Which functions are reached.
    pub reached: Seq<bool>,
    /// Each attribute at its home, in order of class and then of declaration.
    pub attributes: Seq<(ClassId, Text, Element)>,
    /// What the lists of each site hold, or the values of its dicts.
    pub items: Seq<Element>,
    /// The keys of each site's dicts.
    pub keys: Seq<Element>,
    /// Which classes have instances.
    pub made: Seq<bool>,
    pub same: Sites,
    /// The elements of the variables of each graph.
    pub vars: Seq<Seq<Element>>,
    /// Which blocks of each graph are reached.
    pub blocks: Seq<Seq<bool>>,
}
