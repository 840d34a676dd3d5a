// What happens in a list of statements or in an expression, in node order.
use crate::names::NameId;
use rpy_tree::{BinOp, NodeId, UnOp};

/// An expression, target or statement after its parts, of which it takes as many as it says; or what
/// stands at a node and is none itself.
#[derive(Clone, Copy, Debug, PartialEq, Eq)]
pub enum Act {
    Int(i64),
    Str(NameId),
    Name(NameId),
    Attr(NameId),
    Unary(UnOp),
    Binary(BinOp),
    /// A call, by the count of its arguments.
    Call(usize),
    Tuple(usize),
    List(usize),
    /// A dict display, by the count of its pairs.
    Dict(usize),
    /// A slice, by the count of its parts.
    Slice(usize),
    /// A comprehension, by the count of its parts.
    Comp(usize),
    /// Another expression, or a target, by the count of its parts.
    Other(usize),
    /// A name as a target.
    Bind(NameId),
    /// An attribute as a target.
    BindAttr(NameId),
    /// A statement, by the count of its expressions and targets so far.
    Done(usize),
    /// `for`, after its target and its subject.
    For,
    /// `*=`, after its target and its value.
    Multiply,
    /// The test of an `elif` is no node of its own.
    Elif,
    /// The first name of a class in the head of a clause; no node of its own.
    Caught(NameId),
    /// A further name of that class; no node of its own.
    CaughtOf(NameId),
    /// The end of that class; no node of its own.
    CaughtEnd,
    /// The name that a clause binds; no node of its own.
    Catch(NameId),
    /// A clause.
    Clause,
}

/// An act and the node at which it stands.
#[derive(Clone, Copy, Debug, PartialEq, Eq)]
pub struct Event {
    pub node: NodeId,
    pub act: Act,
}
