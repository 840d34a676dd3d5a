// What the rules give: trees, with the lines of all nodes so far. The next node is the number of these.
use rpy_base::{Own, Seq, Text};
use rpy_tree::{Clause, Expr, Member, NodeId, Param, Stmt, Target};

/// A node that was given its line.
#[derive(Drop)]
pub struct Numbered {
    pub node: NodeId,
    pub lines: Seq<u32>,
}

/// An expression that was read, the line that it begins on, and whether the same tokens are a
/// target, and a place.
#[derive(Drop)]
pub struct Got {
    pub tree: Expr,
    pub lines: Seq<u32>,
    pub line: u32,
    pub goal: bool,
    pub place: bool,
}

/// Expressions with commas between them, and whether the same tokens are targets. The line is that
/// of the node that is made of them.
#[derive(Drop)]
pub struct Listed {
    pub trees: Seq<Expr>,
    pub lines: Seq<u32>,
    pub line: u32,
    pub goal: bool,
}

/// An expression before an index or a slice, which may have its first part already.
#[derive(Drop)]
pub struct Sliced {
    pub of: Own<Expr>,
    pub from: Option<Own<Expr>>,
    pub lines: Seq<u32>,
    pub line: u32,
}

/// An indexed expression that is no node yet.
#[derive(Drop)]
pub struct Indexed {
    pub of: Expr,
    pub index: Expr,
    pub lines: Seq<u32>,
    pub line: u32,
}

/// The pairs of a dict display.
#[derive(Drop)]
pub struct Pairs {
    pub pairs: Seq<(Expr, Expr)>,
    pub lines: Seq<u32>,
    pub line: u32,
}

/// A comprehension up to its `in`.
#[derive(Drop)]
pub struct Walking {
    pub item: Own<Expr>,
    pub target: Own<Target>,
    pub lines: Seq<u32>,
    pub line: u32,
}

/// A comprehension up to its subject.
#[derive(Drop)]
pub struct Walk {
    pub item: Own<Expr>,
    pub target: Own<Target>,
    pub subject: Own<Expr>,
    pub lines: Seq<u32>,
    pub line: u32,
}

/// A target that was read, and the line that it begins on.
#[derive(Drop)]
pub struct Aimed {
    pub target: Target,
    pub lines: Seq<u32>,
    pub line: u32,
}

/// Targets with commas between them.
#[derive(Drop)]
pub struct Aims {
    pub targets: Seq<Target>,
    pub lines: Seq<u32>,
    pub line: u32,
}

/// An assignment up to some value, which may prove to be one more target.
#[derive(Drop)]
pub struct Assigned {
    pub targets: Seq<Target>,
    pub line: u32,
    pub value: Got,
}

/// Where a statement stands: in a loop of its function, and in the body of a `finally`, where the
/// loop stands in it too.
#[derive(Clone, Copy)]
pub struct Place {
    pub looped: bool,
    pub last: bool,
}

#[derive(Drop)]
pub struct Made {
    pub stmt: Stmt,
    pub lines: Seq<u32>,
}

/// The statements of a block.
#[derive(Drop)]
pub struct Body {
    pub stmts: Seq<Stmt>,
    pub lines: Seq<u32>,
}

/// The expression in a statement's header, once the statement has its number.
#[derive(Drop)]
pub struct Headed {
    pub node: NodeId,
    pub tree: Expr,
    pub lines: Seq<u32>,
}

/// A branch of an `if`.
#[derive(Drop)]
pub struct Arm {
    pub test: Expr,
    pub body: Seq<Stmt>,
    pub lines: Seq<u32>,
}

/// The branches of an `if` so far.
#[derive(Drop)]
pub struct Arms {
    pub node: NodeId,
    pub arms: Seq<(Expr, Seq<Stmt>)>,
    pub lines: Seq<u32>,
}

/// What `except` names.
#[derive(Drop)]
pub struct Head {
    pub classes: Seq<Seq<Text>>,
    pub bare: bool,
    pub bind: Option<Text>,
}

/// A clause of a `try`.
#[derive(Drop)]
pub struct Handled {
    pub clause: Clause,
    pub lines: Seq<u32>,
}

/// A `try` up to some clause, and whether that clause takes every exception.
#[derive(Drop)]
pub struct Tried {
    pub node: NodeId,
    pub body: Seq<Stmt>,
    pub clauses: Seq<Clause>,
    pub bare: bool,
    pub lines: Seq<u32>,
}

/// The parameters of a function so far, whether one has a default, and whether one has a star.
#[derive(Drop)]
pub struct Params {
    pub params: Seq<Param>,
    pub defaults: bool,
    pub star: bool,
    pub lines: Seq<u32>,
}

/// A member that was read.
#[derive(Drop)]
pub struct Grown {
    pub member: Member,
    pub lines: Seq<u32>,
}

/// The members of a module or a class.
#[derive(Drop)]
pub struct Members {
    pub members: Seq<Member>,
    pub lines: Seq<u32>,
}
