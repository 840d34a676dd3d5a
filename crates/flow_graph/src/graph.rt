// Flow graphs. A block's inputs, and the results of its operations, are variables of its graph, each
// bound in one place.
use rpy_base::Seq;
use rpy_meaning::{Covers, RowOp};
use rpy_tree::{ClassId, FunId, NodeId};

pub type VarId = u64;

/// The number of a block, and the variables that become its inputs.
#[derive(Drop)]
pub struct Link {
    pub to: u64,
    pub args: Seq<VarId>,
}

/// How a block ends.
#[derive(Drop)]
pub enum Exit {
    Goto(Link),
    /// By the truth of a variable.
    If(VarId, Link, Link),
    /// By the exception of the block's last operation, which is then the value of the variable: the
    /// first class that it is below, any other exception, and no exception. Without a link for any
    /// other, that leaves the function.
    OnRaise(VarId, Seq<(ClassId, Link)>, Option<Link>, Link),
    Return(VarId),
    Raise(VarId),
}

/// An operation at a node of the program. The bool says that its result is the value of the node.
#[derive(Drop)]
pub struct Op {
    pub result: VarId,
    pub op: RowOp,
    pub args: Seq<VarId>,
    pub node: NodeId,
    pub value: bool,
    pub covered: Covers,
}

#[derive(Drop)]
pub struct Block {
    pub inputs: Seq<VarId>,
    pub ops: Seq<Op>,
    pub exit: Exit,
}

/// A function begins at its first block, whose inputs are its locals, the parameters first.
#[derive(Drop)]
pub struct Graph {
    pub function: FunId,
    pub blocks: Seq<Block>,
}

#[derive(Drop)]
pub struct Graphs {
    pub graphs: Seq<Graph>,
}
