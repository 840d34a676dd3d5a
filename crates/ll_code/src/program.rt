// A low-level program. Structs, statics, graphs and blocks are numbered by their place, and so are
// the variables of a graph; with an inline base the fields of a struct are numbered from 1.
use csub_tree::{CBinary, COperand, CStatic, CUnary};
use rpy_base::{Seq, Text};

pub type VarId = u64;

/// The constants of a static are those of a C file; in `Fun` stands the number of a graph.
pub type LlStatic = CStatic;

/// The stages that a program passes through: exceptions leave calls by exits of their own; they
/// stand in the exception slots, and are tested; and blocks of memory are counted and freed.
#[derive(Clone, Copy, Debug, PartialEq, Eq)]
pub enum LlStage {
    Raw,
    Explicit,
    Counted,
}

/// `Void` is the type of what is never there: of a graph without a result, and of variables that
/// nothing sets or reads.
#[derive(Clone, Copy, Debug, PartialEq, Eq)]
pub enum LlType {
    Signed,
    Char,
    Bool,
    Void,
    Fn,
    Ptr(u64),
}

#[derive(Drop)]
pub struct LlStruct {
    pub base: Option<u64>,
    pub fields: Seq<LlType>,
    pub items: Option<LlType>,
}

/// The number of a block, and what its inputs become, all at once.
#[derive(Drop)]
pub struct LlLink {
    pub to: u64,
    pub args: Seq<COperand>,
}

/// An operation. The variable that it sets comes first. The numbers of structs and fields stand
/// where the statements of C files have them.
#[derive(Drop)]
pub enum LlOp {
    Set(VarId, COperand),
    Unary(VarId, CUnary, COperand),
    Binary(VarId, CBinary, COperand, COperand),
    GetField(VarId, u64, VarId, u64),
    SetField(u64, VarId, u64, COperand),
    GetItem(VarId, u64, VarId, COperand),
    SetItem(u64, VarId, COperand, COperand),
    New(VarId, u64, u64),
    NewArray(VarId, u64, u64, COperand),
    Free(VarId),
    Step(COperand),
    Call(Option<VarId>, u64, Seq<COperand>),
    /// Of a function value: what it gives and takes, the value, and the operands.
    CallFn(Option<VarId>, LlType, Seq<LlType>, VarId, Seq<COperand>),
    ExcType(VarId, u64),
    ExcValue(VarId, u64),
    ExcSet(VarId, VarId),
    ExcClear,
    Argc(VarId),
    ArgLen(VarId, COperand),
    Arg(VarId, COperand, COperand),
    Put(COperand),
    /// Raises an exception.
    Raise(VarId),
}

/// How a block ends.
#[derive(Drop)]
pub enum LlExit {
    Goto(LlLink),
    If(VarId, LlLink, LlLink),
    /// By the exception of the block's last operation, which is then the value of the variable: on
    /// the first link, without which it leaves the graph, or on the second where there is none.
    OnRaise(VarId, Option<LlLink>, LlLink),
    Return(Option<COperand>),
    /// An exception leaves the graph.
    Raise(VarId),
    /// The run ends, as failed or as raised.
    Fail(u32),
    Raised(VarId),
}

#[derive(Drop)]
pub struct LlBlock {
    pub inputs: Seq<VarId>,
    pub ops: Seq<LlOp>,
    pub exit: LlExit,
}

/// The parameters are the first variables; each variable has its type. The graph begins at its
/// first block.
#[derive(Drop)]
pub struct LlGraph {
    pub name: Text,
    pub params: Seq<VarId>,
    pub result: LlType,
    pub types: Seq<LlType>,
    pub blocks: Seq<LlBlock>,
}

/// The run begins at the graph `entry`.
#[derive(Drop)]
pub struct LlProgram {
    pub stage: LlStage,
    pub structs: Seq<LlStruct>,
    pub statics: Seq<LlStatic>,
    pub graphs: Seq<LlGraph>,
    pub entry: u64,
}
