// What a module says, without where it lies in memory. Nodes are numbered from 0 within a module.
use rpy_base::{Own, Seq, Text};

pub type NodeId = u32;

#[derive(Clone, Copy, Debug, PartialEq, Eq)]
pub enum UnOp {
    Neg,
    Pos,
    Invert,
}

#[derive(Clone, Copy, Debug, PartialEq, Eq)]
pub enum BinOp {
    Add,
    Sub,
    Mul,
    Div,
    FloorDiv,
    Mod,
    Shl,
    Shr,
    BitAnd,
    BitOr,
    BitXor,
}

#[derive(Clone, Copy, Debug, PartialEq, Eq)]
pub enum CmpOp {
    Lt,
    Le,
    Gt,
    Ge,
    Eq,
    Ne,
    Within,
    NotWithin,
    Is,
    IsNot,
}

#[cycle(expr)]
#[derive(Drop)]
pub enum Expr {
    Int(NodeId, i64),
    Str(NodeId, Text),
    Name(NodeId, Text),
    Unary(NodeId, UnOp, Own<Expr>),
    Binary(NodeId, BinOp, Own<Expr>, Own<Expr>),
    Compare(NodeId, CmpOp, Own<Expr>, Own<Expr>),
    Logic(NodeId, bool, Own<Expr>, Own<Expr>),
    Not(NodeId, Own<Expr>),
    Call(NodeId, Own<Expr>, Seq<Expr>),
    Attr(NodeId, Own<Expr>, Text),
    Index(NodeId, Own<Expr>, Own<Expr>),
    Slice(NodeId, Own<Expr>, Option<Own<Expr>>, Option<Own<Expr>>),
    Tuple(NodeId, Seq<Expr>),
    List(NodeId, Seq<Expr>),
    Dict(NodeId, Seq<(Expr, Expr)>),
    Comp(NodeId, Own<Expr>, Own<Target>, Own<Expr>, Option<Own<Expr>>),
}

#[cycle(expr)]
#[derive(Drop)]
pub enum Target {
    Name(NodeId, Text),
    Attr(NodeId, Expr, Text),
    Item(NodeId, Expr, Expr),
    Tuple(NodeId, Seq<Target>),
}

#[cycle(stmt)]
#[derive(Drop)]
pub enum Stmt {
    Pass(NodeId),
    Break(NodeId),
    Continue(NodeId),
    Return(NodeId, Option<Expr>),
    Raise(NodeId, Expr),
    Assert(NodeId, Expr),
    Del(NodeId, Expr, Expr),
    Print(NodeId, Seq<Expr>),
    Assign(NodeId, Seq<Target>, Expr),
    Aug(NodeId, Target, BinOp, Expr),
    Expr(NodeId, Expr),
    If(NodeId, Seq<(Expr, Seq<Stmt>)>, Seq<Stmt>),
    While(NodeId, Expr, Seq<Stmt>),
    For(NodeId, Target, Expr, Seq<Stmt>),
    Try(NodeId, Seq<Stmt>, Seq<Clause>, Seq<Stmt>, Option<Seq<Stmt>>),
}

#[cycle(stmt)]
#[derive(Drop)]
pub struct Clause {
    pub node: NodeId,
    pub classes: Seq<Seq<Text>>,
    pub bare: bool,
    pub bind: Option<Text>,
    pub body: Seq<Stmt>,
}

#[derive(Drop)]
pub struct Param {
    pub node: NodeId,
    pub name: Text,
    pub default: Option<Expr>,
}

#[derive(Drop)]
pub struct Function {
    pub node: NodeId,
    pub name: Text,
    pub params: Seq<Param>,
    pub star: bool,
    pub body: Seq<Stmt>,
}

#[cycle(member)]
#[derive(Drop)]
pub enum Member {
    Import(NodeId, Seq<Text>),
    From(NodeId, Seq<Text>, Seq<Text>),
    Const(NodeId, Text, Expr),
    Def(Function),
    Class(ClassDef),
}

#[cycle(member)]
#[derive(Drop)]
pub struct ClassDef {
    pub node: NodeId,
    pub name: Text,
    pub base: Seq<Text>,
    pub members: Seq<Member>,
}

#[derive(Drop)]
pub struct Module {
    pub members: Seq<Member>,
    pub nodes: u32,
    pub lines: Seq<u32>,
}
