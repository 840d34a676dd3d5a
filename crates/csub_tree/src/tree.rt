// A C file. Structs, prototypes, statics, functions, parameters, locals and blocks are numbered by
// their place; with an inline base the fields of a struct are numbered from 1.
use rpy_base::{Seq, Text};

#[derive(Drop)]
pub struct CFile {
    pub structs: Seq<CStruct>,
    pub prototypes: Seq<CPrototype>,
    pub statics: Seq<CStatic>,
    pub functions: Seq<CFunction>,
}

#[derive(Drop)]
pub struct CStruct {
    pub base: Option<u64>,
    pub fields: Seq<CType>,
    pub items: Option<CType>,
}

#[derive(Clone, Copy, Debug, PartialEq, Eq)]
pub enum CType {
    Signed,
    Char,
    Bool,
    Fn,
    Ptr(u64),
}

/// A missing result is `void`.
#[derive(Drop)]
pub struct CPrototype {
    pub result: Option<CType>,
    pub params: Seq<CType>,
}

#[derive(Drop)]
pub struct CStatic {
    pub kind: u64,
    pub cells: Seq<CCell>,
}

#[derive(Drop)]
pub enum CCell {
    Const(CConst),
    Braces(Seq<CCell>),
}

/// In `Static` the struct of the cast comes first, then the static.
#[derive(Clone, Copy, Debug, PartialEq, Eq)]
pub enum CConst {
    Word(i64),
    Char(u8),
    Bool(bool),
    Null,
    Static(u64, u64),
    Fun(u64),
}

#[derive(Clone, Copy, Debug, PartialEq, Eq)]
pub enum COperand {
    Var(u64),
    Const(CConst),
}

/// The variables are the parameters and then the locals.
#[derive(Drop)]
pub struct CFunction {
    pub name: Text,
    pub result: Option<CType>,
    pub params: Seq<CType>,
    pub locals: Seq<CType>,
    pub blocks: Seq<Seq<CStmt>>,
}

#[derive(Clone, Copy, Debug, PartialEq, Eq)]
pub enum CUnary {
    Neg,
    Inv,
    Not,
    C2S,
    S2C,
    B2S,
}

#[derive(Clone, Copy, Debug, PartialEq, Eq)]
pub enum CBinary {
    Add,
    Sub,
    Mul,
    Div,
    Mod,
    Shl,
    Shr,
    And,
    Or,
    Xor,
    AddOvf,
    SubOvf,
    MulOvf,
    ShlOvf,
    Eq,
    Ne,
    Lt,
    Le,
    Gt,
    Ge,
    Beq,
    Peq,
    Feq,
}

/// A statement. Its numbers and operands stand in the order in which its text has them.
#[derive(Drop)]
pub enum CStmt {
    Set(u64, COperand),
    Unary(u64, CUnary, COperand),
    Binary(u64, CBinary, COperand, COperand),
    GetField(u64, u64, u64, u64),
    SetField(u64, u64, u64, COperand),
    GetItem(u64, u64, u64, COperand),
    SetItem(u64, u64, COperand, COperand),
    New(u64, u64, u64),
    NewArray(u64, u64, u64, COperand),
    Free(u64),
    Step(COperand),
    Call(Option<u64>, u64, Seq<COperand>),
    CallFn(Option<u64>, Option<CType>, Seq<CType>, u64, Seq<COperand>),
    ExcType(u64, u64),
    ExcValue(u64, u64),
    ExcSet(u64, u64),
    ExcClear,
    Argc(u64),
    ArgLen(u64, COperand),
    Arg(u64, COperand, COperand),
    Put(COperand),
    Goto(u64),
    If(u64, u64, u64),
    Return(Option<COperand>),
    Fail(u32),
    Raised(u64),
}
