// A program: modules in which each name is bound, with its functions, classes and sites.
use crate::syntax::{Module, NodeId};
use rpy_base::{Seq, Text};

/// The number of a function, in node order.
pub type FunId = u32;

/// The number of a class: 0 to 12 are the builtin exception classes, the others follow in node
/// order.
pub type ClassId = u32;

/// The number of a place that makes lists or dicts. Site 0 is the list of arguments.
pub type SiteId = u32;

#[derive(Clone, Copy, Debug, PartialEq, Eq)]
pub enum Builtin {
    Len,
    Ord,
    Chr,
    Str,
    Int,
    Bool,
    Min,
    Max,
    IsInstance,
    Ovfcheck,
    Intmask,
    OsWrite,
    Range,
    Xrange,
}

/// The value of a constant.
#[derive(Drop)]
pub enum Const {
    Word(i64),
    Bool(bool),
    Str(Text),
    None,
    Function(FunId),
    Tuple(Seq<Const>),
    List(SiteId),
    Dict(SiteId),
}

/// What a node's name stands for.
#[derive(Drop)]
pub enum Use {
    Nothing,
    Local(u32),
    Function(FunId),
    Class(ClassId),
    Value(Const),
    Module(u32),
    Builtin(Builtin),
}

#[derive(Drop)]
pub struct FunInfo {
    pub node: NodeId,
    pub file: u32,
    pub class: Option<ClassId>,
    pub locals: u32,
}

#[derive(Drop)]
pub struct ClassInfo {
    pub node: NodeId,
    pub file: u32,
    pub base: Option<ClassId>,
    pub constants: Seq<(Text, Const)>,
    pub methods: Seq<(Text, FunId)>,
}

/// A place that makes lists or dicts, with its contents where it is made before the run.
#[derive(Drop)]
pub struct Site {
    pub node: NodeId,
    pub dict: bool,
    pub prebuilt: Option<Seq<(Const, Const)>>,
}

/// A clause of a `try`: the classes in its head, none where it is bare, and the local that it binds.
#[derive(Drop)]
pub struct ClauseInfo {
    pub node: NodeId,
    pub classes: Seq<ClassId>,
    pub local: Option<u32>,
}

/// The clauses stand in node order.
#[derive(Drop)]
pub struct Program {
    pub names: Seq<Text>,
    pub modules: Seq<Module>,
    pub uses: Seq<Use>,
    pub functions: Seq<FunInfo>,
    pub classes: Seq<ClassInfo>,
    pub sites: Seq<Site>,
    pub clauses: Seq<ClauseInfo>,
    pub entry: FunId,
}
