// Functions in which each name is what it stands for. An expression whose operands are all
// evaluated, from left to right, is an operation on them; what is evaluated otherwise has a form of
// its own.
use rpy_base::{Own, Seq, Text};
use rpy_meaning::RowOp;
use rpy_tree::{ClassId, Const, FunId, NodeId, Site, SiteId};

#[cycle(expr)]
#[derive(Drop)]
pub enum Expr {
    Local(NodeId, u32),
    /// A constant of a module or class, or a function by its name.
    Constant(NodeId, Const),
    /// The bool says that the result is the value of the node.
    Apply(NodeId, bool, RowOp, Seq<Expr>),
    And(NodeId, Own<Expr>, Own<Expr>),
    Or(NodeId, Own<Expr>, Own<Expr>),
    /// A dict display: the key of each pair, then its value.
    Display(NodeId, SiteId, Seq<(Expr, Expr)>),
    /// The item, the target, what is walked, and the condition, if there is one.
    Comprehension(NodeId, SiteId, Own<Expr>, Own<Target>, Own<Subject>, Option<Own<Expr>>),
}

/// What a loop or comprehension walks: a value, with the site of its walk, or a range: to its end,
/// or from its start to its end by a step.
#[cycle(expr)]
#[derive(Drop)]
pub enum Subject {
    Over(SiteId, Expr),
    UpTo(Expr),
    FromTo(Expr, Expr, i64),
}

#[cycle(expr)]
#[derive(Drop)]
pub enum Target {
    Name(NodeId, u32),
    Attr(NodeId, Expr, Text),
    Item(NodeId, Expr, Expr),
    /// Targets for the items of a tuple.
    Parts(NodeId, Seq<Target>),
}

#[cycle(stmt)]
#[derive(Drop)]
pub enum Stmt {
    Pass(NodeId),
    Break(NodeId),
    Continue(NodeId),
    Return(NodeId, Expr),
    /// An expression, also `raise`, `del` and `print`.
    Do(NodeId, Expr),
    Assign(NodeId, Seq<Target>, Expr),
    /// The operation on what stands at the target and the value.
    Augment(NodeId, Target, RowOp, Expr),
    If(NodeId, Expr, Seq<Stmt>, Seq<Stmt>),
    While(NodeId, Expr, Seq<Stmt>),
    For(NodeId, Own<Target>, Own<Subject>, Seq<Stmt>),
    /// The body, the clauses, and what follows a body without exception.
    Try(NodeId, Seq<Stmt>, Seq<Clause>, Seq<Stmt>),
    Finally(NodeId, Seq<Stmt>, Seq<Stmt>),
}

/// The classes in the head of a clause, the local that it binds, if any, and its body.
#[cycle(stmt)]
#[derive(Drop)]
pub struct Clause {
    pub node: NodeId,
    pub bare: bool,
    pub classes: Seq<ClassId>,
    pub local: Option<u32>,
    pub body: Seq<Stmt>,
}

/// The parameters are the first locals. Each has its default, where there is one. A function that
/// takes any number of further arguments is never called.
#[derive(Drop)]
pub struct Function {
    pub node: NodeId,
    pub name: Text,
    pub defaults: Seq<Option<Const>>,
    pub takes_more: bool,
    pub locals: u32,
    pub body: Seq<Stmt>,
}

/// The constants and the methods are those of the class's own body.
#[derive(Drop)]
pub struct Class {
    pub node: NodeId,
    pub name: Text,
    pub base: Option<ClassId>,
    pub constants: Seq<(Text, Const)>,
    pub methods: Seq<(Text, FunId)>,
}

/// Functions, classes and sites stand by their numbers, the first classes being the builtin
/// exceptions. Names have their module before them, builtin ones none.
#[derive(Drop)]
pub struct Resolved {
    pub functions: Seq<Function>,
    pub classes: Seq<Class>,
    pub sites: Seq<Site>,
    pub entry: FunId,
}
