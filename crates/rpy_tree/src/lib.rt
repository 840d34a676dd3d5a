//! The trees that the front half of the translator passes on: what a module says, and a program,
//! in which each name is bound.
#![tactic(auto)]

pub mod places;
pub mod program;
pub mod syntax;

pub use places::line_in;
pub use program::{
    Builtin, ClassId, ClassInfo, ClauseInfo, Const, FunId, FunInfo, Program, Site, SiteId, Use,
};
pub use syntax::{
    BinOp, ClassDef, Clause, CmpOp, Expr, Function, Member, Module, NodeId, Param, Stmt, Target,
    UnOp,
};
