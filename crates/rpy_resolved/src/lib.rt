//! Trees of functions in which each name is what it stands for, and the names of functions and classes.
#![tactic(auto)]

mod label;
mod tree;

pub use label::{Labels, labels_of};
pub use tree::{Class, Clause, Expr, Function, Resolved, Stmt, Subject, Target};
