//! A program with its graphs, the tables of its classes and its least annotation, or why it has none or
//! no types.
#![tactic(auto)]

mod fault;
mod program;

pub use fault::{CheckFault, TypeKind, type_words};
pub use program::{Checked, check};
