//! The lowering of operations on lists, and of what strings make of lists. A list is a struct with its
//! length and a pointer to an array, which may be longer.
#![tactic(auto)]

mod display;
mod item;
mod method;
mod operand;
mod operation;

pub use operation::lower_list_op;
