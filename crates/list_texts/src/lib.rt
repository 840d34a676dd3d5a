//! The graphs of `join` and `split`, of parts of strings, and of the list of a program's arguments.
#![tactic(auto)]

mod argument_list;
mod splits;

pub use argument_list::arguments;
pub use splits::{join, part, split};
