//! What is told of the graphs of a program, that they never throw or always give something, can be read off their blocks.
#![tactic(auto)]

mod laws;

pub use laws::{graphs_give_values, quiet_graphs_never_throw};
