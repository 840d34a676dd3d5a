//! Which variables flow graphs have in the annotation of their program, and how many parameters functions have there.
#![tactic(auto)]

mod laws;

pub use laws::{blocks_are_apart, parameters_are_there, variables_are_there};
