//! That a resolved program whose parts are those of a program's text is the program of its meaning, part by part.
#![tactic(auto)]

mod laws;

pub use laws::{numbered_functions_are_all, parts_make_the_program};
