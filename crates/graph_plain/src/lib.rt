//! Trees that are made of programs narrow nothing, and what the narrowings of their flow graphs tell is true on every run.
#![tactic(auto)]

mod laws;

pub use laws::{made_trees_are_plain, programs_tell_the_truth};
