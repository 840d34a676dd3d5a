//! Whole runs of programs from their start, lists and dicts of modules among their constants.
#![tactic(auto)]

mod laws;

pub use laws::{programs_are_given_arguments, programs_run_from_the_start};
