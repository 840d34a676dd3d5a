//! Operands that are converted on the way to where they go, and results on the way to their places, in lowered programs.
#![tactic(auto)]

mod laws;

pub use laws::{operands_are_passed, results_are_given};
