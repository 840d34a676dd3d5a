//! Tests at the ends of blocks of a program that has types.
#![tactic(auto)]

mod laws;

pub use laws::tests_are_answered;
