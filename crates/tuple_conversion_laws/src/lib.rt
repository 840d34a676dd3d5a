//! Tuples that are made and read over memory with objects, in lowered programs, whose items are converted on the way.
#![tactic(auto)]

mod laws;

pub use laws::{items_are_taken, tuples_are_made};
