//! Conversions and comparisons in the programs that are made of flow graphs: what they ask for stands at its numbers.
#![tactic(auto)]

mod laws;

pub use laws::{classes_are_families, conversions_have_theirs};
