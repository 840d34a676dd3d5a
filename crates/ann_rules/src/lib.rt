//! The rules of a program's graphs, by which its annotation grows.
#![tactic(auto)]

mod laws;

pub use laws::{rules_are_monotone, what_graphs_grow_is_least};
