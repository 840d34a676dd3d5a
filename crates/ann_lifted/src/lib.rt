//! Annotations of trees as assignments to the graphs that stand for them.
#![tactic(auto)]

mod laws;

pub use laws::closed_trees_can_be_lifted;
