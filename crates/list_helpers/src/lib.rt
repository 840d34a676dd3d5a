//! The graphs of the helpers on lists, and on what strings make of lists.
#![tactic(auto)]

mod graph;

pub use graph::list_graph;
