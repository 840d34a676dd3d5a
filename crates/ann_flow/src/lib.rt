//! Annotations of the graphs that are made of a program, read at the nodes of its trees.
#![tactic(auto)]

mod laws;

pub use laws::closed_flow_graphs_give_closed_trees;
