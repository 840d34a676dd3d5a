//! The least annotation of the graphs of a program is the least of its trees.
#![tactic(auto)]

mod laws;

pub use laws::{the_least_of_graphs_is_that_of_trees, trees_have_none_where_graphs_have_none};
