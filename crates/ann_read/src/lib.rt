//! Annotations of graphs, read at the trees that they stand for.
#![tactic(auto)]

mod laws;

pub use laws::{
    assignments_can_be_read, closed_graphs_give_closed_trees, nodes_of_functions_are_apart,
};
