//! What is asked of the parts of a program that is lowered follows from what its flow graphs are like.
#![tactic(auto)]

mod laws;

pub use laws::{graphs_begin, links_are_done, operations_are_done, parameters_are_taken};
