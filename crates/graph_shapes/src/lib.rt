//! What the blocks of the flow graphs of programs are like: their inputs, operations and links, and where exceptions leave a graph.
#![tactic(auto)]

mod laws;

pub use laws::{
    blocks_have_shapes, exceptions_pass, functions_begin, graphs_are_own, nothing_is_caught,
    parameters_are_counted,
};
