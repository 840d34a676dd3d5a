//! Runs of flow graphs are followed by every program that is made of them, where its parts are done: operation by operation, and
//! exit by exit.
#![tactic(auto)]

mod laws;

pub use laws::{
    graphs_are_known, operations_are_written, programs_are_lowered, programs_run_on,
    variables_have_types,
};
