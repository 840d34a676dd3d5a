//! What blocks of flow graphs are lowered to does what they do, operation by operation and link by link.
#![tactic(auto)]

mod laws;

pub use laws::{
    branches_are_taken, elements_are_converted, exceptions_escape, exceptions_leave,
    links_are_passed, operations_are_followed, results_are_given,
};
