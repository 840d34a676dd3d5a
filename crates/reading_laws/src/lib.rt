//! What an operation is written as reads what is set, and sets variables of the graph; so does what links pass on.
#![tactic(auto)]

mod laws;

pub use laws::{
    calls_give, conversions_fit, operations_fit, operations_read, operations_read_inside,
    steps_follow,
};
