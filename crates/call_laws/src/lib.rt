//! Calls in lowered programs: an operation that enters a function in the meaning of programs calls its graph, with values
//! that stand for the arguments, and goes on with what that gives.
#![tactic(auto)]

mod laws;

pub use laws::{
    exceptions_are_raised, functions_are_called, instances_are_initialised, methods_are_called,
    methods_are_looked_up, values_are_called,
};
