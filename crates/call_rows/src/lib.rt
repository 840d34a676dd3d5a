//! Calls in programs that have types.
#![tactic(auto)]

mod laws;

pub use laws::{
    functions_are_called, instances_are_initialised, methods_of_classes_are_called,
    values_are_called,
};
