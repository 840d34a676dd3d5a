//! Calls in lowered programs whose arguments and results are converted on the way, and for whose missing arguments constants
//! stand in.
#![tactic(auto)]

mod laws;

pub use laws::{
    functions_are_called, instances_are_initialised, methods_are_called, methods_are_looked_up,
    values_are_called, values_of_several_are_called,
};
