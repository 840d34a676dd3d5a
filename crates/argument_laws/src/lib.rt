//! The list of the program's arguments is made at the start of a run, by the graph that the lowering writes for it.
#![tactic(auto)]

mod laws;

pub use laws::{
    arguments_are_given, arguments_are_listed, programs_are_given_arguments,
    programs_run_with_arguments,
};
