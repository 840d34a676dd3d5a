//! Runs of programs that have types, as they are lowered.
#![tactic(auto)]

mod laws;

pub use laws::{
    catching_programs_run, graphs_are_done, typed_programs_run, what_is_asked_for_stands,
};
