//! Runs of flow graphs are never wrong, where an annotation that meets all that the graphs ask is free of conflict.
#![tactic(auto)]

mod laws;

pub use laws::{
    closed_is_met, programs_are_never_wrong, runs_are_never_wrong, starts_are_sound,
    steps_are_right,
};
