//! Laws of the states that a run of a low-level program comes to, and of its counted program: where the
//! program passes a test and the run is small, each state is ready to be followed.
#![tactic(auto)]

mod laws;

pub use laws::{
    counted_runs_mean_the_same, nothing_is_left_behind, states_are_ready, what_is_there_is_reached,
};
