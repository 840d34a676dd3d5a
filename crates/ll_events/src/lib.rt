//! What the events of a run of a low-level program tell: which blocks it made, and which of them are
//! gone.
#![tactic(auto)]

mod laws;

pub use laws::{
    endings_tell_the_memory, events_tell_the_memory, returned_runs_end_at_a_return,
    runs_end_at_a_state, what_is_told_stays_told,
};
