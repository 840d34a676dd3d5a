//! Programs whose exceptions can be made explicit, by a test: what the laws of exc_laws ask of each state
//! of a run follows, but for what is raised having a class.
#![tactic(auto)]

mod laws;

pub use laws::{
    exceptions_have_classes, exceptions_lead_to_their_struct, exceptions_leave_marked_graphs,
    explicit_programs_are_never_stuck, explicit_programs_hold_no_more,
    explicit_programs_mean_the_same, explicit_programs_read_their_inputs,
    explicit_programs_use_slots_alike, runs_are_allowed, small_runs_stay_small,
};
