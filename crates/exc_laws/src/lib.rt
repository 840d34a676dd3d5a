//! Laws of the explicit program of a low-level one: it is well typed where that is, it means what that
//! means, and it holds no more.
#![tactic(auto)]

mod laws;

pub use laws::{
    explicit_programs_are_never_stuck, explicit_programs_are_well_typed,
    explicit_programs_hold_no_more, explicit_programs_mean_the_same,
    programs_without_exceptions_mean_the_same, small_runs_stay_small, steps_are_followed,
};
