//! Ways of the machine of low-level programs, and how many references stand more on the way.
#![tactic(auto)]

mod laws;

pub use laws::{calls_stay_small, effects_hold_no_more, steps_have_effects};
