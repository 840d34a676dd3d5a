//! Laws of good runs of programs that have types.
#![tactic(auto)]

mod laws;

pub use laws::{runs_are_good, starts_have_room};
