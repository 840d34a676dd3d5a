//! What blocks do in programs that have types.
#![tactic(auto)]

mod laws;

pub use laws::{blocks_are_done, programs_are_checked};
