//! Tests of low-level programs with explicit exceptions: that their references can be counted.
#![tactic(auto)]

mod countable;
mod leads;
mod slots;
mod watch;
mod whole;

pub use whole::passes;
