//! Tests of low-level programs that raise: that their exceptions can be made explicit.
#![tactic(auto)]

mod raisable;
mod whole;

pub use whole::is_raisable;
