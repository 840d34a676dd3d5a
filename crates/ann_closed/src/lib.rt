//! Whether what is asked of an assignment holds in it.
#![tactic(auto)]

mod met;

pub use met::is_met;
