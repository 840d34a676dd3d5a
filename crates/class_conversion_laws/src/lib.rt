//! Attributes of instances, in lowered programs, whose values are converted on the way.
#![tactic(auto)]

mod laws;

pub use laws::attributes_are_stored;
