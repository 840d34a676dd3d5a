//! Programs whose trees differ in copies of checked operations alone mean the same.
#![tactic(auto)]

mod laws;

pub use laws::{copies_are_no_moments, copies_mean_nothing};
