//! What the C file of a low-level program with explicit exceptions means.
#![tactic(auto)]

mod laws;

pub use laws::{files_keep_the_rules, files_mean_the_same};
