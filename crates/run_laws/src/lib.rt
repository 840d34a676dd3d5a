//! Runs of flow graphs are followed by the low-level program that is made of them, where each block does what the block of the
//! flow graph does.
#![tactic(auto)]

mod laws;

pub use laws::runs_are_followed;
