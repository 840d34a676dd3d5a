//! Assignments made of what stands at the blocks of graphs.
#![tactic(auto)]

mod laws;

pub use laws::plans_can_be_filled;
