//! What a state of a low-level program holds: the values that it still uses, the blocks that can be
//! reached from these or lie on a cycle, and how many references stand there.
#![tactic(auto)]

mod laws;

pub use laws::states_are_placed;
