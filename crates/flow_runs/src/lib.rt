//! Runs of flow graphs: where they come to, and what holds there of the world and of the operands of each operation.
#![tactic(auto)]

mod laws;

pub use laws::room_is_kept;
