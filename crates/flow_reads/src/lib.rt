//! What the blocks of flow graphs read.
#![tactic(auto)]

mod laws;

pub use laws::blocks_read_their_own_variables;
