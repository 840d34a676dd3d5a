//! At most three blocks for each value that is held.
#![tactic(auto)]

mod laws;

pub use laws::{blocks_are_at_most_three_times_held, blocks_are_few};
