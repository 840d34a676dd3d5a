//! What the narrowings of flow graphs tell of their operands.
#![tactic(auto)]

mod laws;

pub use laws::narrowings_tell_the_truth;
