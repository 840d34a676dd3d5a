//! In every program that is made of flow graphs a helper that is asked for stands at its number, with the graphs that it calls; and so does all
//! that operations ask for.
#![tactic(auto)]

mod laws;

pub use laws::{asks_stand, helpers_stand_over_memory, helpers_stand_whole};
