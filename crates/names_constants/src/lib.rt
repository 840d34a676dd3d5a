//! The values of constants on the trees alone, and that the tables of the code say the same.
#![tactic(auto)]

mod laws;

pub use laws::{constants_follow_the_rules, values_are_the_least};
