//! The first passes of joining keep what a program means whose blocks read their inputs alone.
#![tactic(auto)]

mod laws;

pub use laws::joined_ways_mean_the_same;
