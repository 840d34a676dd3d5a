//! The text of the sample program for a number.
#![tactic(auto)]

mod sample;

pub use sample::sample_text;
