//! A program of the first path to its C text, which means what the program means.
#![tactic(auto)]

mod lower;
mod text;

pub use text::write_program;
