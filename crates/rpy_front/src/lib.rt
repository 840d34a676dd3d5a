//! Sources to the program that they are, or the first cause why they are none.
#![tactic(auto)]

mod modules;
mod program;

pub use modules::{LIMIT, are_short, read_modules};
pub use program::{name_refusal, refused_name};
