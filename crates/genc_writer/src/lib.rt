//! C files to text.
#![tactic(auto)]

mod names;
mod parts;
mod statements;
mod write;

pub use write::write_c;
