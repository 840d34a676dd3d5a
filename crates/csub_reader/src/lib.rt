//! Texts of C files, read.
#![tactic(auto)]

mod cells;
mod cursor;
mod fault;
mod lines;
mod names;
mod parts;
mod read;
mod statements;

pub use fault::CFault;
pub use read::{read_c, read_text};
