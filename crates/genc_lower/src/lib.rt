//! Low-level programs of the last stage to C files.
#![tactic(auto)]

mod blocks;
mod file;
mod functions;
mod links;
mod operations;
mod order;
mod types;

pub use file::lower;
