//! A low-level program to its C file.
#![tactic(auto)]

mod file;

pub use file::file_of;
