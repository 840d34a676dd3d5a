//! Parts of programs once more.
#![tactic(auto)]

pub mod constant;

pub use constant::{copy_const, copy_option, copy_pairs};
