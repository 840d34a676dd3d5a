//! A checked program to its low-level program, and that to its C file; the checks are passed on.
#![tactic(auto)]

mod passes;

pub use passes::{compile, low_level};
pub use rpy_checked::{CheckFault, Checked, TypeKind, check, type_words};
