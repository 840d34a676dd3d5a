//! Laws of the table of operations: larger operands give a larger result or a conflict.
#![tactic(auto)]

mod laws;

pub use laws::rows_are_monotone;
