//! What is known around the operations of a program that has types holds of each program that passed its checks.
#![tactic(auto)]

mod laws;

pub use laws::{elements_are_seen, operations_have_types, parts_are_there};
