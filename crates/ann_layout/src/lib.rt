//! Where the parts of a program stand in an annotation that grows.
#![tactic(auto)]

mod callee;
mod layout;
mod literal;

pub use layout::{Planned, plan_of};
