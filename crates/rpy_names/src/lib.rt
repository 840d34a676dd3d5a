//! Modules as a program, in which each name is bound, or the fault of a name.
#![tactic(auto)]

pub mod build;
mod clauses;
pub mod fault;
mod move_in;
mod place;
mod tables;
mod tell;
mod uses;
mod whole;

pub use fault::{NameFault, NameRefusal};
pub use place::fault_place;
pub use rpy_nodes::Named;
pub use whole::resolve;
