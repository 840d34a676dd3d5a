//! Runs low-level programs.
#![tactic(auto)]

mod access;
mod calls;
mod device;
mod links;
mod machine;
mod operation;
mod run;
mod shape;
mod start;
mod step;
mod val;

pub use run::{LlFault, run_ll};
