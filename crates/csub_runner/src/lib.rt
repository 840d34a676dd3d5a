//! Runs C files of the subset C-sub 1.
#![tactic(auto)]

mod access;
mod calls;
mod code;
mod device;
mod heap;
mod jump;
mod machine;
mod memory;
mod number;
mod operation;
mod outside;
mod plain;
mod run;
mod shape;
mod start;
mod statics;
mod step;
mod val;

pub use csub_tree::StuckReason;
pub use run::{CRan, RunFault, run_c};
