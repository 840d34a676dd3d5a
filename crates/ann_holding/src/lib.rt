//! Whether all that a program's graphs ask holds, part by part.
#![tactic(auto)]

mod block;
mod link;
mod whole;

pub use whole::all_holds;
