//! The order in which an annotation grows: what a change may concern is gone through again.
#![tactic(auto)]

mod pass;
mod read;
mod reader;
mod wake;

pub use pass::{begin, sweep};
pub use wake::{Work, wake_all};
