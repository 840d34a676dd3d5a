//! What links and exits of blocks do in programs that have types.
#![tactic(auto)]

mod laws;

pub use laws::{exits_are_done, links_are_converted};
