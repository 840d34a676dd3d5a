//! A graph that raises the exceptions of its failures, where these are covered, does what the graph does that fails,
//! but for these.
#![tactic(auto)]

mod laws;

pub use laws::{raising_graphs_follow, raising_helpers_follow};
