//! Trees of functions with the nodes of their source, what tests tell, and when a graph stands for such a tree, node by node and block by
//! block.
#![tactic(auto)]

mod laws;

pub use laws::{tests_tell_of_what_they_read, the_larger_side_is_told_of};
