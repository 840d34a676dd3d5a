//! What the trees that tokens are have of numbers of nodes.
#![tactic(auto)]

mod laws;

pub use laws::modules_number_their_nodes;
