//! That nodes of different functions are apart where the nodes of each module are numbered.
#![tactic(auto)]

mod laws;

pub use laws::numbered_modules_have_apart_nodes;
