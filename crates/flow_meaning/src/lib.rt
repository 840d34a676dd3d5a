//! What flow graphs mean: a machine that runs them over the values, objects and operations of the meaning of
//! programs.
#![tactic(auto)]

mod laws;

pub use laws::graphs_have_one_meaning;
