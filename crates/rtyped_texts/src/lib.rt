//! What operations on strings and lists of strings ask for stands at its numbers, in every program that is made of flow graphs.
#![tactic(auto)]

mod laws;

pub use laws::texts_have_theirs;
