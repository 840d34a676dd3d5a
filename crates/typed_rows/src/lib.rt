//! What is known of the operations of a program that has types, where they are lowered.
#![tactic(auto)]

mod laws;

pub use laws::elements_pass;
