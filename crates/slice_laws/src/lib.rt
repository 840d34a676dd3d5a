//! Slices of strings and bytes do what they are in the meaning of programs once they are lowered.
#![tactic(auto)]

mod laws;

pub use laws::slices_are_done;
