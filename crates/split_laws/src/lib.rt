//! Strings are split into lists of strings: the operation does what it is in the meaning of programs once it is lowered.
#![tactic(auto)]

mod laws;

pub use laws::strings_are_split;
