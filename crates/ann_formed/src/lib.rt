//! What a program's graphs ask of a well-formed assignment is well-formed.
#![tactic(auto)]

mod laws;

pub use laws::what_is_asked_is_well_formed;
