//! Each part of a program has its cell or its mark.
#![tactic(auto)]

mod laws;

pub use laws::{parts_have_places, spots_have_places};
