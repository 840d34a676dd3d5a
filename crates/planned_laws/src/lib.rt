//! Laws of the annotation of a program that has types: it is as its layout asks.
#![tactic(auto)]

mod laws;

pub use laws::{elements_are_planned, parts_are_free, parts_are_planned};
