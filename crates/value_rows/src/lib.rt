//! Operations on values do what they do once they are lowered, in every program that has types.
#![tactic(auto)]

mod laws;

pub use laws::{
    checked_operations_are_written, conversions_stand, copies_are_written, literals_are_written,
    narrowings_are_written, single_operations_are_written, sums_are_written, turns_are_written,
    word_operations_are_written,
};
