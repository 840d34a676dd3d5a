//! Values that are compared, tested and told as strings, in every program that has types.
#![tactic(auto)]

mod laws;

pub use laws::{
    conversions_are_written, equalities_are_written, orders_are_written, ranges_are_advanced,
    ranges_are_written, truths_are_written,
};
