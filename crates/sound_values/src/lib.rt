//! Values of elements: laws of what it is that a value is of an element.
#![tactic(auto)]

mod laws;

pub use laws::{nothing_has_no_value, sorts_may_grow, values_are_of_larger};
