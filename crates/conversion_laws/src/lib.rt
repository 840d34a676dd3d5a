//! Conversions in lowered programs: what passes from one type to another keeps its value.
#![tactic(auto)]

mod laws;

pub use laws::{
    bytes_are_ordered, constants_are_given, elements_go_up, literals_are_given, turns_are_paid,
    values_are_compared, values_are_converted,
};
