//! Operations on instances in programs that have types.
#![tactic(auto)]

mod laws;

pub use laws::{
    attributes_are_read, attributes_are_stored, classes_are_told, exceptions_are_raised,
    instances_are_made,
};
