//! Operations on lists and tuples, in programs that have types.
#![tactic(auto)]

mod laws;

pub use laws::{
    comprehensions_are_written, items_are_written, lengths_are_written, methods_are_written,
    slices_are_written, sums_are_written, walks_are_written,
};
