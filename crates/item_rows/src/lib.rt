//! Items that come into lists and tuples, in programs that have types.
#![tactic(auto)]

mod laws;

pub use laws::{
    displays_are_written, items_are_added, memberships_are_written, tuples_are_written,
};
