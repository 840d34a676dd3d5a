//! Operations on dicts, in programs that have types.
#![tactic(auto)]

mod laws;

pub use laws::{
    displays_are_written, entries_are_changed, keys_are_searched, lengths_are_written,
    values_are_got, values_are_written,
};
