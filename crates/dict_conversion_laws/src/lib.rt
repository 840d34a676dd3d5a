//! Operations on dicts do what they are in the meaning of programs where keys and values are converted on the way: in every
//! low-level program, over every memory that represents the heap.
#![tactic(auto)]

mod laws;

pub use laws::{
    entries_are_deleted, keys_are_looked_for, operands_are_converted, values_are_got,
    values_are_read, values_are_stored,
};
