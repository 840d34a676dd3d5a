//! Operations that look into dicts do what they are in the meaning of programs once they are lowered: in every low-level
//! program, over every memory that represents the heap.
#![tactic(auto)]

mod laws;

pub use laws::{
    keys_are_found, keys_are_listed, keys_are_looked_for, pairs_are_listed, values_are_got,
    values_are_listed, values_are_read,
};
