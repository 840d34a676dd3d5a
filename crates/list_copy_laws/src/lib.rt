//! Operations that insert items, put lists together, cut them and look in them do what they are in the meaning of programs
//! once they are lowered: in every low-level program, over every memory that represents the heap.
#![tactic(auto)]

mod laws;

pub use laws::{
    items_are_inserted, lists_are_extended, lists_are_joined, lists_are_repeated, lists_are_sliced,
    values_are_among,
};
