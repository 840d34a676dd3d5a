//! Operations that change dicts do what they are in the meaning of programs once they are lowered: in every low-level
//! program, over every memory that represents the heap.
#![tactic(auto)]

mod laws;

pub use laws::{entries_are_deleted, graphs_change_dicts, values_are_stored};
