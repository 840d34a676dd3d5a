//! Whether a tuple is among the items of a list, as it is lowered: in every low-level program, over every memory that
//! represents the heap.
#![tactic(auto)]

mod laws;

pub use laws::tuples_are_among;
