//! The lowering of operations on dicts. A dict is a struct with the number of its entries, the number of places for
//! them and pointers to two arrays, which an empty dict may lack. The entries stand in order of insertion, one place
//! holding a key in one array and its value in the other.
//!
//! Where the second array is one of words, an index stands in it before them. Its length is a power of two and at least twice
//! the number of places, and an entry's place stands in it, counted from 1, at or behind where the hash of its key
//! leads. A place behind the last entry holds nothing: `NULL`, zero or false.
//!
//! What an operation is lowered to, and each graph that it calls, is exactly what the specs write out (`Lowering`, `Graphs`).
#![tactic(auto)]

mod change;
mod graph;
mod grow;
mod hash;
mod index;
mod lists;
mod look;
mod operand;
mod operation;
mod parts;

pub use graph::dict_graph;
pub use operation::{is_dict_op, lower_dict_op};
