//! The structs of a list: its length and a pointer to an array, and the array, which follows it; and what graphs of
//! lists are made of.
#![tactic(auto)]

mod shape;

pub use shape::{ONE, Shape, ZERO, array, gives, item_of, length, number_of, set_length, shape_of};
