//! What the names of a module stand for, found at once for a whole program, and what single forms of its trees
//! are made of.
#![tactic(auto)]

mod index;
mod names;
mod shape;

pub use index::{Index, Known};
pub use names::{Names, leaf, meaningless, named_value};
pub use shape::{
    binary_of, bound_name, builtin_op, checked, function_op, is_minus_one, is_range, literal_of,
    node_of, one_of, range_args, two_of,
};
