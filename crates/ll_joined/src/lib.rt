//! Low-level programs whose straight ways are single blocks. A block that goes on at one to which nothing else goes takes in what
//! stands there, and what that one's inputs become are other names of the variables that hold it. So are copies
//! of a variable or of a constant that are named in one block alone. Variables that nothing names are left out.
#![tactic(auto)]

mod copies;
mod count;
mod join;
mod marks;
mod names;
mod number;

pub use join::join_blocks;
