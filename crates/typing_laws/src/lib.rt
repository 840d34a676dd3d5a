//! The least fault of types is that of the trees of a program.
#![tactic(auto)]

mod laws;

pub use laws::{
    constants_may_not_be_modified, functions_take_their_arguments, the_least_fault_is_that_of_trees,
};
