//! That the trees which are made of a program are as the law of annotations at their nodes asks.
#![tactic(auto)]

mod laws;

pub use laws::{
    callees_have_their_parameters, made_functions_return_plainly, made_trees_are_sound,
};
