//! That the bases of the classes of a program come to an end, the builtin ones at `Exception`, and how many
//! sites, classes and functions it has.
#![tactic(auto)]

mod laws;

pub use laws::{
    builtins_stand_below_exception, classes_are_a_forest, programs_have_a_site,
    programs_have_few_classes, programs_have_their_functions,
};
