//! Laws of the C file of a low-level program of the last stage: it keeps the rules of C files, and it
//! means what the program means.
#![tactic(auto)]

mod laws;

pub use laws::{
    files_keep_the_rules, files_mean_exactly_the_same, files_mean_the_same,
    functions_have_the_names_of_graphs, operations_do_the_same, runs_begin_alike,
    steps_are_followed,
};
