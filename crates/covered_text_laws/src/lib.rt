//! Operations on strings whose failures are covered throw the exceptions of these, and else do what they do where
//! nothing is covered.
#![tactic(auto)]

mod laws;

pub use laws::{
    covered_methods_are_done, covered_operations_are_done, covered_strings_are_done,
    covered_texts_are_done,
};
