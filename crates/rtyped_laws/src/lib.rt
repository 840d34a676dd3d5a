//! The low-level program that is made of flow graphs is as the laws of operations take it: it has the structs and statics of its
//! layout, and what operations ask for stands at its numbers.
#![tactic(auto)]

mod laws;

pub use laws::{
    classes_have_theirs, dicts_have_theirs, helpers_have_theirs, lists_have_theirs,
    memory_of_programs_begins, programs_have_their_classes, programs_have_their_layouts,
    values_have_theirs,
};
