//! When blocks and statics represent the objects of a heap, and when low-level operations do what an operation does
//! with them: one relation for all kinds of objects, with a lemma of change for each.
#![tactic(auto)]

mod laws;

pub use laws::{
    an_entry_is_in_a_dict, an_instance_is_a_block, plain_operations_are_done, two_words_are_a_list,
};
