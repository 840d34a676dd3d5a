//! Each helper of words, bytes and strings is its operation, at its cost: in every low-level program in which
//! its graph and those that it calls stand at their numbers, and whatever waits for it.
#![tactic(auto)]

mod laws;

pub use laws::{
    helpers_catch_nothing, helpers_of_bytes, helpers_of_words, helpers_read_inputs_alone,
    helpers_stand_at_their_needs, helpers_that_ask, helpers_that_compare, helpers_that_find,
    helpers_that_make, helpers_that_print, helpers_weigh_little, strings_stand_at_the_start,
};
