//! Memory represents the objects that are there at the start of a run, the lists and dicts of modules among them.
#![tactic(auto)]

mod laws;

pub use laws::{
    constants_are_given_with_sites, constants_of_programs_are_given, memory_begins_with_sites,
    sites_are_made,
};
