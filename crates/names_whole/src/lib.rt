//! That a program, and the fault of a name, are those of the rules of names.
#![tactic(auto)]

mod laws;

pub use laws::{
    bound_faults_follow_the_rules, entry_follows_the_rules, fault_follows_the_rules,
    fault_place_follows_the_numbering, numbers_are_kept, program_follows_the_rules,
};
