//! What is told of the low-level graphs of a program is so.
#![tactic(auto)]

mod laws;

pub use laws::{
    blocks_are_few, graphs_always_give, handlers_are_tested, landings_suffice, parts_suffice,
    programs_are_told, quiet_stays_quiet, silent_graphs_are_closed, tests_stand, ways_suffice,
};
