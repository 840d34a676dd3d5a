//! Laws of counted programs: references are counted, and blocks are released, as the counts say.
#![tactic(auto)]

mod laws;

pub use laws::{
    calls_are_followed, counted_programs_have_their_graphs, counted_programs_mean_the_same,
    dropped_references_release, nothing_is_left, operations_are_followed, references_are_counted,
    references_are_written, runs_are_followed, slots_are_followed, steps_are_followed,
    what_is_there_is_held,
};
