//! What the graph at which a run begins does: the list of arguments is made, the entry point is called, and what it gives or throws ends the run.
#![tactic(auto)]

mod laws;

pub use laws::{
    entry_points_are_called, entry_points_end, names_are_known, programs_have_entries, programs_run,
};
