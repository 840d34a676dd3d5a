//! Laws of exact counts: at each operation a count is the number of references from blocks and slots and
//! of those that frames own; and what a counted program leaves where its run ends.
#![tactic(auto)]

mod laws;

pub use laws::{
    counts_are_exact, payments_are_counted, raised_runs_leave_nothing, returned_runs_count_exactly,
    returned_runs_leave_nothing, what_is_left_is_held,
};
