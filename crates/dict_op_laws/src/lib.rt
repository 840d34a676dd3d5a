//! Operations on dicts do what they are in the meaning of programs once they are lowered: in every low-level program,
//! over every memory that represents the heap, whatever comes behind them in their block and whatever waits.
#![tactic(auto)]

mod laws;

pub use laws::{dicts_are_compared, dicts_count_as_true, dicts_have_lengths, empty_dicts_are_made};
