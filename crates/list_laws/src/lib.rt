//! Operations on lists do what they are in the meaning of programs once they are lowered: in every low-level program,
//! over every memory that represents the heap, whatever comes behind them in their block and whatever waits.
#![tactic(auto)]

mod laws;

pub use laws::{
    empty_lists_are_made, items_are_appended, items_are_deleted, items_are_popped, items_are_read,
    items_are_stored, lengths_are_read, lists_are_compared, lists_are_made, lists_are_narrowed,
    lists_are_reversed, lists_count_as_true, walks_are_done,
};
