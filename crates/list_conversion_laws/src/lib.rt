//! Operations on lists, in lowered programs, whose items are converted on the way.
#![tactic(auto)]

mod laws;

pub use laws::{items_are_appended, items_are_inserted, lists_are_made};
