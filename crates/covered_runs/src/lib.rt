//! Operations of blocks do what their laws say, those on strings that raise among them.
#![tactic(auto)]

mod laws;

pub use laws::operations_are_written_while;
