//! Operations of blocks whose operands and results are converted do what their laws say.
#![tactic(auto)]

mod laws;

pub use laws::converted_operations_are_written;
