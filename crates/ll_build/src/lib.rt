//! What low-level graphs are built of, the helpers that there are, and the numbers of those that a program needs.
#![tactic(auto)]

pub mod build;
mod needs;

pub use needs::{Helper, Need, Numbers, Shared, all_shared, is_used, numbers_of, uses_texts};
