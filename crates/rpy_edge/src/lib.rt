//! Reading files and writing lines, and the statuses with which a call ends.
#![tactic(auto)]

mod edge;
mod status;

pub use edge::{joined, load, put, say, say_text};
pub use status::Status;
