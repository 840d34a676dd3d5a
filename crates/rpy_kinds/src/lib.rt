//! What stands at a node of a program: the kind of expression or statement.
#![tactic(auto)]

mod kind;
mod program;
mod search;

pub use kind::{Kind, word_of};
pub use program::kind_at;
