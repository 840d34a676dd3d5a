//! The graphs of helpers that raise: a failure that is covered, where it was asked for, raises the exception of its
//! class instead.
#![tactic(auto)]

mod raising;

pub use raising::{raising_graphs, turned_blocks};
