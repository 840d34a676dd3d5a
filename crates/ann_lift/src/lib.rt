//! Annotations of trees, at the blocks of the graphs that stand for them.
#![tactic(auto)]

mod laws;

pub use laws::{closed_trees_show_what_stands_at_blocks, operations_ask_by_parts_alone};
