//! Flow graphs: blocks of operations on variables, with links between them.
#![tactic(auto)]

mod graph;
mod text;
mod variable;
mod word;

pub use graph::{Block, Exit, Graph, Graphs, Link, Op, VarId};
pub use text::graphs_text;
