//! The module of a source, and the programs of the first path that modules are: the function
//! `entry_point`, whose statements bind names to sums of words, print sums and return one.
#![tactic(auto)]

mod body;
mod bound;
mod fault;
mod reader;
mod source;

pub use body::{Arith, Body, Line, Sum};
pub use fault::{NameKind, SourceKind, TranslateFault};
pub use reader::first_path;
pub use source::{line_at, read_module, refusal};
