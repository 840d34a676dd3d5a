//! What every crate of the translator stands on: byte strings, lists and boxes that contracts see
//! as plain values; words, which are whole numbers from -2^63 to 2^63 - 1; how a run ends; and the
//! outside, as traits: files, sinks and watchers of a heap, each with small ones in memory.
#![tactic(auto)]

mod fault;
mod files;
mod number;
mod outcome;
mod own;
mod seq;
mod sink;
mod text;
mod watch;

pub use fault::NoMem;
pub use files::{Files, Got, MemFiles, ReadError};
pub use number::{decimal, parse_word, udecimal};
pub use outcome::{FailName, Outcome};
pub use own::Own;
pub use seq::Seq;
pub use sink::{MemSink, PutError, Sink};
pub use text::Text;
pub use watch::{HeapWatch, Leaks, Tally, pair_of, tell_gone, tell_made};

pub mod word;
