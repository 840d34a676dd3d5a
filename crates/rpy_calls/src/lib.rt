//! What tests of whole calls share: the words of a line, files with one file, and a watcher that
//! refuses.
#![tactic(auto)]

mod files;
mod refuses;

pub use files::{files_of, words_of};
pub use refuses::Refuses;
