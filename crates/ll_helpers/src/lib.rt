//! The helpers that low-level programs call: graphs that are each one operation of a program.
#![tactic(auto)]

mod loops;
mod print;
mod statics;
mod strings_ask;
mod strings_cut;
mod strings_make;
mod whole;
mod words;

pub use whole::helpers;
