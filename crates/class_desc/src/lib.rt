//! The classes of a program: their bases, methods, class-level constants and attributes.
#![tactic(auto)]

mod classes;
mod line;
mod names;
mod own;
mod range;
mod stores;

pub use classes::{Classes, Initial};
