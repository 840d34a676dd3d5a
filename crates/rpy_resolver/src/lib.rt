//! Programs as functions in which each name is what it stands for.
#![tactic(auto)]

mod expression;
mod parts;
mod simple;
mod statement;
mod whole;

pub use whole::resolved;
