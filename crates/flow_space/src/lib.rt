//! Flow graphs of programs.
#![tactic(auto)]

mod code;
mod copy;
mod covers;
mod expression;
mod narrow;
mod negated;
mod operation;
mod places;
mod source;
mod statement;
mod walk;
mod whole;

pub use whole::{flow, flow_of};

/// The block that returns its input.
const RETURN: u64 = 1;

/// A block that goes on to itself. The way on from what always raises leads to it.
const NEVER: u64 = 3;
