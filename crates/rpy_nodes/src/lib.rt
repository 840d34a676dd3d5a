//! The modules of a program as lists of events in node order, with names as numbers.
#![tactic(auto)]

pub mod event;
pub mod expression;
pub mod listing;
pub mod member;
pub mod names;
pub mod statement;
pub mod unit;
pub mod walk;
pub mod words;

pub use event::{Act, Event};
pub use listing::{Named, list_program};
pub use names::{NameId, Names};
pub use unit::{Listing, Parameter, Unit, What};
pub use walk::Walk;
