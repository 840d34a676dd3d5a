//! What operations throw is caught, where their block is cut behind what may raise: the classes of the handlers are tested in turn, and
//! what is passed on is converted.
#![tactic(auto)]

mod laws;

pub use laws::{caught_operations_are_followed, exits_catch, handlers_are_found};
