//! Exceptions of low-level programs made explicit.
//!
//! What raises an exception sets the two exception slots and leaves its graph with a value that nothing
//! reads. Behind each call that may raise, the slots are tested: the block ends there, and goes on by a
//! block of its own, or by one that takes the exception out of the slots, or that leaves the graph too.
//! A call that was left by an exception gives such a value to the variable of its result, so what
//! catches the exception does not read that variable.
#![tactic(auto)]

mod blocks;
mod calm;
mod copies;
mod explicit;
mod family;
mod live;
mod pieces;
mod raising;
mod slots;

pub use calm::is_without_exceptions;
pub use explicit::make_explicit;
pub use family::{Family, family_of};
pub use live::{handler_reads, live_variables};
pub use raising::{Raising, any_marked, is_marked, raising_graphs};
