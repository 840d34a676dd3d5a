//! The least annotation that is closed under all that its program's graphs ask and free of conflict, or that
//! there is none.
#![tactic(auto)]

mod laws;
mod node;
mod read;
mod settle;

pub use laws::growing_has_a_basis;
pub use settle::{Unsettled, close};
