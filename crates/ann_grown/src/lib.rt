//! Assignments that grow by what a program's graphs ask, and stay below each that is closed and free of
//! conflict.
#![tactic(auto)]

mod laws;

pub use laws::{
    a_conflict_leaves_none_free, what_grows_without_conflict_fits, what_is_asked_is_a_step,
    what_is_grown_is_partial,
};
