//! Laws of what a program asks for while it is written: it stands at its numbers, since what writes the
//! program takes nothing back of what was asked for.
#![tactic(auto)]

mod laws;

pub use laws::{
    helpers_stand, programs_have_asked, programs_only_ask, small_graphs_are_written,
    small_graphs_stand, statics_stand,
};
