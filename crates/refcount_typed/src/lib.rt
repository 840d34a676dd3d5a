//! Laws of the counted program of a low-level one: its graphs keep their names, its structs their bases
//! and numbers, and it is well typed where that is.
#![tactic(auto)]

mod laws;

pub use laws::{
    counted_programs_are_well_typed, counted_programs_keep_names, counted_programs_keep_structs,
};
