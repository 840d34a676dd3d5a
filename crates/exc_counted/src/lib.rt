//! Programs whose exceptions can be made explicit, and the references of the explicit program then be
//! counted: from the low-level program to its C file.
#![tactic(auto)]

mod laws;

pub use laws::{
    explicit_programs_can_be_compiled, files_mean_the_same, nothing_is_left_behind, runs_are_well,
    what_is_there_is_held,
};
