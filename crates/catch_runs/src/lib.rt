//! Every program that is made of flow graphs does what they do, where its parts are done, also where exceptions are caught.
#![tactic(auto)]

mod laws;

pub use laws::{catching_programs_are_lowered, catching_programs_run_on};
