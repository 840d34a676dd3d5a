//! What holds of the modules that the front end gives.
#![tactic(auto)]

mod laws;

pub use laws::modules_have_no_inner_classes;
