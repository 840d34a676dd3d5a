//! Where the pointers of low-level programs lead.
#![tactic(auto)]

mod laws;

pub use laws::{pointers_lead_to_their_structs, slots_are_found, steps_keep_pointers};
