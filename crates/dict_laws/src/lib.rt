//! Indices of dicts are right, as words alone: a key is found at its place, and an entry that comes in keeps that.
#![tactic(auto)]

mod laws;

pub use laws::{
    entries_are_entered, indices_are_longer, indices_are_made, keys_are_found, masks_lead,
    places_are_found,
};
