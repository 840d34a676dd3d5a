//! A law of the keys of dicts in programs that have types.
#![tactic(auto)]

mod laws;

pub use laws::programs_have_keys;
