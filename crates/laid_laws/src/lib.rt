//! Laws of what the layout of an annotation has.
#![tactic(auto)]

mod laws;

pub use laws::elements_are_laid;
