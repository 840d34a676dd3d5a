//! Operations are sound: where operands are of the elements that an annotation gives them, no operation is wrong, and what it gives is of the element that the
//! annotation gives its result.
#![tactic(auto)]

mod laws;

pub use laws::rows_are_sound;
