//! The values of constants.
#![tactic(auto)]

pub mod arithmetic;
pub mod constants;
pub mod copy;
pub mod machine;
pub mod same;
pub mod slots;

pub use arithmetic::{word_binary, word_unary};
pub use constants::{Checked, Values, bad_constants, constant_values};
pub use copy::{copy_const, copy_pairs};
pub use machine::{Machine, Prebuilt, Root};
