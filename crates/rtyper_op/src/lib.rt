//! The lowering of operations on words, truth values, strings and tuples. Each is one or a few low-level
//! operations, or one call of a helper. And the statics of constants.
#![tactic(auto)]

mod call;
mod constant;
mod mapped;
mod operation;
mod places;
mod prebuilt;
mod text;

pub use call::{arguments, push_call};
pub use constant::constant_of;
pub use mapped::{HASH_FACTOR, MIX_FACTOR};
pub use operation::{lower_op, push_failure};
pub use prebuilt::push_prebuilt;
pub use text::{Test, truth_of};
