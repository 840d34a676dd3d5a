//! The graphs of loops over arrays, of what makes lists, and of what changes them.
#![tactic(auto)]

mod change;
mod loops;
mod making;

pub use change::{append, extend, insert, remove, room};
pub use loops::{contains, copy_items, move_up, place, reverse, truth};
pub use making::{but_last, concat, make, repeat, slice};
