//! What is live in low-level programs: what operations and exits read and set, and what the rest of a
//! block reads before it sets it.
#![tactic(auto)]

mod live;

pub use live::{
    among, among_operands, exit_reads, is_live, push_exit_reads, push_operands, push_reads, set_by,
};
