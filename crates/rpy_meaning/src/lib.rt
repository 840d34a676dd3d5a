//! What a program means: here its operations, and in specs/ the meaning of expressions,
//! statements, calls and programs.
#![tactic(auto)]

mod laws;
mod row;

pub use laws::{
    a_bound_only_stops, fewer_roots_hold_no_more, first_path_agrees, growth_is_paid,
    operations_are_lawful,
};
pub use row::{Covers, RowOp};
