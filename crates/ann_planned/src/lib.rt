//! The places that a program's parts are given, and annotations of trees that are read there.
#![tactic(auto)]

mod laws;

pub use laws::{
    closed_plans_give_closed_trees, planned_parts_have_cells, planned_parts_may_not_conflict,
};
