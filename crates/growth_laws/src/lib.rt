//! What is lowered only asks for more: nothing is taken back of what was asked for.
#![tactic(auto)]

mod laws;

pub use laws::{
    asking_only_grows, classes_only_ask, dicts_only_ask, graphs_only_ask, lists_only_ask,
    operations_only_ask, raising_only_asks,
};
