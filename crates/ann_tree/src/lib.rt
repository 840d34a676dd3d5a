//! Annotations of trees: what a program's trees ask of an annotation, part by part.
#![tactic(auto)]

mod laws;

pub use laws::{
    a_handler_is_closed, a_loop_is_closed, a_test_for_none_is_closed, a_wrong_result_is_not_closed,
};
