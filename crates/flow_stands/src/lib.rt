//! When flow graphs stand for the functions of a program, and that they mean then what the program means.
#![tactic(auto)]

mod laws;

pub use laws::{
    graphs_end_like_their_program, graphs_have_an_ending, graphs_have_moments, graphs_hold_few,
    graphs_stand_as_their_program, graphs_use_no_more, graphs_use_no_more_on_the_way,
};
