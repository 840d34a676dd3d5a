//! The flow graphs of texts mean what the program means that these texts are.
#![tactic(auto)]

mod laws;

pub use laws::{
    graphs_of_texts_end_as_their_program, graphs_of_texts_have_an_ending,
    graphs_of_texts_have_moments, graphs_of_texts_hold_few, graphs_of_texts_stand_as_their_program,
    graphs_of_texts_use_no_more, graphs_of_texts_use_no_more_on_the_way,
};
