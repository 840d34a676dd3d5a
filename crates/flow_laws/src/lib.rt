//! The flow graphs of a program mean what the program means.
#![tactic(auto)]

mod laws;

pub use laws::{
    flow_graphs_end_as_their_program, flow_graphs_have_an_ending, flow_graphs_have_moments,
    flow_graphs_hold_few, flow_graphs_stand_as_their_program, flow_graphs_use_no_more,
    flow_graphs_use_no_more_on_the_way, slight_operations_change_nothing,
    variables_are_those_of_their_nodes,
};
