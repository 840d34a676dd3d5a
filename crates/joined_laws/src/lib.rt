//! What blocks that are joined mean.
#![tactic(auto)]

mod laws;

pub use laws::{
    blocks_have_to_read_their_inputs, inputs_have_to_differ, joining_ends_with_fewer_variables,
    parameters_have_to_be_inputs, programs_with_fewer_variables_are_well_typed,
    programs_with_fewer_variables_mean_the_same, programs_with_fewer_variables_read_their_inputs,
    renamed_operations_do_the_same, renamed_operations_keep_what_stands, variables_have_to_be_set,
};
