//! Laws of the machine that runs low-level programs: in the run of a well-typed program each value
//! is of the type of the place where it stands.
#![tactic(auto)]

mod laws;

pub use laws::{
    constants_fit, operands_fit, operations_keep_types, operators_fit, states_are_well_typed,
    steps_keep_types,
};
