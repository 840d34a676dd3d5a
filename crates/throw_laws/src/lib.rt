//! Where a block is cut into pieces behind what may raise, the pieces in a row do what the block does, and what is thrown in one of
//! them is caught.
#![tactic(auto)]

mod laws;

pub use laws::{
    cut_ways_lead_on, exceptions_are_caught, operations_are_ready, pieces_end,
    quiet_operations_never_throw,
};
