//! Where a block is cut into pieces behind what may raise, the pieces in a row do what the block does.
#![tactic(auto)]

mod laws;

pub use laws::cut_ways_lead_on;
