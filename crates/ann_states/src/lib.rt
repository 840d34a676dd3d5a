//! The state in which nothing is reached, states written with least sites, and the cells in which no
//! conflict may stand.
#![tactic(auto)]

mod marking;
mod naming;
mod starting;

pub use marking::spots_of;
pub use naming::{all_named, named_cells};
pub use starting::nothing_reached;
