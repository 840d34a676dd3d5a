//! How a conflict is told: where it stands, and the elements of its operands in the order of the text.
#![tactic(auto)]

mod functions;
mod laws;
mod operands;
mod place;
mod showing;
mod told;

pub use laws::a_conflict_of_a_row_stays_one;
pub use showing::tell;
pub use told::Told;
