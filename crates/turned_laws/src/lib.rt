//! Programs whose blocks are written under other names, joined and without copies, mean the same.
#![tactic(auto)]

mod laws;

pub use laws::turned_programs_mean_the_same;
