//! Counts for low-level programs: each block of memory holds how many references lead to it, and is
//! freed once there are none.
//!
//! A variable that is a reference owns one from where it is set until it is last read. An
//! operation that copies a reference takes one more, a call gives those of its operands to the graph
//! that it calls, and an exit gives those that it reads on. An exception slot owns a reference too. In a root struct the count is field 0, and
//! the function that releases the block field 1. In a struct with items field 0 of its own is their
//! number where items are references. References lead to root structs, and no operation sets a
//! reference that it reads.
#![tactic(auto)]

mod changes;
mod copies;
mod counted;
mod made;
mod plan;
mod releases;
mod slots;

pub use counted::count;
pub use plan::{
    Counts, Plan, counted_structs, counts_of_structs, field_referred, items_referred, place_of,
    reference_given, referred, root_of,
};
pub use slots::{Slots, first_made, slots_of};
