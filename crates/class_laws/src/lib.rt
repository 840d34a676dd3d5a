//! Operations on instances do what they are in the meaning of programs once they are lowered: in every low-level
//! program, over every memory that represents the heap, whatever comes behind them in their block and whatever waits.
#![tactic(auto)]

mod laws;

pub use laws::{
    attributes_are_read, attributes_are_stored, identity_is_done, instances_are_made,
    instances_are_narrowed, instances_are_told, instances_count_as_true, two_classes_are_laid_out,
    values_are_copied,
};
