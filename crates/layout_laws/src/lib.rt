//! What the layout of a program is at low level, as the laws of operations take it: its classes are laid out, and
//! a program that has its structs has them in their shapes.
#![tactic(auto)]

mod laws;

pub use laws::{
    classes_are_known, exceptions_begin, layouts_are_had, layouts_lay_out_classes, memory_begins,
    new_instances_start, statics_of_classes_stand, structs_are_typed, two_classes_have_a_layout,
};
