//! What the checks of a program say of its trees, and of those of the program that texts are.
#![tactic(auto)]

mod laws;
mod texts;

pub use laws::{
    conflicts_leave_trees_without_annotation, faults_are_of_the_least_annotation_of_the_trees,
    nodes_have_the_elements_of_the_trees, the_least_fault_of_the_trees_is_told,
    types_are_of_the_least_annotation_of_the_trees, types_leave_trees_without_fault,
};
pub use texts::{
    conflicts_leave_texts_without_annotation, faults_of_texts_are_of_the_least_annotation,
    nodes_have_the_elements_of_texts, programs_of_texts_have_trees,
    the_least_fault_of_texts_is_told, types_leave_texts_without_fault,
    types_of_texts_are_of_the_least_annotation,
};
