//! The text of an annotation.
#![tactic(auto)]

mod element;
mod function;
mod site;
mod whole;

pub use element::put_element;
pub use whole::annotation_text;
