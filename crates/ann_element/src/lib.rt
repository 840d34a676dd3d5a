//! What an annotator says of the values of a program: elements, the classes of the sites at which
//! lists and dicts are made, and the annotation of a whole program.
#![tactic(auto)]

mod annotation;
mod element;
mod sites;

pub use annotation::{Annotation, Spot, SpotKind};
pub use element::{
    Element, copy_element, copy_elements, copy_functions, depth_of, is_bool, is_conflict, is_int,
    is_str, is_unreached,
};
pub use sites::Sites;
