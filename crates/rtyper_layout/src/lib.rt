//! The structs of a program, and the types that stand for elements.
#![tactic(auto)]

mod classes;
mod dicts;
mod kind;
mod layout;
mod shapes;

pub use classes::{Laid, attribute_place, class_at};
pub use dicts::Mapping;
pub use kind::{Kind, is_text, is_text_or_none, kind_of, kind_seen};
pub use layout::Layout;
pub use shapes::{field_type, repr, repr_seen};
