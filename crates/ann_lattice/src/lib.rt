//! The order of elements, their least upper bounds, and what each operation gives for elements.
#![tactic(auto)]

mod arguments;
mod compare;
mod container;
mod instance;
mod kind;
mod laws;
mod method;
mod number;
mod order;
mod table;
mod text;
mod upper;
mod walk;

pub use compare::truth_of;
pub use laws::{
    elements_are_ordered, joins_are_a_lattice, joins_are_least, the_order_is_tested,
    what_is_grown_is_least,
};
pub use method::{Method, fits_none, method_of};
pub use order::{below, is_key};
pub use table::{pieces_of, row, row_of};
pub use upper::join;
