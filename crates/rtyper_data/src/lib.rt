//! What graphs and operations are lowered with: operands and places, bodies that grow, conversions,
//! comparisons, numbers and tuples, what was found to be needed, and the small graphs.
#![tactic(auto)]

mod body;
mod checked;
pub mod compare;
mod convert;
mod found;
mod number;
mod parse;
mod small;
mod tuple;
mod write;

pub use body::{Around, Body, Operand, Place, operand_at};
pub use compare::{equal, flag, is_no_function, is_null, opposite_if};
pub use convert::{
    by_small, default_operand, give, give_helped, give_nothing, given, helped, land, landing,
    operands, present, value_as,
};
pub use found::{Found, NOTHING, helper_number, small_number, static_of, static_of_site};
pub use number::{
    give_binary, give_unary, push_binary, push_range_advance, push_range_has, push_to_int,
    push_unary, word,
};
pub use small::{
    ATTRIBUTE, ATTRIBUTE_ERROR, Keyed, Listed, Small, asks_null, block, failing, link, small_graph,
    small_raises, variables,
};
pub use tuple::{length_of, place_of, push_item, push_tuple, variable_of};
pub use write::{
    and, ends, fork, gives, goto, graph_of, graph_written, kinds, op, op_made, ops, passes, var,
    written,
};
