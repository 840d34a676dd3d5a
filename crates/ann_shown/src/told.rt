// A conflict as it is told.
use ann_element::{Element, Spot};
use rpy_base::Seq;

/// Where a conflict stands, and the elements of its operands.
#[derive(Drop)]
pub struct Told {
    pub spot: Spot,
    pub operands: Seq<Element>,
}
