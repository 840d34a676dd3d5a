// What `for` and comprehensions walk. A walk over a range has its end and the next number, any other
// the value and a place.
ghost use Rattle.std.specs.Prelude.{◌≡◌, IfOk};
ghost use Rattle.ann_lattice.specs.Shape.{shape};
ghost use Rattle.ann_lattice.specs.Row as spec;

use crate::container::is_sequence;
use crate::kind::{bool_if, conflict, is_int, is_positive, positive_if};
use crate::number::both_int;
use ann_element::{Element, copy_element};
use rpy_base::NoMem;
use rpy_tree::SiteId;
use std::alloc::Global;

/// The value that is walked: of a dict the list of its keys, of the walk's own site. `None` gives no
/// item, and the walk is over.
pub fn walk_row(alloc: Global, site: SiteId, a: &Element) -> Result<Element, NoMem>
    ensures { IfOk result (λ e. shape e ≡ spec.walk site (shape a.now)) }
{
    match a {
        Element::NoneOnly => Ok(Element::NoneOnly),
        Element::Char => Ok(Element::Char),
        Element::Str => Ok(Element::Str),
        Element::StrOrNone => Ok(Element::StrOrNone),
        Element::List(_, _) => copy_element(alloc, a),
        Element::Dict(_, none) => Ok(Element::List(site, *none)),
        _ => Ok(conflict()),
    }
}

/// Whether an item is there.
pub fn has_item_row(step: Option<i64>, a: &Element, at: &Element) -> Element
    ensures { shape result ≡ spec.has_item step (shape a.now) (shape at.now) }
{
    match step {
        None => bool_if(is_sequence(a) && is_int(at)),
        Some(_) => bool_if(both_int(a, at)),
    }
}

// A number of a range that goes up is not below its start, and one of a range that goes down is not
// below its end.
fn number_row(step: i64, end: &Element, next: &Element) -> Element
    ensures { shape result ≡ spec.range_item step (shape end.now) (shape next.now) }
{
    if !both_int(end, next) {
        conflict()
    } else if step > 0 {
        positive_if(is_positive(next))
    } else {
        positive_if(is_positive(end))
    }
}

fn item_of(alloc: Global, a: &Element, part: &Element) -> Result<Element, NoMem>
    ensures { IfOk result (λ e. shape e ≡ spec.sequence_item (shape a.now) (shape part.now)) }
{
    match a {
        Element::NoneOnly => Ok(Element::Unreached),
        Element::Char => Ok(Element::Char),
        Element::Str => Ok(Element::Char),
        Element::StrOrNone => Ok(Element::Char),
        Element::List(_, _) => copy_element(alloc, part),
        _ => Ok(conflict()),
    }
}

/// The item. The further part is that of the list.
pub fn item_row(
    alloc: Global,
    step: Option<i64>,
    a: &Element,
    at: &Element,
    part: &Element,
) -> Result<Element, NoMem>
    ensures { IfOk result (λ e. shape e ≡ spec.item step (shape a.now) (shape at.now) (shape part.now)) }
{
    match step {
        Some(step) => Ok(number_row(step, a, at)),
        None => item_of(alloc, a, part),
    }
}

/// The next place, or the next number, which never passes the end.
pub fn advance_row(step: Option<i64>, a: &Element, at: &Element) -> Element
    ensures { shape result ≡ spec.advance step (shape a.now) (shape at.now) }
{
    match step {
        None => Element::IntPos,
        Some(step) => {
            if both_int(a, at) {
                positive_if(step > 0 && is_positive(at))
            } else {
                conflict()
            }
        }
    }
}
