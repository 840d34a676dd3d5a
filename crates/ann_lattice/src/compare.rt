// Comparisons and truth.
ghost use Rattle.std.specs.Prelude.{◌≡◌, None, is_some};
ghost use Rattle.class_desc.specs.Line as line;
ghost use Rattle.ann_lattice.specs.Shape.{Truth, shape, shapes};
ghost use Rattle.ann_lattice.specs.Kind as kind;
ghost use Rattle.ann_lattice.specs.Row as spec;

use crate::kind::{bool_if, conflict, is_bool, is_str, is_text, is_unreached, known, known_unless};
use crate::number::both_int;
use ann_element::Element;
use class_desc::Classes;
use rpy_tree::ClassId;

/// `<`, `<=`, `>` and `>=`.
pub fn less_row(a: &Element, b: &Element) -> Element
    ensures { shape result ≡ spec.less (shape a.now) (shape b.now) }
{
    bool_if(both_int(a, b) || (is_str(a) && is_str(b)))
}

fn plain_equal(a: &Element, b: &Element) -> bool
    ensures { result ≡ spec.plain_equal (shape a.now) (shape b.now) }
{
    both_int(a, b)
        || (is_bool(a) && is_bool(b))
        || (is_text(a) && is_text(b))
        || is_unreached(a)
        || is_unreached(b)
}

/// Whether `==` compares two elements: integers, truth values, strings or `None`, and tuples of one
/// length item by item.
#[cycle(equal)]
pub fn has_equality(a: &Element, b: &Element) -> bool
    ensures { result ≡ spec.has_equality (shape a.now) (shape b.now) }
{
    match a {
        Element::Tuple(parts) => match b {
            Element::Tuple(others) => have_equality(parts.as_slice(), others.as_slice()),
            _ => is_unreached(b),
        },
        _ => plain_equal(a, b),
    }
}

#[cycle(equal)]
fn have_equality(parts: &[Element], others: &[Element]) -> bool
    ensures { result ≡ spec.have_equality (shapes parts.now) (shapes others.now) }
{
    match parts {
        [] => match others {
            [] => true,
            [_b, _others @ ..] => false,
        },
        [a, parts @ ..] => match others {
            [] => false,
            [b, others @ ..] => has_equality(a, b) && have_equality(parts, others),
        },
    }
}

/// `==` and `!=`.
pub fn equal_row(a: &Element, b: &Element) -> Element
    ensures { shape result ≡ kind.given (spec.has_equality (shape a.now) (shape b.now)) (Truth None) }
{
    bool_if(has_equality(a, b))
}

/// What is not true where this is.
pub fn negated(e: Element) -> Element
    ensures { shape result ≡ spec.negated (shape e) }
{
    match e {
        Element::KnownTrue => Element::KnownFalse,
        Element::KnownFalse => Element::KnownTrue,
        other => other,
    }
}

// Whether a value is `None`.
fn is_none_row(e: &Element) -> Element
    ensures { shape result ≡ spec.is_none (shape e.now) }
{
    match e {
        Element::NoneOnly => Element::KnownTrue,
        Element::StrOrNone => Element::Bool,
        Element::List(_, none) => known_unless(false, *none),
        Element::Dict(_, none) => known_unless(false, *none),
        Element::Instance(_, none) => known_unless(false, *none),
        Element::Func(_, none) => known_unless(false, *none),
        _ => Element::KnownFalse,
    }
}

fn have_common_base(classes: &Classes, c: ClassId, d: ClassId) -> bool
    ensures { result ≡ is_some (line.common_base classes.now.classes c d) }
{
    match classes.common_base(c, d) {
        None => false,
        Some(_) => true,
    }
}

// Two lists, two dicts, or two instances with a common base.
fn are_alike(classes: &Classes, a: &Element, b: &Element) -> bool
    ensures { result ≡ spec.are_alike classes.now.classes (shape a.now) (shape b.now) }
{
    match a {
        Element::List(_, _) => match b {
            Element::List(_, _) => true,
            _ => false,
        },
        Element::Dict(_, _) => match b {
            Element::Dict(_, _) => true,
            _ => false,
        },
        Element::Instance(c, _) => match b {
            Element::Instance(d, _) => have_common_base(classes, *c, *d),
            _ => false,
        },
        _ => false,
    }
}

/// `is`: with `None` anything, else two instances with a common base, two lists or two dicts.
pub fn is_row(classes: &Classes, a: &Element, b: &Element) -> Element
    ensures { shape result ≡ spec.identical classes.now.classes (shape a.now) (shape b.now) }
{
    match a {
        Element::NoneOnly => is_none_row(b),
        _ => match b {
            Element::NoneOnly => is_none_row(a),
            _ => bool_if(are_alike(classes, a, b)),
        },
    }
}

fn equals_each(a: &Element, parts: &[Element]) -> bool
    ensures { result ≡ spec.equals_each (shape a.now) (shapes parts.now) }
{
    match parts {
        [] => true,
        [part, parts @ ..] => has_equality(a, part) && equals_each(a, parts),
    }
}

/// `in`: a string in a string, anything in a dict, a value in a list whose items are compared with one
/// another or in a tuple whose items it can be compared with. The further part is the item of the list.
pub fn within_row(a: &Element, b: &Element, part: &Element) -> Element
    ensures { shape result ≡ spec.within (shape a.now) (shape b.now) (shape part.now) }
{
    match b {
        Element::NoneOnly => Element::Unreached,
        Element::Char => bool_if(is_str(a)),
        Element::Str => bool_if(is_str(a)),
        Element::StrOrNone => bool_if(is_str(a)),
        Element::Dict(_, _) => Element::Bool,
        Element::List(_, _) => bool_if(has_equality(part, part)),
        Element::Tuple(items) => bool_if(equals_each(a, items.as_slice())),
        _ => conflict(),
    }
}

/// The truth of a value, as a test asks for it.
pub fn truth_of(e: &Element) -> Element
    ensures { shape result ≡ spec.truth_of (shape e.now) }
{
    match e {
        Element::NoneOnly => Element::KnownFalse,
        Element::KnownTrue => known(true),
        Element::KnownFalse => known(false),
        Element::Instance(_, none) => known_unless(true, *none),
        Element::Func(_, none) => known_unless(true, *none),
        Element::Bool => Element::Bool,
        Element::IntPos => Element::Bool,
        Element::Int => Element::Bool,
        Element::Char => Element::Bool,
        Element::Str => Element::Bool,
        Element::StrOrNone => Element::Bool,
        Element::List(_, _) => Element::Bool,
        Element::Dict(_, _) => Element::Bool,
        Element::Unreached => Element::Unreached,
        Element::Tuple(_) => conflict(),
        Element::Conflict(_, _) => conflict(),
    }
}
