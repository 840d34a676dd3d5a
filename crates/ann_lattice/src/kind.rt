// Kinds of elements, as the lines of the table name them.
ghost use Rattle.std.specs.Prelude.{◌≡◌, [], ◌∷◌, map, Some, None, IfOk};
ghost use Rattle.ann_lattice.specs.Shape.{Truth, shape};
ghost use Rattle.ann_lattice.specs.Kind as spec;

use ann_element::Element;
use rpy_base::{NoMem, Seq};
use std::alloc::Global;

/// What no line of the table fits.
pub fn conflict() -> Element
    ensures { shape result ≡ spec.misfit }
{
    Element::Conflict(None, None)
}

pub fn is_unreached(e: &Element) -> bool
    ensures { result ≡ spec.is_nothing (shape e.now) }
{
    match e {
        Element::Unreached => true,
        _ => false,
    }
}

pub fn is_int(e: &Element) -> bool
    ensures { result ≡ spec.is_int (shape e.now) }
{
    match e {
        Element::IntPos => true,
        Element::Int => true,
        _ => false,
    }
}

/// Whether it is an integer that is not below zero.
pub fn is_positive(e: &Element) -> bool
    ensures { result ≡ spec.is_positive (shape e.now) }
{
    match e {
        Element::IntPos => true,
        _ => false,
    }
}

pub fn is_bool(e: &Element) -> bool
    ensures { result ≡ spec.is_bool (shape e.now) }
{
    match e {
        Element::KnownTrue => true,
        Element::KnownFalse => true,
        Element::Bool => true,
        _ => false,
    }
}

pub fn is_char(e: &Element) -> bool
    ensures { result ≡ spec.is_char (shape e.now) }
{
    match e {
        Element::Char => true,
        _ => false,
    }
}

/// Whether it is a string, and not `None`.
pub fn is_str(e: &Element) -> bool
    ensures { result ≡ spec.is_str (shape e.now) }
{
    match e {
        Element::Char => true,
        Element::Str => true,
        _ => false,
    }
}

/// Whether it is a string or `None`.
pub fn is_text(e: &Element) -> bool
    ensures { result ≡ spec.is_text (shape e.now) }
{
    match e {
        Element::NoneOnly => true,
        Element::Char => true,
        Element::Str => true,
        Element::StrOrNone => true,
        _ => false,
    }
}

pub fn is_list(e: &Element) -> bool
    ensures { result ≡ spec.is_list (shape e.now) }
{
    match e {
        Element::List(_, _) => true,
        _ => false,
    }
}

/// An integer, which is not below zero where this is so.
pub fn positive_if(holds: bool) -> Element
    ensures { shape result ≡ spec.positive_if holds }
{
    if holds { Element::IntPos } else { Element::Int }
}

/// A truth value that is known.
pub fn known(value: bool) -> Element
    ensures { shape result ≡ Truth (Some value) }
{
    if value {
        Element::KnownTrue
    } else {
        Element::KnownFalse
    }
}

/// A truth value that is known unless the value may be `None`.
pub fn known_unless(value: bool, none: bool) -> Element
    ensures { shape result ≡ spec.known_unless value none }
{
    if none { Element::Bool } else { known(value) }
}

/// A truth value where the operands fit.
pub fn bool_if(fits: bool) -> Element
    ensures { shape result ≡ spec.given fits (Truth None) }
{
    if fits { Element::Bool } else { conflict() }
}

// ---- what an operation asks its result to be above

pub fn single(alloc: Global, e: Element) -> Result<Seq<Element>, NoMem>
    ensures { IfOk result (λ pieces. map shape pieces ≡ shape e ∷ []) }
{
    let mut pieces = Seq::new(alloc);
    pieces.push(e)?;
    Ok(pieces)
}

pub fn pair(alloc: Global, a: Element, b: Element) -> Result<Seq<Element>, NoMem>
    ensures { IfOk result (λ pieces. map shape pieces ≡ shape a ∷ shape b ∷ []) }
{
    let mut pieces = Seq::new(alloc);
    pieces.push(a)?;
    pieces.push(b)?;
    Ok(pieces)
}
