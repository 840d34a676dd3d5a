// Strings, tuples, lists and dicts: sums, products, displays, indexes, slices.
ghost use Rattle.std.specs.Prelude.{◌≡◌, false, length, map, IfOk};
ghost use Rattle.ann_lattice.specs.Shape.{Nothing, NoneOnly, Num, Str, One, Any, Lst, items, shape, shapes};
ghost use Rattle.ann_lattice.specs.Kind as kind;
ghost use Rattle.ann_lattice.specs.Row as spec;

use crate::kind::{conflict, is_bool, is_int, is_positive, is_str};
use crate::number::{both_int, number_row};
use crate::upper::{TUPLE_LIMIT, is_shallow};
use ann_element::{Element, copy_element, copy_elements};
use rpy_base::NoMem;
use rpy_tree::{BinOp, SiteId};
use std::alloc::Global;

// ---- `+` and `*`

fn own_site(site: Option<SiteId>, left: SiteId) -> SiteId
    ensures { result ≡ spec.own_site site left }
{
    match site {
        None => left,
        Some(site) => site,
    }
}

/// Whether it is a string, a list or `None`.
pub fn is_sequence(e: &Element) -> bool
    ensures { result ≡ spec.is_sequence (shape e.now) }
{
    match e {
        Element::NoneOnly => true,
        Element::Char => true,
        Element::Str => true,
        Element::StrOrNone => true,
        Element::List(_, _) => true,
        _ => false,
    }
}

// `None` beside what `+` takes: the operation gives no value.
fn add_none(b: &Element) -> Element
    ensures { shape result ≡ kind.given (spec.is_sequence (shape b.now)) Nothing }
{
    if is_sequence(b) {
        Element::Unreached
    } else {
        conflict()
    }
}

fn add_text(site: Option<SiteId>, b: &Element) -> Element
    ensures { shape result ≡ spec.add site (Str Any) (shape b.now) }
{
    match b {
        Element::NoneOnly => Element::Unreached,
        Element::Char => Element::Str,
        Element::Str => Element::Str,
        Element::StrOrNone => Element::Str,
        _ => conflict(),
    }
}

fn add_list(site: Option<SiteId>, left: SiteId, b: &Element) -> Element
    ensures { shape result ≡ spec.add site (Lst left false) (shape b.now) }
{
    match b {
        Element::NoneOnly => Element::Unreached,
        Element::List(_, _) => Element::List(own_site(site, left), false),
        _ => conflict(),
    }
}

// `+` of two strings or two lists; a list of its own site, for `+=` the left one's.
fn add_row(site: Option<SiteId>, a: &Element, b: &Element) -> Element
    ensures { shape result ≡ spec.add site (shape a.now) (shape b.now) }
{
    match a {
        Element::NoneOnly => add_none(b),
        Element::Char => add_text(site, b),
        Element::Str => add_text(site, b),
        Element::StrOrNone => add_text(site, b),
        Element::List(left, _) => add_list(site, *left, b),
        _ => conflict(),
    }
}

// A string or list, or `None`, times an integer.
fn multiply_row(site: Option<SiteId>, a: &Element) -> Element
    ensures { shape result ≡ spec.multiply site (shape a.now) }
{
    match a {
        Element::NoneOnly => Element::Unreached,
        Element::Char => Element::Str,
        Element::Str => Element::Str,
        Element::StrOrNone => Element::Str,
        Element::List(left, _) => Element::List(own_site(site, *left), false),
        _ => conflict(),
    }
}

fn sequence_row(op: BinOp, site: Option<SiteId>, a: &Element, b: &Element) -> Element
    ensures { shape result ≡ spec.binary_other op site (shape a.now) (shape b.now) }
{
    match op {
        BinOp::Add => add_row(site, a, b),
        BinOp::Mul => {
            if is_int(b) {
                multiply_row(site, a)
            } else {
                conflict()
            }
        }
        _ => conflict(),
    }
}

/// An operator between two values; the site is that of a list that `+` and `*` make.
pub fn binary_row(op: BinOp, site: Option<SiteId>, a: &Element, b: &Element) -> Element
    ensures { shape result ≡ spec.binary op site (shape a.now) (shape b.now) }
{
    if both_int(a, b) {
        number_row(op, a, b)
    } else {
        sequence_row(op, site, a, b)
    }
}

/// `len` of a string, list, dict or tuple.
pub fn len_row(a: &Element) -> Element
    ensures { shape result ≡ spec.len (shape a.now) }
{
    match a {
        Element::NoneOnly => Element::Unreached,
        Element::Char => Element::IntPos,
        Element::Str => Element::IntPos,
        Element::StrOrNone => Element::IntPos,
        Element::List(_, _) => Element::IntPos,
        Element::Dict(_, _) => Element::IntPos,
        Element::Tuple(_) => Element::IntPos,
        _ => conflict(),
    }
}

// ---- indexes

/// An element where the operands fit.
pub fn copy_if(alloc: Global, fits: bool, e: &Element) -> Result<Element, NoMem>
    ensures { IfOk result (λ copy. shape copy ≡ kind.given fits (shape e.now)) }
{
    if fits {
        copy_element(alloc, e)
    } else {
        Ok(conflict())
    }
}

// The item of a tuple at a place.
fn item_at(alloc: Global, items: &[Element], place: usize) -> Result<Element, NoMem>
    ensures { IfOk result (λ e. shape e ≡ spec.nth (shapes items.now) place) }
{
    match items {
        [] => Ok(conflict()),
        [item, items @ ..] => {
            if place == 0 {
                copy_element(alloc, item)
            } else {
                item_at(alloc, items, place - 1)
            }
        }
    }
}

// The item of a tuple at a place that is written out.
fn literal_row(alloc: Global, items: &[Element], literal: Option<i64>) -> Result<Element, NoMem>
    ensures { IfOk result (λ e. shape e ≡ spec.at_literal literal (shapes items.now)) }
{
    match literal {
        None => Ok(conflict()),
        Some(place) => match usize::try_from(place) {
            Ok(place) => item_at(alloc, items, place),
            Err(_) => Ok(conflict()),
        },
    }
}

fn char_if(fits: bool) -> Element
    ensures { shape result ≡ kind.given fits (Str One) }
{
    if fits { Element::Char } else { conflict() }
}

/// The reading of an index. The further part is the item of the list, or the value of the dict.
pub fn index_row(
    alloc: Global,
    literal: Option<i64>,
    a: &Element,
    i: &Element,
    part: &Element,
) -> Result<Element, NoMem>
    ensures { IfOk result (λ e. shape e ≡ spec.index literal (shape a.now) (shape i.now) (shape part.now)) }
{
    match a {
        Element::NoneOnly => Ok(Element::Unreached),
        Element::Dict(_, _) => copy_element(alloc, part),
        Element::Tuple(items) => literal_row(alloc, items.as_slice(), literal),
        Element::List(_, _) => copy_if(alloc, is_int(i), part),
        Element::Char => Ok(char_if(is_int(i))),
        Element::Str => Ok(char_if(is_int(i))),
        Element::StrOrNone => Ok(char_if(is_int(i))),
        _ => Ok(conflict()),
    }
}

/// A store to an index gives what is stored.
pub fn store_index_row(
    alloc: Global,
    a: &Element,
    i: &Element,
    value: &Element,
) -> Result<Element, NoMem>
    ensures { IfOk result (λ e. shape e ≡ spec.store_index (shape a.now) (shape i.now) (shape value.now)) }
{
    match a {
        Element::NoneOnly => Ok(Element::Unreached),
        Element::Dict(_, _) => copy_element(alloc, value),
        Element::List(_, _) => copy_if(alloc, is_int(i), value),
        _ => Ok(conflict()),
    }
}

/// A statement, whose element is `None`, where its operands fit.
pub fn nothing_if(fits: bool) -> Element
    ensures { shape result ≡ kind.given fits NoneOnly }
{
    if fits { Element::NoneOnly } else { conflict() }
}

/// `del` of an index.
pub fn delete_index_row(a: &Element, i: &Element) -> Element
    ensures { shape result ≡ spec.delete_index (shape a.now) (shape i.now) }
{
    match a {
        Element::NoneOnly => Element::Unreached,
        Element::Dict(_, _) => Element::NoneOnly,
        Element::List(_, _) => nothing_if(is_int(i)),
        _ => conflict(),
    }
}

// ---- slices

/// A slice of a string or list; a list of its own site.
pub fn slice_row(site: SiteId, a: &Element) -> Element
    ensures { shape result ≡ spec.slice site (shape a.now) }
{
    match a {
        Element::NoneOnly => Element::Unreached,
        Element::Char => Element::Str,
        Element::Str => Element::Str,
        Element::StrOrNone => Element::Str,
        Element::List(_, _) => Element::List(site, false),
        _ => conflict(),
    }
}

fn all_positive(bounds: &[Element]) -> bool
    ensures { result ≡ kind.all_positive (map shape bounds.now) }
{
    match bounds {
        [] => true,
        [bound, bounds @ ..] => is_positive(bound) && all_positive(bounds),
    }
}

/// A slice with bounds that are not below zero.
pub fn bounded_slice_row(site: SiteId, xs: &[Element]) -> Element
    ensures { shape result ≡ spec.bounded_slice site (map shape xs.now) }
{
    match xs {
        [] => conflict(),
        [a, bounds @ ..] => {
            if all_positive(bounds) {
                slice_row(site, a)
            } else {
                conflict()
            }
        }
    }
}

// ---- tuples

/// An element in which not too many tuples stand inside one another.
pub fn if_shallow(e: Element) -> Element
    ensures { shape result ≡ spec.if_shallow (shape e) }
{
    if is_shallow(&e, TUPLE_LIMIT) {
        e
    } else {
        conflict()
    }
}

/// The display of a tuple.
pub fn tuple_row(alloc: Global, xs: &[Element]) -> Result<Element, NoMem>
    ensures { IfOk result (λ e. shape e ≡ spec.tuple (map shape xs.now)) }
{
    let parts = copy_elements(alloc, xs)?;
    Ok(if_shallow(Element::Tuple(parts)))
}

#[tactic(auto, using(crate::proofs::Meeting::item_count))]
fn count_of(parts: &[Element]) -> usize
    ensures { result ≡ length (items (shapes parts.now)) }
{
    parts.len()
}

/// Of a tuple of so many items, the one at a place.
pub fn unpack_row(alloc: Global, count: u32, place: u32, a: &Element) -> Result<Element, NoMem>
    ensures { IfOk result (λ e. shape e ≡ spec.unpack count place (shape a.now)) }
{
    match a {
        Element::Tuple(items) => {
            if count_of(items.as_slice()) == count as usize {
                item_at(alloc, items.as_slice(), place as usize)
            } else {
                Ok(conflict())
            }
        }
        _ => Ok(conflict()),
    }
}

// ---- output

/// `os.write(1, s)`.
pub fn write_row(s: &Element) -> Element
    ensures { shape result ≡ kind.given (kind.is_str (shape s.now)) (Num false) }
{
    if is_str(s) {
        Element::IntPos
    } else {
        conflict()
    }
}

fn can_be_printed(xs: &[Element]) -> bool
    ensures { result ≡ spec.can_be_printed (map shape xs.now) }
{
    match xs {
        [] => true,
        [x, xs @ ..] => (is_int(x) || is_bool(x) || is_str(x)) && can_be_printed(xs),
    }
}

/// `print` of integers, truth values and strings.
pub fn print_row(xs: &[Element]) -> Element
    ensures { shape result ≡ kind.given (spec.can_be_printed (map shape xs.now)) NoneOnly }
{
    nothing_if(can_be_printed(xs))
}
