// The order of elements.
ghost use Rattle.std.specs.Prelude.{◌≡◌, ◌&&◌, Some, None};
ghost use Rattle.ann_lattice.specs.Shape.{Width, One, Any, OrNone, shape, shapes};
ghost use Rattle.ann_lattice.specs.Order as spec;

use ann_element::{Element, Sites};
use class_desc::Classes;
use rpy_tree::{ClassId, FunId, SiteId};

// A mark "also `None`" is below another.
fn mark_below(a: bool, b: bool) -> bool
    ensures { result ≡ spec.implies a b }
{
    !a || b
}

// Whether two sites are of one class.
fn one_class(same: &Sites, site: SiteId, other: SiteId) -> bool
    ensures { result ≡ spec.same same.now site other }
{
    same.leader(site) == same.leader(other)
}

// Whether a site is of the class that a conflict keeps.
fn in_class(same: &Sites, site: SiteId, class: Option<SiteId>) -> bool
    ensures { result ≡ spec.is_in same.now class site }
{
    match class {
        None => false,
        Some(of) => one_class(same, site, of),
    }
}

// Whether a conflict's class, if it keeps one, is that of another.
fn class_within(same: &Sites, kept: Option<SiteId>, class: Option<SiteId>) -> bool
    ensures { result ≡ spec.kept_in same.now class kept }
{
    match kept {
        None => true,
        Some(site) => in_class(same, site, class),
    }
}

// Whether each list in an element is of one class, and each dict of another.
#[cycle(within)]
fn is_within(same: &Sites, e: &Element, lists: Option<SiteId>, dicts: Option<SiteId>) -> bool
    ensures { result ≡ spec.are_held same.now lists dicts (shape e.now) }
{
    match e {
        Element::List(site, _) => in_class(same, *site, lists),
        Element::Dict(site, _) => in_class(same, *site, dicts),
        Element::Tuple(parts) => all_within(same, parts.as_slice(), lists, dicts),
        Element::Conflict(kept, further) => {
            class_within(same, *kept, lists) && class_within(same, *further, dicts)
        }
        _ => true,
    }
}

#[cycle(within)]
fn all_within(same: &Sites, parts: &[Element], lists: Option<SiteId>, dicts: Option<SiteId>) -> bool
    ensures { result ≡ spec.all_held same.now lists dicts (shapes parts.now) }
{
    match parts {
        [] => true,
        [part, parts @ ..] => {
            is_within(same, part, lists, dicts) && all_within(same, parts, lists, dicts)
        }
    }
}

fn has_function(functions: &[FunId], function: FunId) -> bool
    ensures { result ≡ spec.has functions.now function }
{
    for other in functions {
        if *other == function {
            return true;
        }
    }
    false
}

fn functions_below(functions: &[FunId], others: &[FunId]) -> bool
    ensures { result ≡ spec.are_among functions.now others.now }
{
    for function in functions {
        if !has_function(others, *function) {
            return false;
        }
    }
    true
}

// What is above `None` alone.
fn takes_none(e: &Element) -> bool
    ensures { result ≡ spec.takes_none (shape e.now) }
{
    match e {
        Element::NoneOnly => true,
        Element::StrOrNone => true,
        Element::List(_, none) => *none,
        Element::Dict(_, none) => *none,
        Element::Instance(_, none) => *none,
        Element::Func(_, none) => *none,
        Element::Conflict(_, _) => true,
        _ => false,
    }
}

// What is above a truth value that is known.
fn above_known(value: bool, b: &Element) -> bool
    ensures { result ≡ spec.above_truth (Some value) (shape b.now) }
{
    match b {
        Element::KnownTrue => value,
        Element::KnownFalse => !value,
        Element::Bool => true,
        Element::Conflict(_, _) => true,
        _ => false,
    }
}

fn above_bool(b: &Element) -> bool
    ensures { result ≡ spec.above_truth None (shape b.now) }
{
    match b {
        Element::Bool => true,
        Element::Conflict(_, _) => true,
        _ => false,
    }
}

// What is above a word, which may be below zero or not.
fn above_word(negative: bool, b: &Element) -> bool
    ensures { result ≡ spec.above_num negative (shape b.now) }
{
    match b {
        Element::IntPos => !negative,
        Element::Int => true,
        Element::Conflict(_, _) => true,
        _ => false,
    }
}

fn above_char(e: &Element) -> bool
    ensures { result ≡ spec.above_str One (shape e.now) }
{
    match e {
        Element::Char => true,
        Element::Str => true,
        Element::StrOrNone => true,
        Element::Conflict(_, _) => true,
        _ => false,
    }
}

fn above_str(e: &Element) -> bool
    ensures { result ≡ spec.above_str Any (shape e.now) }
{
    match e {
        Element::Str => true,
        Element::StrOrNone => true,
        Element::Conflict(_, _) => true,
        _ => false,
    }
}

fn above_str_or_none(e: &Element) -> bool
    ensures { result ≡ spec.above_str OrNone (shape e.now) }
{
    match e {
        Element::StrOrNone => true,
        Element::Conflict(_, _) => true,
        _ => false,
    }
}

fn above_list(same: &Sites, site: SiteId, none: bool, b: &Element) -> bool
    ensures { result ≡ spec.above_list same.now site none (shape b.now) }
{
    match b {
        Element::List(of, more) => one_class(same, site, *of) && mark_below(none, *more),
        Element::Conflict(lists, _) => in_class(same, site, *lists),
        _ => false,
    }
}

fn above_dict(same: &Sites, site: SiteId, none: bool, b: &Element) -> bool
    ensures { result ≡ spec.above_dict same.now site none (shape b.now) }
{
    match b {
        Element::Dict(of, more) => one_class(same, site, *of) && mark_below(none, *more),
        Element::Conflict(_, dicts) => in_class(same, site, *dicts),
        _ => false,
    }
}

fn above_instance(classes: &Classes, class: ClassId, none: bool, b: &Element) -> bool
    ensures { result ≡ spec.above_inst classes.now.classes class none (shape b.now) }
{
    match b {
        Element::Instance(of, more) => classes.below(class, *of) && mark_below(none, *more),
        Element::Conflict(_, _) => true,
        _ => false,
    }
}

fn above_functions(functions: &[FunId], none: bool, b: &Element) -> bool
    ensures { result ≡ spec.above_fun functions.now none (shape b.now) }
{
    match b {
        Element::Func(others, more) => {
            functions_below(functions, others.as_slice()) && mark_below(none, *more)
        }
        Element::Conflict(_, _) => true,
        _ => false,
    }
}

fn above_conflict(same: &Sites, lists: Option<SiteId>, dicts: Option<SiteId>, b: &Element) -> bool
    ensures { result ≡ spec.above_clash same.now lists dicts (shape b.now) }
{
    match b {
        Element::Conflict(others, further) => {
            class_within(same, lists, *others) && class_within(same, dicts, *further)
        }
        _ => false,
    }
}

/// Whether an element is below another or is it, where lists and dicts of one class of sites are alike.
#[cycle(below)]
pub fn below(classes: &Classes, same: &Sites, a: &Element, b: &Element) -> bool
    ensures { result ≡ spec.is_below classes.now.classes same.now (shape a.now) (shape b.now) }
{
    match a {
        Element::Unreached => true,
        Element::NoneOnly => takes_none(b),
        Element::KnownTrue => above_known(true, b),
        Element::KnownFalse => above_known(false, b),
        Element::Bool => above_bool(b),
        Element::IntPos => above_word(false, b),
        Element::Int => above_word(true, b),
        Element::Char => above_char(b),
        Element::Str => above_str(b),
        Element::StrOrNone => above_str_or_none(b),
        Element::Tuple(parts) => match b {
            Element::Tuple(others) => {
                parts_below(classes, same, parts.as_slice(), others.as_slice())
            }
            Element::Conflict(lists, dicts) => {
                all_within(same, parts.as_slice(), *lists, *dicts)
            }
            _ => false,
        },
        Element::List(site, none) => above_list(same, *site, *none, b),
        Element::Dict(site, none) => above_dict(same, *site, *none, b),
        Element::Instance(class, none) => above_instance(classes, *class, *none, b),
        Element::Func(functions, none) => above_functions(functions.as_slice(), *none, b),
        Element::Conflict(lists, dicts) => above_conflict(same, *lists, *dicts, b),
    }
}

#[cycle(below)]
fn parts_below(classes: &Classes, same: &Sites, parts: &[Element], others: &[Element]) -> bool
    ensures { result ≡ spec.each_below classes.now.classes same.now (shapes parts.now) (shapes others.now) }
{
    match parts {
        [] => match others {
            [] => true,
            [_b, _others @ ..] => false,
        },
        [a, parts @ ..] => match others {
            [] => false,
            [b, others @ ..] => {
                below(classes, same, a, b) && parts_below(classes, same, parts, others)
            }
        },
    }
}

/// Whether it can be the key of a dict.
#[cycle(key)]
pub fn is_key(e: &Element) -> bool
    ensures { result ≡ spec.is_key (shape e.now) }
{
    match e {
        Element::Unreached => true,
        Element::KnownTrue => true,
        Element::KnownFalse => true,
        Element::Bool => true,
        Element::IntPos => true,
        Element::Int => true,
        Element::Char => true,
        Element::Str => true,
        Element::Tuple(parts) => all_keys(parts.as_slice()),
        _ => false,
    }
}

#[cycle(key)]
fn all_keys(parts: &[Element]) -> bool
    ensures { result ≡ spec.are_keys (shapes parts.now) }
{
    match parts {
        [] => true,
        [part, parts @ ..] => is_key(part) && all_keys(parts),
    }
}
