// Elements: what is known of a value.
ghost use Rattle.std.specs.Prelude.{◌≡◌, IfOk};

use rpy_base::{NoMem, Seq};
use rpy_tree::{ClassId, FunId, SiteId};
use std::alloc::Global;

/// What is known of a value. The bool of the last forms says that it may also be `None`. A site stands
/// for its class of sites.
#[derive(Drop)]
pub enum Element {
    /// No value comes here.
    Unreached,
    NoneOnly,
    KnownTrue,
    KnownFalse,
    Bool,
    /// An integer that is not below zero.
    IntPos,
    Int,
    /// A string of length one.
    Char,
    Str,
    StrOrNone,
    Tuple(Seq<Element>),
    List(SiteId, bool),
    Dict(SiteId, bool),
    /// An instance of the class, or of one below it.
    Instance(ClassId, bool),
    /// One of the functions, in rising order.
    Func(Seq<FunId>, bool),
    /// Values that have no type in common. It keeps the class of the lists and that of the dicts among
    /// them, at any depth.
    Conflict(Option<SiteId>, Option<SiteId>),
}

/// The same functions once more.
pub fn copy_functions(alloc: Global, functions: &[FunId]) -> Result<Seq<FunId>, NoMem>
    ensures { IfOk result (λ copies. copies ≡ functions.now) }
{
    let mut copies = Seq::new(alloc);
    for function in functions {
        copies.push(*function)?;
    }
    Ok(copies)
}

/// The same element once more.
#[cycle(copy)]
pub fn copy_element(alloc: Global, e: &Element) -> Result<Element, NoMem>
    ensures { IfOk result (λ copy. copy ≡ e.now) }
{
    match e {
        Element::Unreached => Ok(Element::Unreached),
        Element::NoneOnly => Ok(Element::NoneOnly),
        Element::KnownTrue => Ok(Element::KnownTrue),
        Element::KnownFalse => Ok(Element::KnownFalse),
        Element::Bool => Ok(Element::Bool),
        Element::IntPos => Ok(Element::IntPos),
        Element::Int => Ok(Element::Int),
        Element::Char => Ok(Element::Char),
        Element::Str => Ok(Element::Str),
        Element::StrOrNone => Ok(Element::StrOrNone),
        Element::Tuple(parts) => Ok(Element::Tuple(copy_elements(alloc, parts.as_slice())?)),
        Element::List(site, none) => Ok(Element::List(*site, *none)),
        Element::Dict(site, none) => Ok(Element::Dict(*site, *none)),
        Element::Instance(class, none) => Ok(Element::Instance(*class, *none)),
        Element::Func(functions, none) => {
            Ok(Element::Func(copy_functions(alloc, functions.as_slice())?, *none))
        }
        Element::Conflict(lists, dicts) => Ok(Element::Conflict(*lists, *dicts)),
    }
}

/// The same elements once more.
#[cycle(copy)]
pub fn copy_elements(alloc: Global, elements: &[Element]) -> Result<Seq<Element>, NoMem>
    ensures { IfOk result (λ copies. copies ≡ elements.now) }
{
    let mut copies = Seq::new(alloc);
    for e in elements {
        copies.push(copy_element(alloc, e)?)?;
    }
    Ok(copies)
}

pub fn is_unreached(e: &Element) -> bool {
    match e {
        Element::Unreached => true,
        _ => false,
    }
}

pub fn is_conflict(e: &Element) -> bool {
    match e {
        Element::Conflict(_, _) => true,
        _ => false,
    }
}

/// Whether it is an integer.
pub fn is_int(e: &Element) -> bool {
    match e {
        Element::IntPos => true,
        Element::Int => true,
        _ => false,
    }
}

/// Whether it is a bool.
pub fn is_bool(e: &Element) -> bool {
    match e {
        Element::KnownTrue => true,
        Element::KnownFalse => true,
        Element::Bool => true,
        _ => false,
    }
}

/// Whether it is a string, and not `None`.
pub fn is_str(e: &Element) -> bool {
    match e {
        Element::Char => true,
        Element::Str => true,
        _ => false,
    }
}

/// How many tuples stand inside one another.
#[cycle(depth)]
pub fn depth_of(e: &Element) -> u64 {
    match e {
        Element::Tuple(parts) => deepest(parts.as_slice()).saturating_add(1),
        _ => 0,
    }
}

#[cycle(depth)]
fn deepest(parts: &[Element]) -> u64 {
    let mut most = 0;
    for part in parts {
        let depth = depth_of(part);
        if depth > most {
            most = depth;
        }
    }
    most
}
