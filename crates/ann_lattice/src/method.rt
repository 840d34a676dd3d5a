// Methods by their names, and those of lists, dicts and instances.
ghost use Rattle.std.specs.Prelude.{◌≡◌, ◌||◌, map, IfOk};
ghost use Rattle.std.specs.Str.{bytes_eq};
ghost use Rattle.ann_lattice.specs.Shape.{Nothing, shape};
ghost use Rattle.ann_lattice.specs.Kind as kind;
ghost use Rattle.ann_lattice.specs.Methods as spec;

use crate::arguments::{
    no_args, none_or_int, one_arg, one_char, one_list_or_none, one_or_two, one_str, place_and_value,
};
use crate::container::{copy_if, nothing_if};
use crate::kind::{conflict, pair, single};
use crate::text::{own_list, text_method_row};
use ann_element::{Element, copy_element};
use class_desc::Classes;
use rpy_base::{NoMem, Seq, Text};
use rpy_tree::{ClassId, SiteId};
use std::alloc::Global;

/// The methods of strings, lists and dicts by their names; any other name is that of a class's method.
#[derive(Clone, Copy, Debug, PartialEq, Eq)]
pub enum Method {
    Join,
    Split,
    Find,
    StartsWith,
    EndsWith,
    Strip,
    IsDigit,
    IsAlpha,
    IsSpace,
    Append,
    Pop,
    Insert,
    Extend,
    Reverse,
    Get,
    Keys,
    Values,
    Items,
    Other,
}

fn is(name: &[u8], other: &[u8]) -> bool
    ensures { result ≡ bytes_eq name.now other.now }
{
    name == other
}

fn text_method(name: &[u8]) -> Method
    ensures { result ≡ spec.method_named name.now }
{
    if is(name, b"join") {
        Method::Join
    } else if is(name, b"split") {
        Method::Split
    } else if is(name, b"find") {
        Method::Find
    } else if is(name, b"startswith") {
        Method::StartsWith
    } else if is(name, b"endswith") {
        Method::EndsWith
    } else if is(name, b"strip") {
        Method::Strip
    } else if is(name, b"isdigit") {
        Method::IsDigit
    } else if is(name, b"isalpha") {
        Method::IsAlpha
    } else if is(name, b"isspace") {
        Method::IsSpace
    } else {
        list_method(name)
    }
}

fn list_method(name: &[u8]) -> Method
    ensures { result ≡ spec.list_method_named name.now }
{
    if is(name, b"append") {
        Method::Append
    } else if is(name, b"pop") {
        Method::Pop
    } else if is(name, b"insert") {
        Method::Insert
    } else if is(name, b"extend") {
        Method::Extend
    } else if is(name, b"reverse") {
        Method::Reverse
    } else {
        dict_method(name)
    }
}

fn dict_method(name: &[u8]) -> Method
    ensures { result ≡ spec.dict_method_named name.now }
{
    if is(name, b"get") {
        Method::Get
    } else if is(name, b"keys") || is(name, b"iterkeys") {
        Method::Keys
    } else if is(name, b"values") || is(name, b"itervalues") {
        Method::Values
    } else if is(name, b"items") || is(name, b"iteritems") {
        Method::Items
    } else {
        Method::Other
    }
}

/// The method of strings, lists and dicts that has this name.
pub fn method_of(name: &Text) -> Method
    ensures { result ≡ spec.method_named name.now }
{
    text_method(name.bytes())
}

fn has_method(classes: &Classes, class: ClassId, name: &Text) -> bool
    ensures { result ≡ spec.has_method classes.now.classes name.now class }
{
    match classes.method(class, name) {
        None => false,
        Some(_) => true,
    }
}

/// Whether some class has a method of this name.
#[tactic(auto, using(crate::proofs::Passed::passed))]
pub fn is_class_method(classes: &Classes, name: &Text) -> bool
    ensures { result ≡ spec.is_class_method classes.now.classes name.now }
{
    let count = (classes.len() as u64).min(4294967296);
    for class in 0..count {
        if has_method(classes, class as u32, name) {
            return true;
        }
    }
    false
}

// ---- `None` as the receiver

/// Whether a line for this method takes `None` as its receiver, with these arguments.
pub fn fits_none(method: Method, args: &[Element]) -> bool
    ensures { result ≡ spec.takes_none method (map shape args.now) }
{
    match method {
        Method::Split => one_char(args),
        Method::Find => one_str(args),
        Method::StartsWith => one_str(args),
        Method::EndsWith => one_str(args),
        Method::Strip => no_args(args),
        Method::Append => one_arg(args),
        Method::Insert => place_and_value(args),
        Method::Extend => one_list_or_none(args),
        Method::Reverse => no_args(args),
        Method::Pop => none_or_int(args),
        Method::Get => one_or_two(args),
        Method::Keys => no_args(args),
        Method::Values => no_args(args),
        Method::Items => no_args(args),
        _ => false,
    }
}

fn none_row(classes: &Classes, name: &Text, method: Method, args: &[Element]) -> Element
    ensures { shape result ≡ kind.given (spec.takes_none method (map shape args.now) || spec.is_class_method classes.now.classes name.now) Nothing }
{
    if fits_none(method, args) || is_class_method(classes, name) {
        Element::Unreached
    } else {
        conflict()
    }
}

// ---- lists

fn extend_row(args: &[Element]) -> Element
    ensures { shape result ≡ spec.extended (map shape args.now) }
{
    match args {
        [Element::NoneOnly] => Element::Unreached,
        [Element::List(_, _)] => Element::NoneOnly,
        _ => conflict(),
    }
}

// The further part is the list's item, which `pop` gives.
fn list_method_row(
    alloc: Global,
    method: Method,
    args: &[Element],
    part: &Element,
) -> Result<Element, NoMem>
    ensures { IfOk result (λ e. shape e ≡ spec.list_method method (map shape args.now) (shape part.now)) }
{
    match method {
        Method::Append => Ok(nothing_if(one_arg(args))),
        Method::Insert => Ok(nothing_if(place_and_value(args))),
        Method::Extend => Ok(extend_row(args)),
        Method::Reverse => Ok(nothing_if(no_args(args))),
        Method::Pop => copy_if(alloc, none_or_int(args), part),
        _ => Ok(conflict()),
    }
}

// ---- dicts

// The value with what stands in for a missing one.
fn get_pieces(alloc: Global, args: &[Element], value: &Element) -> Result<Seq<Element>, NoMem>
    ensures { IfOk result (λ pieces. map shape pieces ≡ spec.got (map shape args.now) (shape value.now)) }
{
    match args {
        [_key] => pair(alloc, copy_element(alloc, value)?, Element::NoneOnly),
        [_key, other] => pair(
            alloc,
            copy_element(alloc, value)?,
            copy_element(alloc, other)?,
        ),
        _ => single(alloc, conflict()),
    }
}

fn dict_method_pieces(
    alloc: Global,
    method: Method,
    site: Option<SiteId>,
    args: &[Element],
    part: &Element,
) -> Result<Seq<Element>, NoMem>
    ensures { IfOk result (λ pieces. map shape pieces ≡ spec.dict_method method site (map shape args.now) (shape part.now)) }
{
    match method {
        Method::Get => get_pieces(alloc, args, part),
        Method::Keys => single(alloc, own_list(site, no_args(args))),
        Method::Values => single(alloc, own_list(site, no_args(args))),
        Method::Items => single(alloc, own_list(site, no_args(args))),
        _ => single(alloc, conflict()),
    }
}

/// What a method call asks its result to be above. The further part of an instance's is the result of a
/// method that the call reaches.
pub fn method_pieces(
    alloc: Global,
    classes: &Classes,
    name: &Text,
    site: Option<SiteId>,
    receiver: &Element,
    args: &[Element],
    part: &Element,
) -> Result<Seq<Element>, NoMem>
    ensures { IfOk result (λ pieces. map shape pieces ≡ spec.method classes.now.classes name.now site (shape receiver.now) (map shape args.now) (shape part.now)) }
{
    let method = method_of(name);
    match receiver {
        Element::NoneOnly => single(alloc, none_row(classes, name, method, args)),
        Element::Char => single(alloc, text_method_row(method, site, receiver, args, part)),
        Element::Str => single(alloc, text_method_row(method, site, receiver, args, part)),
        Element::StrOrNone => single(alloc, text_method_row(method, site, receiver, args, part)),
        Element::List(_, _) => single(alloc, list_method_row(alloc, method, args, part)?),
        Element::Dict(_, _) => dict_method_pieces(alloc, method, site, args, part),
        Element::Instance(class, _) => {
            single(
                alloc,
                copy_if(alloc, has_method(classes, *class, name), part)?,
            )
        }
        _ => single(alloc, conflict()),
    }
}
