// Instances, functions and what tests say of a local.
ghost use Rattle.std.specs.Prelude.{◌≡◌, ◌∷◌, [], ◌++◌, false, map, is_some, IfOk, OnOk};
ghost use Rattle.class_desc.specs.Line as line;
ghost use Rattle.ann_lattice.specs.Shape.{Fun, shape};
ghost use Rattle.ann_lattice.specs.Row as spec;

use crate::container::{copy_if, if_shallow, nothing_if};
use crate::kind::{conflict, is_int, is_positive, is_str, known};
use ann_element::{Element, copy_element, copy_functions};
use class_desc::Classes;
use rpy_base::{NoMem, Text};
use rpy_tree::{ClassId, Const};
use std::alloc::Global;

/// The class `Exception`.
const EXCEPTION: ClassId = 0;

fn has_home(classes: &Classes, class: ClassId, name: &Text) -> bool
    ensures { result ≡ spec.has_home classes.now name.now class }
{
    match classes.home(class, name) {
        None => false,
        Some(_) => true,
    }
}

/// The reading of an attribute. The further part is the element at its home.
pub fn attribute_row(
    alloc: Global,
    classes: &Classes,
    name: &Text,
    a: &Element,
    part: &Element,
) -> Result<Element, NoMem>
    ensures { IfOk result (λ e. shape e ≡ spec.attribute classes.now name.now (shape a.now) (shape part.now)) }
{
    match a {
        Element::NoneOnly => Ok(Element::Unreached),
        Element::Instance(class, _) => copy_if(alloc, has_home(classes, *class, name), part),
        _ => Ok(conflict()),
    }
}

/// A store to an attribute gives what is stored.
pub fn store_attribute_row(
    alloc: Global,
    classes: &Classes,
    name: &Text,
    a: &Element,
    value: &Element,
) -> Result<Element, NoMem>
    ensures { IfOk result (λ e. shape e ≡ spec.store_attribute classes.now name.now (shape a.now) (shape value.now)) }
{
    match a {
        Element::NoneOnly => Ok(Element::Unreached),
        Element::Instance(class, _) => copy_if(alloc, has_home(classes, *class, name), value),
        _ => Ok(conflict()),
    }
}

// Of an instance that is not `None`.
fn surely_instance(classes: &Classes, class: ClassId, of: ClassId) -> Element
    ensures { shape result ≡ spec.surely classes.now.classes class of }
{
    if classes.below(class, of) {
        known(true)
    } else if classes.below(of, class) {
        Element::Bool
    } else {
        known(false)
    }
}

fn perhaps_instance(classes: &Classes, class: ClassId, of: ClassId) -> Element
    ensures { shape result ≡ spec.perhaps classes.now.classes class of }
{
    if classes.below(class, of) || classes.below(of, class) {
        Element::Bool
    } else {
        known(false)
    }
}

/// `isinstance` with a class.
pub fn is_instance_row(classes: &Classes, of: ClassId, a: &Element) -> Element
    ensures { shape result ≡ spec.is_instance classes.now.classes of (shape a.now) }
{
    match a {
        Element::NoneOnly => known(false),
        Element::Instance(class, none) => {
            if *none {
                perhaps_instance(classes, *class, of)
            } else {
                surely_instance(classes, *class, of)
            }
        }
        _ => conflict(),
    }
}

// Without an `__init__` a call takes no argument; below `Exception` one string may stand.
fn takes_arguments(classes: &Classes, class: ClassId, xs: &[Element]) -> bool
    ensures { result ≡ spec.takes_arguments classes.now.classes class (map shape xs.now) }
{
    match xs {
        [] => true,
        [s] => is_str(s) && classes.below(class, EXCEPTION),
        _ => false,
    }
}

fn has_init(classes: &Classes, class: ClassId) -> bool
    ensures { result ≡ is_some (line.init classes.now.classes class) }
{
    match classes.init(class) {
        None => false,
        Some(_) => true,
    }
}

/// The call of a class.
pub fn new_row(classes: &Classes, class: ClassId, xs: &[Element]) -> Element
    ensures { shape result ≡ spec.new classes.now.classes class (map shape xs.now) }
{
    if has_init(classes, class) || takes_arguments(classes, class, xs) {
        Element::Instance(class, false)
    } else {
        conflict()
    }
}

/// The call of `C.m`, whose first argument is an instance of C. The further part is the result.
pub fn call_of_row(
    alloc: Global,
    classes: &Classes,
    class: ClassId,
    xs: &[Element],
    part: &Element,
) -> Result<Element, NoMem>
    ensures { IfOk result (λ e. shape e ≡ spec.call_of classes.now.classes class (map shape xs.now) (shape part.now)) }
{
    match xs {
        [Element::Instance(of, false), _others @ ..] => {
            copy_if(alloc, classes.below(*of, class), part)
        }
        _ => Ok(conflict()),
    }
}

/// The call of a value. The further part is the join of the results.
pub fn call_value_row(alloc: Global, xs: &[Element], part: &Element) -> Result<Element, NoMem>
    ensures { IfOk result (λ e. shape e ≡ spec.call_value (map shape xs.now) (shape part.now)) }
{
    match xs {
        [Element::NoneOnly, _others @ ..] => Ok(Element::Unreached),
        [Element::Func(_, _), _others @ ..] => copy_element(alloc, part),
        _ => Ok(conflict()),
    }
}

/// `raise` of an instance of an exception class.
pub fn raise_row(classes: &Classes, a: &Element) -> Element
    ensures { shape result ≡ spec.raised classes.now.classes (shape a.now) }
{
    match a {
        Element::NoneOnly => Element::Unreached,
        Element::Instance(class, _) => nothing_if(classes.below(*class, EXCEPTION)),
        _ => conflict(),
    }
}

// ---- constants

/// A constant.
pub fn constant_row(alloc: Global, value: &Const) -> Result<Element, NoMem>
    ensures { IfOk result (λ e. shape e ≡ spec.constant value.now) }
{
    let element = constant_element(alloc, value)?;
    Ok(if_shallow(element))
}

fn function_element(alloc: Global, function: u32) -> Result<Element, NoMem>
    ensures { IfOk result (λ e. shape e ≡ Fun (function ∷ []) false) }
{
    let functions = copy_functions(alloc, &[function])?;
    Ok(Element::Func(functions, false))
}

#[cycle(constant)]
fn constant_element(alloc: Global, value: &Const) -> Result<Element, NoMem>
    ensures { IfOk result (λ e. shape e ≡ spec.constant_shape value.now) }
{
    match value {
        Const::Word(word) => Ok(crate::number::word_row(*word)),
        Const::Bool(flag) => Ok(known(*flag)),
        Const::Str(text) => Ok(crate::number::text_row(text.bytes().len())),
        Const::None => Ok(Element::NoneOnly),
        Const::Function(function) => function_element(alloc, *function),
        Const::Tuple(parts) => {
            let mut elements = rpy_base::Seq::new(alloc);
            constant_parts(alloc, parts.as_slice(), &mut elements)?;
            Ok(Element::Tuple(elements))
        }
        Const::List(site) => Ok(Element::List(*site, false)),
        Const::Dict(site) => Ok(Element::Dict(*site, false)),
    }
}

#[cycle(constant)]
fn constant_parts(
    alloc: Global,
    parts: &[Const],
    elements: &mut rpy_base::Seq<Element>,
) -> Result<(), NoMem>
    ensures { OnOk result (map shape elements.new ≡ map shape elements.old ++ map spec.constant_shape parts.now) }
{
    match parts {
        [] => Ok(()),
        [part, parts @ ..] => {
            let element = constant_element(alloc, part)?;
            elements.push(element)?;
            constant_parts(alloc, parts, elements)
        }
    }
}

// ---- what a test says of a local

fn copy_without_none(alloc: Global, functions: &[u32]) -> Result<Element, NoMem>
    ensures { IfOk result (λ e. shape e ≡ Fun functions.now false) }
{
    let functions = copy_functions(alloc, functions)?;
    Ok(Element::Func(functions, false))
}

/// A value that is not `None`.
pub fn drop_none_row(alloc: Global, a: &Element) -> Result<Element, NoMem>
    ensures { IfOk result (λ e. shape e ≡ spec.drop_none (shape a.now)) }
{
    match a {
        Element::NoneOnly => Ok(Element::Unreached),
        Element::StrOrNone => Ok(Element::Str),
        Element::List(site, _) => Ok(Element::List(*site, false)),
        Element::Dict(site, _) => Ok(Element::Dict(*site, false)),
        Element::Instance(class, _) => Ok(Element::Instance(*class, false)),
        Element::Func(functions, _) => copy_without_none(alloc, functions.as_slice()),
        _ => copy_element(alloc, a),
    }
}

/// A value that is not true: of an instance or function, `None`.
pub fn false_none_row(alloc: Global, a: &Element) -> Result<Element, NoMem>
    ensures { IfOk result (λ e. shape e ≡ spec.false_none (shape a.now)) }
{
    match a {
        Element::Instance(_, _) => Ok(Element::NoneOnly),
        Element::Func(_, _) => Ok(Element::NoneOnly),
        _ => copy_element(alloc, a),
    }
}

fn lower_instance(classes: &Classes, class: ClassId, of: ClassId) -> Element
    ensures { shape result ≡ spec.lower_instance classes.now.classes class of }
{
    if classes.below(class, of) {
        Element::Instance(class, false)
    } else if classes.below(of, class) {
        Element::Instance(of, false)
    } else {
        Element::Unreached
    }
}

/// A value that is an instance of a class.
pub fn lower_row(
    alloc: Global,
    classes: &Classes,
    of: ClassId,
    a: &Element,
) -> Result<Element, NoMem>
    ensures { IfOk result (λ e. shape e ≡ spec.lower classes.now.classes of (shape a.now)) }
{
    match a {
        Element::NoneOnly => Ok(Element::Unreached),
        Element::Instance(class, _) => Ok(lower_instance(classes, *class, of)),
        _ => copy_element(alloc, a),
    }
}

/// An integer that is not below another.
pub fn non_negative_row(alloc: Global, a: &Element, other: &Element) -> Result<Element, NoMem>
    ensures { IfOk result (λ e. shape e ≡ spec.non_negative (shape a.now) (shape other.now)) }
{
    if is_positive(other) && is_int(a) {
        Ok(Element::IntPos)
    } else {
        copy_element(alloc, a)
    }
}
