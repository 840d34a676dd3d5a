// The lowering of operations on instances and function values.
ghost use Rattle.std.specs.Prelude.{◌≡◌, option_map, OnOk};
ghost use Rattle.rtyper_op.specs.Lowering as plain;
ghost use Rattle.rtyper_data.specs.Seen.{the_operand, the_operands, the_place, writing, Leaves};
ghost use Rattle.rtyper_class.specs.Lowering as spec;
ghost use Rattle.rtyper_class.specs.Seen.{the_world};

use crate::attribute::{push_read, push_store};
use crate::call::{push_call_value, push_method, push_new, push_raise};
use ann_element::Element;
use ll_code::LlType;
use rpy_base::{NoMem, Text};
use rpy_meaning::RowOp;
use rpy_tree::{ClassId, FunId};
use rtyper_data::{Around, Body, Found, Operand, Place, Small, by_small, give};
use rtyper_layout::{Kind, kind_seen};
use rtyper_list::lower_list_op;
use rtyper_op::{push_call, push_failure};
use std::alloc::Global;

// The class of an instance, and whether it may be `None`.
fn instance_of(operand: Operand<'_>) -> Option<(ClassId, bool)>
    ensures { result ≡ spec.instance_of (the_operand operand.entry) }
{
    match operand.element {
        None => None,
        Some(element) => instance_in(element),
    }
}

fn instance_in(element: &Element) -> Option<(ClassId, bool)>
    ensures { result ≡ spec.of_instance element.now }
{
    match element {
        Element::Instance(class, or_none) => Some((*class, *or_none)),
        _ => None,
    }
}

// The functions of a function value, and whether it may be `None`.
fn functions_of<'a>(operand: Operand<'a>) -> Option<(&'a [FunId], bool)>
    ensures { option_map (λ f. (f.0.now, f.1)) result ≡ spec.functions_of (the_operand operand.entry) }
{
    match operand.element {
        None => None,
        Some(element) => functions_in(element),
    }
}

fn functions_in<'a>(element: &'a Element) -> Option<(&'a [FunId], bool)>
    ensures { option_map (λ f. (f.0.now, f.1)) result ≡ spec.of_functions element.now }
{
    match element {
        Element::Func(functions, or_none) => Some((functions.as_slice(), *or_none)),
        _ => None,
    }
}

fn is_never(args: &[Operand<'_>]) -> bool
    ensures { result ≡ plain.is_never (the_operands args.now) }
{
    for operand in args {
        match kind_seen(operand.element) {
            Kind::Never => return true,
            _ => {}
        }
    }
    false
}

#[tactic(auto, unfolding(crate::specs::Lowering::is_instance))]
fn push_is_instance(
    alloc: Global,
    around: Around<'_>,
    place: Place<'_>,
    of: ClassId,
    a: Operand<'_>,
    class: ClassId,
    found: &mut Found,
    body: &mut Body,
) -> Result<(), NoMem>
    ensures { OnOk result (Leaves (spec.is_instance (the_world around.entry) (the_place place.entry) of (the_operand a.entry) class (writing found.old body.old)) found.new body.new) }
{
    let Some(laid) = around.layout.laid(class) else {
        return Ok(());
    };
    let (low, high) = around.classes.range(of);
    let small = Small::IsInstance(laid.root, laid.vtable, low, high);
    let x = by_small(alloc, small, LlType::Bool, [a.x], found, body)?;
    give(alloc, around, place, x, LlType::Bool, found, body)
}

#[tactic(auto, unfolding(crate::specs::Lowering::attribute))]
fn push_attribute(
    alloc: Global,
    around: Around<'_>,
    place: Place<'_>,
    name: &Text,
    a: Operand<'_>,
    found: &mut Found,
    body: &mut Body,
) -> Result<(), NoMem>
    ensures { OnOk result (Leaves (spec.attribute (the_world around.entry) (the_place place.entry) name.now (the_operand a.entry) (writing found.old body.old)) found.new body.new) }
{
    match instance_of(a) {
        Some((class, or_none)) => {
            push_read(alloc, around, place, name, a, class, or_none, found, body)
        }
        None => push_failure(alloc, around, place, found, body),
    }
}

#[tactic(auto, unfolding(crate::specs::Lowering::set_attribute))]
fn push_set_attribute(
    alloc: Global,
    around: Around<'_>,
    place: Place<'_>,
    name: &Text,
    a: Operand<'_>,
    b: Operand<'_>,
    found: &mut Found,
    body: &mut Body,
) -> Result<(), NoMem>
    ensures { OnOk result (Leaves (spec.set_attribute (the_world around.entry) (the_place place.entry) name.now (the_operand a.entry) (the_operand b.entry) (writing found.old body.old)) found.new body.new) }
{
    match instance_of(a) {
        Some((class, or_none)) => {
            push_store(
                alloc, around, place, name, a, b, class, or_none, found, body,
            )
        }
        None => push_failure(alloc, around, place, found, body),
    }
}

#[tactic(auto, unfolding(crate::specs::Lowering::value_call))]
fn push_value_call(
    alloc: Global,
    around: Around<'_>,
    place: Place<'_>,
    args: &[Operand<'_>],
    found: &mut Found,
    body: &mut Body,
) -> Result<(), NoMem>
    ensures { OnOk result (Leaves (spec.value_call (the_world around.entry) (the_place place.entry) (the_operands args.now) (writing found.old body.old)) found.new body.new) }
{
    let [a, rest @ ..] = args else {
        return Ok(());
    };
    match functions_of(*a) {
        Some((functions, or_none)) => {
            push_call_value(
                alloc, around, place, *a, functions, or_none, rest, found, body,
            )
        }
        None => push_failure(alloc, around, place, found, body),
    }
}

// A method of an instance is called, and any other is lowered as those of lists and strings are.
#[tactic(auto, unfolding(crate::specs::Lowering::method_of))]
fn push_method_of(
    alloc: Global,
    around: Around<'_>,
    op: &RowOp,
    place: Place<'_>,
    name: &Text,
    args: &[Operand<'_>],
    found: &mut Found,
    body: &mut Body,
) -> Result<(), NoMem>
    ensures { OnOk result (Leaves (spec.method_of (the_world around.entry) op.now (the_place place.entry) name.now (the_operands args.now) (writing found.old body.old)) found.new body.new) }
{
    match args {
        [] => lower_list_op(alloc, around, op, place, args, found, body),
        [a, ..] => match instance_of(*a) {
            Some((class, or_none)) => {
                push_method(
                    alloc, around, place, name, class, or_none, args, found, body,
                )
            }
            None => lower_list_op(alloc, around, op, place, args, found, body),
        },
    }
}

fn push_is_instance_on(
    alloc: Global,
    around: Around<'_>,
    op: &RowOp,
    place: Place<'_>,
    of: ClassId,
    a: Operand<'_>,
    found: &mut Found,
    body: &mut Body,
) -> Result<(), NoMem>
    ensures { OnOk result (Leaves (spec.is_instance_on (the_world around.entry) op.now (the_place place.entry) of (the_operand a.entry) (spec.instance_of (the_operand a.entry)) (writing found.old body.old)) found.new body.new) }
{
    match instance_of(a) {
        Some((class, _)) => push_is_instance(alloc, around, place, of, a, class, found, body),
        None => lower_list_op(alloc, around, op, place, &[a], found, body),
    }
}

fn push_raise_on(
    alloc: Global,
    around: Around<'_>,
    place: Place<'_>,
    a: Operand<'_>,
    found: &mut Found,
    body: &mut Body,
) -> Result<(), NoMem>
    ensures { OnOk result (Leaves (spec.raise_on (the_world around.entry) (the_place place.entry) (the_operand a.entry) (spec.instance_of (the_operand a.entry)) (writing found.old body.old)) found.new body.new) }
{
    match instance_of(a) {
        Some((_, or_none)) => push_raise(alloc, around, place, a, or_none, found, body),
        None => push_failure(alloc, around, place, found, body),
    }
}

#[tactic(auto, unfolding(crate::specs::Lowering::of_one))]
fn push_of_one(
    alloc: Global,
    around: Around<'_>,
    op: &RowOp,
    place: Place<'_>,
    a: Operand<'_>,
    found: &mut Found,
    body: &mut Body,
) -> Result<(), NoMem>
    ensures { OnOk result (Leaves (spec.of_one (the_world around.entry) op.now (the_place place.entry) (the_operand a.entry) (writing found.old body.old)) found.new body.new) }
{
    match op {
        RowOp::Attr(name) => push_attribute(alloc, around, place, name, a, found, body),
        RowOp::IsInstance(of) => {
            push_is_instance_on(alloc, around, op, place, *of, a, found, body)
        }
        RowOp::Raise => push_raise_on(alloc, around, place, a, found, body),
        _ => lower_list_op(alloc, around, op, place, &[a], found, body),
    }
}

#[tactic(auto, unfolding(crate::specs::Lowering::of_two))]
fn push_of_two(
    alloc: Global,
    around: Around<'_>,
    op: &RowOp,
    place: Place<'_>,
    a: Operand<'_>,
    b: Operand<'_>,
    found: &mut Found,
    body: &mut Body,
) -> Result<(), NoMem>
    ensures { OnOk result (Leaves (spec.of_two (the_world around.entry) op.now (the_place place.entry) (the_operand a.entry) (the_operand b.entry) (writing found.old body.old)) found.new body.new) }
{
    match op {
        RowOp::StoreAttr(name) => {
            push_set_attribute(alloc, around, place, name, a, b, found, body)
        }
        _ => lower_list_op(alloc, around, op, place, &[a, b], found, body),
    }
}

// Of any other number.
#[tactic(auto, unfolding(crate::specs::Lowering::other))]
fn push_other(
    alloc: Global,
    around: Around<'_>,
    op: &RowOp,
    place: Place<'_>,
    args: &[Operand<'_>],
    found: &mut Found,
    body: &mut Body,
) -> Result<(), NoMem>
    ensures { OnOk result (Leaves (spec.other (the_world around.entry) op.now (the_place place.entry) (the_operands args.now) (writing found.old body.old)) found.new body.new) }
{
    lower_list_op(alloc, around, op, place, args, found, body)
}

#[tactic(auto, unfolding(crate::specs::Lowering::of_some))]
fn push_of_some(
    alloc: Global,
    around: Around<'_>,
    op: &RowOp,
    place: Place<'_>,
    args: &[Operand<'_>],
    found: &mut Found,
    body: &mut Body,
) -> Result<(), NoMem>
    ensures { OnOk result (Leaves (spec.of_some (the_world around.entry) op.now (the_place place.entry) (the_operands args.now) (writing found.old body.old)) found.new body.new) }
{
    match args {
        [a] => push_of_one(alloc, around, op, place, *a, found, body),
        [a, b] => push_of_two(alloc, around, op, place, *a, *b, found, body),
        _ => push_other(alloc, around, op, place, args, found, body),
    }
}

#[tactic(auto, unfolding(crate::specs::Lowering::lowered))]
fn push_lowered(
    alloc: Global,
    around: Around<'_>,
    op: &RowOp,
    place: Place<'_>,
    args: &[Operand<'_>],
    found: &mut Found,
    body: &mut Body,
) -> Result<(), NoMem>
    ensures { OnOk result (Leaves (spec.lowered (the_world around.entry) op.now (the_place place.entry) (the_operands args.now) (writing found.old body.old)) found.new body.new) }
{
    match op {
        RowOp::New(class) => push_new(alloc, around, place, *class, args, found, body),
        RowOp::CallOf(_, function) => {
            push_call(alloc, around, place, *function, args, found, body)
        }
        RowOp::CallValue => push_value_call(alloc, around, place, args, found, body),
        RowOp::Method(name, _) => {
            push_method_of(alloc, around, op, place, name, args, found, body)
        }
        _ => push_of_some(alloc, around, op, place, args, found, body),
    }
}

/// The low-level operations of an operation. What has no lowering is noted.
pub fn lower_class_op(
    alloc: Global,
    around: Around<'_>,
    op: &RowOp,
    place: Place<'_>,
    args: &[Operand<'_>],
    found: &mut Found,
    body: &mut Body,
) -> Result<(), NoMem>
    ensures { OnOk result (Leaves (spec.lower_class_op (the_world around.entry) op.now (the_place place.entry) (the_operands args.now) (writing found.old body.old)) found.new body.new) }
{
    if is_never(args) {
        return lower_list_op(alloc, around, op, place, args, found, body);
    }
    push_lowered(alloc, around, op, place, args, found, body)
}
