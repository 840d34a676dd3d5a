// Calls of classes, methods and function values.
ghost use Rattle.std.specs.Prelude.{◌≡◌, ◌∷◌, IfOk, OnOk};
ghost use Rattle.rtyper_data.specs.Seen.{the_around, the_operand, the_operands, the_place, writing, Leaves, Writes};
ghost use Rattle.rtyper_class.specs.Calls as spec;
ghost use Rattle.rtyper_class.specs.Seen.{the_world};

use crate::instance::builtin_instance;
use crate::vtable::names_of;
use csub_tree::COperand;
use ll_code::{LlOp, LlType, VarId};
use rpy_base::{NoMem, Seq, Text};
use rpy_tree::{ClassId, FunId};
use rtyper_data::{
    Around, Body, Found, Operand, Place, Small, give, give_nothing, land, landing, operands,
    present, small_number, variable_of,
};
use rtyper_layout::{class_at, repr, repr_seen};
use rtyper_op::{arguments, push_call};
use std::alloc::Global;

/// The builtin exception classes come first.
pub const BUILTIN_CLASSES: ClassId = 13;

// ---- through function values

// The types of the parameters, those without a type aside.
fn param_types(alloc: Global, around: Around<'_>, function: usize) -> Result<Seq<LlType>, NoMem>
    ensures { IfOk result (λ kinds. kinds ≡ spec.param_types (the_around around.entry) function) }
{
    let mut kinds = Seq::new(alloc);
    let Some(params) = around.params.get(function) else {
        return Ok(kinds);
    };
    for element in params.as_slice() {
        let kind = repr(around.layout, element);
        if kind != LlType::Void {
            kinds.push(kind)?;
        }
    }
    Ok(kinds)
}

// A call of a function value that is one of several functions like this one.
#[tactic(auto, unfolding(crate::specs::Calls::indirect))]
fn push_indirect(
    alloc: Global,
    around: Around<'_>,
    place: Place<'_>,
    value: VarId,
    like: FunId,
    args: &[Operand<'_>],
    found: &mut Found,
    body: &mut Body,
) -> Result<(), NoMem>
    ensures { OnOk result (Leaves (spec.indirect (the_around around.entry) (the_place place.entry) value like (the_operands args.now) (writing found.old body.old)) found.new body.new) }
{
    let at = like as usize;
    let kinds = param_types(alloc, around, at)?;
    let xs = arguments(alloc, around, at, args, found, body)?;
    let gives = repr_seen(around.layout, around.results.get(at));
    push_indirect_giving(alloc, around, place, value, kinds, gives, xs, found, body)
}

#[tactic(auto, unfolding(crate::specs::Calls::indirect_giving))]
fn push_indirect_giving(
    alloc: Global,
    around: Around<'_>,
    place: Place<'_>,
    value: VarId,
    kinds: Seq<LlType>,
    gives: LlType,
    xs: Seq<COperand>,
    found: &mut Found,
    body: &mut Body,
) -> Result<(), NoMem>
    ensures { OnOk result (Leaves (spec.indirect_giving (the_around around.entry) (the_place place.entry) value kinds gives (xs, (writing found.old body.old))) found.new body.new) }
{
    match gives {
        LlType::Void => {
            body.ops
                .push(LlOp::CallFn(None, LlType::Void, kinds, value, xs))?;
            give_nothing(around, place, body)
        }
        gives => {
            let into = landing(around, place, gives, body)?;
            body.ops
                .push(LlOp::CallFn(Some(into), gives, kinds, value, xs))?;
            land(alloc, around, place, into, gives, found, body)
        }
    }
}

/// A call of a value that is one of these functions, or `None`.
#[tactic(auto, unfolding(crate::specs::Calls::call_value))]
pub fn push_call_value(
    alloc: Global,
    around: Around<'_>,
    place: Place<'_>,
    a: Operand<'_>,
    functions: &[FunId],
    or_none: bool,
    args: &[Operand<'_>],
    found: &mut Found,
    body: &mut Body,
) -> Result<(), NoMem>
    ensures { OnOk result (Leaves (spec.call_value (the_around around.entry) (the_place place.entry) (the_operand a.entry) functions.now or_none (the_operands args.now) (writing found.old body.old)) found.new body.new) }
{
    let x = present(alloc, around, a, or_none, found, body)?;
    match functions {
        [] => Ok(()),
        [function] => push_call(alloc, around, place, *function, args, found, body),
        [like, ..] => {
            let value = variable_of(x, LlType::Fn, body)?;
            push_indirect(alloc, around, place, value, *like, args, found, body)
        }
    }
}

// ---- methods

/// What a method call reaches: nothing, one function, or several like this one.
#[derive(Clone, Copy)]
pub enum Reached {
    Nothing,
    One(FunId),
    Several(FunId),
}

fn with(reached: Reached, function: Option<FunId>) -> Reached
    ensures { result ≡ spec.also reached function }
{
    match (reached, function) {
        (_, None) => reached,
        (Reached::Nothing, Some(function)) => Reached::One(function),
        (Reached::One(first), Some(function)) => {
            if first == function {
                reached
            } else {
                Reached::Several(first)
            }
        }
        (Reached::Several(_), Some(_)) => reached,
    }
}

// With the method of a class, where that is below this one.
fn with_class(
    around: Around<'_>,
    class: ClassId,
    name: &Text,
    below: ClassId,
    reached: Reached,
) -> Reached
    ensures { result ≡ spec.also_of (the_world around.entry) class name.now below reached }
{
    if around.classes.below(below, class) {
        with(reached, around.classes.method(below, name))
    } else {
        reached
    }
}

// The methods that instances of a class, or of one below it, have under a name.
#[tactic(auto, unfolding(crate::specs::Calls::reached_by))]
fn reached_by(around: Around<'_>, class: ClassId, name: &Text) -> Reached
    ensures { result ≡ spec.reached_by (the_world around.entry) class name.now }
{
    let mut reached = Reached::Nothing;
    let mut number: usize = 0;
    for is_made in around.made {
        if *is_made {
            reached = with_class(around, class, name, class_at(number), reached);
        }
        number += 1;
    }
    reached
}

// The place of a method in the vtables of a family.
fn slot_of(names: &[Text], name: &[u8]) -> u64
    ensures { result ≡ spec.slot_from 1 names.now name.now }
{
    let mut slot: u64 = 1;
    for each in names {
        if each.bytes() == name {
            return slot;
        }
        slot = slot.saturating_add(1);
    }
    0
}

// The function that the vtable of an instance has under a name.
#[tactic(auto, unfolding(crate::specs::Calls::looked_up))]
fn looked_up(
    around: Around<'_>,
    class: ClassId,
    name: &Text,
    instance: VarId,
    body: &mut Body,
) -> Result<VarId, NoMem>
    ensures { IfOk result (λ f. Writes (spec.looked_up (the_world around.entry) class name.now instance body.old) f body.new) }
{
    let function = body.fresh(LlType::Fn)?;
    let Some(laid) = around.layout.laid(class) else {
        return Ok(function);
    };
    let slot = slot_of(names_of(around, laid.vtable), name.bytes());
    let vtable = body.fresh(LlType::Ptr(laid.vtable))?;
    body.ops
        .push(LlOp::GetField(vtable, laid.root, instance, 0))?;
    body.ops
        .push(LlOp::GetField(function, laid.vtable, vtable, slot))?;
    Ok(function)
}

fn with_first<'a>(
    alloc: Global,
    first: Operand<'a>,
    rest: &[Operand<'a>],
) -> Result<Vec<Operand<'a>>, NoMem>
    ensures { IfOk result (λ all. the_operands all.items ≡ the_operand first.entry ∷ the_operands rest.now) }
{
    let mut all = Vec::new(alloc);
    all.push(first)?;
    for operand in rest {
        all.push(*operand)?;
    }
    Ok(all)
}

/// A method call on an instance of the class, or `None`. The receiver is the first operand.
#[tactic(auto, unfolding(crate::specs::Calls::method))]
pub fn push_method(
    alloc: Global,
    around: Around<'_>,
    place: Place<'_>,
    name: &Text,
    class: ClassId,
    or_none: bool,
    args: &[Operand<'_>],
    found: &mut Found,
    body: &mut Body,
) -> Result<(), NoMem>
    ensures { OnOk result (Leaves (spec.method (the_world around.entry) (the_place place.entry) name.now class or_none (the_operands args.now) (writing found.old body.old)) found.new body.new) }
{
    let [a, rest @ ..] = args else {
        return Ok(());
    };
    let x = present(alloc, around, *a, or_none, found, body)?;
    let receiver = Operand {
        x,
        element: a.element,
    };
    let all = with_first(alloc, receiver, rest)?;
    match reached_by(around, class, name) {
        Reached::Nothing => Ok(()),
        Reached::One(function) => push_call(alloc, around, place, function, &all, found, body),
        Reached::Several(like) => {
            let instance = variable_of(x, around.type_of(*a), body)?;
            let value = looked_up(around, class, name, instance, body)?;
            push_indirect(alloc, around, place, value, like, &all, found, body)
        }
    }
}

// ---- classes

// The nearest `__init__`, of the new instance and the arguments. What it gives is dropped.
#[tactic(auto, unfolding(crate::specs::Calls::call_init))]
fn push_init(
    alloc: Global,
    around: Around<'_>,
    instance: VarId,
    place: Place<'_>,
    init: FunId,
    args: &[Operand<'_>],
    found: &mut Found,
    body: &mut Body,
) -> Result<(), NoMem>
    ensures { OnOk result (Leaves (spec.call_init (the_around around.entry) instance (the_place place.entry) init (the_operands args.now) (writing found.old body.old)) found.new body.new) }
{
    let first = Operand {
        x: COperand::Var(instance),
        element: place.element,
    };
    let all = with_first(alloc, first, args)?;
    let number = match around.numbers.get(init as usize) {
        None => 0,
        Some(number) => *number,
    };
    let xs = arguments(alloc, around, init as usize, &all, found, body)?;
    let gives = repr_seen(around.layout, around.results.get(init as usize));
    push_init_call(number, gives, xs, body)
}

#[tactic(auto, unfolding(crate::specs::Calls::init_giving))]
fn push_init_call(
    number: u64,
    gives: LlType,
    xs: Seq<COperand>,
    body: &mut Body,
) -> Result<(), NoMem>
    ensures { OnOk result (body.new ≡ spec.init_giving number gives xs body.old) }
{
    match gives {
        LlType::Void => body.ops.push(LlOp::Call(None, number, xs)),
        gives => {
            let into = body.fresh(gives)?;
            body.ops.push(LlOp::Call(Some(into), number, xs))
        }
    }
}

/// Raises an instance of an exception class, or `None`. Nothing comes behind it, so the result is set
/// before.
#[tactic(auto, unfolding(crate::specs::Calls::raise))]
pub fn push_raise(
    alloc: Global,
    around: Around<'_>,
    place: Place<'_>,
    a: Operand<'_>,
    or_none: bool,
    found: &mut Found,
    body: &mut Body,
) -> Result<(), NoMem>
    ensures { OnOk result (Leaves (spec.raise (the_around around.entry) (the_place place.entry) (the_operand a.entry) or_none (writing found.old body.old)) found.new body.new) }
{
    give_nothing(around, place, body)?;
    let kind = around.type_of(a);
    let x = present(alloc, around, a, or_none, found, body)?;
    let exception = variable_of(x, kind, body)?;
    body.ops.push(LlOp::Raise(exception))
}

/// A call of a class.
#[tactic(auto, unfolding(crate::specs::Calls::new))]
pub fn push_new(
    alloc: Global,
    around: Around<'_>,
    place: Place<'_>,
    class: ClassId,
    args: &[Operand<'_>],
    found: &mut Found,
    body: &mut Body,
) -> Result<(), NoMem>
    ensures { OnOk result (Leaves (spec.new (the_world around.entry) (the_place place.entry) class (the_operands args.now) (writing found.old body.old)) found.new body.new) }
{
    let Some(laid) = around.layout.laid(class) else {
        return Ok(());
    };
    if class < BUILTIN_CLASSES {
        let x = builtin_instance(around, class);
        return give(alloc, around, place, x, LlType::Ptr(laid.root), found, body);
    }
    let number = small_number(Small::New(class), found)?;
    let instance = landing(around, place, LlType::Ptr(laid.root), body)?;
    let xs: [COperand; 0] = [];
    body.ops
        .push(LlOp::Call(Some(instance), number, operands(alloc, xs)?))?;
    match around.classes.init(class) {
        None => Ok(()),
        Some(init) => push_init(alloc, around, instance, place, init, args, found, body),
    }
}
