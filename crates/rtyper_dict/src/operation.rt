// The lowering of operations on dicts.
ghost use Rattle.std.specs.Prelude.{◌≡◌, option_map, IfOk, OnOk};
ghost use Rattle.rtyper_op.specs.Lowering as plain;
ghost use Rattle.rtyper_data.specs.Seen.{the_around, the_operand, the_operands, the_place, writing, Leaves, Gives};
ghost use Rattle.rtyper_dict.specs.Lowering as spec;

use crate::operand::{
    dict_of, entry_in, is_dict, is_dict_or_none, key_in, list_at, push_done, there, value_in,
};
use crate::parts::{BOOL, DictShape, ONE, SIGNED, ZERO, count, unstored};
use csub_tree::{CBinary, COperand};
use ll_code::{LlOp, LlType};
use rpy_base::NoMem;
use rpy_meaning::RowOp;
use rpy_tree::CmpOp;
use rtyper_data::compare::binary;
use rtyper_data::{
    Around, Body, Found, Keyed, Operand, Place, Small, by_small, default_operand, give,
    give_nothing, given, opposite_if, variable_of,
};
use rtyper_layout::{Kind, kind_seen};
use rtyper_op::push_failure;
use std::alloc::Global;

// ---- which operations

fn is_never(args: &[Operand<'_>]) -> bool
    ensures { result ≡ plain.is_never (the_operands args.now) }
{
    for operand in args {
        match kind_seen(operand.element) {
            Kind::Never => return true,
            _ => {}
        }
    }
    false
}

fn first_may_be(args: &[Operand<'_>]) -> bool
    ensures { result ≡ spec.first_may_be (the_operands args.now) }
{
    match args {
        [] => false,
        [a, ..] => is_dict_or_none(*a),
    }
}

fn second_may_be(args: &[Operand<'_>]) -> bool
    ensures { result ≡ spec.second_may_be (the_operands args.now) }
{
    match args {
        [_, b] => is_dict_or_none(*b),
        _ => false,
    }
}

fn first_is_dict(args: &[Operand<'_>]) -> bool
    ensures { result ≡ spec.first_is_dict (the_operands args.now) }
{
    match args {
        [] => false,
        [a, ..] => is_dict(*a),
    }
}

fn only_is_dict(args: &[Operand<'_>]) -> bool
    ensures { result ≡ spec.only_is_dict (the_operands args.now) }
{
    match args {
        [a] => is_dict(*a),
        _ => false,
    }
}

fn is_within(op: CmpOp) -> bool
    ensures { result ≡ spec.is_within op }
{
    match op {
        CmpOp::Within | CmpOp::NotWithin => true,
        _ => false,
    }
}

// Where the operands come. What looks into `None` counts as one, since the key may be any value.
fn is_of_dicts(op: &RowOp, args: &[Operand<'_>]) -> bool
    ensures { result ≡ spec.is_of_dicts op.now (the_operands args.now) }
{
    match op {
        RowOp::Dict(_) => true,
        RowOp::Compare(op) => is_within(*op) && second_may_be(args),
        RowOp::Index(_) | RowOp::StoreIndex | RowOp::DeleteIndex => first_may_be(args),
        RowOp::Len | RowOp::Walk(_) => only_is_dict(args),
        RowOp::Method(_, _) => first_is_dict(args),
        _ => false,
    }
}

/// Whether an operation is one on dicts.
pub fn is_dict_op(op: &RowOp, args: &[Operand<'_>]) -> bool
    ensures { result ≡ spec.is_dict_op op.now (the_operands args.now) }
{
    !is_never(args) && is_of_dicts(op, args)
}

// ---- operations

// A display begins with no entries.
#[tactic(auto, unfolding(crate::specs::Lowering::display))]
fn push_display(
    alloc: Global,
    around: Around<'_>,
    place: Place<'_>,
    found: &mut Found,
    body: &mut Body,
) -> Result<(), NoMem>
    ensures { OnOk result (Leaves (spec.display (the_around around.entry) (the_place place.entry) (writing found.old body.old)) found.new body.new) }
{
    body.ops.push(LlOp::Step(ONE))?;
    match around.type_at(place) {
        LlType::Ptr(dict) => {
            let small = Small::Keyed(Keyed::Make(dict));
            let x = by_small(alloc, small, LlType::Ptr(dict), [], found, body)?;
            body.ops.push(LlOp::Set(place.variable, x))
        }
        _ => give_nothing(around, place, body),
    }
}

// The value of a key, which has to be there.
#[tactic(auto, unfolding(crate::specs::Lowering::index))]
fn push_index(
    alloc: Global,
    around: Around<'_>,
    place: Place<'_>,
    d: DictShape,
    a: Operand<'_>,
    b: Operand<'_>,
    found: &mut Found,
    body: &mut Body,
) -> Result<(), NoMem>
    ensures { OnOk result (Leaves (spec.index (the_around around.entry) (the_place place.entry) d (the_operand a.entry) (the_operand b.entry) (writing found.old body.old)) found.new body.new) }
{
    let keyed = Keyed::Entry(d.dict);
    let (x, at) = entry_in(alloc, around, d, a, b, keyed, found, body)?;
    let small = Small::Keyed(Keyed::Value(d.dict));
    let v = by_small(alloc, small, d.stored_value, [x, at], found, body)?;
    let v = unstored(d.stored_value, d.value, v, body)?;
    give(alloc, around, place, v, d.value, found, body)
}

#[tactic(auto, unfolding(crate::specs::Lowering::store))]
fn push_store(
    alloc: Global,
    around: Around<'_>,
    place: Place<'_>,
    d: DictShape,
    a: Operand<'_>,
    b: Operand<'_>,
    c: Operand<'_>,
    found: &mut Found,
    body: &mut Body,
) -> Result<(), NoMem>
    ensures { OnOk result (Leaves (spec.store (the_around around.entry) (the_place place.entry) d (the_operand a.entry) (the_operand b.entry) (the_operand c.entry) (writing found.old body.old)) found.new body.new) }
{
    let x = there(alloc, around, a, found, body)?;
    let k = key_in(alloc, around, d, b, found, body)?;
    let v = value_in(alloc, around, d, c, found, body)?;
    push_done(alloc, Keyed::Store(d.dict), [x, k, v], found, body)?;
    give(alloc, around, place, c.x, around.type_of(c), found, body)
}

#[tactic(auto, unfolding(crate::specs::Lowering::delete))]
fn push_delete(
    alloc: Global,
    around: Around<'_>,
    place: Place<'_>,
    d: DictShape,
    a: Operand<'_>,
    b: Operand<'_>,
    found: &mut Found,
    body: &mut Body,
) -> Result<(), NoMem>
    ensures { OnOk result (Leaves (spec.delete (the_around around.entry) (the_place place.entry) d (the_operand a.entry) (the_operand b.entry) (writing found.old body.old)) found.new body.new) }
{
    let keyed = Keyed::Entry(d.dict);
    let (x, at) = entry_in(alloc, around, d, a, b, keyed, found, body)?;
    push_done(alloc, Keyed::Remove(d.dict), [x, at], found, body)?;
    give_nothing(around, place, body)
}

// Whether a key has an entry, or has none.
#[tactic(auto, unfolding(crate::specs::Lowering::is_there))]
fn is_there(
    alloc: Global,
    around: Around<'_>,
    d: DictShape,
    reversed: bool,
    a: Operand<'_>,
    b: Operand<'_>,
    found: &mut Found,
    body: &mut Body,
) -> Result<COperand, NoMem>
    ensures { IfOk result (λ x. Gives (spec.is_there (the_around around.entry) d reversed (the_operand a.entry) (the_operand b.entry) (writing found.old body.old)) x found.new body.new) }
{
    let keyed = Keyed::Find(d.dict);
    let (_, at) = entry_in(alloc, around, d, b, a, keyed, found, body)?;
    let is_in = binary(CBinary::Ge, BOOL, at, ZERO, body)?;
    opposite_if(reversed, is_in, body)
}

#[tactic(auto, unfolding(crate::specs::Lowering::within))]
fn push_within(
    alloc: Global,
    around: Around<'_>,
    place: Place<'_>,
    d: DictShape,
    reversed: bool,
    a: Operand<'_>,
    b: Operand<'_>,
    found: &mut Found,
    body: &mut Body,
) -> Result<(), NoMem>
    ensures { OnOk result (Leaves (spec.within (the_around around.entry) (the_place place.entry) d reversed (the_operand a.entry) (the_operand b.entry) (writing found.old body.old)) found.new body.new) }
{
    let x = is_there(alloc, around, d, reversed, a, b, found, body)?;
    give(alloc, around, place, x, BOOL, found, body)
}

#[tactic(auto, unfolding(crate::specs::Lowering::len))]
fn push_len(
    alloc: Global,
    around: Around<'_>,
    place: Place<'_>,
    d: DictShape,
    a: Operand<'_>,
    found: &mut Found,
    body: &mut Body,
) -> Result<(), NoMem>
    ensures { OnOk result (Leaves (spec.len (the_around around.entry) (the_place place.entry) d (the_operand a.entry) (writing found.old body.old)) found.new body.new) }
{
    let x = there(alloc, around, a, found, body)?;
    let dict = variable_of(x, LlType::Ptr(d.dict), body)?;
    let length = body.fresh(SIGNED)?;
    body.ops.push(count(length, d, dict))?;
    let length = COperand::Var(length);
    give(alloc, around, place, length, SIGNED, found, body)
}

// ---- methods

// What stands for a key that is not there.
fn other_value(
    alloc: Global,
    around: Around<'_>,
    kind: LlType,
    other: Option<Operand<'_>>,
    found: &mut Found,
    body: &mut Body,
) -> Result<COperand, NoMem>
    ensures { IfOk result (λ x. Gives (spec.other_value (the_around around.entry) kind (option_map the_operand other.entry) (writing found.old body.old)) x found.new body.new) }
{
    match other {
        None => Ok(default_operand(kind)),
        Some(c) => given(alloc, around, c, kind, found, body),
    }
}

#[tactic(auto, unfolding(crate::specs::Lowering::get_as))]
fn push_get_as(
    alloc: Global,
    around: Around<'_>,
    place: Place<'_>,
    d: DictShape,
    x: COperand,
    b: Operand<'_>,
    other: Option<Operand<'_>>,
    kind: LlType,
    found: &mut Found,
    body: &mut Body,
) -> Result<(), NoMem>
    ensures { OnOk result (Leaves (spec.get_as (the_around around.entry) (the_place place.entry) d x (the_operand b.entry) (option_map the_operand other.entry) kind (writing found.old body.old)) found.new body.new) }
{
    let k = key_in(alloc, around, d, b, found, body)?;
    let v = other_value(alloc, around, kind, other, found, body)?;
    let small = Small::Keyed(Keyed::Get(d.dict, kind));
    let got = by_small(alloc, small, kind, [x, k, v], found, body)?;
    body.ops.push(LlOp::Set(place.variable, got))
}

// The value of a key, or another.
#[tactic(auto, unfolding(crate::specs::Lowering::get))]
fn push_get(
    alloc: Global,
    around: Around<'_>,
    place: Place<'_>,
    d: DictShape,
    a: Operand<'_>,
    b: Operand<'_>,
    other: Option<Operand<'_>>,
    found: &mut Found,
    body: &mut Body,
) -> Result<(), NoMem>
    ensures { OnOk result (Leaves (spec.get (the_around around.entry) (the_place place.entry) d (the_operand a.entry) (the_operand b.entry) (option_map the_operand other.entry) (writing found.old body.old)) found.new body.new) }
{
    let x = there(alloc, around, a, found, body)?;
    match around.type_at(place) {
        LlType::Void => Ok(()),
        kind => push_get_as(alloc, around, place, d, x, b, other, kind, found, body),
    }
}

// A list of the entries.
#[tactic(auto, unfolding(crate::specs::Lowering::list))]
fn push_list(
    alloc: Global,
    around: Around<'_>,
    place: Place<'_>,
    keyed: Keyed,
    a: Operand<'_>,
    found: &mut Found,
    body: &mut Body,
) -> Result<(), NoMem>
    ensures { OnOk result (Leaves (spec.list (the_around around.entry) (the_place place.entry) keyed (the_operand a.entry) (writing found.old body.old)) found.new body.new) }
{
    let x = there(alloc, around, a, found, body)?;
    match around.type_at(place) {
        LlType::Ptr(list) => {
            let small = Small::Keyed(keyed);
            let made = by_small(alloc, small, LlType::Ptr(list), [x], found, body)?;
            body.ops.push(LlOp::Set(place.variable, made))
        }
        _ => give_nothing(around, place, body),
    }
}

fn is_either(name: &[u8], one: &[u8], two: &[u8]) -> bool
    ensures { result ≡ spec.is_either name.now one.now two.now }
{
    name == one || name == two
}

// The graph of a method that makes a list.
fn list_named(name: &[u8], dict: u64, list: u64) -> Option<Keyed>
    ensures { result ≡ spec.list_named name.now dict list }
{
    if is_either(name, b"keys", b"iterkeys") {
        Some(Keyed::Keys(dict, list))
    } else if is_either(name, b"values", b"itervalues") {
        Some(Keyed::Values(dict, list))
    } else if is_either(name, b"items", b"iteritems") {
        Some(Keyed::Items(dict, list))
    } else {
        None
    }
}

#[tactic(auto, unfolding(crate::specs::Lowering::method_of_one))]
fn push_method_of_one(
    alloc: Global,
    around: Around<'_>,
    place: Place<'_>,
    d: DictShape,
    name: &[u8],
    a: Operand<'_>,
    found: &mut Found,
    body: &mut Body,
) -> Result<(), NoMem>
    ensures { OnOk result (Leaves (spec.method_of_one (the_around around.entry) (the_place place.entry) d name.now (the_operand a.entry) (writing found.old body.old)) found.new body.new) }
{
    match list_named(name, d.dict, list_at(around, place)) {
        None => Ok(()),
        Some(keyed) => push_list(alloc, around, place, keyed, a, found, body),
    }
}

#[tactic(auto, unfolding(crate::specs::Lowering::get_if))]
fn push_get_if(
    alloc: Global,
    around: Around<'_>,
    place: Place<'_>,
    d: DictShape,
    name: &[u8],
    a: Operand<'_>,
    b: Operand<'_>,
    other: Option<Operand<'_>>,
    found: &mut Found,
    body: &mut Body,
) -> Result<(), NoMem>
    ensures { OnOk result (Leaves (spec.get_if (the_around around.entry) (the_place place.entry) d name.now (the_operand a.entry) (the_operand b.entry) (option_map the_operand other.entry) (writing found.old body.old)) found.new body.new) }
{
    if name == b"get".as_slice() {
        push_get(alloc, around, place, d, a, b, other, found, body)
    } else {
        Ok(())
    }
}

// ---- operations whose first operand is a dict

#[tactic(auto, unfolding(crate::specs::Lowering::of_one))]
fn push_of_one(
    alloc: Global,
    around: Around<'_>,
    op: &RowOp,
    place: Place<'_>,
    d: DictShape,
    a: Operand<'_>,
    found: &mut Found,
    body: &mut Body,
) -> Result<(), NoMem>
    ensures { OnOk result (Leaves (spec.of_one (the_around around.entry) op.now (the_place place.entry) d (the_operand a.entry) (writing found.old body.old)) found.new body.new) }
{
    match op {
        RowOp::Len => push_len(alloc, around, place, d, a, found, body),
        RowOp::Walk(_) => {
            let keyed = Keyed::Keys(d.dict, list_at(around, place));
            push_list(alloc, around, place, keyed, a, found, body)
        }
        RowOp::Method(name, _) => {
            push_method_of_one(alloc, around, place, d, name.bytes(), a, found, body)
        }
        _ => Ok(()),
    }
}

#[tactic(auto, unfolding(crate::specs::Lowering::of_two))]
fn push_of_two(
    alloc: Global,
    around: Around<'_>,
    op: &RowOp,
    place: Place<'_>,
    d: DictShape,
    a: Operand<'_>,
    b: Operand<'_>,
    found: &mut Found,
    body: &mut Body,
) -> Result<(), NoMem>
    ensures { OnOk result (Leaves (spec.of_two (the_around around.entry) op.now (the_place place.entry) d (the_operand a.entry) (the_operand b.entry) (writing found.old body.old)) found.new body.new) }
{
    match op {
        RowOp::Index(_) => push_index(alloc, around, place, d, a, b, found, body),
        RowOp::DeleteIndex => push_delete(alloc, around, place, d, a, b, found, body),
        RowOp::Method(name, _) => {
            push_get_if(
                alloc,
                around,
                place,
                d,
                name.bytes(),
                a,
                b,
                None,
                found,
                body,
            )
        }
        _ => Ok(()),
    }
}

#[tactic(auto, unfolding(crate::specs::Lowering::of_three))]
fn push_of_three(
    alloc: Global,
    around: Around<'_>,
    op: &RowOp,
    place: Place<'_>,
    d: DictShape,
    a: Operand<'_>,
    b: Operand<'_>,
    c: Operand<'_>,
    found: &mut Found,
    body: &mut Body,
) -> Result<(), NoMem>
    ensures { OnOk result (Leaves (spec.of_three (the_around around.entry) op.now (the_place place.entry) d (the_operand a.entry) (the_operand b.entry) (the_operand c.entry) (writing found.old body.old)) found.new body.new) }
{
    match op {
        RowOp::StoreIndex => push_store(alloc, around, place, d, a, b, c, found, body),
        RowOp::Method(name, _) => {
            push_get_if(
                alloc,
                around,
                place,
                d,
                name.bytes(),
                a,
                b,
                Some(c),
                found,
                body,
            )
        }
        _ => Ok(()),
    }
}

#[tactic(auto, unfolding(crate::specs::Lowering::of_dict))]
fn push_of_dict(
    alloc: Global,
    around: Around<'_>,
    op: &RowOp,
    place: Place<'_>,
    d: DictShape,
    args: &[Operand<'_>],
    found: &mut Found,
    body: &mut Body,
) -> Result<(), NoMem>
    ensures { OnOk result (Leaves (spec.of_dict (the_around around.entry) op.now (the_place place.entry) d (the_operands args.now) (writing found.old body.old)) found.new body.new) }
{
    match args {
        [a] => push_of_one(alloc, around, op, place, d, *a, found, body),
        [a, b] => push_of_two(alloc, around, op, place, d, *a, *b, found, body),
        [a, b, c] => push_of_three(alloc, around, op, place, d, *a, *b, *c, found, body),
        _ => Ok(()),
    }
}

// What is no dict fails.
#[tactic(auto, unfolding(crate::specs::Lowering::of_first))]
fn push_of_first(
    alloc: Global,
    around: Around<'_>,
    op: &RowOp,
    place: Place<'_>,
    args: &[Operand<'_>],
    found: &mut Found,
    body: &mut Body,
) -> Result<(), NoMem>
    ensures { OnOk result (Leaves (spec.of_first (the_around around.entry) op.now (the_place place.entry) (the_operands args.now) (writing found.old body.old)) found.new body.new) }
{
    match args {
        [] => Ok(()),
        [a, ..] => match dict_of(around, *a) {
            None => push_failure(alloc, around, place, found, body),
            Some(d) => push_of_dict(alloc, around, op, place, d, args, found, body),
        },
    }
}

// ---- operations whose second operand is one

fn is_reversed(op: CmpOp) -> bool
    ensures { result ≡ spec.is_reversed op }
{
    match op {
        CmpOp::NotWithin => true,
        _ => false,
    }
}

#[tactic(auto, unfolding(crate::specs::Lowering::of_second))]
fn push_of_second(
    alloc: Global,
    around: Around<'_>,
    op: CmpOp,
    place: Place<'_>,
    a: Operand<'_>,
    b: Operand<'_>,
    found: &mut Found,
    body: &mut Body,
) -> Result<(), NoMem>
    ensures { OnOk result (Leaves (spec.of_second (the_around around.entry) op (the_place place.entry) (the_operand a.entry) (the_operand b.entry) (writing found.old body.old)) found.new body.new) }
{
    let reversed = is_reversed(op);
    match dict_of(around, b) {
        None => push_failure(alloc, around, place, found, body),
        Some(d) => push_within(alloc, around, place, d, reversed, a, b, found, body),
    }
}

// ---- all operations

#[tactic(auto, unfolding(crate::specs::Lowering::compare))]
fn push_compare(
    alloc: Global,
    around: Around<'_>,
    op: &RowOp,
    compared: CmpOp,
    place: Place<'_>,
    args: &[Operand<'_>],
    found: &mut Found,
    body: &mut Body,
) -> Result<(), NoMem>
    ensures { OnOk result (Leaves (spec.compare (the_around around.entry) op.now compared (the_place place.entry) (the_operands args.now) (writing found.old body.old)) found.new body.new) }
{
    match args {
        [a, b] => push_of_second(alloc, around, compared, place, *a, *b, found, body),
        _ => push_of_first(alloc, around, op, place, args, found, body),
    }
}

/// The low-level operations of an operation on dicts.
#[tactic(auto, unfolding(crate::specs::Lowering::lower_dict_op))]
pub fn lower_dict_op(
    alloc: Global,
    around: Around<'_>,
    op: &RowOp,
    place: Place<'_>,
    args: &[Operand<'_>],
    found: &mut Found,
    body: &mut Body,
) -> Result<(), NoMem>
    ensures { OnOk result (Leaves (spec.lower_dict_op (the_around around.entry) op.now (the_place place.entry) (the_operands args.now) (writing found.old body.old)) found.new body.new) }
{
    match op {
        RowOp::Dict(_) => push_display(alloc, around, place, found, body),
        RowOp::Compare(compared) => {
            push_compare(alloc, around, op, *compared, place, args, found, body)
        }
        _ => push_of_first(alloc, around, op, place, args, found, body),
    }
}
