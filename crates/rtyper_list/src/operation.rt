// The lowering of operations on lists. Where no operand is a list, an operation is lowered as others are.
ghost use Rattle.std.specs.Prelude.{◌≡◌, ◌∷◌, [], IfOk, OnOk};
ghost use Rattle.rtyper_op.specs.Lowering as plain;
ghost use Rattle.rtyper_data.specs.Seen.{the_around, the_operand, the_operands, the_place, writing, Leaves};
ghost use Rattle.rtyper_list.specs.Lowering as spec;

use crate::display::{
    push_but_last, push_comprehension, push_concat, push_display, push_repeat, push_slice,
};
use crate::item::{
    push_delete, push_has_item, push_index, push_len, push_store, push_walk, push_walk_item,
    push_within,
};
use crate::method::{push_append, push_extend, push_join, push_method, push_split};
use crate::operand::{is_list, is_none};
use rpy_base::NoMem;
use rpy_meaning::RowOp;
use rpy_tree::{BinOp, CmpOp};
use rtyper_data::{Around, Body, Found, Operand, Place};
use rtyper_layout::{Kind, is_text_or_none, kind_seen};
use rtyper_op::{lower_op, push_failure};
use std::alloc::Global;

fn is_never(args: &[Operand<'_>]) -> bool
    ensures { result ≡ plain.is_never (the_operands args.now) }
{
    for operand in args {
        match kind_seen(operand.element) {
            Kind::Never => return true,
            _ => {}
        }
    }
    false
}

// ---- what needs another value and meets `None`

fn first_is_none(args: &[Operand<'_>]) -> bool
    ensures { result ≡ spec.first_is_none (the_operands args.now) }
{
    match args {
        [] => false,
        [a, ..] => is_none(*a),
    }
}

fn only_second_is_none(args: &[Operand<'_>]) -> bool
    ensures { result ≡ spec.only_second_is_none (the_operands args.now) }
{
    match args {
        [a, b] => is_none(*b) && !is_none(*a),
        _ => false,
    }
}

fn fails(op: &RowOp, args: &[Operand<'_>]) -> bool
    ensures { result ≡ spec.fails op.now (the_operands args.now) }
{
    match op {
        RowOp::StoreIndex | RowOp::DeleteIndex => first_is_none(args),
        RowOp::Compare(CmpOp::Within) | RowOp::Compare(CmpOp::NotWithin) => {
            only_second_is_none(args)
        }
        _ => false,
    }
}

// ---- methods, also those of strings that take or make lists

fn first_is_list(args: &[Operand<'_>]) -> bool
    ensures { result ≡ spec.first_is_list (the_operands args.now) }
{
    match args {
        [] => false,
        [a, ..] => is_list(*a),
    }
}

fn joins(a: Operand<'_>, b: Operand<'_>) -> bool
    ensures { result ≡ spec.joins (the_operand a.entry) (the_operand b.entry) }
{
    is_list(b) && is_text_or_none(kind_seen(a.element)) && !is_none(a)
}

fn is_byte(a: Operand<'_>) -> bool
    ensures { result ≡ spec.is_byte (the_operand a.entry) }
{
    match kind_seen(a.element) {
        Kind::Byte => true,
        _ => false,
    }
}

fn splits(a: Operand<'_>, b: Operand<'_>) -> bool
    ensures { result ≡ spec.splits (the_operand a.entry) (the_operand b.entry) }
{
    is_byte(b) && !is_none(a) && !is_list(a)
}

#[tactic(auto, unfolding(crate::specs::Lowering::method_of_list))]
fn push_method_of_list(
    alloc: Global,
    around: Around<'_>,
    op: &RowOp,
    place: Place<'_>,
    name: &[u8],
    args: &[Operand<'_>],
    found: &mut Found,
    body: &mut Body,
) -> Result<(), NoMem>
    ensures { OnOk result (Leaves (spec.method_of_list (the_around around.entry) op.now (the_place place.entry) name.now (the_operands args.now) (writing found.old body.old)) found.new body.new) }
{
    if first_is_list(args) {
        push_method(alloc, around, place, name, args, found, body)
    } else {
        lower_op(alloc, around, op, place, args, found, body)
    }
}

#[tactic(auto, unfolding(crate::specs::Lowering::joined))]
fn push_joined(
    alloc: Global,
    around: Around<'_>,
    op: &RowOp,
    place: Place<'_>,
    a: Operand<'_>,
    b: Operand<'_>,
    found: &mut Found,
    body: &mut Body,
) -> Result<(), NoMem>
    ensures { OnOk result (Leaves (spec.joined (the_around around.entry) op.now (the_place place.entry) (the_operand a.entry) (the_operand b.entry) (writing found.old body.old)) found.new body.new) }
{
    if joins(a, b) {
        push_join(alloc, around, place, a, b, found, body)
    } else {
        lower_op(alloc, around, op, place, &[a, b], found, body)
    }
}

#[tactic(auto, unfolding(crate::specs::Lowering::split_by))]
fn push_split_by(
    alloc: Global,
    around: Around<'_>,
    op: &RowOp,
    place: Place<'_>,
    a: Operand<'_>,
    b: Operand<'_>,
    found: &mut Found,
    body: &mut Body,
) -> Result<(), NoMem>
    ensures { OnOk result (Leaves (spec.split_by (the_around around.entry) op.now (the_place place.entry) (the_operand a.entry) (the_operand b.entry) (writing found.old body.old)) found.new body.new) }
{
    if splits(a, b) {
        push_split(alloc, around, place, a, b.x, found, body)
    } else {
        lower_op(alloc, around, op, place, &[a, b], found, body)
    }
}

#[tactic(auto, unfolding(crate::specs::Lowering::method_of_two))]
fn push_method_of_two(
    alloc: Global,
    around: Around<'_>,
    op: &RowOp,
    place: Place<'_>,
    name: &[u8],
    a: Operand<'_>,
    b: Operand<'_>,
    found: &mut Found,
    body: &mut Body,
) -> Result<(), NoMem>
    ensures { OnOk result (Leaves (spec.method_of_two (the_around around.entry) op.now (the_place place.entry) name.now (the_operand a.entry) (the_operand b.entry) (writing found.old body.old)) found.new body.new) }
{
    if name == b"join".as_slice() {
        push_joined(alloc, around, op, place, a, b, found, body)
    } else if name == b"split".as_slice() {
        push_split_by(alloc, around, op, place, a, b, found, body)
    } else {
        push_method_of_list(alloc, around, op, place, name, &[a, b], found, body)
    }
}

#[tactic(auto, unfolding(crate::specs::Lowering::method_of))]
fn push_method_of(
    alloc: Global,
    around: Around<'_>,
    op: &RowOp,
    place: Place<'_>,
    name: &[u8],
    args: &[Operand<'_>],
    found: &mut Found,
    body: &mut Body,
) -> Result<(), NoMem>
    ensures { OnOk result (Leaves (spec.method_of (the_around around.entry) op.now (the_place place.entry) name.now (the_operands args.now) (writing found.old body.old)) found.new body.new) }
{
    match args {
        [a, b] => push_method_of_two(alloc, around, op, place, name, *a, *b, found, body),
        _ => push_method_of_list(alloc, around, op, place, name, args, found, body),
    }
}

// ---- operations whose first operand is a list

#[tactic(auto, unfolding(crate::specs::Lowering::first_of_one))]
fn push_first_of_one(
    alloc: Global,
    around: Around<'_>,
    op: &RowOp,
    place: Place<'_>,
    a: Operand<'_>,
    found: &mut Found,
    body: &mut Body,
) -> Result<(), NoMem>
    ensures { OnOk result (Leaves (spec.first_of_one (the_around around.entry) op.now (the_place place.entry) (the_operand a.entry) (writing found.old body.old)) found.new body.new) }
{
    match op {
        RowOp::Len => push_len(alloc, around, place, a, found, body),
        RowOp::AllButLast(_) => push_but_last(alloc, around, place, a, found, body),
        RowOp::Walk(_) => push_walk(alloc, around, place, a, found, body),
        _ => lower_op(alloc, around, op, place, &[a], found, body),
    }
}

// A sum of a list and `None` fails.
#[tactic(auto, unfolding(crate::specs::Lowering::sum))]
fn push_sum(
    alloc: Global,
    around: Around<'_>,
    place: Place<'_>,
    a: Operand<'_>,
    b: Operand<'_>,
    found: &mut Found,
    body: &mut Body,
) -> Result<(), NoMem>
    ensures { OnOk result (Leaves (spec.sum (the_around around.entry) (the_place place.entry) (the_operand a.entry) (the_operand b.entry) (writing found.old body.old)) found.new body.new) }
{
    let are_lists = is_list(a) && is_list(b);
    if are_lists {
        push_concat(alloc, around, place, a, b, found, body)
    } else {
        push_failure(alloc, around, place, found, body)
    }
}

// ---- operations whose second operand is a list

#[tactic(auto, unfolding(crate::specs::Lowering::within_or))]
fn push_within_or(
    alloc: Global,
    around: Around<'_>,
    op: &RowOp,
    place: Place<'_>,
    reversed: bool,
    a: Operand<'_>,
    b: Operand<'_>,
    found: &mut Found,
    body: &mut Body,
) -> Result<(), NoMem>
    ensures { OnOk result (Leaves (spec.within_or (the_around around.entry) op.now (the_place place.entry) reversed (the_operand a.entry) (the_operand b.entry) (writing found.old body.old)) found.new body.new) }
{
    if is_list(b) {
        push_within(alloc, around, place, reversed, a, b, found, body)
    } else {
        lower_op(alloc, around, op, place, &[a, b], found, body)
    }
}

#[tactic(auto, unfolding(crate::specs::Lowering::sum_or))]
fn push_sum_or(
    alloc: Global,
    around: Around<'_>,
    op: &RowOp,
    place: Place<'_>,
    a: Operand<'_>,
    b: Operand<'_>,
    found: &mut Found,
    body: &mut Body,
) -> Result<(), NoMem>
    ensures { OnOk result (Leaves (spec.sum_or (the_around around.entry) op.now (the_place place.entry) (the_operand a.entry) (the_operand b.entry) (writing found.old body.old)) found.new body.new) }
{
    let fails = is_list(b) && is_none(a);
    if fails {
        push_failure(alloc, around, place, found, body)
    } else {
        lower_op(alloc, around, op, place, &[a, b], found, body)
    }
}

#[tactic(auto, unfolding(crate::specs::Lowering::second_of_two))]
fn push_second_of_two(
    alloc: Global,
    around: Around<'_>,
    op: &RowOp,
    place: Place<'_>,
    a: Operand<'_>,
    b: Operand<'_>,
    found: &mut Found,
    body: &mut Body,
) -> Result<(), NoMem>
    ensures { OnOk result (Leaves (spec.second_of_two (the_around around.entry) op.now (the_place place.entry) (the_operand a.entry) (the_operand b.entry) (writing found.old body.old)) found.new body.new) }
{
    match op {
        RowOp::Compare(CmpOp::Within) => {
            push_within_or(alloc, around, op, place, false, a, b, found, body)
        }
        RowOp::Compare(CmpOp::NotWithin) => {
            push_within_or(alloc, around, op, place, true, a, b, found, body)
        }
        RowOp::Binary(BinOp::Add, _) | RowOp::AddTo => {
            push_sum_or(alloc, around, op, place, a, b, found, body)
        }
        _ => lower_op(alloc, around, op, place, &[a, b], found, body),
    }
}

#[tactic(auto, unfolding(crate::specs::Lowering::first_of_two))]
fn push_first_of_two(
    alloc: Global,
    around: Around<'_>,
    op: &RowOp,
    place: Place<'_>,
    a: Operand<'_>,
    b: Operand<'_>,
    found: &mut Found,
    body: &mut Body,
) -> Result<(), NoMem>
    ensures { OnOk result (Leaves (spec.first_of_two (the_around around.entry) op.now (the_place place.entry) (the_operand a.entry) (the_operand b.entry) (writing found.old body.old)) found.new body.new) }
{
    match op {
        RowOp::Index(_) => push_index(alloc, around, place, a, b.x, found, body),
        RowOp::DeleteIndex => push_delete(alloc, around, place, a, b.x, found, body),
        RowOp::Binary(BinOp::Add, _) => push_sum(alloc, around, place, a, b, found, body),
        RowOp::Binary(BinOp::Mul, _) => push_repeat(alloc, around, place, a, b.x, found, body),
        RowOp::AddTo => push_extend(alloc, around, place, a, b, true, found, body),
        RowOp::AddItem => push_append(alloc, around, place, a, b, found, body),
        RowOp::HasItem(None) => push_has_item(alloc, around, place, a, b.x, found, body),
        RowOp::Item(None) => push_walk_item(alloc, around, place, a, b.x, found, body),
        _ => push_second_of_two(alloc, around, op, place, a, b, found, body),
    }
}

#[tactic(auto, unfolding(crate::specs::Lowering::of_two))]
fn push_of_two(
    alloc: Global,
    around: Around<'_>,
    op: &RowOp,
    place: Place<'_>,
    a: Operand<'_>,
    b: Operand<'_>,
    found: &mut Found,
    body: &mut Body,
) -> Result<(), NoMem>
    ensures { OnOk result (Leaves (spec.of_two (the_around around.entry) op.now (the_place place.entry) (the_operand a.entry) (the_operand b.entry) (writing found.old body.old)) found.new body.new) }
{
    if is_list(a) {
        push_first_of_two(alloc, around, op, place, a, b, found, body)
    } else {
        push_second_of_two(alloc, around, op, place, a, b, found, body)
    }
}

#[tactic(auto, unfolding(crate::specs::Lowering::of_one))]
fn push_of_one(
    alloc: Global,
    around: Around<'_>,
    op: &RowOp,
    place: Place<'_>,
    a: Operand<'_>,
    found: &mut Found,
    body: &mut Body,
) -> Result<(), NoMem>
    ensures { OnOk result (Leaves (spec.of_one (the_around around.entry) op.now (the_place place.entry) (the_operand a.entry) (writing found.old body.old)) found.new body.new) }
{
    if is_list(a) {
        push_first_of_one(alloc, around, op, place, a, found, body)
    } else {
        lower_op(alloc, around, op, place, &[a], found, body)
    }
}

// ---- of three operands

#[tactic(auto, unfolding(crate::specs::Lowering::first_of_three))]
fn push_first_of_three(
    alloc: Global,
    around: Around<'_>,
    op: &RowOp,
    place: Place<'_>,
    a: Operand<'_>,
    b: Operand<'_>,
    c: Operand<'_>,
    found: &mut Found,
    body: &mut Body,
) -> Result<(), NoMem>
    ensures { OnOk result (Leaves (spec.first_of_three (the_around around.entry) op.now (the_place place.entry) (the_operand a.entry) (the_operand b.entry) (the_operand c.entry) (writing found.old body.old)) found.new body.new) }
{
    match op {
        RowOp::StoreIndex => push_store(alloc, around, place, a, b.x, c, found, body),
        _ => lower_op(alloc, around, op, place, &[a, b, c], found, body),
    }
}

#[tactic(auto, unfolding(crate::specs::Lowering::of_three))]
fn push_of_three(
    alloc: Global,
    around: Around<'_>,
    op: &RowOp,
    place: Place<'_>,
    a: Operand<'_>,
    b: Operand<'_>,
    c: Operand<'_>,
    found: &mut Found,
    body: &mut Body,
) -> Result<(), NoMem>
    ensures { OnOk result (Leaves (spec.of_three (the_around around.entry) op.now (the_place place.entry) (the_operand a.entry) (the_operand b.entry) (the_operand c.entry) (writing found.old body.old)) found.new body.new) }
{
    if is_list(a) {
        push_first_of_three(alloc, around, op, place, a, b, c, found, body)
    } else {
        lower_op(alloc, around, op, place, &[a, b, c], found, body)
    }
}

// ---- all operations

// Of any other number.
#[tactic(auto, unfolding(crate::specs::Lowering::other))]
fn push_other(
    alloc: Global,
    around: Around<'_>,
    op: &RowOp,
    place: Place<'_>,
    args: &[Operand<'_>],
    found: &mut Found,
    body: &mut Body,
) -> Result<(), NoMem>
    ensures { OnOk result (Leaves (spec.other (the_around around.entry) op.now (the_place place.entry) (the_operands args.now) (writing found.old body.old)) found.new body.new) }
{
    lower_op(alloc, around, op, place, args, found, body)
}

#[tactic(auto, unfolding(crate::specs::Lowering::of_some))]
fn push_of_some(
    alloc: Global,
    around: Around<'_>,
    op: &RowOp,
    place: Place<'_>,
    args: &[Operand<'_>],
    found: &mut Found,
    body: &mut Body,
) -> Result<(), NoMem>
    ensures { OnOk result (Leaves (spec.of_some (the_around around.entry) op.now (the_place place.entry) (the_operands args.now) (writing found.old body.old)) found.new body.new) }
{
    match args {
        [a] => push_of_one(alloc, around, op, place, *a, found, body),
        [a, b] => push_of_two(alloc, around, op, place, *a, *b, found, body),
        [a, b, c] => push_of_three(alloc, around, op, place, *a, *b, *c, found, body),
        _ => push_other(alloc, around, op, place, args, found, body),
    }
}

#[tactic(auto, unfolding(crate::specs::Lowering::slice_or))]
fn push_slice_or(
    alloc: Global,
    around: Around<'_>,
    op: &RowOp,
    place: Place<'_>,
    low: bool,
    high: bool,
    args: &[Operand<'_>],
    found: &mut Found,
    body: &mut Body,
) -> Result<(), NoMem>
    ensures { OnOk result (Leaves (spec.slice_or (the_around around.entry) op.now (the_place place.entry) low high (the_operands args.now) (writing found.old body.old)) found.new body.new) }
{
    if first_is_list(args) {
        push_slice(alloc, around, place, low, high, args, found, body)
    } else {
        lower_op(alloc, around, op, place, args, found, body)
    }
}

#[tactic(auto, unfolding(crate::specs::Lowering::lowered))]
fn push_lowered(
    alloc: Global,
    around: Around<'_>,
    op: &RowOp,
    place: Place<'_>,
    args: &[Operand<'_>],
    found: &mut Found,
    body: &mut Body,
) -> Result<(), NoMem>
    ensures { OnOk result (Leaves (spec.lowered (the_around around.entry) op.now (the_place place.entry) (the_operands args.now) (writing found.old body.old)) found.new body.new) }
{
    match op {
        RowOp::List(_) => push_display(alloc, around, place, args, found, body),
        RowOp::Comprehension(_) => push_comprehension(alloc, around, place, found, body),
        RowOp::Method(name, _) => {
            push_method_of(alloc, around, op, place, name.bytes(), args, found, body)
        }
        RowOp::Slice(_, low, high) => {
            push_slice_or(alloc, around, op, place, *low, *high, args, found, body)
        }
        _ => push_of_some(alloc, around, op, place, args, found, body),
    }
}

/// The low-level operations of an operation. What has no lowering is noted.
pub fn lower_list_op(
    alloc: Global,
    around: Around<'_>,
    op: &RowOp,
    place: Place<'_>,
    args: &[Operand<'_>],
    found: &mut Found,
    body: &mut Body,
) -> Result<(), NoMem>
    ensures { OnOk result (Leaves (spec.lower_list_op (the_around around.entry) op.now (the_place place.entry) (the_operands args.now) (writing found.old body.old)) found.new body.new) }
{
    if is_never(args) {
        return lower_op(alloc, around, op, place, args, found, body);
    }
    if fails(op, args) {
        return push_failure(alloc, around, place, found, body);
    }
    push_lowered(alloc, around, op, place, args, found, body)
}
