// The lowering of an operation, by its operands.
ghost use Rattle.std.specs.Prelude.{◌≡◌, IfOk, OnOk};
ghost use Rattle.rtyper_op.specs.Lowering as spec;
ghost use Rattle.rtyper_data.specs.Seen.{the_around, the_operand, the_operands, the_place, writing, Leaves, Gives, Writes, Asks};

use crate::call::push_call;
use crate::constant::{constant_of, text_of};
use crate::places::{
    push_advance, push_has_item, push_index, push_len, push_product, push_sum, push_walk,
    push_walk_item,
};
use crate::text::{
    push_method, push_of_text, push_print, push_slice, push_to_str, push_truth, push_write,
};
use csub_tree::{CBinary, COperand, CUnary};
use ll_build::Helper;
use ll_code::{LlOp, LlType};
use rpy_base::{NoMem, Seq};
use rpy_meaning::RowOp;
use rpy_tree::{BinOp, Const};
use rtyper_data::compare::compare;
use rtyper_data::{
    Around, Body, Found, Operand, Place, Small, by_small, flag, give, give_helped, give_nothing,
    give_unary, push_binary, push_item, push_to_int, push_tuple, push_unary, small_number, word,
};
use rtyper_layout::{Kind, is_text_or_none, kind_seen};
use std::alloc::Global;

fn is_never(args: &[Operand<'_>]) -> bool
    ensures { result ≡ spec.is_never (the_operands args.now) }
{
    for operand in args {
        match kind_seen(operand.element) {
            Kind::Never => return true,
            _ => {}
        }
    }
    false
}

// The value as it is.
fn push_same(
    alloc: Global,
    around: Around<'_>,
    place: Place<'_>,
    a: Operand<'_>,
    found: &mut Found,
    body: &mut Body,
) -> Result<(), NoMem>
    ensures { OnOk result (Leaves (spec.same (the_around around.entry) (the_place place.entry) (the_operand a.entry) (writing found.old body.old)) found.new body.new) }
{
    let from = around.type_of(a);
    give(alloc, around, place, a.x, from, found, body)
}

/// An operation on `None` that needs another value.
#[tactic(auto, unfolding(crate::specs::Lowering::failure))]
pub fn push_failure(
    alloc: Global,
    around: Around<'_>,
    place: Place<'_>,
    found: &mut Found,
    body: &mut Body,
) -> Result<(), NoMem>
    ensures { OnOk result (Leaves (spec.failure (the_around around.entry) (the_place place.entry) (writing found.old body.old)) found.new body.new) }
{
    let number = small_number(Small::Fail(found.covered.attribute), found)?;
    body.ops.push(LlOp::Call(None, number, Seq::new(alloc)))?;
    give_nothing(around, place, body)
}

// ---- without operands

fn push_constant(
    alloc: Global,
    around: Around<'_>,
    place: Place<'_>,
    constant: &Const,
    found: &mut Found,
    body: &mut Body,
) -> Result<(), NoMem>
    ensures { OnOk result (Leaves (spec.give_constant (the_around around.entry) (the_place place.entry) constant.now (writing found.old body.old)) found.new body.new) }
{
    match around.type_at(place) {
        LlType::Void => Ok(()),
        to => {
            let x = constant_of(alloc, around, constant, to, found)?;
            body.ops.push(LlOp::Set(place.variable, COperand::Const(x)))
        }
    }
}

fn push_text(
    alloc: Global,
    around: Around<'_>,
    place: Place<'_>,
    bytes: &[u8],
    found: &mut Found,
    body: &mut Body,
) -> Result<(), NoMem>
    ensures { OnOk result (Leaves (spec.give_text (the_around around.entry) (the_place place.entry) bytes.now (writing found.old body.old)) found.new body.new) }
{
    match around.type_at(place) {
        LlType::Void => Ok(()),
        to => {
            let x = text_of(alloc, bytes, to, found)?;
            body.ops.push(LlOp::Set(place.variable, x))
        }
    }
}

#[tactic(auto, unfolding(crate::specs::Lowering::literal))]
fn push_literal(
    alloc: Global,
    around: Around<'_>,
    place: Place<'_>,
    op: &RowOp,
    found: &mut Found,
    body: &mut Body,
) -> Result<(), NoMem>
    ensures { OnOk result (Leaves (spec.literal (the_around around.entry) (the_place place.entry) op.now (writing found.old body.old)) found.new body.new) }
{
    let number = LlType::Signed;
    let truth = LlType::Bool;
    match op {
        RowOp::Word(n) => give(alloc, around, place, word(*n), number, found, body),
        RowOp::Str(text) => push_text(alloc, around, place, text.bytes(), found, body),
        RowOp::Bool(b) => give(alloc, around, place, flag(*b), truth, found, body),
        RowOp::None => push_constant(alloc, around, place, &Const::None, found, body),
        RowOp::Constant(constant) => { push_constant(alloc, around, place, constant, found, body) }
        RowOp::Turn => {
            body.ops.push(LlOp::Step(word(1)))?;
            give_nothing(around, place, body)
        }
        _ => Ok(()),
    }
}

// ---- of one operand

#[tactic(auto, unfolding(crate::specs::Lowering::conversion))]
fn push_conversion(
    alloc: Global,
    around: Around<'_>,
    place: Place<'_>,
    op: &RowOp,
    a: Operand<'_>,
    found: &mut Found,
    body: &mut Body,
) -> Result<(), NoMem>
    ensures { OnOk result (Leaves (spec.conversion (the_around around.entry) (the_place place.entry) op.now (the_operand a.entry) (writing found.old body.old)) found.new body.new) }
{
    let number = LlType::Signed;
    let byte = LlType::Char;
    match (op, kind_seen(a.element)) {
        (RowOp::Intmask, Kind::Word) => give(alloc, around, place, a.x, number, found, body),
        (RowOp::ToInt, _) => push_to_int(alloc, around, place, a, found, body),
        (RowOp::ToStr, _) => push_to_str(alloc, around, place, a, found, body),
        (RowOp::Ord, Kind::Byte) => {
            give_unary(alloc, around, place, CUnary::C2S, number, a.x, found, body)
        }
        (RowOp::Chr, Kind::Word) => {
            give_helped(
                alloc,
                around,
                place,
                Helper::WordChr,
                byte,
                [a.x],
                found,
                body,
            )
        }
        (RowOp::Unary(of), Kind::Word) => { push_unary(alloc, around, place, *of, a, found, body) }
        (RowOp::CheckedNeg, Kind::Word) => {
            let x = by_small(alloc, Small::CheckedNeg, number, [a.x], found, body)?;
            give(alloc, around, place, x, number, found, body)
        }
        (RowOp::IsInstance(_), Kind::Nothing) => {
            give(alloc, around, place, flag(false), LlType::Bool, found, body)
        }
        _ => Ok(()),
    }
}

fn push_all_but_last(
    alloc: Global,
    around: Around<'_>,
    place: Place<'_>,
    a: Operand<'_>,
    found: &mut Found,
    body: &mut Body,
) -> Result<(), NoMem>
    ensures { OnOk result (Leaves (spec.all_but_last (the_around around.entry) (the_place place.entry) (the_operand a.entry) (writing found.old body.old)) found.new body.new) }
{
    if !is_text_or_none(kind_seen(a.element)) {
        return Ok(());
    }
    let text = LlType::Ptr(0);
    push_of_text(
        alloc,
        around,
        place,
        Helper::StrButLast,
        text,
        a,
        found,
        body,
    )
}

#[tactic(auto, unfolding(crate::specs::Lowering::of_one))]
fn push_one(
    alloc: Global,
    around: Around<'_>,
    place: Place<'_>,
    op: &RowOp,
    a: Operand<'_>,
    found: &mut Found,
    body: &mut Body,
) -> Result<(), NoMem>
    ensures { OnOk result (Leaves (spec.of_one (the_around around.entry) (the_place place.entry) op.now (the_operand a.entry) (writing found.old body.old)) found.new body.new) }
{
    match op {
        RowOp::Copy | RowOp::DropNone | RowOp::OnlyNone | RowOp::FalseNone | RowOp::Lower(_) =>
            push_same(alloc, around, place, a, found, body),
        RowOp::Not => push_truth(alloc, around, place, a, true, found, body),
        RowOp::Truth => push_truth(alloc, around, place, a, false, found, body),
        RowOp::Len => push_len(alloc, around, place, a, found, body),
        RowOp::AllButLast(_) => push_all_but_last(alloc, around, place, a, found, body),
        RowOp::Walk(_) => push_walk(alloc, around, place, a, found, body),
        RowOp::Unpack(_, i) => match kind_seen(a.element) {
            Kind::Tuple => push_item(alloc, around, place, a, *i as u64, found, body),
            _ => Ok(()),
        },
        _ => push_conversion(alloc, around, place, op, a, found, body),
    }
}

// ---- of two operands

#[tactic(auto, unfolding(crate::specs::Lowering::binary_to))]
fn push_binary_of(
    alloc: Global,
    around: Around<'_>,
    place: Place<'_>,
    op: BinOp,
    a: Operand<'_>,
    b: Operand<'_>,
    found: &mut Found,
    body: &mut Body,
) -> Result<(), NoMem>
    ensures { OnOk result (Leaves (spec.binary_to (the_around around.entry) (the_place place.entry) op (the_operand a.entry) (the_operand b.entry) (writing found.old body.old)) found.new body.new) }
{
    match op {
        BinOp::Add => push_sum(alloc, around, place, a, b, found, body),
        BinOp::Mul => push_product(alloc, around, place, a, b, found, body),
        _ => match (kind_seen(a.element), kind_seen(b.element)) {
            (Kind::Word, Kind::Word) => {
                push_binary(alloc, around, place, op, a.x, b.x, found, body)
            }
            _ => Ok(()),
        },
    }
}

#[tactic(auto, unfolding(crate::specs::Lowering::least))]
fn push_least(
    alloc: Global,
    around: Around<'_>,
    place: Place<'_>,
    helper: Helper,
    a: Operand<'_>,
    b: Operand<'_>,
    found: &mut Found,
    body: &mut Body,
) -> Result<(), NoMem>
    ensures { OnOk result (Leaves (spec.least (the_around around.entry) (the_place place.entry) helper (the_operand a.entry) (the_operand b.entry) (writing found.old body.old)) found.new body.new) }
{
    let number = LlType::Signed;
    match (kind_seen(a.element), kind_seen(b.element)) {
        (Kind::Word, Kind::Word) => {
            let xs = [a.x, b.x];
            give_helped(alloc, around, place, helper, number, xs, found, body)
        }
        _ => Ok(()),
    }
}

// An operation on two words whose result has to fit.
#[tactic(auto, unfolding(crate::specs::Lowering::checked))]
fn push_checked(
    alloc: Global,
    around: Around<'_>,
    place: Place<'_>,
    op: BinOp,
    a: Operand<'_>,
    b: Operand<'_>,
    found: &mut Found,
    body: &mut Body,
) -> Result<(), NoMem>
    ensures { OnOk result (Leaves (spec.checked (the_around around.entry) (the_place place.entry) op (the_operand a.entry) (the_operand b.entry) (writing found.old body.old)) found.new body.new) }
{
    let number = LlType::Signed;
    let raises = match op {
        BinOp::Shl => found.covered.number,
        _ => found.covered.zero,
    };
    let small = match op {
        BinOp::Add => Small::Checked(CBinary::Add, false),
        BinOp::Sub => Small::Checked(CBinary::Sub, false),
        BinOp::Mul => Small::Checked(CBinary::Mul, false),
        BinOp::Shl => Small::Checked(CBinary::Shl, raises),
        BinOp::Mod => Small::Checked(CBinary::Mod, raises),
        _ => Small::Checked(CBinary::Div, raises),
    };
    let x = by_small(alloc, small, number, [a.x, b.x], found, body)?;
    give(alloc, around, place, x, number, found, body)
}

#[tactic(auto, unfolding(crate::specs::Lowering::of_two))]
fn push_two(
    alloc: Global,
    around: Around<'_>,
    place: Place<'_>,
    op: &RowOp,
    a: Operand<'_>,
    b: Operand<'_>,
    found: &mut Found,
    body: &mut Body,
) -> Result<(), NoMem>
    ensures { OnOk result (Leaves (spec.of_two (the_around around.entry) (the_place place.entry) op.now (the_operand a.entry) (the_operand b.entry) (writing found.old body.old)) found.new body.new) }
{
    match op {
        RowOp::Binary(of, _) => push_binary_of(alloc, around, place, *of, a, b, found, body),
        RowOp::AddTo => push_sum(alloc, around, place, a, b, found, body),
        RowOp::Compare(of) => {
            let x = compare(alloc, around, *of, a, b, found, body)?;
            give(alloc, around, place, x, LlType::Bool, found, body)
        }
        RowOp::Min => push_least(alloc, around, place, Helper::WordMin, a, b, found, body),
        RowOp::Max => push_least(alloc, around, place, Helper::WordMax, a, b, found, body),
        RowOp::Write => push_write(alloc, around, place, b, found, body),
        RowOp::Index(literal) => { push_index(alloc, around, place, *literal, a, b, found, body) }
        RowOp::HasItem(step) => push_has_item(alloc, around, place, *step, a, b, found, body),
        RowOp::Item(step) => push_walk_item(alloc, around, place, *step, a, b, found, body),
        RowOp::Advance(step) => push_advance(alloc, around, place, *step, a, b, found, body),
        RowOp::NonNegative => push_same(alloc, around, place, a, found, body),
        RowOp::Checked(of) => push_checked(alloc, around, place, *of, a, b, found, body),
        _ => Ok(()),
    }
}

// ---- of any number

// A method of `None` fails, whatever its name.
fn push_method_of(
    alloc: Global,
    around: Around<'_>,
    place: Place<'_>,
    name: &[u8],
    args: &[Operand<'_>],
    found: &mut Found,
    body: &mut Body,
) -> Result<(), NoMem>
    ensures { OnOk result (Leaves (spec.method_to (the_around around.entry) (the_place place.entry) name.now (the_operands args.now) (writing found.old body.old)) found.new body.new) }
{
    match args {
        [] => push_method(alloc, around, place, name, args, found, body),
        [a, ..] => match kind_seen(a.element) {
            Kind::Nothing => push_failure(alloc, around, place, found, body),
            _ => push_method(alloc, around, place, name, args, found, body),
        },
    }
}

#[tactic(auto, unfolding(crate::specs::Lowering::of_some))]
fn push_some(
    alloc: Global,
    around: Around<'_>,
    place: Place<'_>,
    op: &RowOp,
    args: &[Operand<'_>],
    found: &mut Found,
    body: &mut Body,
) -> Result<(), NoMem>
    ensures { OnOk result (Leaves (spec.of_some (the_around around.entry) (the_place place.entry) op.now (the_operands args.now) (writing found.old body.old)) found.new body.new) }
{
    match args {
        [] => push_literal(alloc, around, place, op, found, body),
        [a] => push_one(alloc, around, place, op, *a, found, body),
        [a, b] => push_two(alloc, around, place, op, *a, *b, found, body),
        _ => Ok(()),
    }
}

/// The low-level operations of an operation. Operands that no accepted program has give none.
pub fn lower_op(
    alloc: Global,
    around: Around<'_>,
    op: &RowOp,
    place: Place<'_>,
    args: &[Operand<'_>],
    found: &mut Found,
    body: &mut Body,
) -> Result<(), NoMem>
    ensures { OnOk result (Leaves (spec.lower_op (the_around around.entry) op.now (the_place place.entry) (the_operands args.now) (writing found.old body.old)) found.new body.new) }
{
    if is_never(args) {
        return give_nothing(around, place, body);
    }
    match op {
        RowOp::Print => {
            push_print(alloc, args, found, body)?;
            give_nothing(around, place, body)
        }
        RowOp::Tuple => push_tuple(alloc, around, place, args, found, body),
        RowOp::Call(function) => push_call(alloc, around, place, *function, args, found, body),
        RowOp::Slice(_, low, high) => {
            push_slice(alloc, around, place, *low, *high, args, found, body)
        }
        RowOp::Method(name, _) => {
            push_method_of(alloc, around, place, name.bytes(), args, found, body)
        }
        _ => push_some(alloc, around, place, op, args, found, body),
    }
}
