// Tuples: one block each.
ghost use Rattle.std.specs.Prelude.{◌≡◌, IfOk, OnOk};
ghost use Rattle.rtyper_data.specs.Tuples as spec;
ghost use Rattle.rtyper_data.specs.Seen.{the_around, the_operand, the_operands, the_place, writing, Leaves, Gives, Writes, Asks};

use crate::body::{Around, Body, Operand, Place};
use crate::convert::{give, give_nothing, given};
use crate::found::Found;
use csub_tree::{CConst, COperand};
use ll_code::{LlOp, LlType, VarId};
use rpy_base::{NoMem, Seq};
use std::alloc::Global;

/// A variable with the value of the operand.
#[tactic(auto, unfolding(crate::specs::Tuples::variable_of))]
pub fn variable_of(x: COperand, kind: LlType, body: &mut Body) -> Result<VarId, NoMem>
    ensures { IfOk result (λ v. Writes (spec.variable_of x kind body.old) v body.new) }
{
    match x {
        COperand::Var(v) => Ok(v),
        COperand::Const(_) => {
            let v = body.fresh(kind)?;
            body.ops.push(LlOp::Set(v, x))?;
            Ok(v)
        }
    }
}

fn field_type_of(around: Around<'_>, n: u64, i: usize) -> LlType
    ensures { result ≡ spec.field_type_of (the_around around.entry) n i }
{
    match around.layout.fields(n).get(i) {
        None => LlType::Void,
        Some(field) => *field,
    }
}

// The operands as values of the fields' types.
fn parts_of(
    alloc: Global,
    around: Around<'_>,
    n: u64,
    args: &[Operand<'_>],
    found: &mut Found,
    body: &mut Body,
) -> Result<Seq<COperand>, NoMem>
    ensures { IfOk result (λ parts. Gives (spec.parts_from (the_around around.entry) n 0 (the_operands args.now) (writing found.old body.old)) parts found.new body.new) }
{
    let mut parts = Seq::new(alloc);
    let mut i: usize = 0;
    for operand in args {
        let to = field_type_of(around, n, i);
        parts.push(given(alloc, around, *operand, to, found, body)?)?;
        i += 1;
    }
    Ok(parts)
}

// The block is made once its parts have their types, and all its fields are set at once.
#[tactic(auto, unfolding(crate::specs::Tuples::tuple_made))]
fn made(
    alloc: Global,
    around: Around<'_>,
    n: u64,
    args: &[Operand<'_>],
    found: &mut Found,
    body: &mut Body,
) -> Result<VarId, NoMem>
    ensures { IfOk result (λ v. Gives (spec.tuple_made (the_around around.entry) n (the_operands args.now) (writing found.old body.old)) v found.new body.new) }
{
    let parts = parts_of(alloc, around, n, args, found, body)?;
    let tuple = body.fresh(LlType::Ptr(n))?;
    body.ops.push(LlOp::New(tuple, n, n))?;
    push_fields(n, tuple, parts.as_slice(), body)?;
    Ok(tuple)
}

pub fn push_fields(n: u64, tuple: VarId, parts: &[COperand], body: &mut Body) -> Result<(), NoMem>
    ensures { OnOk result (body.new ≡ spec.set_fields n tuple 0 parts.now body.old) }
{
    let mut i: usize = 0;
    for part in parts {
        body.ops.push(LlOp::SetField(n, tuple, i as u64, *part))?;
        i += 1;
    }
    Ok(())
}

/// A display.
pub fn push_tuple(
    alloc: Global,
    around: Around<'_>,
    place: Place<'_>,
    args: &[Operand<'_>],
    found: &mut Found,
    body: &mut Body,
) -> Result<(), NoMem>
    ensures { OnOk result (Leaves (spec.tuple_of (the_around around.entry) (the_place place.entry) (the_operands args.now) (writing found.old body.old)) found.new body.new) }
{
    body.ops.push(LlOp::Step(COperand::Const(CConst::Word(1))))?;
    match around.type_at(place) {
        LlType::Ptr(n) => {
            if !around.layout.is_tuple(n) {
                return Ok(());
            }
            let tuple = made(alloc, around, n, args, found, body)?;
            body.ops
                .push(LlOp::Set(place.variable, COperand::Var(tuple)))
        }
        _ => give_nothing(around, place, body),
    }
}

/// The item at a place.
pub fn push_item(
    alloc: Global,
    around: Around<'_>,
    place: Place<'_>,
    a: Operand<'_>,
    i: u64,
    found: &mut Found,
    body: &mut Body,
) -> Result<(), NoMem>
    ensures { OnOk result (Leaves (spec.item_of (the_around around.entry) (the_place place.entry) (the_operand a.entry) i (writing found.old body.old)) found.new body.new) }
{
    match around.type_of(a) {
        LlType::Ptr(n) => {
            let tuple = variable_of(a.x, LlType::Ptr(n), body)?;
            match field_type_of(around, n, i as usize) {
                LlType::Void => give_nothing(around, place, body),
                kind => {
                    let item = body.fresh(kind)?;
                    body.ops.push(LlOp::GetField(item, n, tuple, i))?;
                    give(alloc, around, place, COperand::Var(item), kind, found, body)
                }
            }
        }
        _ => give_nothing(around, place, body),
    }
}

/// How many items a tuple has.
pub fn length_of(around: Around<'_>, a: Operand<'_>) -> usize
    ensures { result ≡ spec.length_of (the_around around.entry) (the_operand a.entry) }
{
    match around.type_of(a) {
        LlType::Ptr(n) => around.layout.fields(n).len(),
        _ => 0,
    }
}

/// The place that an index names: one below zero counts from the end.
pub fn place_of(index: i64, length: usize) -> u64
    ensures { result ≡ spec.place_of index length }
{
    if index >= 0 {
        index as u64
    } else {
        (length as u64).saturating_sub(index.unsigned_abs())
    }
}
