// Values of one type as values of another. A string of length one has a type of its own, `None` is a
// truth value where nothing else stands, and tuples have a struct for each shape.
ghost use Rattle.std.specs.Prelude.{◌≡◌, IfOk, OnOk};
ghost use Rattle.rtyper_data.specs.Converting as spec;
ghost use Rattle.rtyper_data.specs.Seen.{the_around, the_operand, the_operands, the_place, writing, Leaves, Gives, Writes, Asks};

use crate::body::{Around, Body, Operand, Place};
use crate::found::{Found, helper_number, small_number};
use crate::small::Small;
use csub_tree::{CConst, COperand};
use ll_build::Helper;
use ll_code::{LlOp, LlType, VarId};
use rpy_base::{NoMem, Seq};
use rtyper_layout::Layout;
use std::alloc::Global;

/// A value of a type, where none is asked.
pub fn default_operand(kind: LlType) -> COperand
    ensures { result ≡ spec.default_operand kind }
{
    COperand::Const(match kind {
        LlType::Signed | LlType::Void => CConst::Word(0),
        LlType::Char => CConst::Char(0),
        LlType::Bool => CConst::Bool(false),
        LlType::Fn | LlType::Ptr(_) => CConst::Null,
    })
}

/// A list of operands.
pub fn operands<const N: usize>(alloc: Global, items: [COperand; N]) -> Result<Seq<COperand>, NoMem>
    ensures { IfOk result (λ list. list ≡ items.entry) }
{
    let items = Vec::from_array(alloc, items)?;
    Ok(Seq::from_vec(items))
}

// ---- calls

/// What a helper gives for these operands.
#[tactic(auto, unfolding(crate::specs::Converting::helped))]
pub fn helped<const N: usize>(
    alloc: Global,
    helper: Helper,
    gives: LlType,
    xs: [COperand; N],
    found: &mut Found,
    body: &mut Body,
) -> Result<COperand, NoMem>
    ensures { IfOk result (λ x. Gives (spec.helped helper gives xs.entry (writing found.old body.old)) x found.new body.new) }
{
    let number = helper_number(helper, found)?;
    let into = body.fresh(gives)?;
    let xs = operands(alloc, xs)?;
    body.ops.push(LlOp::Call(Some(into), number, xs))?;
    Ok(COperand::Var(into))
}

/// What a small graph gives for these operands.
#[tactic(auto, unfolding(crate::specs::Converting::by_small))]
pub fn by_small<const N: usize>(
    alloc: Global,
    small: Small,
    gives: LlType,
    xs: [COperand; N],
    found: &mut Found,
    body: &mut Body,
) -> Result<COperand, NoMem>
    ensures { IfOk result (λ x. Gives (spec.by_small small gives xs.entry (writing found.old body.old)) x found.new body.new) }
{
    let number = small_number(small, found)?;
    let into = body.fresh(gives)?;
    let xs = operands(alloc, xs)?;
    body.ops.push(LlOp::Call(Some(into), number, xs))?;
    Ok(COperand::Var(into))
}

// ---- conversions

/// The value as one of another type. A value of a type that is not for it never comes there.
#[tactic(auto, unfolding(crate::specs::Converting::value_as))]
pub fn value_as(
    alloc: Global,
    layout: &Layout,
    x: COperand,
    from: LlType,
    to: LlType,
    found: &mut Found,
    body: &mut Body,
) -> Result<COperand, NoMem>
    ensures { IfOk result (λ y. Gives (spec.value_as layout.now x from to (writing found.old body.old)) y found.new body.new) }
{
    if from == to {
        return Ok(x);
    }
    match (from, to) {
        (LlType::Char, LlType::Ptr(0)) => { helped(alloc, Helper::StrOfChar, to, [x], found, body) }
        (LlType::Ptr(m), LlType::Ptr(n)) => {
            if layout.is_tuple(m) && layout.is_tuple(n) {
                by_small(alloc, Small::Cast(m, n), to, [x], found, body)
            } else {
                Ok(default_operand(to))
            }
        }
        _ => Ok(default_operand(to)),
    }
}

/// The operand as a value of this type.
pub fn given(
    alloc: Global,
    around: Around<'_>,
    operand: Operand<'_>,
    to: LlType,
    found: &mut Found,
    body: &mut Body,
) -> Result<COperand, NoMem>
    ensures { IfOk result (λ y. Gives (spec.given (the_around around.entry) (the_operand operand.entry) to (writing found.old body.old)) y found.new body.new) }
{
    let from = around.type_of(operand);
    value_as(alloc, around.layout, operand.x, from, to, found, body)
}

/// The value itself, where it may be `None`, as which it fails, or raises.
pub fn present(
    alloc: Global,
    around: Around<'_>,
    a: Operand<'_>,
    or_none: bool,
    found: &mut Found,
    body: &mut Body,
) -> Result<COperand, NoMem>
    ensures { IfOk result (λ y. Gives (spec.present (the_around around.entry) (the_operand a.entry) or_none (writing found.old body.old)) y found.new body.new) }
{
    let kind = around.type_of(a);
    if or_none {
        let small = Small::Present(kind, found.covered.attribute);
        by_small(alloc, small, kind, [a.x], found, body)
    } else {
        Ok(a.x)
    }
}

// ---- results

/// The place takes a value of this type.
#[tactic(auto, unfolding(crate::specs::Converting::give))]
pub fn give(
    alloc: Global,
    around: Around<'_>,
    place: Place<'_>,
    x: COperand,
    from: LlType,
    found: &mut Found,
    body: &mut Body,
) -> Result<(), NoMem>
    ensures { OnOk result (Leaves (spec.give (the_around around.entry) (the_place place.entry) x from (writing found.old body.old)) found.new body.new) }
{
    match around.type_at(place) {
        LlType::Void => Ok(()),
        to => {
            let x = value_as(alloc, around.layout, x, from, to, found, body)?;
            body.ops.push(LlOp::Set(place.variable, x))
        }
    }
}

/// The place takes a value that says nothing.
pub fn give_nothing(around: Around<'_>, place: Place<'_>, body: &mut Body) -> Result<(), NoMem>
    ensures { OnOk result (body.new ≡ spec.give_nothing (the_around around.entry) (the_place place.entry) body.old) }
{
    match around.type_at(place) {
        LlType::Void => Ok(()),
        kind => body
            .ops
            .push(LlOp::Set(place.variable, default_operand(kind))),
    }
}

/// The variable that an operation with a result of this type sets: the place's own, where that has
/// the type.
pub fn landing(
    around: Around<'_>,
    place: Place<'_>,
    gives: LlType,
    body: &mut Body,
) -> Result<VarId, NoMem>
    ensures { IfOk result (λ v. Writes (spec.landing (the_around around.entry) (the_place place.entry) gives body.old) v body.new) }
{
    if around.type_at(place) == gives {
        Ok(place.variable)
    } else {
        body.fresh(gives)
    }
}

/// The place takes what stands in the variable, where that is another.
pub fn land(
    alloc: Global,
    around: Around<'_>,
    place: Place<'_>,
    v: VarId,
    gives: LlType,
    found: &mut Found,
    body: &mut Body,
) -> Result<(), NoMem>
    ensures { OnOk result (Leaves (spec.land (the_around around.entry) (the_place place.entry) v gives (writing found.old body.old)) found.new body.new) }
{
    if v == place.variable {
        return Ok(());
    }
    give(alloc, around, place, COperand::Var(v), gives, found, body)
}

/// The place takes what a helper gives.
#[tactic(auto, unfolding(crate::specs::Converting::give_helped))]
pub fn give_helped<const N: usize>(
    alloc: Global,
    around: Around<'_>,
    place: Place<'_>,
    helper: Helper,
    gives: LlType,
    xs: [COperand; N],
    found: &mut Found,
    body: &mut Body,
) -> Result<(), NoMem>
    ensures { OnOk result (Leaves (spec.give_helped (the_around around.entry) (the_place place.entry) helper gives xs.entry (writing found.old body.old)) found.new body.new) }
{
    let number = helper_number(helper, found)?;
    let v = landing(around, place, gives, body)?;
    let xs = operands(alloc, xs)?;
    body.ops.push(LlOp::Call(Some(v), number, xs))?;
    land(alloc, around, place, v, gives, found, body)
}
