// Operands that are dicts, keys and values, and how graphs of dicts are called.
ghost use Rattle.std.specs.Prelude.{◌≡◌, IfOk, OnOk};
ghost use Rattle.rtyper_data.specs.Seen.{the_around, the_operand, the_place, writing, Leaves, Gives};
ghost use Rattle.rtyper_dict.specs.Operands as spec;

use crate::parts::{DictShape, SIGNED, keyed_number, shape_of, stored};
use csub_tree::COperand;
use ll_code::{LlOp, LlType};
use rpy_base::NoMem;
use rtyper_data::{
    Around, Body, Found, Keyed, Operand, Place, Small, by_small, given, operands, present,
};
use rtyper_layout::{Kind, kind_seen};
use std::alloc::Global;

pub fn is_dict(operand: Operand<'_>) -> bool
    ensures { result ≡ spec.is_dict (the_operand operand.entry) }
{
    match kind_seen(operand.element) {
        Kind::Dict | Kind::MaybeDict => true,
        _ => false,
    }
}

/// What may be a dict where nothing else is known of it.
pub fn is_dict_or_none(operand: Operand<'_>) -> bool
    ensures { result ≡ spec.is_dict_or_none (the_operand operand.entry) }
{
    is_dict(operand) || is_none(kind_seen(operand.element))
}

fn is_none(kind: Kind) -> bool
    ensures { result ≡ spec.of_none kind }
{
    match kind {
        Kind::Nothing => true,
        _ => false,
    }
}

fn may_be_none(kind: Kind) -> bool
    ensures { result ≡ spec.of_dict_or_none kind }
{
    match kind {
        Kind::MaybeDict => true,
        _ => false,
    }
}

// ---- dicts, keys and values

/// The dict of an operand.
#[tactic(auto, unfolding(crate::specs::Operands::dict_of))]
pub fn dict_of(around: Around<'_>, operand: Operand<'_>) -> Option<DictShape>
    ensures { result ≡ spec.dict_of (the_around around.entry) (the_operand operand.entry) }
{
    match around.type_of(operand) {
        LlType::Ptr(dict) => match around.layout.mapping(dict) {
            None => None,
            Some(mapping) => Some(shape_of(mapping)),
        },
        _ => None,
    }
}

/// The struct of the list that a place takes.
#[tactic(auto, unfolding(crate::specs::Operands::list_at))]
pub fn list_at(around: Around<'_>, place: Place<'_>) -> u64
    ensures { result ≡ spec.list_at (the_around around.entry) (the_place place.entry) }
{
    match around.type_at(place) {
        LlType::Ptr(list) => list,
        _ => 0,
    }
}

/// The dict itself; `None` fails.
#[tactic(auto, unfolding(crate::specs::Operands::there))]
pub fn there(
    alloc: Global,
    around: Around<'_>,
    a: Operand<'_>,
    found: &mut Found,
    body: &mut Body,
) -> Result<COperand, NoMem>
    ensures { IfOk result (λ x. Gives (spec.there (the_around around.entry) (the_operand a.entry) (writing found.old body.old)) x found.new body.new) }
{
    let or_none = may_be_none(kind_seen(a.element));
    present(alloc, around, a, or_none, found, body)
}

/// A key as it stands in a dict.
#[tactic(auto, unfolding(crate::specs::Operands::key_in))]
pub fn key_in(
    alloc: Global,
    around: Around<'_>,
    d: DictShape,
    b: Operand<'_>,
    found: &mut Found,
    body: &mut Body,
) -> Result<COperand, NoMem>
    ensures { IfOk result (λ x. Gives (spec.key_in (the_around around.entry) d (the_operand b.entry) (writing found.old body.old)) x found.new body.new) }
{
    let x = given(alloc, around, b, d.key, found, body)?;
    stored(d.key, d.stored_key, x, body)
}

/// A value as it stands in a dict.
#[tactic(auto, unfolding(crate::specs::Operands::value_in))]
pub fn value_in(
    alloc: Global,
    around: Around<'_>,
    d: DictShape,
    c: Operand<'_>,
    found: &mut Found,
    body: &mut Body,
) -> Result<COperand, NoMem>
    ensures { IfOk result (λ x. Gives (spec.value_in (the_around around.entry) d (the_operand c.entry) (writing found.old body.old)) x found.new body.new) }
{
    let x = given(alloc, around, c, d.value, found, body)?;
    stored(d.value, d.stored_value, x, body)
}

// ---- calls of graphs

/// A call of a graph without a result.
#[tactic(auto, unfolding(crate::specs::Operands::done_by))]
pub fn push_done<const N: usize>(
    alloc: Global,
    keyed: Keyed,
    xs: [COperand; N],
    found: &mut Found,
    body: &mut Body,
) -> Result<(), NoMem>
    ensures { OnOk result (Leaves (spec.done_by keyed xs.entry (writing found.old body.old)) found.new body.new) }
{
    let number = keyed_number(keyed, found)?;
    let xs = operands(alloc, xs)?;
    body.ops.push(LlOp::Call(None, number, xs))
}

/// The dict, and what a graph gives for it and a key: the place of the entry.
#[tactic(auto, unfolding(crate::specs::Operands::entry_in))]
pub fn entry_in(
    alloc: Global,
    around: Around<'_>,
    d: DictShape,
    a: Operand<'_>,
    b: Operand<'_>,
    keyed: Keyed,
    found: &mut Found,
    body: &mut Body,
) -> Result<(COperand, COperand), NoMem>
    ensures { IfOk result (λ x. Gives (spec.entry_in (the_around around.entry) d (the_operand a.entry) (the_operand b.entry) keyed (writing found.old body.old)) x found.new body.new) }
{
    let x = there(alloc, around, a, found, body)?;
    let k = key_in(alloc, around, d, b, found, body)?;
    let small = Small::Keyed(keyed);
    let at = by_small(alloc, small, SIGNED, [x, k], found, body)?;
    Ok((x, at))
}
