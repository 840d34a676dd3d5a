// Operands that are lists, and how graphs of lists are called.
ghost use Rattle.std.specs.Prelude.{◌≡◌, IfOk, OnOk, pos};
ghost use Rattle.rtyper_data.specs.Numbers as numbers;
ghost use Rattle.rtyper_data.specs.Seen.{the_around, the_operand, the_place, writing, Leaves, Gives, Writes};
ghost use Rattle.rtyper_list.specs.Operands as spec;

use csub_tree::COperand;
use list_shape::{Shape, array, number_of};
use ll_code::{LlOp, LlType, VarId};
use rpy_base::NoMem;
use rtyper_data::{
    Around, Body, Found, Listed, Operand, Place, Small, by_small, give, operands, present,
    variable_of, word,
};
use rtyper_layout::{Kind, kind_seen};
use std::alloc::Global;

pub fn is_list(operand: Operand<'_>) -> bool
    ensures { result ≡ spec.is_list (the_operand operand.entry) }
{
    match kind_seen(operand.element) {
        Kind::List | Kind::MaybeList => true,
        _ => false,
    }
}

pub fn is_none(operand: Operand<'_>) -> bool
    ensures { result ≡ spec.is_none (the_operand operand.entry) }
{
    match kind_seen(operand.element) {
        Kind::Nothing => true,
        _ => false,
    }
}

fn is_list_or_none(kind: Kind) -> bool
    ensures { result ≡ spec.of_list_or_none kind }
{
    match kind {
        Kind::MaybeList => true,
        _ => false,
    }
}

/// The struct of a list.
#[tactic(auto, unfolding(crate::specs::Operands::list_of))]
pub fn list_of(around: Around<'_>, operand: Operand<'_>) -> u64
    ensures { result ≡ spec.list_of (the_around around.entry) (the_operand operand.entry) }
{
    match around.type_of(operand) {
        LlType::Ptr(list) => list,
        _ => 0,
    }
}

/// The struct of the list that a place takes, where it takes one.
#[tactic(auto, unfolding(crate::specs::Operands::list_at))]
pub fn list_at(around: Around<'_>, place: Place<'_>) -> Option<u64>
    ensures { result ≡ spec.list_at (the_around around.entry) (the_place place.entry) }
{
    match around.type_at(place) {
        LlType::Ptr(list) => {
            if around.layout.is_list(list) {
                Some(list)
            } else {
                None
            }
        }
        _ => None,
    }
}

/// The list itself; `None` fails.
#[tactic(auto, unfolding(crate::specs::Operands::there))]
pub fn there(
    alloc: Global,
    around: Around<'_>,
    a: Operand<'_>,
    found: &mut Found,
    body: &mut Body,
) -> Result<COperand, NoMem>
    ensures { IfOk result (λ x. Gives (spec.there (the_around around.entry) (the_operand a.entry) (writing found.old body.old)) x found.new body.new) }
{
    let or_none = is_list_or_none(kind_seen(a.element));
    present(alloc, around, a, or_none, found, body)
}

/// A variable with it.
#[tactic(auto, unfolding(crate::specs::Operands::there_in))]
pub fn there_in(
    alloc: Global,
    around: Around<'_>,
    a: Operand<'_>,
    found: &mut Found,
    body: &mut Body,
) -> Result<VarId, NoMem>
    ensures { IfOk result (λ x. Gives (spec.there_in (the_around around.entry) (the_operand a.entry) (writing found.old body.old)) x found.new body.new) }
{
    let kind = around.type_of(a);
    let x = there(alloc, around, a, found, body)?;
    variable_of(x, kind, body)
}

/// A number of items as a word.
pub fn count_word(count: usize) -> Result<COperand, NoMem>
    ensures { IfOk result (λ x. x ≡ numbers.word (pos count)) }
{
    match i64::try_from(count) {
        Ok(count) => Ok(word(count)),
        Err(_) => Err(NoMem),
    }
}

// ---- calls of graphs

/// A call of a graph without a result.
#[tactic(auto, unfolding(crate::specs::Operands::done_by))]
pub fn push_done<const N: usize>(
    alloc: Global,
    listed: Listed,
    xs: [COperand; N],
    found: &mut Found,
    body: &mut Body,
) -> Result<(), NoMem>
    ensures { OnOk result (Leaves (spec.done_by listed xs.entry (writing found.old body.old)) found.new body.new) }
{
    let number = number_of(listed, found)?;
    let xs = operands(alloc, xs)?;
    body.ops.push(LlOp::Call(None, number, xs))
}

/// The place takes what a graph gives.
#[tactic(auto, unfolding(crate::specs::Operands::give_listed))]
pub fn give_listed<const N: usize>(
    alloc: Global,
    around: Around<'_>,
    place: Place<'_>,
    listed: Listed,
    gives: LlType,
    xs: [COperand; N],
    found: &mut Found,
    body: &mut Body,
) -> Result<(), NoMem>
    ensures { OnOk result (Leaves (spec.give_listed (the_around around.entry) (the_place place.entry) listed gives xs.entry (writing found.old body.old)) found.new body.new) }
{
    let x = by_small(alloc, Small::Listed(listed), gives, xs, found, body)?;
    give(alloc, around, place, x, gives, found, body)
}

// ---- arrays

/// A variable with the array of a list.
#[tactic(auto, unfolding(crate::specs::Operands::array_in))]
pub fn array_in(shape: Shape, list: VarId, body: &mut Body) -> Result<VarId, NoMem>
    ensures { IfOk result (λ v. Writes (spec.array_in shape list body.old) v body.new) }
{
    let items = body.fresh(LlType::Ptr(shape.array))?;
    body.ops.push(array(items, shape, list))?;
    Ok(items)
}

/// The item at a place that is there.
#[tactic(auto, unfolding(crate::specs::Operands::read_item))]
pub fn read_item(
    shape: Shape,
    list: VarId,
    at: COperand,
    body: &mut Body,
) -> Result<COperand, NoMem>
    ensures { IfOk result (λ x. Writes (spec.read_item shape list at body.old) x body.new) }
{
    let items = array_in(shape, list, body)?;
    let item = body.fresh(shape.item)?;
    body.ops.push(LlOp::GetItem(item, shape.array, items, at))?;
    Ok(COperand::Var(item))
}
