// Lists that are made.
ghost use Rattle.std.specs.Prelude.{◌≡◌, IfOk, OnOk};
ghost use Rattle.rtyper_data.specs.Seen.{the_around, the_operand, the_operands, the_place, writing, Leaves, Gives};
ghost use Rattle.rtyper_list.specs.Displays as spec;

use crate::operand::{array_in, count_word, give_listed, list_at, list_of, there};
use csub_tree::COperand;
use list_shape::{Shape, shape_of};
use ll_code::{LlOp, LlType, VarId};
use rpy_base::{NoMem, Seq};
use rtyper_data::{
    Around, Body, Found, Listed, Operand, Place, Small, by_small, give_nothing, given, variable_of,
    word,
};
use rtyper_op::push_failure;
use std::alloc::Global;

// ---- displays

// The operands as items of this type.
fn items_as(
    alloc: Global,
    around: Around<'_>,
    kind: LlType,
    args: &[Operand<'_>],
    found: &mut Found,
    body: &mut Body,
) -> Result<Seq<COperand>, NoMem>
    ensures { IfOk result (λ items. Gives (spec.items_as (the_around around.entry) kind (the_operands args.now) (writing found.old body.old)) items found.new body.new) }
{
    let mut items = Seq::new(alloc);
    for operand in args {
        items.push(given(alloc, around, *operand, kind, found, body)?)?;
    }
    Ok(items)
}

fn set_items(array: u64, into: VarId, items: &[COperand], body: &mut Body) -> Result<(), NoMem>
    ensures { OnOk result (body.new ≡ spec.set_items array into 0 items.now body.old) }
{
    let mut i: usize = 0;
    for item in items {
        let at = count_word(i)?;
        body.ops.push(LlOp::SetItem(array, into, at, *item))?;
        i += 1;
    }
    Ok(())
}

// The items of a list that was made.
#[tactic(auto, unfolding(crate::specs::Displays::filled))]
fn fill(shape: Shape, list: VarId, items: &[COperand], body: &mut Body) -> Result<(), NoMem>
    ensures { OnOk result (body.new ≡ spec.filled shape list items.now body.old) }
{
    let into = array_in(shape, list, body)?;
    set_items(shape.array, into, items, body)
}

// A list of so many items.
#[tactic(auto, unfolding(crate::specs::Displays::made))]
fn made(
    alloc: Global,
    list: u64,
    count: usize,
    found: &mut Found,
    body: &mut Body,
) -> Result<VarId, NoMem>
    ensures { IfOk result (λ v. Gives (spec.made list count (writing found.old body.old)) v found.new body.new) }
{
    let kind = LlType::Ptr(list);
    let small = Small::Listed(Listed::Make(list));
    let count = count_word(count)?;
    let made = by_small(alloc, small, kind, [count], found, body)?;
    variable_of(made, kind, body)
}

// The list is made once its items have their types.
#[tactic(auto, unfolding(crate::specs::Displays::display_of))]
fn display_of(
    alloc: Global,
    around: Around<'_>,
    place: Place<'_>,
    list: u64,
    args: &[Operand<'_>],
    found: &mut Found,
    body: &mut Body,
) -> Result<(), NoMem>
    ensures { OnOk result (Leaves (spec.display_of (the_around around.entry) (the_place place.entry) list (the_operands args.now) (writing found.old body.old)) found.new body.new) }
{
    let shape = shape_of(around.layout, list);
    let items = items_as(alloc, around, shape.item, args, found, body)?;
    let made = made(alloc, list, args.len(), found, body)?;
    fill(shape, made, items.as_slice(), body)?;
    body.ops
        .push(LlOp::Set(place.variable, COperand::Var(made)))
}

// One more than so many.
fn cost_of(items: usize) -> Result<COperand, NoMem>
    ensures { IfOk result (λ x. x ≡ spec.cost_of items) }
{
    match items.checked_add(1) {
        None => Err(NoMem),
        Some(cost) => count_word(cost),
    }
}

/// A display costs a step, and one for each item.
#[tactic(auto, unfolding(crate::specs::Displays::display))]
pub fn push_display(
    alloc: Global,
    around: Around<'_>,
    place: Place<'_>,
    args: &[Operand<'_>],
    found: &mut Found,
    body: &mut Body,
) -> Result<(), NoMem>
    ensures { OnOk result (Leaves (spec.display (the_around around.entry) (the_place place.entry) (the_operands args.now) (writing found.old body.old)) found.new body.new) }
{
    let cost = cost_of(args.len())?;
    body.ops.push(LlOp::Step(cost))?;
    match list_at(around, place) {
        None => give_nothing(around, place, body),
        Some(list) => display_of(alloc, around, place, list, args, found, body),
    }
}

/// A comprehension begins with no items.
#[tactic(auto, unfolding(crate::specs::Displays::comprehension))]
pub fn push_comprehension(
    alloc: Global,
    around: Around<'_>,
    place: Place<'_>,
    found: &mut Found,
    body: &mut Body,
) -> Result<(), NoMem>
    ensures { OnOk result (Leaves (spec.comprehension (the_around around.entry) (the_place place.entry) (writing found.old body.old)) found.new body.new) }
{
    body.ops.push(LlOp::Step(word(1)))?;
    match list_at(around, place) {
        None => give_nothing(around, place, body),
        Some(r) => {
            let listed = Listed::Make(r);
            let gives = LlType::Ptr(r);
            give_listed(alloc, around, place, listed, gives, [word(0)], found, body)
        }
    }
}

// ---- lists of other lists; what takes no list fails

/// The sum of two lists.
#[tactic(auto, unfolding(crate::specs::Displays::concat))]
pub fn push_concat(
    alloc: Global,
    around: Around<'_>,
    place: Place<'_>,
    a: Operand<'_>,
    b: Operand<'_>,
    found: &mut Found,
    body: &mut Body,
) -> Result<(), NoMem>
    ensures { OnOk result (Leaves (spec.concat (the_around around.entry) (the_place place.entry) (the_operand a.entry) (the_operand b.entry) (writing found.old body.old)) found.new body.new) }
{
    match list_at(around, place) {
        None => push_failure(alloc, around, place, found, body),
        Some(r) => {
            let x = there(alloc, around, a, found, body)?;
            let y = there(alloc, around, b, found, body)?;
            let listed = Listed::Concat(list_of(around, a), list_of(around, b), r);
            let gives = LlType::Ptr(r);
            give_listed(alloc, around, place, listed, gives, [x, y], found, body)
        }
    }
}

/// A list so many times.
#[tactic(auto, unfolding(crate::specs::Displays::repeat))]
pub fn push_repeat(
    alloc: Global,
    around: Around<'_>,
    place: Place<'_>,
    a: Operand<'_>,
    times: COperand,
    found: &mut Found,
    body: &mut Body,
) -> Result<(), NoMem>
    ensures { OnOk result (Leaves (spec.repeat (the_around around.entry) (the_place place.entry) (the_operand a.entry) times (writing found.old body.old)) found.new body.new) }
{
    match list_at(around, place) {
        None => push_failure(alloc, around, place, found, body),
        Some(r) => {
            let x = there(alloc, around, a, found, body)?;
            let listed = Listed::Repeat(list_of(around, a), r);
            let gives = LlType::Ptr(r);
            give_listed(alloc, around, place, listed, gives, [x, times], found, body)
        }
    }
}

// An absent lower bound is the start, an absent upper one the end of any list.
fn bounds(low: bool, high: bool, bounds: &[Operand<'_>]) -> (COperand, COperand)
    ensures { result ≡ spec.bounds low high (the_operands bounds.now) }
{
    match (low, high, bounds) {
        (true, true, [b, c, ..]) => (b.x, c.x),
        (true, false, [b, ..]) => (b.x, word(i64::MAX)),
        (false, true, [b, ..]) => (word(0), b.x),
        _ => (word(0), word(i64::MAX)),
    }
}

#[tactic(auto, unfolding(crate::specs::Displays::slice_of))]
fn slice_of(
    alloc: Global,
    around: Around<'_>,
    place: Place<'_>,
    a: Operand<'_>,
    ends: (COperand, COperand),
    found: &mut Found,
    body: &mut Body,
) -> Result<(), NoMem>
    ensures { OnOk result (Leaves (spec.slice_of (the_around around.entry) (the_place place.entry) (the_operand a.entry) ends (writing found.old body.old)) found.new body.new) }
{
    match list_at(around, place) {
        None => push_failure(alloc, around, place, found, body),
        Some(r) => {
            let (from, to) = ends;
            let x = there(alloc, around, a, found, body)?;
            let listed = Listed::Slice(list_of(around, a), r);
            let gives = LlType::Ptr(r);
            let xs = [x, from, to];
            give_listed(alloc, around, place, listed, gives, xs, found, body)
        }
    }
}

/// The items between two bounds.
#[tactic(auto, unfolding(crate::specs::Displays::slice))]
pub fn push_slice(
    alloc: Global,
    around: Around<'_>,
    place: Place<'_>,
    low: bool,
    high: bool,
    args: &[Operand<'_>],
    found: &mut Found,
    body: &mut Body,
) -> Result<(), NoMem>
    ensures { OnOk result (Leaves (spec.slice (the_around around.entry) (the_place place.entry) low high (the_operands args.now) (writing found.old body.old)) found.new body.new) }
{
    let [a, rest @ ..] = args else {
        return push_failure(alloc, around, place, found, body);
    };
    let ends = bounds(low, high, rest);
    slice_of(alloc, around, place, *a, ends, found, body)
}

/// All items but the last.
#[tactic(auto, unfolding(crate::specs::Displays::but_last))]
pub fn push_but_last(
    alloc: Global,
    around: Around<'_>,
    place: Place<'_>,
    a: Operand<'_>,
    found: &mut Found,
    body: &mut Body,
) -> Result<(), NoMem>
    ensures { OnOk result (Leaves (spec.but_last (the_around around.entry) (the_place place.entry) (the_operand a.entry) (writing found.old body.old)) found.new body.new) }
{
    match list_at(around, place) {
        None => push_failure(alloc, around, place, found, body),
        Some(r) => {
            let x = there(alloc, around, a, found, body)?;
            let listed = Listed::ButLast(list_of(around, a), r);
            let gives = LlType::Ptr(r);
            give_listed(alloc, around, place, listed, gives, [x], found, body)
        }
    }
}
