// Items of lists, and walks.
ghost use Rattle.std.specs.Prelude.{◌≡◌, IfOk, OnOk};
ghost use Rattle.rtyper_data.specs.Seen.{the_around, the_operand, the_place, writing, Leaves, Gives};
ghost use Rattle.rtyper_list.specs.Items as spec;

use crate::operand::{array_in, list_of, push_done, read_item, there, there_in};
use csub_tree::{CBinary, COperand};
use list_shape::{Shape, length, shape_of};
use ll_code::{LlOp, LlType, VarId};
use rpy_base::NoMem;
use rtyper_data::{
    Around, Body, Found, Listed, Operand, Place, Small, by_small, give, give_binary, give_nothing,
    given, opposite_if, variable_of,
};
use std::alloc::Global;

/// The structs of a list.
pub fn shape_in(around: Around<'_>, a: Operand<'_>) -> Shape
    ensures { result ≡ spec.shape_in (the_around around.entry) (the_operand a.entry) }
{
    shape_of(around.layout, list_of(around, a))
}

// The place that an index names.
#[tactic(auto, unfolding(crate::specs::Items::placed))]
fn placed(
    alloc: Global,
    list: u64,
    x: VarId,
    index: COperand,
    found: &mut Found,
    body: &mut Body,
) -> Result<COperand, NoMem>
    ensures { IfOk result (λ at. Gives (spec.placed list x index (writing found.old body.old)) at found.new body.new) }
{
    let small = Small::Listed(Listed::Place(list, found.covered.index));
    let word = LlType::Signed;
    by_small(alloc, small, word, [COperand::Var(x), index], found, body)
}

/// The item at an index.
#[tactic(auto, unfolding(crate::specs::Items::index))]
pub fn push_index(
    alloc: Global,
    around: Around<'_>,
    place: Place<'_>,
    a: Operand<'_>,
    index: COperand,
    found: &mut Found,
    body: &mut Body,
) -> Result<(), NoMem>
    ensures { OnOk result (Leaves (spec.index (the_around around.entry) (the_place place.entry) (the_operand a.entry) index (writing found.old body.old)) found.new body.new) }
{
    let shape = shape_in(around, a);
    let x = there_in(alloc, around, a, found, body)?;
    let at = placed(alloc, list_of(around, a), x, index, found, body)?;
    let item = read_item(shape, x, at, body)?;
    give(alloc, around, place, item, shape.item, found, body)
}

// The item at a place is another.
#[tactic(auto, unfolding(crate::specs::Items::stored))]
fn push_stored(
    shape: Shape,
    list: VarId,
    at: COperand,
    value: COperand,
    body: &mut Body,
) -> Result<(), NoMem>
    ensures { OnOk result (body.new ≡ spec.stored shape list at value body.old) }
{
    let items = array_in(shape, list, body)?;
    body.ops.push(LlOp::SetItem(shape.array, items, at, value))
}

/// The item at an index is set.
#[tactic(auto, unfolding(crate::specs::Items::store))]
pub fn push_store(
    alloc: Global,
    around: Around<'_>,
    place: Place<'_>,
    a: Operand<'_>,
    index: COperand,
    c: Operand<'_>,
    found: &mut Found,
    body: &mut Body,
) -> Result<(), NoMem>
    ensures { OnOk result (Leaves (spec.store (the_around around.entry) (the_place place.entry) (the_operand a.entry) index (the_operand c.entry) (writing found.old body.old)) found.new body.new) }
{
    let shape = shape_in(around, a);
    let x = there_in(alloc, around, a, found, body)?;
    let at = placed(alloc, list_of(around, a), x, index, found, body)?;
    let value = given(alloc, around, c, shape.item, found, body)?;
    push_stored(shape, x, at, value, body)?;
    give(alloc, around, place, c.x, around.type_of(c), found, body)
}

/// The item at an index is taken out.
#[tactic(auto, unfolding(crate::specs::Items::delete))]
pub fn push_delete(
    alloc: Global,
    around: Around<'_>,
    place: Place<'_>,
    a: Operand<'_>,
    index: COperand,
    found: &mut Found,
    body: &mut Body,
) -> Result<(), NoMem>
    ensures { OnOk result (Leaves (spec.delete (the_around around.entry) (the_place place.entry) (the_operand a.entry) index (writing found.old body.old)) found.new body.new) }
{
    let list = list_of(around, a);
    let x = there_in(alloc, around, a, found, body)?;
    let at = placed(alloc, list, x, index, found, body)?;
    let xs = [COperand::Var(x), at];
    push_done(alloc, Listed::Remove(list), xs, found, body)?;
    give_nothing(around, place, body)
}

/// The item at an index is read, and then taken out.
#[tactic(auto, unfolding(crate::specs::Items::pop))]
pub fn push_pop(
    alloc: Global,
    around: Around<'_>,
    place: Place<'_>,
    a: Operand<'_>,
    index: COperand,
    found: &mut Found,
    body: &mut Body,
) -> Result<(), NoMem>
    ensures { OnOk result (Leaves (spec.pop (the_around around.entry) (the_place place.entry) (the_operand a.entry) index (writing found.old body.old)) found.new body.new) }
{
    let list = list_of(around, a);
    let shape = shape_in(around, a);
    let x = there_in(alloc, around, a, found, body)?;
    let at = placed(alloc, list, x, index, found, body)?;
    let item = read_item(shape, x, at, body)?;
    let xs = [COperand::Var(x), at];
    push_done(alloc, Listed::Remove(list), xs, found, body)?;
    give(alloc, around, place, item, shape.item, found, body)
}

// ---- walks: the list, and a place

/// Whether an item is there.
#[tactic(auto, unfolding(crate::specs::Items::has_item))]
pub fn push_has_item(
    alloc: Global,
    around: Around<'_>,
    place: Place<'_>,
    a: Operand<'_>,
    at: COperand,
    found: &mut Found,
    body: &mut Body,
) -> Result<(), NoMem>
    ensures { OnOk result (Leaves (spec.has_item (the_around around.entry) (the_place place.entry) (the_operand a.entry) at (writing found.old body.old)) found.new body.new) }
{
    let shape = shape_in(around, a);
    let x = variable_of(a.x, around.type_of(a), body)?;
    let end = body.fresh(LlType::Signed)?;
    body.ops.push(length(end, shape, x))?;
    let less = CBinary::Lt;
    let flag = LlType::Bool;
    let end = COperand::Var(end);
    give_binary(alloc, around, place, less, flag, at, end, found, body)
}

/// The item that is there.
#[tactic(auto, unfolding(crate::specs::Items::walk_item))]
pub fn push_walk_item(
    alloc: Global,
    around: Around<'_>,
    place: Place<'_>,
    a: Operand<'_>,
    at: COperand,
    found: &mut Found,
    body: &mut Body,
) -> Result<(), NoMem>
    ensures { OnOk result (Leaves (spec.walk_item (the_around around.entry) (the_place place.entry) (the_operand a.entry) at (writing found.old body.old)) found.new body.new) }
{
    let shape = shape_in(around, a);
    let x = variable_of(a.x, around.type_of(a), body)?;
    let item = read_item(shape, x, at, body)?;
    give(alloc, around, place, item, shape.item, found, body)
}

/// `len` of a list.
#[tactic(auto, unfolding(crate::specs::Items::len))]
pub fn push_len(
    alloc: Global,
    around: Around<'_>,
    place: Place<'_>,
    a: Operand<'_>,
    found: &mut Found,
    body: &mut Body,
) -> Result<(), NoMem>
    ensures { OnOk result (Leaves (spec.len (the_around around.entry) (the_place place.entry) (the_operand a.entry) (writing found.old body.old)) found.new body.new) }
{
    let shape = shape_in(around, a);
    let x = there_in(alloc, around, a, found, body)?;
    let end = body.fresh(LlType::Signed)?;
    body.ops.push(length(end, shape, x))?;
    let word = LlType::Signed;
    give(alloc, around, place, COperand::Var(end), word, found, body)
}

/// What a `for` walks is the list itself.
#[tactic(auto, unfolding(crate::specs::Items::walk))]
pub fn push_walk(
    alloc: Global,
    around: Around<'_>,
    place: Place<'_>,
    a: Operand<'_>,
    found: &mut Found,
    body: &mut Body,
) -> Result<(), NoMem>
    ensures { OnOk result (Leaves (spec.walk (the_around around.entry) (the_place place.entry) (the_operand a.entry) (writing found.old body.old)) found.new body.new) }
{
    let x = there(alloc, around, a, found, body)?;
    give(alloc, around, place, x, around.type_of(a), found, body)
}

// Whether a value is among the items, or is not.
#[tactic(auto, unfolding(crate::specs::Items::is_within))]
fn is_within(
    alloc: Global,
    around: Around<'_>,
    reversed: bool,
    a: Operand<'_>,
    b: Operand<'_>,
    found: &mut Found,
    body: &mut Body,
) -> Result<COperand, NoMem>
    ensures { IfOk result (λ x. Gives (spec.is_within (the_around around.entry) reversed (the_operand a.entry) (the_operand b.entry) (writing found.old body.old)) x found.new body.new) }
{
    let y = there(alloc, around, b, found, body)?;
    let listed = Listed::Contains(around.type_of(a), list_of(around, b));
    let small = Small::Listed(listed);
    let is_in = by_small(alloc, small, LlType::Bool, [a.x, y], found, body)?;
    opposite_if(reversed, is_in, body)
}

/// Whether a value is among the items, or is not.
#[tactic(auto, unfolding(crate::specs::Items::within))]
pub fn push_within(
    alloc: Global,
    around: Around<'_>,
    place: Place<'_>,
    reversed: bool,
    a: Operand<'_>,
    b: Operand<'_>,
    found: &mut Found,
    body: &mut Body,
) -> Result<(), NoMem>
    ensures { OnOk result (Leaves (spec.within (the_around around.entry) (the_place place.entry) reversed (the_operand a.entry) (the_operand b.entry) (writing found.old body.old)) found.new body.new) }
{
    let x = is_within(alloc, around, reversed, a, b, found, body)?;
    give(alloc, around, place, x, LlType::Bool, found, body)
}
