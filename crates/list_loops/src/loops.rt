// The loops over arrays. None of them pays a step.
ghost use Rattle.std.specs.Prelude.{◌≡◌, IfOk, OnOk};
ghost use Rattle.rtyper_data.specs.Seen.{writing, Asks, Gives, Leaves};
ghost use Rattle.list_loops.specs.Loops as spec;

use csub_tree::COperand::Var;
use csub_tree::{CBinary, COperand};
use list_shape::{ONE, Shape, ZERO, array, gives, item_of, length};
use ll_build::build::{
    answer, block, blocks_of, done, flag, fork, go, graph, none, null, operations, types_of,
    variables,
};
use ll_code::{LlBlock, LlExit, LlGraph, LlOp, LlType, VarId};
use rpy_base::{NoMem, Seq};
use rtyper_data::{Body, Found, equal, value_as, variable_of};
use rtyper_layout::Layout;
use std::alloc::Global;

const SIGNED: LlType = LlType::Signed;

// ---- items from one array into another: the array and a place in each, and how many

#[tactic(auto, unfolding(crate::specs::Loops::copy_types))]
fn copy_types(alloc: Global, from: u64, to: u64) -> Result<Seq<LlType>, NoMem>
    ensures { IfOk result (λ types. types ≡ spec.copy_types from to) }
{
    types_of(
        alloc,
        [
            LlType::Ptr(from),
            SIGNED,
            LlType::Ptr(to),
            SIGNED,
            SIGNED,
            LlType::Bool,
            SIGNED,
            SIGNED,
            SIGNED,
        ],
    )
}

// The item as one of the other array.
#[tactic(auto, unfolding(crate::specs::Loops::copied))]
fn copied(
    alloc: Global,
    layout: &Layout,
    from: u64,
    to: u64,
    found: &mut Found,
    body: &mut Body,
) -> Result<(), NoMem>
    ensures { OnOk result (Leaves (spec.copied layout.now from to (writing found.old body.old)) found.new body.new) }
{
    let kind = item_of(layout, from);
    let item = body.fresh(kind)?;
    body.ops.push(LlOp::GetItem(item, from, 0, Var(1)))?;
    let other = item_of(layout, to);
    let given = value_as(alloc, layout, Var(item), kind, other, found, body)?;
    body.ops.push(LlOp::SetItem(to, 2, Var(3), given))?;
    body.ops.push(LlOp::Binary(6, CBinary::Add, Var(1), ONE))?;
    body.ops.push(LlOp::Binary(7, CBinary::Add, Var(3), ONE))?;
    body.ops.push(LlOp::Binary(8, CBinary::Sub, Var(4), ONE))
}

#[tactic(auto, unfolding(crate::specs::Loops::copy_start))]
fn copy_start(alloc: Global) -> Result<LlBlock, NoMem>
    ensures { IfOk result (λ made. made ≡ spec.copy_start) }
{
    let exit = go(alloc, 1, [Var(0), Var(1), Var(2), Var(3), Var(4)])?;
    none(alloc, [0, 1, 2, 3, 4], exit)
}

#[tactic(auto, unfolding(crate::specs::Loops::copy_asks))]
fn copy_asks(alloc: Global) -> Result<LlBlock, NoMem>
    ensures { IfOk result (λ made. made ≡ spec.copy_asks) }
{
    let ops = operations(alloc, [LlOp::Binary(5, CBinary::Gt, Var(4), ZERO)])?;
    let exit = fork(alloc, 5, 2, [Var(0), Var(1), Var(2), Var(3), Var(4)], 3, [])?;
    block(alloc, [0, 1, 2, 3, 4], ops, exit)
}

#[tactic(auto, unfolding(crate::specs::Loops::copy_turn))]
fn copy_turn(alloc: Global, ops: Seq<LlOp>) -> Result<LlBlock, NoMem>
    ensures { IfOk result (λ made. made ≡ spec.copy_turn ops) }
{
    let exit = go(alloc, 1, [Var(0), Var(6), Var(2), Var(7), Var(8)])?;
    block(alloc, [0, 1, 2, 3, 4], ops, exit)
}

#[tactic(auto, unfolding(crate::specs::Loops::copy_graph))]
fn copy_graph(alloc: Global, body: Body) -> Result<LlGraph, NoMem>
    ensures { IfOk result (λ made. made ≡ spec.copy_graph body) }
{
    let Body { types, ops } = body;
    let blocks = blocks_of(
        alloc,
        [
            copy_start(alloc)?,
            copy_asks(alloc)?,
            copy_turn(alloc, ops)?,
            done(alloc)?,
        ],
    )?;
    let params = variables(alloc, [0, 1, 2, 3, 4])?;
    graph(alloc, b"copy_items", params, LlType::Void, types, blocks)
}

#[tactic(auto, unfolding(crate::specs::Loops::copy_items))]
pub fn copy_items(
    alloc: Global,
    layout: &Layout,
    from: u64,
    to: u64,
    found: &mut Found,
) -> Result<LlGraph, NoMem>
    ensures { IfOk result (λ made. Asks (spec.copy_items layout.now from to found.old) made found.new) }
{
    let mut body = Body {
        types: copy_types(alloc, from, to)?,
        ops: Seq::new(alloc),
    };
    copied(alloc, layout, from, to, found, &mut body)?;
    copy_graph(alloc, body)
}

// ---- so many items of an array, from a place on, one place up, the last one first

#[tactic(auto, unfolding(crate::specs::Loops::up_start))]
fn up_start(alloc: Global) -> Result<LlBlock, NoMem>
    ensures { IfOk result (λ made. made ≡ spec.up_start) }
{
    none(alloc, [0, 1, 2], go(alloc, 1, [Var(0), Var(1), Var(2)])?)
}

#[tactic(auto, unfolding(crate::specs::Loops::up_asks))]
fn up_asks(alloc: Global) -> Result<LlBlock, NoMem>
    ensures { IfOk result (λ made. made ≡ spec.up_asks) }
{
    let ops = operations(alloc, [LlOp::Binary(3, CBinary::Gt, Var(2), ZERO)])?;
    let exit = fork(alloc, 3, 2, [Var(0), Var(1), Var(2)], 3, [])?;
    block(alloc, [0, 1, 2], ops, exit)
}

#[tactic(auto, unfolding(crate::specs::Loops::up_turn))]
fn up_turn(alloc: Global, array: u64) -> Result<LlBlock, NoMem>
    ensures { IfOk result (λ made. made ≡ spec.up_turn array) }
{
    let ops = operations(
        alloc,
        [
            LlOp::Binary(4, CBinary::Sub, Var(2), ONE),
            LlOp::Binary(5, CBinary::Add, Var(1), Var(4)),
            LlOp::GetItem(6, array, 0, Var(5)),
            LlOp::Binary(7, CBinary::Add, Var(5), ONE),
            LlOp::SetItem(array, 0, Var(7), Var(6)),
        ],
    )?;
    let exit = go(alloc, 1, [Var(0), Var(1), Var(4)])?;
    block(alloc, [0, 1, 2], ops, exit)
}

#[tactic(auto, unfolding(crate::specs::Loops::move_up))]
pub fn move_up(alloc: Global, layout: &Layout, array: u64) -> Result<LlGraph, NoMem>
    ensures { IfOk result (λ made. made ≡ spec.move_up layout.now array) }
{
    let types = types_of(
        alloc,
        [
            LlType::Ptr(array),
            SIGNED,
            SIGNED,
            LlType::Bool,
            SIGNED,
            SIGNED,
            item_of(layout, array),
            SIGNED,
        ],
    )?;
    let blocks = blocks_of(
        alloc,
        [
            up_start(alloc)?,
            up_asks(alloc)?,
            up_turn(alloc, array)?,
            done(alloc)?,
        ],
    )?;
    let params = variables(alloc, [0, 1, 2])?;
    graph(alloc, b"move_up", params, LlType::Void, types, blocks)
}

// ---- the items of a list in the opposite order

#[tactic(auto, unfolding(crate::specs::Loops::reverse_start))]
fn reverse_start(alloc: Global, shape: Shape) -> Result<LlBlock, NoMem>
    ensures { IfOk result (λ made. made ≡ spec.reverse_start shape) }
{
    let ops = operations(
        alloc,
        [
            length(7, shape, 0),
            LlOp::Binary(3, CBinary::Sub, Var(7), ONE),
            array(1, shape, 0),
        ],
    )?;
    let exit = go(alloc, 1, [Var(1), ZERO, Var(3)])?;
    block(alloc, [0], ops, exit)
}

#[tactic(auto, unfolding(crate::specs::Loops::reverse_asks))]
fn reverse_asks(alloc: Global) -> Result<LlBlock, NoMem>
    ensures { IfOk result (λ made. made ≡ spec.reverse_asks) }
{
    let ops = operations(alloc, [LlOp::Binary(4, CBinary::Lt, Var(2), Var(3))])?;
    let exit = fork(alloc, 4, 2, [Var(1), Var(2), Var(3)], 3, [])?;
    block(alloc, [1, 2, 3], ops, exit)
}

#[tactic(auto, unfolding(crate::specs::Loops::reverse_turn))]
fn reverse_turn(alloc: Global, array: u64) -> Result<LlBlock, NoMem>
    ensures { IfOk result (λ made. made ≡ spec.reverse_turn array) }
{
    let ops = operations(
        alloc,
        [
            LlOp::GetItem(5, array, 1, Var(2)),
            LlOp::GetItem(6, array, 1, Var(3)),
            LlOp::SetItem(array, 1, Var(2), Var(6)),
            LlOp::SetItem(array, 1, Var(3), Var(5)),
            LlOp::Binary(7, CBinary::Add, Var(2), ONE),
            LlOp::Binary(8, CBinary::Sub, Var(3), ONE),
        ],
    )?;
    let exit = go(alloc, 1, [Var(1), Var(7), Var(8)])?;
    block(alloc, [1, 2, 3], ops, exit)
}

#[tactic(auto, unfolding(crate::specs::Loops::reverse))]
pub fn reverse(alloc: Global, shape: Shape) -> Result<LlGraph, NoMem>
    ensures { IfOk result (λ made. made ≡ spec.reverse shape) }
{
    let types = types_of(
        alloc,
        [
            LlType::Ptr(shape.list),
            LlType::Ptr(shape.array),
            SIGNED,
            SIGNED,
            LlType::Bool,
            shape.item,
            shape.item,
            SIGNED,
            SIGNED,
        ],
    )?;
    let blocks = blocks_of(
        alloc,
        [
            reverse_start(alloc, shape)?,
            reverse_asks(alloc)?,
            reverse_turn(alloc, shape.array)?,
            done(alloc)?,
        ],
    )?;
    let params = variables(alloc, [0])?;
    graph(alloc, b"list_reverse", params, LlType::Void, types, blocks)
}

// ---- whether a value is one of the items

#[tactic(auto, unfolding(crate::specs::Loops::contains_types))]
fn contains_types(alloc: Global, kind: LlType, shape: Shape) -> Result<Seq<LlType>, NoMem>
    ensures { IfOk result (λ types. types ≡ spec.contains_types kind shape) }
{
    types_of(
        alloc,
        [
            kind,
            LlType::Ptr(shape.list),
            LlType::Ptr(shape.array),
            SIGNED,
            SIGNED,
            LlType::Bool,
            SIGNED,
        ],
    )
}

// Whether the item at the place is equal to the value.
#[tactic(auto, unfolding(crate::specs::Loops::same_item))]
fn same_item(
    alloc: Global,
    layout: &Layout,
    kind: LlType,
    shape: Shape,
    found: &mut Found,
    body: &mut Body,
) -> Result<COperand, NoMem>
    ensures { IfOk result (λ same. Gives (spec.same_item layout.now kind shape (writing found.old body.old)) same found.new body.new) }
{
    let item = body.fresh(shape.item)?;
    body.ops.push(LlOp::GetItem(item, shape.array, 2, Var(4)))?;
    body.ops.push(LlOp::Binary(6, CBinary::Add, Var(4), ONE))?;
    let x = Var(item);
    equal(alloc, layout, x, shape.item, Var(0), kind, found, body)
}

#[tactic(auto, unfolding(crate::specs::Loops::contains_start))]
fn contains_start(alloc: Global, shape: Shape) -> Result<LlBlock, NoMem>
    ensures { IfOk result (λ made. made ≡ spec.contains_start shape) }
{
    let ops = operations(alloc, [length(3, shape, 1), array(2, shape, 1)])?;
    let exit = go(alloc, 1, [Var(0), Var(2), Var(3), ZERO])?;
    block(alloc, [0, 1], ops, exit)
}

#[tactic(auto, unfolding(crate::specs::Loops::contains_asks))]
fn contains_asks(alloc: Global) -> Result<LlBlock, NoMem>
    ensures { IfOk result (λ made. made ≡ spec.contains_asks) }
{
    let ops = operations(alloc, [LlOp::Binary(5, CBinary::Lt, Var(4), Var(3))])?;
    let exit = fork(alloc, 5, 2, [Var(0), Var(2), Var(3), Var(4)], 4, [])?;
    block(alloc, [0, 2, 3, 4], ops, exit)
}

#[tactic(auto, unfolding(crate::specs::Loops::contains_turn))]
fn contains_turn(alloc: Global, same: VarId, ops: Seq<LlOp>) -> Result<LlBlock, NoMem>
    ensures { IfOk result (λ made. made ≡ spec.contains_turn same ops) }
{
    let exit = fork(alloc, same, 3, [], 1, [Var(0), Var(2), Var(3), Var(6)])?;
    block(alloc, [0, 2, 3, 4], ops, exit)
}

#[tactic(auto, unfolding(crate::specs::Loops::contains_graph))]
fn contains_graph(alloc: Global, shape: Shape, same: VarId, body: Body) -> Result<LlGraph, NoMem>
    ensures { IfOk result (λ made. made ≡ spec.contains_graph shape (same, body)) }
{
    let Body { types, ops } = body;
    let blocks = blocks_of(
        alloc,
        [
            contains_start(alloc, shape)?,
            contains_asks(alloc)?,
            contains_turn(alloc, same, ops)?,
            answer(alloc, flag(true))?,
            answer(alloc, flag(false))?,
        ],
    )?;
    let params = variables(alloc, [0, 1])?;
    graph(alloc, b"list_contains", params, LlType::Bool, types, blocks)
}

#[tactic(auto, unfolding(crate::specs::Loops::contains))]
pub fn contains(
    alloc: Global,
    layout: &Layout,
    kind: LlType,
    shape: Shape,
    found: &mut Found,
) -> Result<LlGraph, NoMem>
    ensures { IfOk result (λ made. Asks (spec.contains layout.now kind shape found.old) made found.new) }
{
    let mut body = Body {
        types: contains_types(alloc, kind, shape)?,
        ops: Seq::new(alloc),
    };
    let same = same_item(alloc, layout, kind, shape, found, &mut body)?;
    let same = variable_of(same, LlType::Bool, &mut body)?;
    contains_graph(alloc, shape, same, body)
}

// ---- the place that an index names: one below zero counts from the end; outside there is none

#[tactic(auto, unfolding(crate::specs::Loops::place_start))]
fn place_start(alloc: Global, shape: Shape) -> Result<LlBlock, NoMem>
    ensures { IfOk result (λ made. made ≡ spec.place_start shape) }
{
    let below = LlOp::Binary(3, CBinary::Lt, Var(1), ZERO);
    let ops = operations(alloc, [length(2, shape, 0), below])?;
    let exit = fork(alloc, 3, 1, [Var(1), Var(2)], 2, [Var(1), Var(2)])?;
    block(alloc, [0, 1], ops, exit)
}

#[tactic(auto, unfolding(crate::specs::Loops::place_from_end))]
fn place_from_end(alloc: Global) -> Result<LlBlock, NoMem>
    ensures { IfOk result (λ made. made ≡ spec.place_from_end) }
{
    let ops = operations(alloc, [LlOp::Binary(4, CBinary::Add, Var(1), Var(2))])?;
    block(alloc, [1, 2], ops, go(alloc, 2, [Var(4), Var(2)])?)
}

#[tactic(auto, unfolding(crate::specs::Loops::place_low))]
fn place_low(alloc: Global) -> Result<LlBlock, NoMem>
    ensures { IfOk result (λ made. made ≡ spec.place_low) }
{
    let ops = operations(alloc, [LlOp::Binary(3, CBinary::Lt, Var(1), ZERO)])?;
    let exit = fork(alloc, 3, 4, [], 3, [Var(1), Var(2)])?;
    block(alloc, [1, 2], ops, exit)
}

#[tactic(auto, unfolding(crate::specs::Loops::place_high))]
fn place_high(alloc: Global) -> Result<LlBlock, NoMem>
    ensures { IfOk result (λ made. made ≡ spec.place_high) }
{
    let ops = operations(alloc, [LlOp::Binary(3, CBinary::Lt, Var(1), Var(2))])?;
    let exit = fork(alloc, 3, 5, [Var(1)], 4, [])?;
    block(alloc, [1, 2], ops, exit)
}

#[tactic(auto, unfolding(crate::specs::Loops::place_tests))]
fn place_tests(alloc: Global, shape: Shape) -> Result<Seq<LlBlock>, NoMem>
    ensures { IfOk result (λ made. made ≡ spec.place_tests shape) }
{
    let start = place_start(alloc, shape)?;
    let from_end = place_from_end(alloc)?;
    let low = place_low(alloc)?;
    let high = place_high(alloc)?;
    blocks_of(alloc, [start, from_end, low, high])
}

#[tactic(auto, unfolding(crate::specs::Loops::place_types))]
fn place_types(alloc: Global, shape: Shape) -> Result<Seq<LlType>, NoMem>
    ensures { IfOk result (λ made. made ≡ spec.place_types shape) }
{
    let list = LlType::Ptr(shape.list);
    types_of(alloc, [list, SIGNED, SIGNED, LlType::Bool, SIGNED])
}

#[tactic(auto, unfolding(crate::specs::Loops::place))]
pub fn place(alloc: Global, shape: Shape, outside: LlBlock) -> Result<LlGraph, NoMem>
    ensures { IfOk result (λ made. made ≡ spec.place shape outside) }
{
    let types = place_types(alloc, shape)?;
    let mut blocks = place_tests(alloc, shape)?;
    blocks.push(outside)?;
    blocks.push(gives(alloc, 1)?)?;
    let params = variables(alloc, [0, 1])?;
    graph(alloc, b"list_place", params, SIGNED, types, blocks)
}

// ---- whether a list, or `None`, has items

#[tactic(auto, unfolding(crate::specs::Loops::truth_asks))]
fn truth_asks(alloc: Global) -> Result<LlBlock, NoMem>
    ensures { IfOk result (λ made. made ≡ spec.truth_asks) }
{
    let ops = operations(alloc, [LlOp::Binary(1, CBinary::Peq, Var(0), null())])?;
    block(alloc, [0], ops, fork(alloc, 1, 1, [], 2, [Var(0)])?)
}

#[tactic(auto, unfolding(crate::specs::Loops::truth_given))]
fn truth_given(alloc: Global, shape: Shape) -> Result<LlBlock, NoMem>
    ensures { IfOk result (λ made. made ≡ spec.truth_given shape) }
{
    let any = LlOp::Binary(1, CBinary::Ne, Var(2), ZERO);
    let ops = operations(alloc, [length(2, shape, 0), any])?;
    block(alloc, [0], ops, LlExit::Return(Some(Var(1))))
}

/// Whether a list, or `None`, has items.
#[tactic(auto, unfolding(crate::specs::Loops::truth))]
pub fn truth(alloc: Global, shape: Shape) -> Result<LlGraph, NoMem>
    ensures { IfOk result (λ made. made ≡ spec.truth shape) }
{
    let types = types_of(alloc, [LlType::Ptr(shape.list), LlType::Bool, SIGNED])?;
    let blocks = blocks_of(
        alloc,
        [
            truth_asks(alloc)?,
            answer(alloc, flag(false))?,
            truth_given(alloc, shape)?,
        ],
    )?;
    let params = variables(alloc, [0])?;
    graph(alloc, b"list_truth", params, LlType::Bool, types, blocks)
}
