// Lists that change in their place.
ghost use Rattle.std.specs.Prelude.{◌≡◌, IfOk};
ghost use Rattle.rtyper_data.specs.Seen.{Asks};
ghost use Rattle.list_loops.specs.Changing as spec;

use crate::making::THREE;
use csub_tree::CBinary;
use csub_tree::COperand::Var;
use list_shape::{ONE, Shape, ZERO, array, length, number_of, set_length};
use ll_build::build::{
    block, blocks_of, call_of, done, fails, fork, graph, operations, types_of, variables, word,
};
use ll_code::{LlBlock, LlExit, LlGraph, LlOp, LlType};
use rpy_base::{NoMem, Seq};
use rtyper_data::{Found, Listed, default_operand};
use std::alloc::Global;

const SIGNED: LlType = LlType::Signed;

// ---- an item less

#[tactic(auto, unfolding(crate::specs::Changing::remove_types))]
fn remove_types(alloc: Global, shape: Shape) -> Result<Seq<LlType>, NoMem>
    ensures { IfOk result (λ types. types ≡ spec.remove_types shape) }
{
    types_of(
        alloc,
        [
            LlType::Ptr(shape.list),
            SIGNED,
            SIGNED,
            LlType::Ptr(shape.array),
            SIGNED,
            SIGNED,
            SIGNED,
        ],
    )
}

#[tactic(auto, unfolding(crate::specs::Changing::remove_done))]
fn remove_done(alloc: Global, copies: u64, shape: Shape) -> Result<LlBlock, NoMem>
    ensures { IfOk result (λ made. made ≡ spec.remove_done copies shape) }
{
    let down = [Var(3), Var(5), Var(3), Var(1), Var(6)];
    let ops = operations(
        alloc,
        [
            length(2, shape, 0),
            array(3, shape, 0),
            LlOp::Binary(4, CBinary::Sub, Var(2), ONE),
            LlOp::Binary(5, CBinary::Add, Var(1), ONE),
            LlOp::Binary(6, CBinary::Sub, Var(4), Var(1)),
            call_of(alloc, None, copies, down)?,
            LlOp::SetItem(shape.array, 3, Var(4), default_operand(shape.item)),
            set_length(shape, 0, Var(4)),
        ],
    )?;
    block(alloc, [0, 1], ops, LlExit::Return(None))
}

#[tactic(auto, unfolding(crate::specs::Changing::remove_graph))]
fn remove_graph(alloc: Global, copies: u64, shape: Shape) -> Result<LlGraph, NoMem>
    ensures { IfOk result (λ made. made ≡ spec.remove_graph copies shape) }
{
    let types = remove_types(alloc, shape)?;
    let blocks = blocks_of(alloc, [remove_done(alloc, copies, shape)?])?;
    let params = variables(alloc, [0, 1])?;
    graph(alloc, b"list_remove", params, LlType::Void, types, blocks)
}

/// The item at a place is taken out, and the later ones move down. The place behind the last holds
/// nothing.
#[tactic(auto, unfolding(crate::specs::Changing::remove))]
pub fn remove(alloc: Global, shape: Shape, found: &mut Found) -> Result<LlGraph, NoMem>
    ensures { IfOk result (λ made. Asks (spec.remove shape found.old) made found.new) }
{
    let copies = number_of(Listed::Copy(shape.array, shape.array), found)?;
    remove_graph(alloc, copies, shape)
}

// ---- room: a full array is made anew, with half the length and 3 as spare places

#[tactic(auto, unfolding(crate::specs::Changing::room_types))]
fn room_types(alloc: Global, shape: Shape) -> Result<Seq<LlType>, NoMem>
    ensures { IfOk result (λ types. types ≡ spec.room_types shape) }
{
    types_of(
        alloc,
        [
            LlType::Ptr(shape.list),
            SIGNED,
            SIGNED,
            LlType::Ptr(shape.array),
            SIGNED,
            SIGNED,
            LlType::Bool,
            SIGNED,
            LlType::Ptr(shape.array),
        ],
    )
}

#[tactic(auto, unfolding(crate::specs::Changing::room_asks))]
fn room_asks(alloc: Global, shape: Shape) -> Result<LlBlock, NoMem>
    ensures { IfOk result (λ made. made ≡ spec.room_asks shape) }
{
    let ops = operations(
        alloc,
        [
            length(2, shape, 0),
            array(3, shape, 0),
            LlOp::GetField(4, shape.array, 3, 0),
            LlOp::Binary(5, CBinary::Add, Var(2), Var(1)),
            LlOp::Binary(6, CBinary::Le, Var(5), Var(4)),
        ],
    )?;
    let exit = fork(alloc, 6, 1, [], 2, [Var(0), Var(2), Var(3), Var(5)])?;
    block(alloc, [0, 1], ops, exit)
}

#[tactic(auto, unfolding(crate::specs::Changing::room_grows))]
fn room_grows(alloc: Global, copies: u64, shape: Shape) -> Result<LlBlock, NoMem>
    ensures { IfOk result (λ made. made ≡ spec.room_grows copies shape) }
{
    let xs = [Var(3), ZERO, Var(8), ZERO, Var(2)];
    let ops = operations(
        alloc,
        [
            LlOp::Binary(7, CBinary::Shr, Var(2), ONE),
            LlOp::Binary(7, CBinary::Add, Var(5), Var(7)),
            LlOp::Binary(7, CBinary::Add, Var(7), word(3)),
            LlOp::NewArray(8, shape.array, shape.array, Var(7)),
            LlOp::SetField(shape.array, 8, 0, Var(7)),
            call_of(alloc, None, copies, xs)?,
            LlOp::SetField(shape.list, 0, 1, Var(8)),
        ],
    )?;
    block(alloc, [0, 2, 3, 5], ops, LlExit::Return(None))
}

#[tactic(auto, unfolding(crate::specs::Changing::room_graph))]
fn room_graph(alloc: Global, copies: u64, shape: Shape) -> Result<LlGraph, NoMem>
    ensures { IfOk result (λ made. made ≡ spec.room_graph copies shape) }
{
    let types = room_types(alloc, shape)?;
    let blocks = blocks_of(
        alloc,
        [
            room_asks(alloc, shape)?,
            done(alloc)?,
            room_grows(alloc, copies, shape)?,
        ],
    )?;
    let params = variables(alloc, [0, 1])?;
    graph(alloc, b"list_room", params, LlType::Void, types, blocks)
}

/// Room for so many further items.
#[tactic(auto, unfolding(crate::specs::Changing::room))]
pub fn room(alloc: Global, shape: Shape, found: &mut Found) -> Result<LlGraph, NoMem>
    ensures { IfOk result (λ made. Asks (spec.room shape found.old) made found.new) }
{
    let copies = number_of(Listed::Copy(shape.array, shape.array), found)?;
    room_graph(alloc, copies, shape)
}

// ---- one item more, at the end

#[tactic(auto, unfolding(crate::specs::Changing::append_types))]
fn append_types(alloc: Global, shape: Shape) -> Result<Seq<LlType>, NoMem>
    ensures { IfOk result (λ types. types ≡ spec.append_types shape) }
{
    let list = LlType::Ptr(shape.list);
    let array = LlType::Ptr(shape.array);
    types_of(alloc, [list, shape.item, SIGNED, array, SIGNED])
}

#[tactic(auto, unfolding(crate::specs::Changing::append_done))]
fn append_done(alloc: Global, makes_room: u64, shape: Shape) -> Result<LlBlock, NoMem>
    ensures { IfOk result (λ made. made ≡ spec.append_done makes_room shape) }
{
    let ops = operations(
        alloc,
        [
            LlOp::Step(ONE),
            call_of(alloc, None, makes_room, [Var(0), ONE])?,
            length(2, shape, 0),
            array(3, shape, 0),
            LlOp::SetItem(shape.array, 3, Var(2), Var(1)),
            LlOp::Binary(4, CBinary::Add, Var(2), ONE),
            set_length(shape, 0, Var(4)),
        ],
    )?;
    block(alloc, [0, 1], ops, LlExit::Return(None))
}

#[tactic(auto, unfolding(crate::specs::Changing::append_graph))]
fn append_graph(alloc: Global, makes_room: u64, shape: Shape) -> Result<LlGraph, NoMem>
    ensures { IfOk result (λ made. made ≡ spec.append_graph makes_room shape) }
{
    let types = append_types(alloc, shape)?;
    let blocks = blocks_of(alloc, [append_done(alloc, makes_room, shape)?])?;
    let params = variables(alloc, [0, 1])?;
    graph(alloc, b"list_append", params, LlType::Void, types, blocks)
}

/// One item more, at the end.
#[tactic(auto, unfolding(crate::specs::Changing::append))]
pub fn append(alloc: Global, shape: Shape, found: &mut Found) -> Result<LlGraph, NoMem>
    ensures { IfOk result (λ made. Asks (spec.append shape found.old) made found.new) }
{
    let makes_room = number_of(Listed::Room(shape.list), found)?;
    append_graph(alloc, makes_room, shape)
}

// ---- one item more, before a place

#[tactic(auto, unfolding(crate::specs::Changing::insert_types))]
fn insert_types(alloc: Global, shape: Shape) -> Result<Seq<LlType>, NoMem>
    ensures { IfOk result (λ types. types ≡ spec.insert_types shape) }
{
    types_of(
        alloc,
        [
            LlType::Ptr(shape.list),
            SIGNED,
            shape.item,
            SIGNED,
            LlType::Bool,
            LlType::Ptr(shape.array),
            SIGNED,
            SIGNED,
        ],
    )
}

#[tactic(auto, unfolding(crate::specs::Changing::insert_low))]
fn insert_low(alloc: Global) -> Result<LlBlock, NoMem>
    ensures { IfOk result (λ made. made ≡ spec.insert_low) }
{
    let ops = operations(alloc, [LlOp::Binary(4, CBinary::Lt, Var(1), ZERO)])?;
    block(alloc, [0, 1, 2], ops, fork(alloc, 4, 3, [], 1, THREE)?)
}

#[tactic(auto, unfolding(crate::specs::Changing::insert_room))]
fn insert_room(alloc: Global, makes_room: u64, shape: Shape) -> Result<LlBlock, NoMem>
    ensures { IfOk result (λ made. made ≡ spec.insert_room makes_room shape) }
{
    let ops = operations(
        alloc,
        [
            LlOp::Step(ONE),
            call_of(alloc, None, makes_room, [Var(0), ONE])?,
            length(3, shape, 0),
            LlOp::Binary(4, CBinary::Lt, Var(1), Var(3)),
        ],
    )?;
    let within = [Var(0), Var(1), Var(2), Var(3)];
    let behind = [Var(0), Var(3), Var(2), Var(3)];
    let exit = fork(alloc, 4, 2, within, 2, behind)?;
    block(alloc, [0, 1, 2], ops, exit)
}

#[tactic(auto, unfolding(crate::specs::Changing::insert_done))]
fn insert_done(alloc: Global, moves_up: u64, shape: Shape) -> Result<LlBlock, NoMem>
    ensures { IfOk result (λ made. made ≡ spec.insert_done moves_up shape) }
{
    let ops = operations(
        alloc,
        [
            array(5, shape, 0),
            LlOp::Binary(6, CBinary::Sub, Var(3), Var(1)),
            call_of(alloc, None, moves_up, [Var(5), Var(1), Var(6)])?,
            LlOp::SetItem(shape.array, 5, Var(1), Var(2)),
            LlOp::Binary(7, CBinary::Add, Var(3), ONE),
            set_length(shape, 0, Var(7)),
        ],
    )?;
    block(alloc, [0, 1, 2, 3], ops, LlExit::Return(None))
}

#[tactic(auto, unfolding(crate::specs::Changing::insert_graph))]
fn insert_graph(
    alloc: Global,
    makes_room: u64,
    moves_up: u64,
    shape: Shape,
) -> Result<LlGraph, NoMem>
    ensures { IfOk result (λ made. made ≡ spec.insert_graph makes_room moves_up shape) }
{
    let types = insert_types(alloc, shape)?;
    let blocks = blocks_of(
        alloc,
        [
            insert_low(alloc)?,
            insert_room(alloc, makes_room, shape)?,
            insert_done(alloc, moves_up, shape)?,
            fails(alloc, 5)?,
        ],
    )?;
    let params = variables(alloc, [0, 1, 2])?;
    graph(alloc, b"list_insert", params, LlType::Void, types, blocks)
}

#[tactic(auto, unfolding(crate::specs::Changing::insert))]
pub fn insert(alloc: Global, shape: Shape, found: &mut Found) -> Result<LlGraph, NoMem>
    ensures { IfOk result (λ made. Asks (spec.insert shape found.old) made found.new) }
{
    let makes_room = number_of(Listed::Room(shape.list), found)?;
    let moves_up = number_of(Listed::MoveUp(shape.array), found)?;
    insert_graph(alloc, makes_room, moves_up, shape)
}

// ---- the items of another list, at the end

#[tactic(auto, unfolding(crate::specs::Changing::extend_types))]
fn extend_types(alloc: Global, shape: Shape, by: Shape) -> Result<Seq<LlType>, NoMem>
    ensures { IfOk result (λ types. types ≡ spec.extend_types shape by) }
{
    types_of(
        alloc,
        [
            LlType::Ptr(shape.list),
            LlType::Ptr(by.list),
            SIGNED,
            SIGNED,
            LlType::Ptr(shape.array),
            LlType::Ptr(by.array),
            SIGNED,
        ],
    )
}

#[tactic(auto, unfolding(crate::specs::Changing::extend_done))]
fn extend_done(
    alloc: Global,
    makes_room: u64,
    copies: u64,
    shape: Shape,
    by: Shape,
) -> Result<LlBlock, NoMem>
    ensures { IfOk result (λ made. made ≡ spec.extend_done makes_room copies shape by) }
{
    let xs = [Var(5), ZERO, Var(4), Var(3), Var(2)];
    let ops = operations(
        alloc,
        [
            length(2, by, 1),
            LlOp::Step(Var(2)),
            call_of(alloc, None, makes_room, [Var(0), Var(2)])?,
            length(3, shape, 0),
            array(4, shape, 0),
            array(5, by, 1),
            call_of(alloc, None, copies, xs)?,
            LlOp::Binary(6, CBinary::Add, Var(3), Var(2)),
            set_length(shape, 0, Var(6)),
        ],
    )?;
    block(alloc, [0, 1], ops, LlExit::Return(None))
}

#[tactic(auto, unfolding(crate::specs::Changing::extend_graph))]
fn extend_graph(
    alloc: Global,
    makes_room: u64,
    copies: u64,
    shape: Shape,
    by: Shape,
) -> Result<LlGraph, NoMem>
    ensures { IfOk result (λ made. made ≡ spec.extend_graph makes_room copies shape by) }
{
    let types = extend_types(alloc, shape, by)?;
    let done = extend_done(alloc, makes_room, copies, shape, by)?;
    let blocks = blocks_of(alloc, [done])?;
    let params = variables(alloc, [0, 1])?;
    graph(alloc, b"list_extend", params, LlType::Void, types, blocks)
}

/// The items of another list, at the end. It may be the same list, so its array is read last.
#[tactic(auto, unfolding(crate::specs::Changing::extend))]
pub fn extend(alloc: Global, shape: Shape, by: Shape, found: &mut Found) -> Result<LlGraph, NoMem>
    ensures { IfOk result (λ made. Asks (spec.extend shape by found.old) made found.new) }
{
    let makes_room = number_of(Listed::Room(shape.list), found)?;
    let copies = number_of(Listed::Copy(by.array, shape.array), found)?;
    extend_graph(alloc, makes_room, copies, shape, by)
}
