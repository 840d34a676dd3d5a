// Dicts that change.
ghost use Rattle.std.specs.Prelude.{◌≡◌, ◌++◌, IfOk, OnOk};
ghost use Rattle.rtyper_data.specs.Seen.{Asks};
ghost use Rattle.rtyper_dict.specs.Changing as spec;

use crate::parts::{
    BOOL, DictShape, ONE, SIGNED, ZERO, add, count, first, keyed_number, length, less, number_if,
    places, push_call, second, set_count, sub,
};
use csub_tree::COperand;
use csub_tree::COperand::Var;
use list_shape::number_of;
use ll_build::build::{block, call_of, fork, go, operations, types_of};
use ll_code::{LlBlock, LlExit, LlGraph, LlOp, LlType};
use rpy_base::{NoMem, Seq};
use rtyper_data::{Found, Keyed, Listed, default_operand, graph_of};
use std::alloc::Global;

// ---- an entry behind the last, where a place is free: 0 the dict, 1 the key, 2 the value, 3 the number of entries,
// 4 and 5 the arrays, 6 the length of the second, 7 the number of places, 8 the length of the index, 9 where the
// entry stands in the second array, 10 the new number

#[tactic(auto, unfolding(crate::specs::Changing::add_types))]
fn add_types(alloc: Global, d: DictShape) -> Result<Seq<LlType>, NoMem>
    ensures { IfOk result (λ types. types ≡ spec.add_types d) }
{
    types_of(
        alloc,
        [
            LlType::Ptr(d.dict),
            d.stored_key,
            d.stored_value,
            SIGNED,
            LlType::Ptr(d.first),
            LlType::Ptr(d.second),
            SIGNED,
            SIGNED,
            SIGNED,
            SIGNED,
            SIGNED,
        ],
    )
}

// What stands in the first array, and what in the second.
fn in_first(d: DictShape) -> COperand
    ensures { result ≡ spec.in_first d }
{
    if d.keys_last { Var(2) } else { Var(1) }
}

fn in_second(d: DictShape) -> COperand
    ensures { result ≡ spec.in_second d }
{
    if d.keys_last { Var(1) } else { Var(2) }
}

#[tactic(auto, unfolding(crate::specs::Changing::add_ops))]
fn add_ops(alloc: Global, d: DictShape) -> Result<Seq<LlOp>, NoMem>
    ensures { IfOk result (λ ops. ops ≡ spec.add_ops d) }
{
    operations(
        alloc,
        [
            count(3, d, 0),
            first(4, d, 0),
            second(5, d, 0),
            length(6, d, 5),
            places(7, d, 0),
            sub(8, 6, Var(7)),
            add(9, 8, Var(3)),
            LlOp::SetItem(d.first, 4, Var(3), in_first(d)),
            LlOp::SetItem(d.second, 5, Var(9), in_second(d)),
            add(10, 3, ONE),
            set_count(d, 0, Var(10)),
        ],
    )
}

// It comes into the index, where there is one.
#[tactic(auto, unfolding(crate::specs::Changing::add_done))]
fn add_done(alloc: Global, enters: Option<u64>, d: DictShape) -> Result<LlBlock, NoMem>
    ensures { IfOk result (λ made. made ≡ spec.add_done enters d) }
{
    let mut ops = add_ops(alloc, d)?;
    push_call(alloc, enters, [Var(0), Var(3)], &mut ops)?;
    block(alloc, [0, 1, 2], ops, LlExit::Return(None))
}

#[tactic(auto, unfolding(crate::specs::Changing::add_graph))]
fn add_graph(alloc: Global, enters: Option<u64>, d: DictShape) -> Result<LlGraph, NoMem>
    ensures { IfOk result (λ made. made ≡ spec.add_graph enters d) }
{
    let mut blocks = Seq::new(alloc);
    blocks.push(add_done(alloc, enters, d)?)?;
    let types = add_types(alloc, d)?;
    graph_of(alloc, b"dict_add", 3, LlType::Void, types, blocks)
}

/// An entry behind the last, where a place is free.
#[tactic(auto, unfolding(crate::specs::Changing::add_entry))]
pub fn add_entry(alloc: Global, d: DictShape, found: &mut Found) -> Result<LlGraph, NoMem>
    ensures { IfOk result (λ made. Asks (spec.add_entry d found.old) made found.new) }
{
    let enters = number_if(d.is_indexed, Keyed::Enter(d.dict), found)?;
    add_graph(alloc, enters, d)
}

// ---- the value of a key: 0 the dict, 1 the key, 2 the value, 3 the place of the entry, 4 a test, 5 the first array,
// 6 the second, 7 its length, 8 the number of places, 9 the length of the index, 10 where the value stands

#[tactic(auto, unfolding(crate::specs::Changing::store_types))]
fn store_types(alloc: Global, d: DictShape) -> Result<Seq<LlType>, NoMem>
    ensures { IfOk result (λ types. types ≡ spec.store_types d) }
{
    types_of(
        alloc,
        [
            LlType::Ptr(d.dict),
            d.stored_key,
            d.stored_value,
            SIGNED,
            BOOL,
            LlType::Ptr(d.first),
            LlType::Ptr(d.second),
            SIGNED,
            SIGNED,
            SIGNED,
            SIGNED,
        ],
    )
}

#[tactic(auto, unfolding(crate::specs::Changing::store_asks))]
fn store_asks(alloc: Global, finds: u64) -> Result<LlBlock, NoMem>
    ensures { IfOk result (λ made. made ≡ spec.store_asks finds) }
{
    let find = call_of(alloc, Some(3), finds, [Var(0), Var(1)])?;
    let ops = operations(alloc, [find, less(4, 3, ZERO)])?;
    let there = [Var(0), Var(2), Var(3)];
    let exit = fork(alloc, 4, 1, [Var(0), Var(1), Var(2)], 2, there)?;
    block(alloc, [0, 1, 2], ops, exit)
}

// A key that is not there is paid.
#[tactic(auto, unfolding(crate::specs::Changing::store_adds))]
fn store_adds(alloc: Global, grows: u64, adds: u64) -> Result<LlBlock, NoMem>
    ensures { IfOk result (λ made. made ≡ spec.store_adds grows adds) }
{
    let grow = call_of(alloc, None, grows, [Var(0)])?;
    let mut ops = operations(alloc, [LlOp::Step(ONE), grow])?;
    ops.push(call_of(alloc, None, adds, [Var(0), Var(1), Var(2)])?)?;
    block(alloc, [0, 1, 2], ops, LlExit::Return(None))
}

#[tactic(auto, unfolding(crate::specs::Changing::store_ops))]
fn store_ops(alloc: Global, d: DictShape) -> Result<Seq<LlOp>, NoMem>
    ensures { IfOk result (λ ops. ops ≡ spec.store_ops d) }
{
    if d.keys_last {
        let put = LlOp::SetItem(d.first, 5, Var(3), Var(2));
        return operations(alloc, [first(5, d, 0), put]);
    }
    operations(
        alloc,
        [
            second(6, d, 0),
            length(7, d, 6),
            places(8, d, 0),
            sub(9, 7, Var(8)),
            add(10, 9, Var(3)),
            LlOp::SetItem(d.second, 6, Var(10), Var(2)),
        ],
    )
}

#[tactic(auto, unfolding(crate::specs::Changing::store_puts))]
fn store_puts(alloc: Global, d: DictShape) -> Result<LlBlock, NoMem>
    ensures { IfOk result (λ made. made ≡ spec.store_puts d) }
{
    let ops = store_ops(alloc, d)?;
    block(alloc, [0, 2, 3], ops, LlExit::Return(None))
}

#[tactic(auto, unfolding(crate::specs::Changing::store_blocks))]
fn store_blocks(
    alloc: Global,
    finds: u64,
    grows: u64,
    adds: u64,
    d: DictShape,
) -> Result<Seq<LlBlock>, NoMem>
    ensures { IfOk result (λ blocks. blocks ≡ spec.store_blocks finds grows adds d) }
{
    let mut blocks = Seq::new(alloc);
    blocks.push(store_asks(alloc, finds)?)?;
    blocks.push(store_adds(alloc, grows, adds)?)?;
    blocks.push(store_puts(alloc, d)?)?;
    Ok(blocks)
}

#[tactic(auto, unfolding(crate::specs::Changing::store_graph))]
fn store_graph(
    alloc: Global,
    finds: u64,
    grows: u64,
    adds: u64,
    d: DictShape,
) -> Result<LlGraph, NoMem>
    ensures { IfOk result (λ made. made ≡ spec.store_graph finds grows adds d) }
{
    let blocks = store_blocks(alloc, finds, grows, adds, d)?;
    let types = store_types(alloc, d)?;
    graph_of(alloc, b"dict_store", 3, LlType::Void, types, blocks)
}

/// The value of a key. A key that is there keeps its place.
#[tactic(auto, unfolding(crate::specs::Changing::store))]
pub fn store(alloc: Global, d: DictShape, found: &mut Found) -> Result<LlGraph, NoMem>
    ensures { IfOk result (λ made. Asks (spec.store d found.old) made found.new) }
{
    let finds = keyed_number(Keyed::Find(d.dict), found)?;
    let grows = keyed_number(Keyed::Grow(d.dict), found)?;
    let adds = keyed_number(Keyed::Add(d.dict), found)?;
    store_graph(alloc, finds, grows, adds, d)
}

// ---- an entry is taken out: 0 the dict, 1 its place, 2 the number of entries, 3 the last place, 4 the place behind, 5
// how many stand behind it, 6 and 7 the arrays, 8 the length of the second, 9 the number of places, 10 the length of
// the index, 11 to 13 the places in the second array

#[tactic(auto, unfolding(crate::specs::Changing::remove_types))]
fn remove_types(alloc: Global, d: DictShape) -> Result<Seq<LlType>, NoMem>
    ensures { IfOk result (λ types. types ≡ spec.remove_types d) }
{
    types_of(
        alloc,
        [
            LlType::Ptr(d.dict),
            SIGNED,
            SIGNED,
            SIGNED,
            SIGNED,
            SIGNED,
            LlType::Ptr(d.first),
            LlType::Ptr(d.second),
            SIGNED,
            SIGNED,
            SIGNED,
            SIGNED,
            SIGNED,
            SIGNED,
        ],
    )
}

// The later entries move down.
#[tactic(auto, unfolding(crate::specs::Changing::remove_moves))]
fn remove_moves(alloc: Global, copies: u64, d: DictShape) -> Result<LlBlock, NoMem>
    ensures { IfOk result (λ made. made ≡ spec.remove_moves copies d) }
{
    let down = [Var(6), Var(4), Var(6), Var(1), Var(5)];
    let copy = call_of(alloc, None, copies, down)?;
    let ops = operations(
        alloc,
        [
            count(2, d, 0),
            sub(3, 2, ONE),
            add(4, 1, ONE),
            sub(5, 3, Var(1)),
            first(6, d, 0),
            copy,
            LlOp::SetItem(d.first, 6, Var(3), default_operand(d.first_item())),
        ],
    )?;
    let exit = go(alloc, 1, [Var(0), Var(1), Var(3), Var(5)])?;
    block(alloc, [0, 1], ops, exit)
}

#[tactic(auto, unfolding(crate::specs::Changing::remove_ops))]
fn remove_ops(alloc: Global, copies: u64, d: DictShape) -> Result<Seq<LlOp>, NoMem>
    ensures { IfOk result (λ ops. ops ≡ spec.remove_ops copies d) }
{
    let down = [Var(7), Var(12), Var(7), Var(11), Var(5)];
    let copy = call_of(alloc, None, copies, down)?;
    operations(
        alloc,
        [
            second(7, d, 0),
            length(8, d, 7),
            places(9, d, 0),
            sub(10, 8, Var(9)),
            add(11, 10, Var(1)),
            add(12, 11, ONE),
            add(13, 10, Var(3)),
            copy,
            LlOp::SetItem(d.second, 7, Var(13), default_operand(d.second_item())),
            set_count(d, 0, Var(3)),
        ],
    )
}

// The index is made anew, where there is one.
#[tactic(auto, unfolding(crate::specs::Changing::remove_ends))]
fn remove_ends(
    alloc: Global,
    copies: u64,
    indexes: Option<u64>,
    d: DictShape,
) -> Result<LlBlock, NoMem>
    ensures { IfOk result (λ made. made ≡ spec.remove_ends copies indexes d) }
{
    let mut ops = remove_ops(alloc, copies, d)?;
    push_call(alloc, indexes, [Var(0)], &mut ops)?;
    block(alloc, [0, 1, 3, 5], ops, LlExit::Return(None))
}

#[tactic(auto, unfolding(crate::specs::Changing::remove_graph))]
fn remove_graph(
    alloc: Global,
    one: u64,
    two: u64,
    indexes: Option<u64>,
    d: DictShape,
) -> Result<LlGraph, NoMem>
    ensures { IfOk result (λ made. made ≡ spec.remove_graph one two indexes d) }
{
    let mut blocks = Seq::new(alloc);
    blocks.push(remove_moves(alloc, one, d)?)?;
    blocks.push(remove_ends(alloc, two, indexes, d)?)?;
    let types = remove_types(alloc, d)?;
    graph_of(alloc, b"dict_remove", 2, LlType::Void, types, blocks)
}

/// An entry is taken out.
#[tactic(auto, unfolding(crate::specs::Changing::remove))]
pub fn remove(alloc: Global, d: DictShape, found: &mut Found) -> Result<LlGraph, NoMem>
    ensures { IfOk result (λ made. Asks (spec.remove d found.old) made found.new) }
{
    let one = number_of(Listed::Copy(d.first, d.first), found)?;
    let two = number_of(Listed::Copy(d.second, d.second), found)?;
    let indexes = number_if(d.is_indexed, Keyed::Index(d.dict), found)?;
    remove_graph(alloc, one, two, indexes, d)
}
