// Room in a dict: where no place is free, both arrays are made anew from the entries. No step is paid meanwhile.
ghost use Rattle.std.specs.Prelude.{◌≡◌, ◌++◌, IfOk, OnOk};
ghost use Rattle.rtyper_data.specs.Seen.{Asks};
ghost use Rattle.rtyper_dict.specs.Growing as spec;

use crate::parts::{
    BOOL, DictShape, SIGNED, ZERO, add, count, first, length, less, number_if, places, push_call,
    same, second, sub,
};
use csub_tree::COperand::Var;
use list_shape::number_of;
use ll_build::Helper;
use ll_build::build::{block, call_of, done, fork, go, null, operations, types_of, word};
use ll_code::{LlBlock, LlExit, LlGraph, LlOp, LlType};
use rpy_base::{NoMem, Seq};
use rtyper_data::{Found, Keyed, Listed, graph_of, helper_number};
use std::alloc::Global;

/// The greatest number of places, and the most that come at once.
const MOST_PLACES: i64 = 4611686018427387903;

const MOST_MORE: i64 = 1152921504606846976;

// ---- a dict without entries and arrays

#[tactic(auto, unfolding(crate::specs::Growing::make_given))]
fn make_given(alloc: Global, d: DictShape) -> Result<LlBlock, NoMem>
    ensures { IfOk result (λ made. made ≡ spec.make_given d) }
{
    let ops = operations(
        alloc,
        [
            LlOp::New(0, d.dict, d.dict),
            LlOp::SetField(d.dict, 0, 0, ZERO),
            LlOp::SetField(d.dict, 0, 1, ZERO),
            LlOp::SetField(d.dict, 0, 2, null()),
            LlOp::SetField(d.dict, 0, 3, null()),
        ],
    )?;
    block(alloc, [], ops, LlExit::Return(Some(Var(0))))
}

/// A dict without entries and arrays.
#[tactic(auto, unfolding(crate::specs::Growing::make))]
pub fn make(alloc: Global, d: DictShape) -> Result<LlGraph, NoMem>
    ensures { IfOk result (λ made. made ≡ spec.make d) }
{
    let dict = LlType::Ptr(d.dict);
    let mut blocks = Seq::new(alloc);
    blocks.push(make_given(alloc, d)?)?;
    let types = types_of(alloc, [dict])?;
    graph_of(alloc, b"dict_make", 0, dict, types, blocks)
}

// ---- a place for one entry more: 0 the dict, 1 the number of entries, 2 that of places, 3 a test, 4 and 14 the number of further places, 5 the new
// number, 6 the length of the new index, 7 that of the new second array, 8 and 9 the new arrays, 10 and 11 the old
// ones, 12 the length of the old second one, 13 that of the old index, and where the free places begin

#[tactic(auto, unfolding(crate::specs::Growing::grow_types))]
fn grow_types(alloc: Global, d: DictShape) -> Result<Seq<LlType>, NoMem>
    ensures { IfOk result (λ types. types ≡ spec.grow_types d) }
{
    types_of(
        alloc,
        [
            LlType::Ptr(d.dict),
            SIGNED,
            SIGNED,
            BOOL,
            SIGNED,
            SIGNED,
            SIGNED,
            SIGNED,
            LlType::Ptr(d.first),
            LlType::Ptr(d.second),
            LlType::Ptr(d.first),
            LlType::Ptr(d.second),
            SIGNED,
            SIGNED,
            SIGNED,
        ],
    )
}

#[tactic(auto, unfolding(crate::specs::Growing::grow_asks))]
fn grow_asks(alloc: Global, d: DictShape) -> Result<LlBlock, NoMem>
    ensures { IfOk result (λ made. made ≡ spec.grow_asks d) }
{
    let ops = operations(alloc, [count(1, d, 0), places(2, d, 0), less(3, 1, Var(2))])?;
    let exit = fork(alloc, 3, 1, [], 2, [Var(0), Var(2)])?;
    block(alloc, [0], ops, exit)
}

// The length of the new index, by the graph for it, where there is an index.
fn index_length(alloc: Global, sizes: Option<u64>) -> Result<LlOp, NoMem>
    ensures { IfOk result (λ op. op ≡ spec.index_length sizes) }
{
    match sizes {
        None => Ok(LlOp::Set(6, ZERO)),
        Some(sizes) => call_of(alloc, Some(6), sizes, [Var(5)]),
    }
}

// Twice as many places and 4 more, as far as that goes.
#[tactic(auto, unfolding(crate::specs::Growing::grow_counts))]
fn grow_counts(alloc: Global, least: u64, sizes: Option<u64>) -> Result<LlBlock, NoMem>
    ensures { IfOk result (λ made. made ≡ spec.grow_counts least sizes) }
{
    let more = call_of(alloc, Some(4), least, [Var(2), word(MOST_MORE)])?;
    let mut ops = operations(alloc, [more, add(4, 4, word(4)), add(14, 4, Var(2))])?;
    ops.push(call_of(alloc, Some(5), least, [Var(14), word(MOST_PLACES)])?)?;
    ops.push(index_length(alloc, sizes)?)?;
    let exit = go(alloc, 3, [Var(0), Var(2), Var(5), Var(6)])?;
    block(alloc, [0, 2], ops, exit)
}

#[tactic(auto, unfolding(crate::specs::Growing::grow_makes))]
fn grow_makes(alloc: Global, d: DictShape) -> Result<LlBlock, NoMem>
    ensures { IfOk result (λ made. made ≡ spec.grow_makes d) }
{
    let ops = operations(
        alloc,
        [
            add(7, 6, Var(5)),
            LlOp::NewArray(8, d.first, d.first, Var(5)),
            LlOp::SetField(d.first, 8, 0, Var(5)),
            LlOp::NewArray(9, d.second, d.second, Var(7)),
            LlOp::SetField(d.second, 9, 0, Var(7)),
            same(3, 2, ZERO),
        ],
    )?;
    let all = [Var(0), Var(2), Var(5), Var(6), Var(8), Var(9)];
    let exit = fork(alloc, 3, 5, all, 4, all)?;
    block(alloc, [0, 2, 5, 6], ops, exit)
}

#[tactic(auto, unfolding(crate::specs::Growing::grow_copies))]
fn grow_copies(alloc: Global, one: u64, two: u64, d: DictShape) -> Result<LlBlock, NoMem>
    ensures { IfOk result (λ made. made ≡ spec.grow_copies one two d) }
{
    let to_first = [Var(10), ZERO, Var(8), ZERO, Var(2)];
    let to_second = [Var(11), Var(13), Var(9), Var(6), Var(2)];
    let mut ops = operations(
        alloc,
        [
            first(10, d, 0),
            second(11, d, 0),
            length(12, d, 11),
            sub(13, 12, Var(2)),
        ],
    )?;
    ops.push(call_of(alloc, None, one, to_first)?)?;
    ops.push(call_of(alloc, None, two, to_second)?)?;
    let exit = go(alloc, 5, [Var(0), Var(2), Var(5), Var(6), Var(8), Var(9)])?;
    block(alloc, [0, 2, 5, 6, 8, 9], ops, exit)
}

#[tactic(auto, unfolding(crate::specs::Growing::grow_sets))]
fn grow_sets(alloc: Global, d: DictShape) -> Result<Seq<LlOp>, NoMem>
    ensures { IfOk result (λ ops. ops ≡ spec.grow_sets d) }
{
    operations(
        alloc,
        [
            add(13, 6, Var(2)),
            LlOp::SetField(d.dict, 0, 1, Var(5)),
            LlOp::SetField(d.dict, 0, 2, Var(8)),
            LlOp::SetField(d.dict, 0, 3, Var(9)),
        ],
    )
}

// The new arrays take the places of the old ones, hold nothing behind the entries, and get an index.
#[tactic(auto, unfolding(crate::specs::Growing::grow_ends))]
fn grow_ends(
    alloc: Global,
    one: Option<u64>,
    two: Option<u64>,
    indexes: Option<u64>,
    d: DictShape,
) -> Result<LlBlock, NoMem>
    ensures { IfOk result (λ made. made ≡ spec.grow_ends one two indexes d) }
{
    let mut ops = grow_sets(alloc, d)?;
    push_call(alloc, one, [Var(8), Var(2)], &mut ops)?;
    push_call(alloc, two, [Var(9), Var(13)], &mut ops)?;
    push_call(alloc, indexes, [Var(0)], &mut ops)?;
    block(alloc, [0, 2, 5, 6, 8, 9], ops, LlExit::Return(None))
}

// ---- and what they ask for

fn is_pointer(item: LlType) -> bool
    ensures { result ≡ spec.is_pointer item }
{
    match item {
        LlType::Ptr(_) => true,
        _ => false,
    }
}

// The items of a new array that are references hold nothing from the start.
#[tactic(auto, unfolding(crate::specs::Growing::fill_number))]
fn fill_number(item: LlType, array: u64, found: &mut Found) -> Result<Option<u64>, NoMem>
    ensures { IfOk result (λ number. Asks (spec.fill_number item array found.old) number found.new) }
{
    number_if(!is_pointer(item), Keyed::Fill(array), found)
}

#[tactic(auto, unfolding(crate::specs::Growing::counted))]
fn counted(alloc: Global, d: DictShape, found: &mut Found) -> Result<LlBlock, NoMem>
    ensures { IfOk result (λ made. Asks (spec.counted d found.old) made found.new) }
{
    let least = helper_number(Helper::WordMin, found)?;
    let sizes = number_if(d.is_indexed, Keyed::Size, found)?;
    grow_counts(alloc, least, sizes)
}

#[tactic(auto, unfolding(crate::specs::Growing::copied))]
fn copied(alloc: Global, d: DictShape, found: &mut Found) -> Result<LlBlock, NoMem>
    ensures { IfOk result (λ made. Asks (spec.copied d found.old) made found.new) }
{
    let one = number_of(Listed::Copy(d.first, d.first), found)?;
    let two = number_of(Listed::Copy(d.second, d.second), found)?;
    grow_copies(alloc, one, two, d)
}

#[tactic(auto, unfolding(crate::specs::Growing::ended))]
fn ended(alloc: Global, d: DictShape, found: &mut Found) -> Result<LlBlock, NoMem>
    ensures { IfOk result (λ made. Asks (spec.ended d found.old) made found.new) }
{
    let one = fill_number(d.first_item(), d.first, found)?;
    let two = fill_number(d.second_item(), d.second, found)?;
    let indexes = number_if(d.is_indexed, Keyed::Index(d.dict), found)?;
    grow_ends(alloc, one, two, indexes, d)
}

#[tactic(auto, unfolding(crate::specs::Growing::grow_blocks))]
fn grow_blocks(
    alloc: Global,
    d: DictShape,
    found: &mut Found,
    blocks: &mut Seq<LlBlock>,
) -> Result<(), NoMem>
    ensures written { OnOk result (blocks.new ≡ blocks.old ++ (spec.grow_blocks d found.old).0) }
    ensures asked { OnOk result (found.new ≡ (spec.grow_blocks d found.old).1) }
{
    blocks.push(grow_asks(alloc, d)?)?;
    blocks.push(done(alloc)?)?;
    blocks.push(counted(alloc, d, found)?)?;
    blocks.push(grow_makes(alloc, d)?)?;
    blocks.push(copied(alloc, d, found)?)?;
    blocks.push(ended(alloc, d, found)?)?;
    Ok(())
}

/// A place for one entry more.
#[tactic(auto, unfolding(crate::specs::Growing::grow))]
pub fn grow(alloc: Global, d: DictShape, found: &mut Found) -> Result<LlGraph, NoMem>
    ensures { IfOk result (λ made. Asks (spec.grow d found.old) made found.new) }
{
    let mut blocks = Seq::new(alloc);
    grow_blocks(alloc, d, found, &mut blocks)?;
    let types = grow_types(alloc, d)?;
    graph_of(alloc, b"dict_grow", 1, LlType::Void, types, blocks)
}
