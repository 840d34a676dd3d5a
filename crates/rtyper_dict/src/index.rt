// The index of a dict. None of this pays a step.
ghost use Rattle.std.specs.Prelude.{◌≡◌, ◌++◌, IfOk, OnOk};
ghost use Rattle.rtyper_data.specs.Seen.{Asks};
ghost use Rattle.rtyper_dict.specs.Indexing as spec;

use crate::parts::{
    BOOL, DictShape, ONE, SIGNED, ZERO, add, both, count, first_of_keys, first_type, key_at,
    key_of, keyed_number, length, less, places, same, second, sub,
};
use csub_tree::COperand;
use csub_tree::COperand::Var;
use list_shape::gives;
use ll_build::build::{block, call_of, done, fork, go, operations, types_of, word};
use ll_code::{LlBlock, LlExit, LlGraph, LlOp, LlType};
use rpy_base::{NoMem, Seq};
use rtyper_data::{Found, Keyed, default_operand, graph_of};
use std::alloc::Global;

/// The greatest length of an index.
const MOST: i64 = 4611686018427387904;

// ---- the length of an index for so many places: 1 twice as many, 2 a length

#[tactic(auto, unfolding(crate::specs::Indexing::size_starts))]
fn size_starts(alloc: Global) -> Result<LlBlock, NoMem>
    ensures { IfOk result (λ made. made ≡ spec.size_starts) }
{
    let ops = operations(alloc, [add(1, 0, Var(0))])?;
    let exit = go(alloc, 1, [Var(1), word(2)])?;
    block(alloc, [0], ops, exit)
}

#[tactic(auto, unfolding(crate::specs::Indexing::size_enough))]
fn size_enough(alloc: Global) -> Result<LlBlock, NoMem>
    ensures { IfOk result (λ made. made ≡ spec.size_enough) }
{
    let ops = operations(alloc, [less(3, 2, Var(1))])?;
    let exit = fork(alloc, 3, 2, [Var(1), Var(2)], 4, [Var(2)])?;
    block(alloc, [1, 2], ops, exit)
}

#[tactic(auto, unfolding(crate::specs::Indexing::size_greatest))]
fn size_greatest(alloc: Global) -> Result<LlBlock, NoMem>
    ensures { IfOk result (λ made. made ≡ spec.size_greatest) }
{
    let ops = operations(alloc, [less(3, 2, word(MOST))])?;
    let exit = fork(alloc, 3, 3, [Var(1), Var(2)], 4, [Var(2)])?;
    block(alloc, [1, 2], ops, exit)
}

#[tactic(auto, unfolding(crate::specs::Indexing::size_doubles))]
fn size_doubles(alloc: Global) -> Result<LlBlock, NoMem>
    ensures { IfOk result (λ made. made ≡ spec.size_doubles) }
{
    let ops = operations(alloc, [add(4, 2, Var(2))])?;
    let exit = go(alloc, 1, [Var(1), Var(4)])?;
    block(alloc, [1, 2], ops, exit)
}

#[tactic(auto, unfolding(crate::specs::Indexing::size_blocks))]
fn size_blocks(alloc: Global) -> Result<Seq<LlBlock>, NoMem>
    ensures { IfOk result (λ blocks. blocks ≡ spec.size_blocks) }
{
    let mut blocks = Seq::new(alloc);
    blocks.push(size_starts(alloc)?)?;
    blocks.push(size_enough(alloc)?)?;
    blocks.push(size_greatest(alloc)?)?;
    blocks.push(size_doubles(alloc)?)?;
    blocks.push(gives(alloc, 2)?)?;
    Ok(blocks)
}

#[tactic(auto, unfolding(crate::specs::Indexing::size))]
pub fn size(alloc: Global) -> Result<LlGraph, NoMem>
    ensures { IfOk result (λ made. made ≡ spec.size) }
{
    let blocks = size_blocks(alloc)?;
    let types = types_of(alloc, [SIGNED, SIGNED, SIGNED, BOOL, SIGNED])?;
    graph_of(alloc, b"index_size", 1, SIGNED, types, blocks)
}

// ---- the items of an array hold nothing, from a place on

#[tactic(auto, unfolding(crate::specs::Indexing::fill_starts))]
fn fill_starts(alloc: Global, array: u64) -> Result<LlBlock, NoMem>
    ensures { IfOk result (λ made. made ≡ spec.fill_starts array) }
{
    let ops = operations(alloc, [LlOp::GetField(2, array, 0, 0)])?;
    let exit = go(alloc, 1, [Var(0), Var(1), Var(2)])?;
    block(alloc, [0, 1], ops, exit)
}

#[tactic(auto, unfolding(crate::specs::Indexing::fill_asks))]
fn fill_asks(alloc: Global) -> Result<LlBlock, NoMem>
    ensures { IfOk result (λ made. made ≡ spec.fill_asks) }
{
    let ops = operations(alloc, [less(3, 1, Var(2))])?;
    let exit = fork(alloc, 3, 2, [Var(0), Var(1), Var(2)], 3, [])?;
    block(alloc, [0, 1, 2], ops, exit)
}

#[tactic(auto, unfolding(crate::specs::Indexing::fill_turn))]
fn fill_turn(alloc: Global, array: u64, item: LlType) -> Result<LlBlock, NoMem>
    ensures { IfOk result (λ made. made ≡ spec.fill_turn array item) }
{
    let nothing = LlOp::SetItem(array, 0, Var(1), default_operand(item));
    let ops = operations(alloc, [nothing, add(4, 1, ONE)])?;
    let exit = go(alloc, 1, [Var(0), Var(4), Var(2)])?;
    block(alloc, [0, 1, 2], ops, exit)
}

#[tactic(auto, unfolding(crate::specs::Indexing::fill_blocks))]
fn fill_blocks(alloc: Global, array: u64, item: LlType) -> Result<Seq<LlBlock>, NoMem>
    ensures { IfOk result (λ blocks. blocks ≡ spec.fill_blocks array item) }
{
    let mut blocks = Seq::new(alloc);
    blocks.push(fill_starts(alloc, array)?)?;
    blocks.push(fill_asks(alloc)?)?;
    blocks.push(fill_turn(alloc, array, item)?)?;
    blocks.push(done(alloc)?)?;
    Ok(blocks)
}

#[tactic(auto, unfolding(crate::specs::Indexing::fill))]
pub fn fill(alloc: Global, array: u64, item: LlType) -> Result<LlGraph, NoMem>
    ensures { IfOk result (λ made. made ≡ spec.fill array item) }
{
    let blocks = fill_blocks(alloc, array, item)?;
    let types = types_of(alloc, [LlType::Ptr(array), SIGNED, SIGNED, BOOL, SIGNED])?;
    graph_of(alloc, b"fill", 2, LlType::Void, types, blocks)
}

// ---- the entries from a place on come into the index: 0 the dict, 1 the place of an entry, 2 the second array, 3 its
// length, 4 the number of places, 5 the length of the index, 6 the greatest place in it, 7 the number of entries, 8 the
// first array, where that holds the keys, 9 a test, 10 where the key stands, 11 the key, 12 the hash, 13 a place, 14
// the word there, 15 and 16 what comes next

const WORDS: [COperand; 7] = [Var(1), Var(2), Var(5), Var(6), Var(7), Var(8), Var(13)];

#[tactic(auto, unfolding(crate::specs::Indexing::enter_types))]
fn enter_types(alloc: Global, d: DictShape) -> Result<Seq<LlType>, NoMem>
    ensures { IfOk result (λ types. types ≡ spec.enter_types d) }
{
    types_of(
        alloc,
        [
            LlType::Ptr(d.dict),
            SIGNED,
            LlType::Ptr(d.second),
            SIGNED,
            SIGNED,
            SIGNED,
            SIGNED,
            SIGNED,
            first_type(d),
            BOOL,
            SIGNED,
            d.stored_key,
            SIGNED,
            SIGNED,
            SIGNED,
            SIGNED,
            SIGNED,
        ],
    )
}

#[tactic(auto, unfolding(crate::specs::Indexing::enter_starts))]
fn enter_starts(alloc: Global, d: DictShape) -> Result<LlBlock, NoMem>
    ensures { IfOk result (λ made. made ≡ spec.enter_starts d) }
{
    let ops = operations(
        alloc,
        [
            second(2, d, 0),
            length(3, d, 2),
            places(4, d, 0),
            sub(5, 3, Var(4)),
            sub(6, 5, ONE),
            count(7, d, 0),
            first_of_keys(8, d, 0),
        ],
    )?;
    let exit = go(alloc, 1, [Var(1), Var(2), Var(5), Var(6), Var(7), Var(8)])?;
    block(alloc, [0, 1], ops, exit)
}

#[tactic(auto, unfolding(crate::specs::Indexing::enter_asks))]
fn enter_asks(alloc: Global) -> Result<LlBlock, NoMem>
    ensures { IfOk result (λ made. made ≡ spec.enter_asks) }
{
    let ops = operations(alloc, [less(9, 1, Var(7))])?;
    let all = [Var(1), Var(2), Var(5), Var(6), Var(7), Var(8)];
    let exit = fork(alloc, 9, 2, all, 6, [])?;
    block(alloc, [1, 2, 5, 6, 7, 8], ops, exit)
}

#[tactic(auto, unfolding(crate::specs::Indexing::enter_hashes))]
fn enter_hashes(alloc: Global, hashes: u64, d: DictShape) -> Result<LlBlock, NoMem>
    ensures { IfOk result (λ made. made ≡ spec.enter_hashes hashes d) }
{
    let hash = call_of(alloc, Some(12), hashes, [Var(11)])?;
    let ops = operations(
        alloc,
        [
            key_at(10, d, 5, 1),
            key_of(11, d, 8, 2, 10),
            hash,
            both(13, 12, Var(6)),
        ],
    )?;
    let exit = go(alloc, 3, WORDS)?;
    block(alloc, [1, 2, 5, 6, 7, 8], ops, exit)
}

// There is always an empty word.
#[tactic(auto, unfolding(crate::specs::Indexing::enter_probes))]
fn enter_probes(alloc: Global, d: DictShape) -> Result<LlBlock, NoMem>
    ensures { IfOk result (λ made. made ≡ spec.enter_probes d) }
{
    let word_there = LlOp::GetItem(14, d.second, 2, Var(13));
    let ops = operations(alloc, [word_there, same(9, 14, ZERO)])?;
    let exit = fork(alloc, 9, 4, WORDS, 5, WORDS)?;
    block(alloc, [1, 2, 5, 6, 7, 8, 13], ops, exit)
}

// Places are counted from 1 there.
#[tactic(auto, unfolding(crate::specs::Indexing::enter_puts))]
fn enter_puts(alloc: Global, d: DictShape) -> Result<LlBlock, NoMem>
    ensures { IfOk result (λ made. made ≡ spec.enter_puts d) }
{
    let put = LlOp::SetItem(d.second, 2, Var(13), Var(15));
    let ops = operations(alloc, [add(15, 1, ONE), put])?;
    let exit = go(alloc, 1, [Var(15), Var(2), Var(5), Var(6), Var(7), Var(8)])?;
    block(alloc, [1, 2, 5, 6, 7, 8, 13], ops, exit)
}

#[tactic(auto, unfolding(crate::specs::Indexing::enter_next))]
fn enter_next(alloc: Global) -> Result<LlBlock, NoMem>
    ensures { IfOk result (λ made. made ≡ spec.enter_next) }
{
    let ops = operations(alloc, [add(15, 13, ONE), both(16, 15, Var(6))])?;
    let next = [Var(1), Var(2), Var(5), Var(6), Var(7), Var(8), Var(16)];
    let exit = go(alloc, 3, next)?;
    block(alloc, [1, 2, 5, 6, 7, 8, 13], ops, exit)
}

#[tactic(auto, unfolding(crate::specs::Indexing::enter_blocks))]
fn enter_blocks(alloc: Global, hashes: u64, d: DictShape) -> Result<Seq<LlBlock>, NoMem>
    ensures { IfOk result (λ blocks. blocks ≡ spec.enter_blocks hashes d) }
{
    let mut blocks = Seq::new(alloc);
    blocks.push(enter_starts(alloc, d)?)?;
    blocks.push(enter_asks(alloc)?)?;
    blocks.push(enter_hashes(alloc, hashes, d)?)?;
    blocks.push(enter_probes(alloc, d)?)?;
    blocks.push(enter_puts(alloc, d)?)?;
    blocks.push(enter_next(alloc)?)?;
    blocks.push(done(alloc)?)?;
    Ok(blocks)
}

#[tactic(auto, unfolding(crate::specs::Indexing::enter_graph))]
fn enter_graph(alloc: Global, hashes: u64, d: DictShape) -> Result<LlGraph, NoMem>
    ensures { IfOk result (λ made. made ≡ spec.enter_graph hashes d) }
{
    let blocks = enter_blocks(alloc, hashes, d)?;
    let types = enter_types(alloc, d)?;
    graph_of(alloc, b"dict_enter", 2, LlType::Void, types, blocks)
}

#[tactic(auto, unfolding(crate::specs::Indexing::enter))]
pub fn enter(alloc: Global, d: DictShape, found: &mut Found) -> Result<LlGraph, NoMem>
    ensures { IfOk result (λ made. Asks (spec.enter d found.old) made found.new) }
{
    let hashes = keyed_number(Keyed::Hash(d.stored_key), found)?;
    enter_graph(alloc, hashes, d)
}

// ---- the index is made anew: 0 the dict, 1 the second array, 2 its length, 3 the number of places, 4 the length of
// the index, 5 a place, 6 a test, 7 the next place

#[tactic(auto, unfolding(crate::specs::Indexing::index_starts))]
fn index_starts(alloc: Global, d: DictShape) -> Result<LlBlock, NoMem>
    ensures { IfOk result (λ made. made ≡ spec.index_starts d) }
{
    let ops = operations(
        alloc,
        [
            second(1, d, 0),
            length(2, d, 1),
            places(3, d, 0),
            sub(4, 2, Var(3)),
        ],
    )?;
    let exit = go(alloc, 1, [Var(0), Var(1), Var(4), ZERO])?;
    block(alloc, [0], ops, exit)
}

#[tactic(auto, unfolding(crate::specs::Indexing::index_asks))]
fn index_asks(alloc: Global) -> Result<LlBlock, NoMem>
    ensures { IfOk result (λ made. made ≡ spec.index_asks) }
{
    let ops = operations(alloc, [less(6, 5, Var(4))])?;
    let all = [Var(0), Var(1), Var(4), Var(5)];
    let exit = fork(alloc, 6, 2, all, 3, [Var(0)])?;
    block(alloc, [0, 1, 4, 5], ops, exit)
}

#[tactic(auto, unfolding(crate::specs::Indexing::index_empties))]
fn index_empties(alloc: Global, d: DictShape) -> Result<LlBlock, NoMem>
    ensures { IfOk result (λ made. made ≡ spec.index_empties d) }
{
    let put = LlOp::SetItem(d.second, 1, Var(5), ZERO);
    let ops = operations(alloc, [put, add(7, 5, ONE)])?;
    let exit = go(alloc, 1, [Var(0), Var(1), Var(4), Var(7)])?;
    block(alloc, [0, 1, 4, 5], ops, exit)
}

#[tactic(auto, unfolding(crate::specs::Indexing::index_enters))]
fn index_enters(alloc: Global, enters: u64) -> Result<LlBlock, NoMem>
    ensures { IfOk result (λ made. made ≡ spec.index_enters enters) }
{
    let enter = call_of(alloc, None, enters, [Var(0), ZERO])?;
    let ops = operations(alloc, [enter])?;
    block(alloc, [0], ops, LlExit::Return(None))
}

#[tactic(auto, unfolding(crate::specs::Indexing::index_types))]
fn index_types(alloc: Global, d: DictShape) -> Result<Seq<LlType>, NoMem>
    ensures { IfOk result (λ types. types ≡ spec.index_types d) }
{
    types_of(
        alloc,
        [
            LlType::Ptr(d.dict),
            LlType::Ptr(d.second),
            SIGNED,
            SIGNED,
            SIGNED,
            SIGNED,
            BOOL,
            SIGNED,
        ],
    )
}

#[tactic(auto, unfolding(crate::specs::Indexing::index_blocks))]
fn index_blocks(alloc: Global, enters: u64, d: DictShape) -> Result<Seq<LlBlock>, NoMem>
    ensures { IfOk result (λ blocks. blocks ≡ spec.index_blocks enters d) }
{
    let mut blocks = Seq::new(alloc);
    blocks.push(index_starts(alloc, d)?)?;
    blocks.push(index_asks(alloc)?)?;
    blocks.push(index_empties(alloc, d)?)?;
    blocks.push(index_enters(alloc, enters)?)?;
    Ok(blocks)
}

#[tactic(auto, unfolding(crate::specs::Indexing::index_graph))]
fn index_graph(alloc: Global, enters: u64, d: DictShape) -> Result<LlGraph, NoMem>
    ensures { IfOk result (λ made. made ≡ spec.index_graph enters d) }
{
    let blocks = index_blocks(alloc, enters, d)?;
    let types = index_types(alloc, d)?;
    graph_of(alloc, b"dict_index", 1, LlType::Void, types, blocks)
}

#[tactic(auto, unfolding(crate::specs::Indexing::index))]
pub fn index(alloc: Global, d: DictShape, found: &mut Found) -> Result<LlGraph, NoMem>
    ensures { IfOk result (λ made. Asks (spec.index d found.old) made found.new) }
{
    let enters = keyed_number(Keyed::Enter(d.dict), found)?;
    index_graph(alloc, enters, d)
}
