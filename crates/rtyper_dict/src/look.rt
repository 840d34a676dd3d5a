// Looking for a key. None of this pays a step.
ghost use Rattle.std.specs.Prelude.{◌≡◌, ◌++◌, IfOk, OnOk};
ghost use Rattle.rtyper_data.specs.Seen.{writing, Asks, Gives};
ghost use Rattle.rtyper_dict.specs.Looking as spec;

use crate::parts::{
    BOOL, DictShape, ONE, SIGNED, ZERO, add, both, count, first, first_of_keys, first_type, key_at,
    key_of, keyed_number, length, less, places, same, second, sub,
};
use csub_tree::COperand::Var;
use list_shape::gives;
use ll_build::build::{answer, block, call_of, fork, go, operations, types_of, word};
use ll_code::{LlBlock, LlGraph, LlOp, LlType, VarId};
use rpy_base::{NoMem, Seq};
use rpy_tree::ClassId;
use rtyper_data::{Body, Found, Keyed, equal, failing, graph_of, variable_of};
use rtyper_layout::Layout;
use std::alloc::Global;

/// The class of what a missing key raises.
const KEY_ERROR: ClassId = 7;

fn missing(alloc: Global) -> Result<LlBlock, NoMem>
    ensures { IfOk result (λ made. made ≡ spec.missing) }
{
    answer(alloc, word(-1))
}

// Whether the key that stands in a variable is the one that is looked for, in variable 1.
#[tactic(auto, unfolding(crate::specs::Looking::is_key))]
fn is_key(
    alloc: Global,
    layout: &Layout,
    d: DictShape,
    v: VarId,
    found: &mut Found,
    body: &mut Body,
) -> Result<VarId, NoMem>
    ensures { IfOk result (λ test. Gives (spec.is_key layout.now d v (writing found.old body.old)) test found.new body.new) }
{
    let kind = d.stored_key;
    let x = equal(alloc, layout, Var(v), kind, Var(1), kind, found, body)?;
    variable_of(x, BOOL, body)
}

// ---- by the index: 0 the dict, 1 the key, 2 the number of places, 3 a test, 4 the first array, where
// that holds the keys, 5 the second array, 6 its length, 7 the length of the index, 8 the hash, 9 the greatest place in the index, 10 a place in it,
// 11 the word there, 12 the place of an entry, 13 that of its key, 14 its key, 15 and 16 the next place

#[tactic(auto, unfolding(crate::specs::Looking::find_types))]
fn find_types(alloc: Global, d: DictShape) -> Result<Seq<LlType>, NoMem>
    ensures { IfOk result (λ types. types ≡ spec.find_types d) }
{
    types_of(
        alloc,
        [
            LlType::Ptr(d.dict),
            d.stored_key,
            SIGNED,
            BOOL,
            first_type(d),
            LlType::Ptr(d.second),
            SIGNED,
            SIGNED,
            SIGNED,
            SIGNED,
            SIGNED,
            SIGNED,
            SIGNED,
            SIGNED,
            d.stored_key,
            SIGNED,
            SIGNED,
        ],
    )
}

// A dict without places has no index.
#[tactic(auto, unfolding(crate::specs::Looking::find_asks))]
fn find_asks(alloc: Global, d: DictShape) -> Result<LlBlock, NoMem>
    ensures { IfOk result (λ made. made ≡ spec.find_asks d) }
{
    let ops = operations(alloc, [places(2, d, 0), same(3, 2, ZERO)])?;
    let exit = fork(alloc, 3, 1, [], 2, [Var(0), Var(1), Var(2)])?;
    block(alloc, [0, 1], ops, exit)
}

#[tactic(auto, unfolding(crate::specs::Looking::find_starts))]
fn find_starts(alloc: Global, hashes: u64, d: DictShape) -> Result<LlBlock, NoMem>
    ensures { IfOk result (λ made. made ≡ spec.find_starts hashes d) }
{
    let hash = call_of(alloc, Some(8), hashes, [Var(1)])?;
    let ops = operations(
        alloc,
        [
            first_of_keys(4, d, 0),
            second(5, d, 0),
            length(6, d, 5),
            sub(7, 6, Var(2)),
            hash,
            sub(9, 7, ONE),
            both(10, 8, Var(9)),
        ],
    )?;
    let exit = go(alloc, 3, [Var(1), Var(4), Var(5), Var(7), Var(9), Var(10)])?;
    block(alloc, [0, 1, 2], ops, exit)
}

// There is always an empty word.
#[tactic(auto, unfolding(crate::specs::Looking::find_probes))]
fn find_probes(alloc: Global, d: DictShape) -> Result<LlBlock, NoMem>
    ensures { IfOk result (λ made. made ≡ spec.find_probes d) }
{
    let word_there = LlOp::GetItem(11, d.second, 5, Var(10));
    let ops = operations(alloc, [word_there, same(3, 11, ZERO)])?;
    let all = [Var(1), Var(4), Var(5), Var(7), Var(9), Var(10), Var(11)];
    let exit = fork(alloc, 3, 1, [], 4, all)?;
    block(alloc, [1, 4, 5, 7, 9, 10], ops, exit)
}

#[tactic(auto, unfolding(crate::specs::Looking::find_reads))]
fn find_reads(alloc: Global, d: DictShape) -> Result<Seq<LlOp>, NoMem>
    ensures { IfOk result (λ ops. ops ≡ spec.find_reads d) }
{
    operations(
        alloc,
        [
            sub(12, 11, ONE),
            key_at(13, d, 7, 12),
            key_of(14, d, 4, 5, 13),
            add(15, 10, ONE),
            both(16, 15, Var(9)),
        ],
    )
}

#[tactic(auto, unfolding(crate::specs::Looking::find_compares))]
fn find_compares(alloc: Global, test: VarId, ops: Seq<LlOp>) -> Result<LlBlock, NoMem>
    ensures { IfOk result (λ made. made ≡ spec.find_compares test ops) }
{
    let next = [Var(1), Var(4), Var(5), Var(7), Var(9), Var(16)];
    let exit = fork(alloc, test, 5, [Var(12)], 3, next)?;
    block(alloc, [1, 4, 5, 7, 9, 10, 11], ops, exit)
}

#[tactic(auto, unfolding(crate::specs::Looking::find_blocks))]
fn find_blocks(
    alloc: Global,
    hashes: u64,
    test: VarId,
    d: DictShape,
    ops: Seq<LlOp>,
) -> Result<Seq<LlBlock>, NoMem>
    ensures { IfOk result (λ blocks. blocks ≡ spec.find_blocks hashes test d ops) }
{
    let mut blocks = Seq::new(alloc);
    blocks.push(find_asks(alloc, d)?)?;
    blocks.push(missing(alloc)?)?;
    blocks.push(find_starts(alloc, hashes, d)?)?;
    blocks.push(find_probes(alloc, d)?)?;
    blocks.push(find_compares(alloc, test, ops)?)?;
    blocks.push(gives(alloc, 12)?)?;
    Ok(blocks)
}

#[tactic(auto, unfolding(crate::specs::Looking::find_graph))]
fn find_graph(
    alloc: Global,
    hashes: u64,
    test: VarId,
    d: DictShape,
    body: Body,
) -> Result<LlGraph, NoMem>
    ensures { IfOk result (λ made. made ≡ spec.find_graph hashes test d body) }
{
    let Body { types, ops } = body;
    let blocks = find_blocks(alloc, hashes, test, d, ops)?;
    graph_of(alloc, b"dict_find", 2, SIGNED, types, blocks)
}

#[tactic(auto, unfolding(crate::specs::Looking::find_by_index))]
fn find_by_index(
    alloc: Global,
    layout: &Layout,
    d: DictShape,
    found: &mut Found,
) -> Result<LlGraph, NoMem>
    ensures { IfOk result (λ made. Asks (spec.find_by_index layout.now d found.old) made found.new) }
{
    let mut body = Body {
        types: find_types(alloc, d)?,
        ops: find_reads(alloc, d)?,
    };
    let test = is_key(alloc, layout, d, 14, found, &mut body)?;
    let hashes = keyed_number(Keyed::Hash(d.stored_key), found)?;
    find_graph(alloc, hashes, test, d, body)
}

// ---- from the front: 0 the dict, 1 the key, 2 the number of entries, 3 a test, 4 the array of the keys, 5 the place of
// an entry, 6 its key, 7 the next place

#[tactic(auto, unfolding(crate::specs::Looking::scan_types))]
fn scan_types(alloc: Global, d: DictShape) -> Result<Seq<LlType>, NoMem>
    ensures { IfOk result (λ types. types ≡ spec.scan_types d) }
{
    types_of(
        alloc,
        [
            LlType::Ptr(d.dict),
            d.stored_key,
            SIGNED,
            BOOL,
            LlType::Ptr(d.first),
            SIGNED,
            d.stored_key,
            SIGNED,
        ],
    )
}

#[tactic(auto, unfolding(crate::specs::Looking::scan_starts))]
fn scan_starts(alloc: Global, d: DictShape) -> Result<LlBlock, NoMem>
    ensures { IfOk result (λ made. made ≡ spec.scan_starts d) }
{
    let ops = operations(alloc, [first(4, d, 0), count(2, d, 0)])?;
    let exit = go(alloc, 2, [Var(1), Var(2), Var(4), ZERO])?;
    block(alloc, [0, 1], ops, exit)
}

#[tactic(auto, unfolding(crate::specs::Looking::scan_asks))]
fn scan_asks(alloc: Global) -> Result<LlBlock, NoMem>
    ensures { IfOk result (λ made. made ≡ spec.scan_asks) }
{
    let ops = operations(alloc, [less(3, 5, Var(2))])?;
    let exit = fork(alloc, 3, 3, [Var(1), Var(2), Var(4), Var(5)], 1, [])?;
    block(alloc, [1, 2, 4, 5], ops, exit)
}

#[tactic(auto, unfolding(crate::specs::Looking::scan_reads))]
fn scan_reads(alloc: Global, d: DictShape) -> Result<Seq<LlOp>, NoMem>
    ensures { IfOk result (λ ops. ops ≡ spec.scan_reads d) }
{
    let key = LlOp::GetItem(6, d.first, 4, Var(5));
    operations(alloc, [key, add(7, 5, ONE)])
}

#[tactic(auto, unfolding(crate::specs::Looking::scan_compares))]
fn scan_compares(alloc: Global, test: VarId, ops: Seq<LlOp>) -> Result<LlBlock, NoMem>
    ensures { IfOk result (λ made. made ≡ spec.scan_compares test ops) }
{
    let next = [Var(1), Var(2), Var(4), Var(7)];
    let exit = fork(alloc, test, 4, [Var(5)], 2, next)?;
    block(alloc, [1, 2, 4, 5], ops, exit)
}

#[tactic(auto, unfolding(crate::specs::Looking::scan_blocks))]
fn scan_blocks(
    alloc: Global,
    test: VarId,
    d: DictShape,
    ops: Seq<LlOp>,
) -> Result<Seq<LlBlock>, NoMem>
    ensures { IfOk result (λ blocks. blocks ≡ spec.scan_blocks test d ops) }
{
    let mut blocks = Seq::new(alloc);
    blocks.push(scan_starts(alloc, d)?)?;
    blocks.push(missing(alloc)?)?;
    blocks.push(scan_asks(alloc)?)?;
    blocks.push(scan_compares(alloc, test, ops)?)?;
    blocks.push(gives(alloc, 5)?)?;
    Ok(blocks)
}

#[tactic(auto, unfolding(crate::specs::Looking::scan_graph))]
fn scan_graph(alloc: Global, test: VarId, d: DictShape, body: Body) -> Result<LlGraph, NoMem>
    ensures { IfOk result (λ made. made ≡ spec.scan_graph test d body) }
{
    let Body { types, ops } = body;
    let blocks = scan_blocks(alloc, test, d, ops)?;
    graph_of(alloc, b"dict_find", 2, SIGNED, types, blocks)
}

#[tactic(auto, unfolding(crate::specs::Looking::find_by_scan))]
fn find_by_scan(
    alloc: Global,
    layout: &Layout,
    d: DictShape,
    found: &mut Found,
) -> Result<LlGraph, NoMem>
    ensures { IfOk result (λ made. Asks (spec.find_by_scan layout.now d found.old) made found.new) }
{
    let mut body = Body {
        types: scan_types(alloc, d)?,
        ops: scan_reads(alloc, d)?,
    };
    let test = is_key(alloc, layout, d, 6, found, &mut body)?;
    scan_graph(alloc, test, d, body)
}

/// The place of the entry of a key, or -1.
#[tactic(auto, unfolding(crate::specs::Looking::find))]
pub fn find(
    alloc: Global,
    layout: &Layout,
    d: DictShape,
    found: &mut Found,
) -> Result<LlGraph, NoMem>
    ensures { IfOk result (λ made. Asks (spec.find layout.now d found.old) made found.new) }
{
    if d.is_indexed {
        find_by_index(alloc, layout, d, found)
    } else {
        find_by_scan(alloc, layout, d, found)
    }
}

// ---- the place of the entry of a key, which has to be there

#[tactic(auto, unfolding(crate::specs::Looking::entry_asks))]
fn entry_asks(alloc: Global, finds: u64) -> Result<LlBlock, NoMem>
    ensures { IfOk result (λ made. made ≡ spec.entry_asks finds) }
{
    let find = call_of(alloc, Some(2), finds, [Var(0), Var(1)])?;
    let ops = operations(alloc, [find, less(3, 2, ZERO)])?;
    let exit = fork(alloc, 3, 1, [], 2, [Var(2)])?;
    block(alloc, [0, 1], ops, exit)
}

#[tactic(auto, unfolding(crate::specs::Looking::entry_blocks))]
fn entry_blocks(alloc: Global, finds: u64, fails: LlBlock) -> Result<Seq<LlBlock>, NoMem>
    ensures { IfOk result (λ blocks. blocks ≡ spec.entry_blocks finds fails) }
{
    let mut blocks = Seq::new(alloc);
    blocks.push(entry_asks(alloc, finds)?)?;
    blocks.push(fails)?;
    blocks.push(gives(alloc, 2)?)?;
    Ok(blocks)
}

#[tactic(auto, unfolding(crate::specs::Looking::entry_graph))]
fn entry_graph(alloc: Global, finds: u64, fails: LlBlock, d: DictShape) -> Result<LlGraph, NoMem>
    ensures { IfOk result (λ made. made ≡ spec.entry_graph finds fails d) }
{
    let blocks = entry_blocks(alloc, finds, fails)?;
    let types = types_of(alloc, [LlType::Ptr(d.dict), d.stored_key, SIGNED, BOOL])?;
    graph_of(alloc, b"dict_entry", 2, SIGNED, types, blocks)
}

/// The place of the entry of a key, which has to be there.
#[tactic(auto, unfolding(crate::specs::Looking::entry))]
pub fn entry(alloc: Global, d: DictShape, found: &mut Found) -> Result<LlGraph, NoMem>
    ensures { IfOk result (λ made. Asks (spec.entry d found.old) made found.new) }
{
    let finds = keyed_number(Keyed::Find(d.dict), found)?;
    let fails = failing(alloc, 1, KEY_ERROR, true, found)?;
    entry_graph(alloc, finds, fails, d)
}
