// Hashes of keys. They are those that the dicts of constants have.
ghost use Rattle.std.specs.Prelude.{◌≡◌, ◌++◌, IfOk, OnOk};
ghost use Rattle.rtyper_data.specs.Seen.{writing, Asks, Gives, Writes};
ghost use Rattle.rtyper_dict.specs.Hashing as spec;

use crate::parts::{BOOL, ONE, SIGNED, ZERO, add, keyed_number, less, stored};
use csub_tree::COperand::Var;
use csub_tree::{CBinary, COperand, CUnary};
use ll_build::build::{block, call_of, fork, go, operations, types_of, word};
use ll_code::{LlBlock, LlExit, LlGraph, LlOp, LlType};
use rpy_base::{NoMem, Seq};
use rtyper_data::compare::{binary, field_of};
use rtyper_data::{Body, Found, Keyed, Small, by_small, graph_of};
use rtyper_layout::Layout;
use rtyper_op::{HASH_FACTOR, MIX_FACTOR};
use std::alloc::Global;

const TEXT: LlType = LlType::Ptr(0);

// ---- words

#[tactic(auto, unfolding(crate::specs::Hashing::word_mixed))]
fn word_mixed(alloc: Global) -> Result<LlBlock, NoMem>
    ensures { IfOk result (λ made. made ≡ spec.word_mixed) }
{
    let ops = operations(
        alloc,
        [
            LlOp::Binary(1, CBinary::Mul, Var(0), word(MIX_FACTOR)),
            LlOp::Binary(2, CBinary::Shr, Var(1), word(32)),
            LlOp::Binary(3, CBinary::Xor, Var(1), Var(2)),
        ],
    )?;
    block(alloc, [0], ops, LlExit::Return(Some(Var(3))))
}

#[tactic(auto, unfolding(crate::specs::Hashing::of_word))]
fn of_word(alloc: Global) -> Result<LlGraph, NoMem>
    ensures { IfOk result (λ made. made ≡ spec.of_word) }
{
    let mut blocks = Seq::new(alloc);
    blocks.push(word_mixed(alloc)?)?;
    let types = types_of(alloc, [SIGNED, SIGNED, SIGNED, SIGNED])?;
    graph_of(alloc, b"hash_word", 1, SIGNED, types, blocks)
}

// ---- strings: 0 the string, 1 the hash so far, 2 a place, 3 the length

#[tactic(auto, unfolding(crate::specs::Hashing::text_start))]
fn text_start(alloc: Global) -> Result<LlBlock, NoMem>
    ensures { IfOk result (λ made. made ≡ spec.text_start) }
{
    let ops = operations(alloc, [LlOp::GetField(3, 0, 0, 0)])?;
    let exit = go(alloc, 1, [Var(0), ZERO, ZERO, Var(3)])?;
    block(alloc, [0], ops, exit)
}

#[tactic(auto, unfolding(crate::specs::Hashing::text_asks))]
fn text_asks(alloc: Global) -> Result<LlBlock, NoMem>
    ensures { IfOk result (λ made. made ≡ spec.text_asks) }
{
    let ops = operations(alloc, [less(4, 2, Var(3))])?;
    let exit = fork(alloc, 4, 2, [Var(0), Var(1), Var(2), Var(3)], 3, [Var(1)])?;
    block(alloc, [0, 1, 2, 3], ops, exit)
}

#[tactic(auto, unfolding(crate::specs::Hashing::text_turn))]
fn text_turn(alloc: Global) -> Result<LlBlock, NoMem>
    ensures { IfOk result (λ made. made ≡ spec.text_turn) }
{
    let ops = operations(
        alloc,
        [
            LlOp::GetItem(5, 0, 0, Var(2)),
            LlOp::Unary(6, CUnary::C2S, Var(5)),
            LlOp::Binary(7, CBinary::Xor, Var(1), Var(6)),
            LlOp::Binary(8, CBinary::Mul, Var(7), word(HASH_FACTOR)),
            add(9, 2, ONE),
        ],
    )?;
    let exit = go(alloc, 1, [Var(0), Var(8), Var(9), Var(3)])?;
    block(alloc, [0, 1, 2, 3], ops, exit)
}

#[tactic(auto, unfolding(crate::specs::Hashing::text_mixed))]
fn text_mixed(alloc: Global, mixes: u64) -> Result<LlBlock, NoMem>
    ensures { IfOk result (λ made. made ≡ spec.text_mixed mixes) }
{
    let hash = call_of(alloc, Some(6), mixes, [Var(1)])?;
    let ops = operations(alloc, [hash])?;
    block(alloc, [1], ops, LlExit::Return(Some(Var(6))))
}

#[tactic(auto, unfolding(crate::specs::Hashing::text_types))]
fn text_types(alloc: Global) -> Result<Seq<LlType>, NoMem>
    ensures { IfOk result (λ types. types ≡ spec.text_types) }
{
    types_of(
        alloc,
        [
            TEXT,
            SIGNED,
            SIGNED,
            SIGNED,
            BOOL,
            LlType::Char,
            SIGNED,
            SIGNED,
            SIGNED,
            SIGNED,
        ],
    )
}

#[tactic(auto, unfolding(crate::specs::Hashing::text_blocks))]
fn text_blocks(alloc: Global, mixes: u64) -> Result<Seq<LlBlock>, NoMem>
    ensures { IfOk result (λ blocks. blocks ≡ spec.text_blocks mixes) }
{
    let mut blocks = Seq::new(alloc);
    blocks.push(text_start(alloc)?)?;
    blocks.push(text_asks(alloc)?)?;
    blocks.push(text_turn(alloc)?)?;
    blocks.push(text_mixed(alloc, mixes)?)?;
    Ok(blocks)
}

#[tactic(auto, unfolding(crate::specs::Hashing::text_graph))]
fn text_graph(alloc: Global, mixes: u64) -> Result<LlGraph, NoMem>
    ensures { IfOk result (λ made. made ≡ spec.text_graph mixes) }
{
    let blocks = text_blocks(alloc, mixes)?;
    let types = text_types(alloc)?;
    graph_of(alloc, b"hash_text", 1, SIGNED, types, blocks)
}

#[tactic(auto, unfolding(crate::specs::Hashing::of_text))]
fn of_text(alloc: Global, found: &mut Found) -> Result<LlGraph, NoMem>
    ensures { IfOk result (λ made. Asks (spec.of_text found.old) made found.new) }
{
    let mixes = keyed_number(Keyed::Hash(SIGNED), found)?;
    text_graph(alloc, mixes)
}

// ---- tuples: all items, one after the other

// As which type an item is hashed.
fn key_item(kind: LlType) -> LlType
    ensures { result ≡ spec.key_item kind }
{
    match kind {
        LlType::Bool | LlType::Char => SIGNED,
        _ => kind,
    }
}

// The hash of a value.
#[tactic(auto, unfolding(crate::specs::Hashing::hashed))]
fn hashed(
    alloc: Global,
    kind: LlType,
    x: COperand,
    found: &mut Found,
    body: &mut Body,
) -> Result<COperand, NoMem>
    ensures { IfOk result (λ h. Gives (spec.hashed kind x (writing found.old body.old)) h found.new body.new) }
{
    let item = key_item(kind);
    let x = stored(kind, item, x, body)?;
    let small = Small::Keyed(Keyed::Hash(item));
    by_small(alloc, small, SIGNED, [x], found, body)
}

// The hash so far, with that of one item more.
#[tactic(auto, unfolding(crate::specs::Hashing::with_item))]
fn with_item(h: COperand, x: COperand, body: &mut Body) -> Result<COperand, NoMem>
    ensures { IfOk result (λ y. Writes (spec.with_item h x body.old) y body.new) }
{
    let mixed = binary(CBinary::Xor, SIGNED, h, x, body)?;
    binary(CBinary::Mul, SIGNED, mixed, word(HASH_FACTOR), body)
}

// The item at a place of the tuple that is variable 0.
#[tactic(auto, unfolding(crate::specs::Hashing::item_mixed))]
fn item_mixed(
    alloc: Global,
    n: u64,
    i: u64,
    kind: LlType,
    h: COperand,
    found: &mut Found,
    body: &mut Body,
) -> Result<COperand, NoMem>
    ensures { IfOk result (λ y. Gives (spec.item_mixed n i kind h (writing found.old body.old)) y found.new body.new) }
{
    let item = field_of(n, 0, i, kind, body)?;
    let x = hashed(alloc, kind, item, found, body)?;
    with_item(h, x, body)
}

#[tactic(auto, unfolding(crate::specs::Hashing::tuple_mixed))]
fn tuple_mixed(
    alloc: Global,
    layout: &Layout,
    n: u64,
    found: &mut Found,
    body: &mut Body,
) -> Result<COperand, NoMem>
    ensures { IfOk result (λ h. Gives (spec.tuple_mixed layout.now n (writing found.old body.old)) h found.new body.new) }
{
    let fields = layout.fields(n);
    let mut h = ZERO;
    let mut i: usize = 0;
    for field in fields {
        h = item_mixed(alloc, n, i as u64, *field, h, found, body)?;
        i += 1;
    }
    Ok(h)
}

#[tactic(auto, unfolding(crate::specs::Hashing::tuple_graph))]
fn tuple_graph(alloc: Global, hash: COperand, body: Body) -> Result<LlGraph, NoMem>
    ensures { IfOk result (λ made. made ≡ spec.tuple_graph hash body) }
{
    let Body { types, ops } = body;
    let exit = LlExit::Return(Some(hash));
    let mut blocks = Seq::new(alloc);
    blocks.push(block(alloc, [0], ops, exit)?)?;
    graph_of(alloc, b"hash_tuple", 1, SIGNED, types, blocks)
}

#[tactic(auto, unfolding(crate::specs::Hashing::of_tuple))]
fn of_tuple(alloc: Global, layout: &Layout, n: u64, found: &mut Found) -> Result<LlGraph, NoMem>
    ensures { IfOk result (λ made. Asks (spec.of_tuple layout.now n found.old) made found.new) }
{
    let mut body = Body {
        types: types_of(alloc, [LlType::Ptr(n)])?,
        ops: Seq::new(alloc),
    };
    let h = tuple_mixed(alloc, layout, n, found, &mut body)?;
    let small = Small::Keyed(Keyed::Hash(SIGNED));
    let hash = by_small(alloc, small, SIGNED, [h], found, &mut body)?;
    tuple_graph(alloc, hash, body)
}

/// The hash of a key as it stands in an array.
#[tactic(auto, unfolding(crate::specs::Hashing::hash_graph))]
pub fn hash_graph(
    alloc: Global,
    layout: &Layout,
    kind: LlType,
    found: &mut Found,
) -> Result<LlGraph, NoMem>
    ensures { IfOk result (λ made. Asks (spec.hash_graph layout.now kind found.old) made found.new) }
{
    match kind {
        LlType::Ptr(0) => of_text(alloc, found),
        LlType::Ptr(n) => of_tuple(alloc, layout, n, found),
        _ => of_word(alloc),
    }
}
