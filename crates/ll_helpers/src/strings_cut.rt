// Strings that are cut out of others.
ghost use Rattle.std.specs.Prelude.{◌≡◌, ◌++◌, IfOk, OnOk};
ghost use Rattle.ll_helpers.specs.StringsMake as spec;

use csub_tree::CBinary;
use ll_build::build::{
    ask, block, call_of, fails, fork, go, graph, operations, types_of, var, variables, word,
};
use ll_code::{LlBlock, LlExit, LlGraph, LlOp, LlType};
use rpy_base::{NoMem, Seq};
use std::alloc::Global;

fn str_slice_ask_text(alloc: Global) -> Result<LlBlock, NoMem>
    ensures { IfOk result (λ made. made ≡ spec.str_slice_ask_text) }
{
    ask(alloc, [0, 1, 2], [var(0), var(1), var(2)], 0, 3, 1, 2)
}

// The lower bound.
fn str_slice_lower(alloc: Global) -> Result<LlBlock, NoMem>
    ensures { IfOk result (λ made. made ≡ spec.str_slice_lower) }
{
    let ops = operations(alloc, [LlOp::Binary(3, CBinary::Lt, var(1), word(0))])?;
    let exit = fork(alloc, 3, 4, [], 3, [var(0), var(1), var(2)])?;
    block(alloc, [0, 1, 2], ops, exit)
}

// The upper bound.
fn str_slice_upper(alloc: Global) -> Result<LlBlock, NoMem>
    ensures { IfOk result (λ made. made ≡ spec.str_slice_upper) }
{
    let ops = operations(alloc, [LlOp::Binary(3, CBinary::Lt, var(2), word(0))])?;
    let exit = fork(alloc, 3, 4, [], 5, [var(0), var(1), var(2)])?;
    block(alloc, [0, 1, 2], ops, exit)
}

// Past the end it is cut there.
fn str_slice_cuts(alloc: Global) -> Result<LlBlock, NoMem>
    ensures { IfOk result (λ made. made ≡ spec.str_slice_cuts) }
{
    let ops = operations(
        alloc,
        [
            LlOp::GetField(4, 0, 0, 0),
            LlOp::Binary(3, CBinary::Lt, var(2), var(4)),
        ],
    )?;
    let exit = fork(
        alloc,
        3,
        6,
        [var(0), var(1), var(2)],
        6,
        [var(0), var(1), var(4)],
    )?;
    block(alloc, [0, 1, 2], ops, exit)
}

// Whether there is a byte between them.
fn str_slice_counts(alloc: Global) -> Result<LlBlock, NoMem>
    ensures { IfOk result (λ made. made ≡ spec.str_slice_counts) }
{
    let ops = operations(alloc, [LlOp::Binary(3, CBinary::Lt, var(1), var(2))])?;
    let exit = fork(alloc, 3, 7, [var(0), var(1), var(2)], 8, [var(0)])?;
    block(alloc, [0, 1, 2], ops, exit)
}

fn str_slice_between(alloc: Global, part: u64) -> Result<LlBlock, NoMem>
    ensures { IfOk result (λ made. made ≡ spec.str_slice_between part) }
{
    let ops = operations(
        alloc,
        [
            LlOp::Binary(5, CBinary::Sub, var(2), var(1)),
            call_of(alloc, Some(6), part, [var(0), var(1), var(5)])?,
        ],
    )?;
    let exit = LlExit::Return(Some(var(6)));
    block(alloc, [0, 1, 2], ops, exit)
}

// No byte.
fn str_slice_empty(alloc: Global, part: u64) -> Result<LlBlock, NoMem>
    ensures { IfOk result (λ made. made ≡ spec.str_slice_empty part) }
{
    let ops = operations(
        alloc,
        [call_of(alloc, Some(6), part, [var(0), word(0), word(0)])?],
    )?;
    let exit = LlExit::Return(Some(var(6)));
    block(alloc, [0], ops, exit)
}

fn str_slice_blocks_a(alloc: Global, into: &mut Seq<LlBlock>) -> Result<(), NoMem>
    ensures { OnOk result (into.new ≡ into.old ++ spec.str_slice_blocks_a) }
{
    into.push(str_slice_ask_text(alloc)?)?;
    into.push(fails(alloc, 4)?)?;
    into.push(str_slice_lower(alloc)?)
}

fn str_slice_blocks_b(alloc: Global, into: &mut Seq<LlBlock>) -> Result<(), NoMem>
    ensures { OnOk result (into.new ≡ into.old ++ spec.str_slice_blocks_b) }
{
    into.push(str_slice_upper(alloc)?)?;
    into.push(fails(alloc, 5)?)?;
    into.push(str_slice_cuts(alloc)?)
}

fn str_slice_blocks_c(alloc: Global, part: u64, into: &mut Seq<LlBlock>) -> Result<(), NoMem>
    ensures { OnOk result (into.new ≡ into.old ++ spec.str_slice_blocks_c part) }
{
    into.push(str_slice_counts(alloc)?)?;
    into.push(str_slice_between(alloc, part)?)?;
    into.push(str_slice_empty(alloc, part)?)
}

/// The bytes from a place up to another, cut at the end; a bound below zero fails.
pub fn str_slice(alloc: Global, part: u64) -> Result<LlGraph, NoMem>
    ensures { IfOk result (λ made. made ≡ spec.str_slice part) }
{
    // 0 text, 1 low, 2 high, 3 test, 4 length, 5 count, 6 made
    let mut blocks = Seq::new(alloc);
    str_slice_blocks_a(alloc, &mut blocks)?;
    str_slice_blocks_b(alloc, &mut blocks)?;
    str_slice_blocks_c(alloc, part, &mut blocks)?;
    let types = types_of(
        alloc,
        [
            LlType::Ptr(0),
            LlType::Signed,
            LlType::Signed,
            LlType::Bool,
            LlType::Signed,
            LlType::Signed,
            LlType::Ptr(0),
        ],
    )?;
    let params = variables(alloc, [0, 1, 2])?;
    graph(alloc, b"str_slice", params, LlType::Ptr(0), types, blocks)
}

fn str_but_last_ask_text(alloc: Global) -> Result<LlBlock, NoMem>
    ensures { IfOk result (λ made. made ≡ spec.str_but_last_ask_text) }
{
    ask(alloc, [0], [var(0)], 0, 1, 1, 2)
}

// Whether there is a byte.
fn str_but_last_lengths(alloc: Global) -> Result<LlBlock, NoMem>
    ensures { IfOk result (λ made. made ≡ spec.str_but_last_lengths) }
{
    let ops = operations(
        alloc,
        [
            LlOp::GetField(2, 0, 0, 0),
            LlOp::Binary(1, CBinary::Lt, var(2), word(1)),
        ],
    )?;
    let exit = fork(alloc, 1, 4, [var(0), var(2)], 3, [var(0), var(2)])?;
    block(alloc, [0], ops, exit)
}

// One byte less.
fn str_but_last_shorter(alloc: Global) -> Result<LlBlock, NoMem>
    ensures { IfOk result (λ made. made ≡ spec.str_but_last_shorter) }
{
    let ops = operations(alloc, [LlOp::Binary(2, CBinary::Sub, var(2), word(1))])?;
    let exit = go(alloc, 4, [var(0), var(2)])?;
    block(alloc, [0, 2], ops, exit)
}

fn str_but_last_takes(alloc: Global, part: u64) -> Result<LlBlock, NoMem>
    ensures { IfOk result (λ made. made ≡ spec.str_but_last_takes part) }
{
    let ops = operations(
        alloc,
        [call_of(alloc, Some(3), part, [var(0), word(0), var(2)])?],
    )?;
    let exit = LlExit::Return(Some(var(3)));
    block(alloc, [0, 2], ops, exit)
}

fn str_but_last_blocks_a(alloc: Global, blocks: &mut Seq<LlBlock>) -> Result<(), NoMem>
    ensures { OnOk result (blocks.new ≡ blocks.old ++ spec.str_but_last_blocks_a) }
{
    blocks.push(str_but_last_ask_text(alloc)?)?;
    blocks.push(fails(alloc, 4)?)?;
    blocks.push(str_but_last_lengths(alloc)?)
}

fn str_but_last_blocks_b(alloc: Global, part: u64, blocks: &mut Seq<LlBlock>) -> Result<(), NoMem>
    ensures { OnOk result (blocks.new ≡ blocks.old ++ spec.str_but_last_blocks_b part) }
{
    blocks.push(str_but_last_shorter(alloc)?)?;
    blocks.push(str_but_last_takes(alloc, part)?)
}

/// All bytes but the last.
pub fn str_but_last(alloc: Global, part: u64) -> Result<LlGraph, NoMem>
    ensures { IfOk result (λ made. made ≡ spec.str_but_last part) }
{
    // 0 text, 1 test, 2 length, 3 made
    let mut blocks = Seq::new(alloc);
    str_but_last_blocks_a(alloc, &mut blocks)?;
    str_but_last_blocks_b(alloc, part, &mut blocks)?;
    let types = types_of(
        alloc,
        [LlType::Ptr(0), LlType::Bool, LlType::Signed, LlType::Ptr(0)],
    )?;
    let params = variables(alloc, [0])?;
    graph(
        alloc,
        b"str_but_last",
        params,
        LlType::Ptr(0),
        types,
        blocks,
    )
}

fn str_strip_ask_text(alloc: Global) -> Result<LlBlock, NoMem>
    ensures { IfOk result (λ made. made ≡ spec.str_strip_ask_text) }
{
    ask(alloc, [0], [var(0)], 0, 1, 1, 2)
}

// What stands between the blanks.
fn str_strip_takes(
    alloc: Global,
    part: u64,
    forwards: u64,
    backwards: u64,
) -> Result<LlBlock, NoMem>
    ensures { IfOk result (λ made. made ≡ spec.str_strip_takes part forwards backwards) }
{
    let ops = operations(
        alloc,
        [
            call_of(alloc, Some(2), forwards, [var(0)])?,
            call_of(alloc, Some(3), backwards, [var(0), var(2)])?,
            LlOp::Binary(4, CBinary::Sub, var(3), var(2)),
            call_of(alloc, Some(5), part, [var(0), var(2), var(4)])?,
        ],
    )?;
    let exit = LlExit::Return(Some(var(5)));
    block(alloc, [0], ops, exit)
}

fn str_strip_blocks(
    alloc: Global,
    part: u64,
    forwards: u64,
    backwards: u64,
    blocks: &mut Seq<LlBlock>,
) -> Result<(), NoMem>
    ensures { OnOk result (blocks.new ≡ blocks.old ++ spec.str_strip_blocks part forwards backwards) }
{
    blocks.push(str_strip_ask_text(alloc)?)?;
    blocks.push(fails(alloc, 4)?)?;
    blocks.push(str_strip_takes(alloc, part, forwards, backwards)?)
}

/// A string without blanks at its ends.
pub fn str_strip(alloc: Global, part: u64, forwards: u64, backwards: u64) -> Result<LlGraph, NoMem>
    ensures { IfOk result (λ made. made ≡ spec.str_strip part forwards backwards) }
{
    // 0 text, 1 test, 2 from, 3 end, 4 count, 5 made
    let mut blocks = Seq::new(alloc);
    str_strip_blocks(alloc, part, forwards, backwards, &mut blocks)?;
    let types = types_of(
        alloc,
        [
            LlType::Ptr(0),
            LlType::Bool,
            LlType::Signed,
            LlType::Signed,
            LlType::Signed,
            LlType::Ptr(0),
        ],
    )?;
    let params = variables(alloc, [0])?;
    graph(alloc, b"str_strip", params, LlType::Ptr(0), types, blocks)
}
