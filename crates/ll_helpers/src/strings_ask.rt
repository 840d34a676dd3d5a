// What is asked of strings.
ghost use Rattle.std.specs.Prelude.{◌≡◌, ◌++◌, IfOk, OnOk};
ghost use Rattle.ll_helpers.specs.StringsAsk as spec;

use csub_tree::CBinary;
use ll_build::build::{
    answer, ask, block, blocks_of, call_of, fails, flag, fork, graph, none, null, operations,
    types_of, var, variables, word,
};
use ll_code::{LlBlock, LlExit, LlGraph, LlOp, LlType};
use rpy_base::{NoMem, Seq};
use std::alloc::Global;

fn print_str_ask_text(alloc: Global) -> Result<LlBlock, NoMem>
    ensures { IfOk result (λ made. made ≡ spec.print_str_ask_text) }
{
    ask(alloc, [0], [var(0)], 0, 1, 1, 2)
}

fn print_str_puts(alloc: Global, puts: u64) -> Result<LlBlock, NoMem>
    ensures { IfOk result (λ made. made ≡ spec.print_str_puts puts) }
{
    let ops = operations(alloc, [call_of(alloc, None, puts, [var(0)])?])?;
    let exit = LlExit::Return(None);
    block(alloc, [0], ops, exit)
}

fn print_str_blocks(alloc: Global, puts: u64, blocks: &mut Seq<LlBlock>) -> Result<(), NoMem>
    ensures { OnOk result (blocks.new ≡ blocks.old ++ spec.print_str_blocks puts) }
{
    blocks.push(print_str_ask_text(alloc)?)?;
    blocks.push(fails(alloc, 4)?)?;
    blocks.push(print_str_puts(alloc, puts)?)
}

/// Prints the bytes of a string.
pub fn print_str(alloc: Global, puts: u64) -> Result<LlGraph, NoMem>
    ensures { IfOk result (λ made. made ≡ spec.print_str puts) }
{
    // 0 text, 1 test
    let mut blocks = Seq::new(alloc);
    print_str_blocks(alloc, puts, &mut blocks)?;
    let types = types_of(alloc, [LlType::Ptr(0), LlType::Bool])?;
    let params = variables(alloc, [0])?;
    graph(alloc, b"print_str", params, LlType::Void, types, blocks)
}

fn str_write_ask_text(alloc: Global) -> Result<LlBlock, NoMem>
    ensures { IfOk result (λ made. made ≡ spec.str_write_ask_text) }
{
    ask(alloc, [0], [var(0)], 0, 1, 1, 2)
}

fn str_write_writes(alloc: Global, puts: u64) -> Result<LlBlock, NoMem>
    ensures { IfOk result (λ made. made ≡ spec.str_write_writes puts) }
{
    let ops = operations(
        alloc,
        [
            call_of(alloc, None, puts, [var(0)])?,
            LlOp::GetField(2, 0, 0, 0),
        ],
    )?;
    let exit = LlExit::Return(Some(var(2)));
    block(alloc, [0], ops, exit)
}

fn str_write_blocks(alloc: Global, puts: u64, blocks: &mut Seq<LlBlock>) -> Result<(), NoMem>
    ensures { OnOk result (blocks.new ≡ blocks.old ++ spec.str_write_blocks puts) }
{
    blocks.push(str_write_ask_text(alloc)?)?;
    blocks.push(fails(alloc, 4)?)?;
    blocks.push(str_write_writes(alloc, puts)?)
}

/// Writes the bytes of a string, and gives their number.
pub fn str_write(alloc: Global, puts: u64) -> Result<LlGraph, NoMem>
    ensures { IfOk result (λ made. made ≡ spec.str_write puts) }
{
    // 0 text, 1 test, 2 length
    let mut blocks = Seq::new(alloc);
    str_write_blocks(alloc, puts, &mut blocks)?;
    let types = types_of(alloc, [LlType::Ptr(0), LlType::Bool, LlType::Signed])?;
    let params = variables(alloc, [0])?;
    graph(alloc, b"str_write", params, LlType::Signed, types, blocks)
}

fn str_index_ask_text(alloc: Global) -> Result<LlBlock, NoMem>
    ensures { IfOk result (λ made. made ≡ spec.str_index_ask_text) }
{
    ask(alloc, [0, 1], [var(0), var(1)], 0, 2, 1, 2)
}

// Whether the place counts from the end.
fn str_index_sides(alloc: Global) -> Result<LlBlock, NoMem>
    ensures { IfOk result (λ made. made ≡ spec.str_index_sides) }
{
    let ops = operations(
        alloc,
        [
            LlOp::GetField(3, 0, 0, 0),
            LlOp::Binary(2, CBinary::Lt, var(1), word(0)),
        ],
    )?;
    let exit = fork(
        alloc,
        2,
        3,
        [var(0), var(1), var(3)],
        4,
        [var(0), var(1), var(3)],
    )?;
    block(alloc, [0, 1], ops, exit)
}

// It has the length added once.
fn str_index_turns(alloc: Global) -> Result<LlBlock, NoMem>
    ensures { IfOk result (λ made. made ≡ spec.str_index_turns) }
{
    let ops = operations(
        alloc,
        [
            LlOp::Binary(1, CBinary::Add, var(1), var(3)),
            LlOp::Binary(2, CBinary::Lt, var(1), word(0)),
        ],
    )?;
    let exit = fork(alloc, 2, 5, [], 4, [var(0), var(1), var(3)])?;
    block(alloc, [0, 1, 3], ops, exit)
}

// Whether it is below the length.
fn str_index_bounds(alloc: Global) -> Result<LlBlock, NoMem>
    ensures { IfOk result (λ made. made ≡ spec.str_index_bounds) }
{
    let ops = operations(alloc, [LlOp::Binary(2, CBinary::Lt, var(1), var(3))])?;
    let exit = fork(alloc, 2, 6, [var(0), var(1)], 5, [])?;
    block(alloc, [0, 1, 3], ops, exit)
}

fn str_index_takes(alloc: Global) -> Result<LlBlock, NoMem>
    ensures { IfOk result (λ made. made ≡ spec.str_index_takes) }
{
    let ops = operations(alloc, [LlOp::GetItem(4, 0, 0, var(1))])?;
    let exit = LlExit::Return(Some(var(4)));
    block(alloc, [0, 1], ops, exit)
}

fn str_index_blocks_a(alloc: Global, into: &mut Seq<LlBlock>) -> Result<(), NoMem>
    ensures { OnOk result (into.new ≡ into.old ++ spec.str_index_blocks_a) }
{
    into.push(str_index_ask_text(alloc)?)?;
    into.push(fails(alloc, 4)?)?;
    into.push(str_index_sides(alloc)?)?;
    into.push(str_index_turns(alloc)?)
}

fn str_index_blocks_b(alloc: Global, into: &mut Seq<LlBlock>) -> Result<(), NoMem>
    ensures { OnOk result (into.new ≡ into.old ++ spec.str_index_blocks_b) }
{
    into.push(str_index_bounds(alloc)?)?;
    into.push(fails(alloc, 1)?)?;
    into.push(str_index_takes(alloc)?)
}

/// The byte at a place; one below zero counts from the end, and one outside fails.
pub fn str_index(alloc: Global) -> Result<LlGraph, NoMem>
    ensures { IfOk result (λ made. made ≡ spec.str_index) }
{
    // 0 text, 1 at, 2 test, 3 length, 4 char
    let mut blocks = Seq::new(alloc);
    str_index_blocks_a(alloc, &mut blocks)?;
    str_index_blocks_b(alloc, &mut blocks)?;
    let types = types_of(
        alloc,
        [
            LlType::Ptr(0),
            LlType::Signed,
            LlType::Bool,
            LlType::Signed,
            LlType::Char,
        ],
    )?;
    let params = variables(alloc, [0, 1])?;
    graph(alloc, b"str_index", params, LlType::Char, types, blocks)
}

fn str_len_ask_text(alloc: Global) -> Result<LlBlock, NoMem>
    ensures { IfOk result (λ made. made ≡ spec.str_len_ask_text) }
{
    ask(alloc, [0], [var(0)], 0, 1, 1, 2)
}

fn str_len_takes(alloc: Global) -> Result<LlBlock, NoMem>
    ensures { IfOk result (λ made. made ≡ spec.str_len_takes) }
{
    let ops = operations(alloc, [LlOp::GetField(2, 0, 0, 0)])?;
    let exit = LlExit::Return(Some(var(2)));
    block(alloc, [0], ops, exit)
}

fn str_len_blocks(alloc: Global, blocks: &mut Seq<LlBlock>) -> Result<(), NoMem>
    ensures { OnOk result (blocks.new ≡ blocks.old ++ spec.str_len_blocks) }
{
    blocks.push(str_len_ask_text(alloc)?)?;
    blocks.push(fails(alloc, 4)?)?;
    blocks.push(str_len_takes(alloc)?)
}

/// The length of a string.
pub fn str_len(alloc: Global) -> Result<LlGraph, NoMem>
    ensures { IfOk result (λ made. made ≡ spec.str_len) }
{
    // 0 text, 1 test, 2 length
    let mut blocks = Seq::new(alloc);
    str_len_blocks(alloc, &mut blocks)?;
    let types = types_of(alloc, [LlType::Ptr(0), LlType::Bool, LlType::Signed])?;
    let params = variables(alloc, [0])?;
    graph(alloc, b"str_len", params, LlType::Signed, types, blocks)
}

fn str_truth_ask_text(alloc: Global) -> Result<LlBlock, NoMem>
    ensures { IfOk result (λ made. made ≡ spec.str_truth_ask_text) }
{
    ask(alloc, [0], [var(0)], 0, 1, 1, 2)
}

fn str_truth_takes(alloc: Global) -> Result<LlBlock, NoMem>
    ensures { IfOk result (λ made. made ≡ spec.str_truth_takes) }
{
    let ops = operations(
        alloc,
        [
            LlOp::GetField(2, 0, 0, 0),
            LlOp::Binary(1, CBinary::Lt, word(0), var(2)),
        ],
    )?;
    let exit = LlExit::Return(Some(var(1)));
    block(alloc, [0], ops, exit)
}

fn str_truth_blocks(alloc: Global, blocks: &mut Seq<LlBlock>) -> Result<(), NoMem>
    ensures { OnOk result (blocks.new ≡ blocks.old ++ spec.str_truth_blocks) }
{
    blocks.push(str_truth_ask_text(alloc)?)?;
    blocks.push(answer(alloc, flag(false))?)?;
    blocks.push(str_truth_takes(alloc)?)
}

/// Whether a string is there and has a byte.
pub fn str_truth(alloc: Global) -> Result<LlGraph, NoMem>
    ensures { IfOk result (λ made. made ≡ spec.str_truth) }
{
    // 0 text, 1 test, 2 length
    let mut blocks = Seq::new(alloc);
    str_truth_blocks(alloc, &mut blocks)?;
    let types = types_of(alloc, [LlType::Ptr(0), LlType::Bool, LlType::Signed])?;
    let params = variables(alloc, [0])?;
    graph(alloc, b"str_truth", params, LlType::Bool, types, blocks)
}

// Whether the first is missing.
fn str_equal_first(alloc: Global) -> Result<LlBlock, NoMem>
    ensures { IfOk result (λ made. made ≡ spec.str_equal_first) }
{
    let ops = operations(alloc, [LlOp::Binary(2, CBinary::Peq, var(0), null())])?;
    let exit = fork(alloc, 2, 1, [var(1)], 2, [var(0), var(1)])?;
    block(alloc, [0, 1], ops, exit)
}

// The second must then be, too.
fn str_equal_missing(alloc: Global) -> Result<LlBlock, NoMem>
    ensures { IfOk result (λ made. made ≡ spec.str_equal_missing) }
{
    let ops = operations(alloc, [LlOp::Binary(2, CBinary::Peq, var(1), null())])?;
    let exit = LlExit::Return(Some(var(2)));
    block(alloc, [1], ops, exit)
}

// Whether the second is missing.
fn str_equal_second(alloc: Global) -> Result<LlBlock, NoMem>
    ensures { IfOk result (λ made. made ≡ spec.str_equal_second) }
{
    let ops = operations(alloc, [LlOp::Binary(2, CBinary::Peq, var(1), null())])?;
    let exit = fork(alloc, 2, 5, [], 3, [var(0), var(1)])?;
    block(alloc, [0, 1], ops, exit)
}

// Whether they are of one length.
fn str_equal_lengths(alloc: Global) -> Result<LlBlock, NoMem>
    ensures { IfOk result (λ made. made ≡ spec.str_equal_lengths) }
{
    let ops = operations(
        alloc,
        [
            LlOp::GetField(3, 0, 0, 0),
            LlOp::GetField(4, 0, 1, 0),
            LlOp::Binary(2, CBinary::Eq, var(3), var(4)),
        ],
    )?;
    let exit = fork(alloc, 2, 4, [var(0), var(1), var(3)], 5, [])?;
    block(alloc, [0, 1], ops, exit)
}

// Whether they are alike.
fn str_equal_bytes(alloc: Global, alike: u64) -> Result<LlBlock, NoMem>
    ensures { IfOk result (λ made. made ≡ spec.str_equal_bytes alike) }
{
    let ops = operations(
        alloc,
        [call_of(
            alloc,
            Some(2),
            alike,
            [var(0), word(0), var(1), word(0), var(3)],
        )?],
    )?;
    let exit = LlExit::Return(Some(var(2)));
    block(alloc, [0, 1, 3], ops, exit)
}

fn str_equal_blocks_a(alloc: Global, into: &mut Seq<LlBlock>) -> Result<(), NoMem>
    ensures { OnOk result (into.new ≡ into.old ++ spec.str_equal_blocks_a) }
{
    into.push(str_equal_first(alloc)?)?;
    into.push(str_equal_missing(alloc)?)?;
    into.push(str_equal_second(alloc)?)
}

fn str_equal_blocks_b(alloc: Global, alike: u64, into: &mut Seq<LlBlock>) -> Result<(), NoMem>
    ensures { OnOk result (into.new ≡ into.old ++ spec.str_equal_blocks_b alike) }
{
    into.push(str_equal_lengths(alloc)?)?;
    into.push(str_equal_bytes(alloc, alike)?)?;
    into.push(answer(alloc, flag(false))?)
}

/// Whether two strings are equal, or both missing.
pub fn str_equal(alloc: Global, alike: u64) -> Result<LlGraph, NoMem>
    ensures { IfOk result (λ made. made ≡ spec.str_equal alike) }
{
    // 0 first, 1 second, 2 test, 3 length, 4 size
    let mut blocks = Seq::new(alloc);
    str_equal_blocks_a(alloc, &mut blocks)?;
    str_equal_blocks_b(alloc, alike, &mut blocks)?;
    let types = types_of(
        alloc,
        [
            LlType::Ptr(0),
            LlType::Ptr(0),
            LlType::Bool,
            LlType::Signed,
            LlType::Signed,
        ],
    )?;
    let params = variables(alloc, [0, 1])?;
    graph(alloc, b"str_equal", params, LlType::Bool, types, blocks)
}

fn str_less_whole(alloc: Global, less: u64) -> Result<LlBlock, NoMem>
    ensures { IfOk result (λ made. made ≡ spec.str_less_whole less) }
{
    let ops = operations(
        alloc,
        [
            LlOp::GetField(3, 0, 0, 0),
            LlOp::GetField(4, 0, 1, 0),
            call_of(alloc, Some(2), less, [var(0), var(3), var(1), var(4)])?,
        ],
    )?;
    let exit = LlExit::Return(Some(var(2)));
    block(alloc, [0, 1], ops, exit)
}

/// Whether the first of two strings is less.
pub fn str_less(alloc: Global, less: u64) -> Result<LlGraph, NoMem>
    ensures { IfOk result (λ made. made ≡ spec.str_less less) }
{
    // 0 first, 1 second, 2 test, 3 length, 4 size
    let blocks = blocks_of(alloc, [str_less_whole(alloc, less)?])?;
    let types = types_of(
        alloc,
        [
            LlType::Ptr(0),
            LlType::Ptr(0),
            LlType::Bool,
            LlType::Signed,
            LlType::Signed,
        ],
    )?;
    let params = variables(alloc, [0, 1])?;
    graph(alloc, b"str_less", params, LlType::Bool, types, blocks)
}

fn str_contains_ask_text(alloc: Global) -> Result<LlBlock, NoMem>
    ensures { IfOk result (λ made. made ≡ spec.str_contains_ask_text) }
{
    ask(alloc, [0, 1], [var(0), var(1)], 1, 2, 2, 1)
}

fn str_contains_part(alloc: Global) -> Result<LlBlock, NoMem>
    ensures { IfOk result (λ made. made ≡ spec.str_contains_part) }
{
    ask(alloc, [0, 1], [var(0), var(1)], 0, 2, 2, 3)
}

// Whether it stands at a place.
fn str_contains_takes(alloc: Global, find: u64) -> Result<LlBlock, NoMem>
    ensures { IfOk result (λ made. made ≡ spec.str_contains_takes find) }
{
    let ops = operations(
        alloc,
        [
            LlOp::GetField(3, 0, 1, 0),
            LlOp::GetField(4, 0, 0, 0),
            call_of(alloc, Some(5), find, [var(1), var(3), var(0), var(4)])?,
            LlOp::Binary(2, CBinary::Le, word(0), var(5)),
        ],
    )?;
    let exit = LlExit::Return(Some(var(2)));
    block(alloc, [0, 1], ops, exit)
}

fn str_contains_blocks_a(alloc: Global, blocks: &mut Seq<LlBlock>) -> Result<(), NoMem>
    ensures { OnOk result (blocks.new ≡ blocks.old ++ spec.str_contains_blocks_a) }
{
    blocks.push(str_contains_ask_text(alloc)?)?;
    blocks.push(str_contains_part(alloc)?)
}

fn str_contains_blocks_b(alloc: Global, find: u64, blocks: &mut Seq<LlBlock>) -> Result<(), NoMem>
    ensures { OnOk result (blocks.new ≡ blocks.old ++ spec.str_contains_blocks_b find) }
{
    blocks.push(fails(alloc, 4)?)?;
    blocks.push(str_contains_takes(alloc, find)?)
}

/// Whether the first string is a part of the second.
pub fn str_contains(alloc: Global, find: u64) -> Result<LlGraph, NoMem>
    ensures { IfOk result (λ made. made ≡ spec.str_contains find) }
{
    // 0 part, 1 text, 2 test, 3 length, 4 size, 5 place
    let mut blocks = Seq::new(alloc);
    str_contains_blocks_a(alloc, &mut blocks)?;
    str_contains_blocks_b(alloc, find, &mut blocks)?;
    let types = types_of(
        alloc,
        [
            LlType::Ptr(0),
            LlType::Ptr(0),
            LlType::Bool,
            LlType::Signed,
            LlType::Signed,
            LlType::Signed,
        ],
    )?;
    let params = variables(alloc, [0, 1])?;
    graph(alloc, b"str_contains", params, LlType::Bool, types, blocks)
}

fn str_find_ask_text(alloc: Global) -> Result<LlBlock, NoMem>
    ensures { IfOk result (λ made. made ≡ spec.str_find_ask_text) }
{
    ask(alloc, [0, 1], [var(0), var(1)], 0, 2, 2, 1)
}

fn str_find_part(alloc: Global) -> Result<LlBlock, NoMem>
    ensures { IfOk result (λ made. made ≡ spec.str_find_part) }
{
    ask(alloc, [0, 1], [var(0), var(1)], 1, 2, 2, 3)
}

fn str_find_takes(alloc: Global, find: u64) -> Result<LlBlock, NoMem>
    ensures { IfOk result (λ made. made ≡ spec.str_find_takes find) }
{
    let ops = operations(
        alloc,
        [
            LlOp::GetField(3, 0, 0, 0),
            LlOp::GetField(4, 0, 1, 0),
            call_of(alloc, Some(5), find, [var(0), var(3), var(1), var(4)])?,
        ],
    )?;
    let exit = LlExit::Return(Some(var(5)));
    block(alloc, [0, 1], ops, exit)
}

fn str_find_blocks_a(alloc: Global, blocks: &mut Seq<LlBlock>) -> Result<(), NoMem>
    ensures { OnOk result (blocks.new ≡ blocks.old ++ spec.str_find_blocks_a) }
{
    blocks.push(str_find_ask_text(alloc)?)?;
    blocks.push(str_find_part(alloc)?)
}

fn str_find_blocks_b(alloc: Global, find: u64, blocks: &mut Seq<LlBlock>) -> Result<(), NoMem>
    ensures { OnOk result (blocks.new ≡ blocks.old ++ spec.str_find_blocks_b find) }
{
    blocks.push(fails(alloc, 4)?)?;
    blocks.push(str_find_takes(alloc, find)?)
}

/// The first place from which the first string begins with the second, or -1.
pub fn str_find(alloc: Global, find: u64) -> Result<LlGraph, NoMem>
    ensures { IfOk result (λ made. made ≡ spec.str_find find) }
{
    // 0 text, 1 part, 2 test, 3 length, 4 size, 5 place
    let mut blocks = Seq::new(alloc);
    str_find_blocks_a(alloc, &mut blocks)?;
    str_find_blocks_b(alloc, find, &mut blocks)?;
    let types = types_of(
        alloc,
        [
            LlType::Ptr(0),
            LlType::Ptr(0),
            LlType::Bool,
            LlType::Signed,
            LlType::Signed,
            LlType::Signed,
        ],
    )?;
    let params = variables(alloc, [0, 1])?;
    graph(alloc, b"str_find", params, LlType::Signed, types, blocks)
}

fn str_starts_with_ask_text(alloc: Global) -> Result<LlBlock, NoMem>
    ensures { IfOk result (λ made. made ≡ spec.str_starts_with_ask_text) }
{
    ask(alloc, [0, 1], [var(0), var(1)], 0, 2, 2, 1)
}

fn str_starts_with_part(alloc: Global) -> Result<LlBlock, NoMem>
    ensures { IfOk result (λ made. made ≡ spec.str_starts_with_part) }
{
    ask(alloc, [0, 1], [var(0), var(1)], 1, 2, 2, 3)
}

// Whether the second is no longer.
fn str_starts_with_takes(alloc: Global) -> Result<LlBlock, NoMem>
    ensures { IfOk result (λ made. made ≡ spec.str_starts_with_takes) }
{
    let ops = operations(
        alloc,
        [
            LlOp::GetField(3, 0, 0, 0),
            LlOp::GetField(4, 0, 1, 0),
            LlOp::Binary(2, CBinary::Le, var(4), var(3)),
        ],
    )?;
    let exit = fork(alloc, 2, 4, [var(0), var(1), var(4)], 5, [])?;
    block(alloc, [0, 1], ops, exit)
}

// Whether they are alike.
fn str_starts_with_bytes(alloc: Global, alike: u64) -> Result<LlBlock, NoMem>
    ensures { IfOk result (λ made. made ≡ spec.str_starts_with_bytes alike) }
{
    let ops = operations(
        alloc,
        [call_of(
            alloc,
            Some(2),
            alike,
            [var(0), word(0), var(1), word(0), var(4)],
        )?],
    )?;
    let exit = LlExit::Return(Some(var(2)));
    block(alloc, [0, 1, 4], ops, exit)
}

fn str_starts_with_blocks_a(alloc: Global, into: &mut Seq<LlBlock>) -> Result<(), NoMem>
    ensures { OnOk result (into.new ≡ into.old ++ spec.str_starts_with_blocks_a) }
{
    into.push(str_starts_with_ask_text(alloc)?)?;
    into.push(str_starts_with_part(alloc)?)?;
    into.push(fails(alloc, 4)?)
}

fn str_starts_with_blocks_b(alloc: Global, alike: u64, into: &mut Seq<LlBlock>) -> Result<(), NoMem>
    ensures { OnOk result (into.new ≡ into.old ++ spec.str_starts_with_blocks_b alike) }
{
    into.push(str_starts_with_takes(alloc)?)?;
    into.push(str_starts_with_bytes(alloc, alike)?)?;
    into.push(answer(alloc, flag(false))?)
}

/// Whether the first string begins with the second.
pub fn str_starts_with(alloc: Global, alike: u64) -> Result<LlGraph, NoMem>
    ensures { IfOk result (λ made. made ≡ spec.str_starts_with alike) }
{
    // 0 text, 1 part, 2 test, 3 length, 4 size
    let mut blocks = Seq::new(alloc);
    str_starts_with_blocks_a(alloc, &mut blocks)?;
    str_starts_with_blocks_b(alloc, alike, &mut blocks)?;
    let types = types_of(
        alloc,
        [
            LlType::Ptr(0),
            LlType::Ptr(0),
            LlType::Bool,
            LlType::Signed,
            LlType::Signed,
        ],
    )?;
    let params = variables(alloc, [0, 1])?;
    graph(
        alloc,
        b"str_starts_with",
        params,
        LlType::Bool,
        types,
        blocks,
    )
}

fn str_ends_with_ask_text(alloc: Global) -> Result<LlBlock, NoMem>
    ensures { IfOk result (λ made. made ≡ spec.str_ends_with_ask_text) }
{
    ask(alloc, [0, 1], [var(0), var(1)], 0, 2, 2, 1)
}

fn str_ends_with_part(alloc: Global) -> Result<LlBlock, NoMem>
    ensures { IfOk result (λ made. made ≡ spec.str_ends_with_part) }
{
    ask(alloc, [0, 1], [var(0), var(1)], 1, 2, 2, 3)
}

// Whether the second is no longer.
fn str_ends_with_takes(alloc: Global) -> Result<LlBlock, NoMem>
    ensures { IfOk result (λ made. made ≡ spec.str_ends_with_takes) }
{
    let ops = operations(
        alloc,
        [
            LlOp::GetField(3, 0, 0, 0),
            LlOp::GetField(4, 0, 1, 0),
            LlOp::Binary(2, CBinary::Le, var(4), var(3)),
        ],
    )?;
    let exit = fork(alloc, 2, 4, [var(0), var(1), var(4), var(3)], 5, [])?;
    block(alloc, [0, 1], ops, exit)
}

// Whether they are alike.
fn str_ends_with_bytes(alloc: Global, alike: u64) -> Result<LlBlock, NoMem>
    ensures { IfOk result (λ made. made ≡ spec.str_ends_with_bytes alike) }
{
    let ops = operations(
        alloc,
        [
            LlOp::Binary(3, CBinary::Sub, var(3), var(4)),
            call_of(
                alloc,
                Some(2),
                alike,
                [var(0), var(3), var(1), word(0), var(4)],
            )?,
        ],
    )?;
    let exit = LlExit::Return(Some(var(2)));
    block(alloc, [0, 1, 4, 3], ops, exit)
}

fn str_ends_with_blocks_a(alloc: Global, into: &mut Seq<LlBlock>) -> Result<(), NoMem>
    ensures { OnOk result (into.new ≡ into.old ++ spec.str_ends_with_blocks_a) }
{
    into.push(str_ends_with_ask_text(alloc)?)?;
    into.push(str_ends_with_part(alloc)?)?;
    into.push(fails(alloc, 4)?)
}

fn str_ends_with_blocks_b(alloc: Global, alike: u64, into: &mut Seq<LlBlock>) -> Result<(), NoMem>
    ensures { OnOk result (into.new ≡ into.old ++ spec.str_ends_with_blocks_b alike) }
{
    into.push(str_ends_with_takes(alloc)?)?;
    into.push(str_ends_with_bytes(alloc, alike)?)?;
    into.push(answer(alloc, flag(false))?)
}

/// Whether the first string ends with the second.
pub fn str_ends_with(alloc: Global, alike: u64) -> Result<LlGraph, NoMem>
    ensures { IfOk result (λ made. made ≡ spec.str_ends_with alike) }
{
    // 0 text, 1 part, 2 test, 3 length, 4 size
    let mut blocks = Seq::new(alloc);
    str_ends_with_blocks_a(alloc, &mut blocks)?;
    str_ends_with_blocks_b(alloc, alike, &mut blocks)?;
    let types = types_of(
        alloc,
        [
            LlType::Ptr(0),
            LlType::Ptr(0),
            LlType::Bool,
            LlType::Signed,
            LlType::Signed,
        ],
    )?;
    let params = variables(alloc, [0, 1])?;
    graph(alloc, b"str_ends_with", params, LlType::Bool, types, blocks)
}

fn str_walk_ask_text(alloc: Global) -> Result<LlBlock, NoMem>
    ensures { IfOk result (λ made. made ≡ spec.str_walk_ask_text) }
{
    ask(alloc, [0], [var(0)], 0, 1, 1, 2)
}

fn str_walk_takes(alloc: Global) -> Result<LlBlock, NoMem>
    ensures { IfOk result (λ made. made ≡ spec.str_walk_takes) }
{
    let exit = LlExit::Return(Some(var(0)));
    none(alloc, [0], exit)
}

fn str_walk_blocks(alloc: Global, blocks: &mut Seq<LlBlock>) -> Result<(), NoMem>
    ensures { OnOk result (blocks.new ≡ blocks.old ++ spec.str_walk_blocks) }
{
    blocks.push(str_walk_ask_text(alloc)?)?;
    blocks.push(fails(alloc, 4)?)?;
    blocks.push(str_walk_takes(alloc)?)
}

/// What is walked: the string itself.
pub fn str_walk(alloc: Global) -> Result<LlGraph, NoMem>
    ensures { IfOk result (λ made. made ≡ spec.str_walk) }
{
    // 0 text, 1 test
    let mut blocks = Seq::new(alloc);
    str_walk_blocks(alloc, &mut blocks)?;
    let types = types_of(alloc, [LlType::Ptr(0), LlType::Bool])?;
    let params = variables(alloc, [0])?;
    graph(alloc, b"str_walk", params, LlType::Ptr(0), types, blocks)
}

fn str_has_item_whole(alloc: Global) -> Result<LlBlock, NoMem>
    ensures { IfOk result (λ made. made ≡ spec.str_has_item_whole) }
{
    let ops = operations(
        alloc,
        [
            LlOp::GetField(2, 0, 0, 0),
            LlOp::Binary(3, CBinary::Lt, var(1), var(2)),
        ],
    )?;
    let exit = LlExit::Return(Some(var(3)));
    block(alloc, [0, 1], ops, exit)
}

/// Whether a place is below the length.
pub fn str_has_item(alloc: Global) -> Result<LlGraph, NoMem>
    ensures { IfOk result (λ made. made ≡ spec.str_has_item) }
{
    // 0 text, 1 at, 2 length, 3 test
    let blocks = blocks_of(alloc, [str_has_item_whole(alloc)?])?;
    let types = types_of(
        alloc,
        [LlType::Ptr(0), LlType::Signed, LlType::Signed, LlType::Bool],
    )?;
    let params = variables(alloc, [0, 1])?;
    graph(alloc, b"str_has_item", params, LlType::Bool, types, blocks)
}

fn str_item_whole(alloc: Global) -> Result<LlBlock, NoMem>
    ensures { IfOk result (λ made. made ≡ spec.str_item_whole) }
{
    let ops = operations(alloc, [LlOp::GetItem(2, 0, 0, var(1))])?;
    let exit = LlExit::Return(Some(var(2)));
    block(alloc, [0, 1], ops, exit)
}

/// The byte at a place that is there.
pub fn str_item(alloc: Global) -> Result<LlGraph, NoMem>
    ensures { IfOk result (λ made. made ≡ spec.str_item) }
{
    // 0 text, 1 at, 2 char
    let blocks = blocks_of(alloc, [str_item_whole(alloc)?])?;
    let types = types_of(alloc, [LlType::Ptr(0), LlType::Signed, LlType::Char])?;
    let params = variables(alloc, [0, 1])?;
    graph(alloc, b"str_item", params, LlType::Char, types, blocks)
}
