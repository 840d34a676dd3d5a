// Loops over the bytes of strings: graphs that the helpers call.
ghost use Rattle.std.specs.Prelude.{◌≡◌, ◌++◌, IfOk, OnOk};
ghost use Rattle.ll_helpers.specs.Loops as spec;

use csub_tree::{CBinary, CUnary};
use ll_build::build::{
    answer, block, call_of, done, flag, fork, go, graph, none, operations, types_of, var,
    variables, word,
};
use ll_code::{LlBlock, LlExit, LlGraph, LlOp, LlType};
use rpy_base::{NoMem, Seq};
use std::alloc::Global;

// The length, and the first place.
fn put_bytes_start(alloc: Global) -> Result<LlBlock, NoMem>
    ensures { IfOk result (λ made. made ≡ spec.put_bytes_start) }
{
    let ops = operations(alloc, [LlOp::GetField(1, 0, 0, 0)])?;
    let exit = go(alloc, 1, [var(0), var(1), word(0)])?;
    block(alloc, [0], ops, exit)
}

// Whether there is a byte at the place.
fn put_bytes_test(alloc: Global) -> Result<LlBlock, NoMem>
    ensures { IfOk result (λ made. made ≡ spec.put_bytes_test) }
{
    let ops = operations(alloc, [LlOp::Binary(3, CBinary::Lt, var(2), var(1))])?;
    let exit = fork(alloc, 3, 2, [var(0), var(1), var(2)], 3, [])?;
    block(alloc, [0, 1, 2], ops, exit)
}

// Puts it and goes on.
fn put_bytes_byte(alloc: Global) -> Result<LlBlock, NoMem>
    ensures { IfOk result (λ made. made ≡ spec.put_bytes_byte) }
{
    let ops = operations(
        alloc,
        [
            LlOp::GetItem(4, 0, 0, var(2)),
            LlOp::Unary(5, CUnary::C2S, var(4)),
            LlOp::Put(var(5)),
            LlOp::Binary(2, CBinary::Add, var(2), word(1)),
        ],
    )?;
    let exit = go(alloc, 1, [var(0), var(1), var(2)])?;
    block(alloc, [0, 1, 2], ops, exit)
}

fn put_bytes_blocks_a(alloc: Global, blocks: &mut Seq<LlBlock>) -> Result<(), NoMem>
    ensures { OnOk result (blocks.new ≡ blocks.old ++ spec.put_bytes_blocks_a) }
{
    blocks.push(put_bytes_start(alloc)?)?;
    blocks.push(put_bytes_test(alloc)?)
}

fn put_bytes_blocks_b(alloc: Global, blocks: &mut Seq<LlBlock>) -> Result<(), NoMem>
    ensures { OnOk result (blocks.new ≡ blocks.old ++ spec.put_bytes_blocks_b) }
{
    blocks.push(put_bytes_byte(alloc)?)?;
    blocks.push(done(alloc)?)
}

/// Prints the bytes of a string.
pub fn put_bytes(alloc: Global) -> Result<LlGraph, NoMem>
    ensures { IfOk result (λ made. made ≡ spec.put_bytes) }
{
    // 0 text, 1 length, 2 at, 3 more, 4 char, 5 byte
    let mut blocks = Seq::new(alloc);
    put_bytes_blocks_a(alloc, &mut blocks)?;
    put_bytes_blocks_b(alloc, &mut blocks)?;
    let types = types_of(
        alloc,
        [
            LlType::Ptr(0),
            LlType::Signed,
            LlType::Signed,
            LlType::Bool,
            LlType::Char,
            LlType::Signed,
        ],
    )?;
    let params = variables(alloc, [0])?;
    graph(alloc, b"put_bytes", params, LlType::Void, types, blocks)
}

// Whether there is a byte left.
fn copy_bytes_test(alloc: Global) -> Result<LlBlock, NoMem>
    ensures { IfOk result (λ made. made ≡ spec.copy_bytes_test) }
{
    let ops = operations(alloc, [LlOp::Binary(5, CBinary::Lt, word(0), var(4))])?;
    let exit = fork(alloc, 5, 1, [var(0), var(1), var(2), var(3), var(4)], 2, [])?;
    block(alloc, [0, 1, 2, 3, 4], ops, exit)
}

// Copies one and goes on.
fn copy_bytes_turn(alloc: Global) -> Result<LlBlock, NoMem>
    ensures { IfOk result (λ made. made ≡ spec.copy_bytes_turn) }
{
    let ops = operations(
        alloc,
        [
            LlOp::GetItem(6, 0, 0, var(1)),
            LlOp::SetItem(0, 2, var(3), var(6)),
            LlOp::Binary(1, CBinary::Add, var(1), word(1)),
            LlOp::Binary(3, CBinary::Add, var(3), word(1)),
            LlOp::Binary(4, CBinary::Sub, var(4), word(1)),
        ],
    )?;
    let exit = go(alloc, 0, [var(0), var(1), var(2), var(3), var(4)])?;
    block(alloc, [0, 1, 2, 3, 4], ops, exit)
}

fn copy_bytes_blocks(alloc: Global, blocks: &mut Seq<LlBlock>) -> Result<(), NoMem>
    ensures { OnOk result (blocks.new ≡ blocks.old ++ spec.copy_bytes_blocks) }
{
    blocks.push(copy_bytes_test(alloc)?)?;
    blocks.push(copy_bytes_turn(alloc)?)?;
    blocks.push(done(alloc)?)
}

/// Copies bytes: from a string and a place to another string and place, so many.
pub fn copy_bytes(alloc: Global) -> Result<LlGraph, NoMem>
    ensures { IfOk result (λ made. made ≡ spec.copy_bytes) }
{
    // 0 source, 1 from, 2 target, 3 to, 4 count, 5 more, 6 char
    let mut blocks = Seq::new(alloc);
    copy_bytes_blocks(alloc, &mut blocks)?;
    let types = types_of(
        alloc,
        [
            LlType::Ptr(0),
            LlType::Signed,
            LlType::Ptr(0),
            LlType::Signed,
            LlType::Signed,
            LlType::Bool,
            LlType::Char,
        ],
    )?;
    let params = variables(alloc, [0, 1, 2, 3, 4])?;
    graph(alloc, b"copy_bytes", params, LlType::Void, types, blocks)
}

// The first place.
fn repeat_bytes_start(alloc: Global) -> Result<LlBlock, NoMem>
    ensures { IfOk result (λ made. made ≡ spec.repeat_bytes_start) }
{
    let exit = go(alloc, 1, [var(0), var(1), var(2), var(3), word(0)])?;
    none(alloc, [0, 1, 2, 3], exit)
}

// Whether there is room left.
fn repeat_bytes_test(alloc: Global) -> Result<LlBlock, NoMem>
    ensures { IfOk result (λ made. made ≡ spec.repeat_bytes_test) }
{
    let ops = operations(alloc, [LlOp::Binary(5, CBinary::Lt, var(4), var(3))])?;
    let exit = fork(alloc, 5, 2, [var(0), var(1), var(2), var(3), var(4)], 3, [])?;
    block(alloc, [0, 1, 2, 3, 4], ops, exit)
}

// One copy more.
fn repeat_bytes_turn(alloc: Global, copy: u64) -> Result<LlBlock, NoMem>
    ensures { IfOk result (λ made. made ≡ spec.repeat_bytes_turn copy) }
{
    let ops = operations(
        alloc,
        [
            call_of(alloc, None, copy, [var(0), word(0), var(1), var(4), var(2)])?,
            LlOp::Binary(4, CBinary::Add, var(4), var(2)),
        ],
    )?;
    let exit = go(alloc, 1, [var(0), var(1), var(2), var(3), var(4)])?;
    block(alloc, [0, 1, 2, 3, 4], ops, exit)
}

fn repeat_bytes_blocks_a(alloc: Global, blocks: &mut Seq<LlBlock>) -> Result<(), NoMem>
    ensures { OnOk result (blocks.new ≡ blocks.old ++ spec.repeat_bytes_blocks_a) }
{
    blocks.push(repeat_bytes_start(alloc)?)?;
    blocks.push(repeat_bytes_test(alloc)?)
}

fn repeat_bytes_blocks_b(alloc: Global, copy: u64, blocks: &mut Seq<LlBlock>) -> Result<(), NoMem>
    ensures { OnOk result (blocks.new ≡ blocks.old ++ spec.repeat_bytes_blocks_b copy) }
{
    blocks.push(repeat_bytes_turn(alloc, copy)?)?;
    blocks.push(done(alloc)?)
}

/// Fills a string of this length with copies of one of this size.
pub fn repeat_bytes(alloc: Global, copy: u64) -> Result<LlGraph, NoMem>
    ensures { IfOk result (λ made. made ≡ spec.repeat_bytes copy) }
{
    // 0 source, 1 target, 2 size, 3 length, 4 at, 5 more
    let mut blocks = Seq::new(alloc);
    repeat_bytes_blocks_a(alloc, &mut blocks)?;
    repeat_bytes_blocks_b(alloc, copy, &mut blocks)?;
    let types = types_of(
        alloc,
        [
            LlType::Ptr(0),
            LlType::Ptr(0),
            LlType::Signed,
            LlType::Signed,
            LlType::Signed,
            LlType::Bool,
        ],
    )?;
    let params = variables(alloc, [0, 1, 2, 3])?;
    graph(alloc, b"repeat_bytes", params, LlType::Void, types, blocks)
}

// Whether there is a byte left.
fn alike_bytes_test(alloc: Global) -> Result<LlBlock, NoMem>
    ensures { IfOk result (λ made. made ≡ spec.alike_bytes_test) }
{
    let ops = operations(alloc, [LlOp::Binary(5, CBinary::Lt, word(0), var(4))])?;
    let exit = fork(alloc, 5, 1, [var(0), var(1), var(2), var(3), var(4)], 2, [])?;
    block(alloc, [0, 1, 2, 3, 4], ops, exit)
}

// Compares one of each.
fn alike_bytes_turn(alloc: Global) -> Result<LlBlock, NoMem>
    ensures { IfOk result (λ made. made ≡ spec.alike_bytes_turn) }
{
    let ops = operations(
        alloc,
        [
            LlOp::GetItem(6, 0, 0, var(1)),
            LlOp::GetItem(7, 0, 2, var(3)),
            LlOp::Unary(8, CUnary::C2S, var(6)),
            LlOp::Unary(9, CUnary::C2S, var(7)),
            LlOp::Binary(5, CBinary::Eq, var(8), var(9)),
            LlOp::Binary(1, CBinary::Add, var(1), word(1)),
            LlOp::Binary(3, CBinary::Add, var(3), word(1)),
            LlOp::Binary(4, CBinary::Sub, var(4), word(1)),
        ],
    )?;
    let exit = fork(alloc, 5, 0, [var(0), var(1), var(2), var(3), var(4)], 3, [])?;
    block(alloc, [0, 1, 2, 3, 4], ops, exit)
}

fn alike_bytes_blocks_a(alloc: Global, blocks: &mut Seq<LlBlock>) -> Result<(), NoMem>
    ensures { OnOk result (blocks.new ≡ blocks.old ++ spec.alike_bytes_blocks_a) }
{
    blocks.push(alike_bytes_test(alloc)?)?;
    blocks.push(alike_bytes_turn(alloc)?)
}

fn alike_bytes_blocks_b(alloc: Global, blocks: &mut Seq<LlBlock>) -> Result<(), NoMem>
    ensures { OnOk result (blocks.new ≡ blocks.old ++ spec.alike_bytes_blocks_b) }
{
    blocks.push(answer(alloc, flag(true))?)?;
    blocks.push(answer(alloc, flag(false))?)
}

/// Whether two stretches of this many bytes are alike, each of a string from a place on.
pub fn alike_bytes(alloc: Global) -> Result<LlGraph, NoMem>
    ensures { IfOk result (λ made. made ≡ spec.alike_bytes) }
{
    // 0 first, 1 from, 2 second, 3 at, 4 count, 5 more, 6 left, 7 right, 8 low, 9 high
    let mut blocks = Seq::new(alloc);
    alike_bytes_blocks_a(alloc, &mut blocks)?;
    alike_bytes_blocks_b(alloc, &mut blocks)?;
    let types = types_of(
        alloc,
        [
            LlType::Ptr(0),
            LlType::Signed,
            LlType::Ptr(0),
            LlType::Signed,
            LlType::Signed,
            LlType::Bool,
            LlType::Char,
            LlType::Char,
            LlType::Signed,
            LlType::Signed,
        ],
    )?;
    let params = variables(alloc, [0, 1, 2, 3, 4])?;
    graph(alloc, b"alike_bytes", params, LlType::Bool, types, blocks)
}

// The last place that the part could stand at.
fn find_bytes_start(alloc: Global) -> Result<LlBlock, NoMem>
    ensures { IfOk result (λ made. made ≡ spec.find_bytes_start) }
{
    let ops = operations(alloc, [LlOp::Binary(4, CBinary::Sub, var(1), var(3))])?;
    let exit = go(alloc, 1, [var(0), var(2), var(3), var(4), word(0)])?;
    block(alloc, [0, 1, 2, 3], ops, exit)
}

// Whether the part could stand here.
fn find_bytes_test(alloc: Global) -> Result<LlBlock, NoMem>
    ensures { IfOk result (λ made. made ≡ spec.find_bytes_test) }
{
    let ops = operations(alloc, [LlOp::Binary(6, CBinary::Le, var(5), var(4))])?;
    let exit = fork(alloc, 6, 2, [var(0), var(2), var(3), var(4), var(5)], 5, [])?;
    block(alloc, [0, 2, 3, 4, 5], ops, exit)
}

// Whether it stands here.
fn find_bytes_look(alloc: Global, alike: u64) -> Result<LlBlock, NoMem>
    ensures { IfOk result (λ made. made ≡ spec.find_bytes_look alike) }
{
    let ops = operations(
        alloc,
        [call_of(
            alloc,
            Some(6),
            alike,
            [var(0), var(5), var(2), word(0), var(3)],
        )?],
    )?;
    let exit = fork(
        alloc,
        6,
        4,
        [var(5)],
        3,
        [var(0), var(2), var(3), var(4), var(5)],
    )?;
    block(alloc, [0, 2, 3, 4, 5], ops, exit)
}

// The next place.
fn find_bytes_next(alloc: Global) -> Result<LlBlock, NoMem>
    ensures { IfOk result (λ made. made ≡ spec.find_bytes_next) }
{
    let ops = operations(alloc, [LlOp::Binary(5, CBinary::Add, var(5), word(1))])?;
    let exit = go(alloc, 1, [var(0), var(2), var(3), var(4), var(5)])?;
    block(alloc, [0, 2, 3, 4, 5], ops, exit)
}

fn find_bytes_found(alloc: Global) -> Result<LlBlock, NoMem>
    ensures { IfOk result (λ made. made ≡ spec.find_bytes_found) }
{
    let exit = LlExit::Return(Some(var(5)));
    none(alloc, [5], exit)
}

fn find_bytes_blocks_a(alloc: Global, alike: u64, into: &mut Seq<LlBlock>) -> Result<(), NoMem>
    ensures { OnOk result (into.new ≡ into.old ++ spec.find_bytes_blocks_a alike) }
{
    into.push(find_bytes_start(alloc)?)?;
    into.push(find_bytes_test(alloc)?)?;
    into.push(find_bytes_look(alloc, alike)?)
}

fn find_bytes_blocks_b(alloc: Global, into: &mut Seq<LlBlock>) -> Result<(), NoMem>
    ensures { OnOk result (into.new ≡ into.old ++ spec.find_bytes_blocks_b) }
{
    into.push(find_bytes_next(alloc)?)?;
    into.push(find_bytes_found(alloc)?)?;
    into.push(answer(alloc, word(-1))?)
}

/// The first place from which a text of this length begins with a part of this size, or -1.
pub fn find_bytes(alloc: Global, alike: u64) -> Result<LlGraph, NoMem>
    ensures { IfOk result (λ made. made ≡ spec.find_bytes alike) }
{
    // 0 text, 1 length, 2 part, 3 size, 4 last, 5 at, 6 more
    let mut blocks = Seq::new(alloc);
    find_bytes_blocks_a(alloc, alike, &mut blocks)?;
    find_bytes_blocks_b(alloc, &mut blocks)?;
    let types = types_of(
        alloc,
        [
            LlType::Ptr(0),
            LlType::Signed,
            LlType::Ptr(0),
            LlType::Signed,
            LlType::Signed,
            LlType::Signed,
            LlType::Bool,
        ],
    )?;
    let params = variables(alloc, [0, 1, 2, 3])?;
    graph(alloc, b"find_bytes", params, LlType::Signed, types, blocks)
}

// The first place.
fn less_bytes_start(alloc: Global) -> Result<LlBlock, NoMem>
    ensures { IfOk result (λ made. made ≡ spec.less_bytes_start) }
{
    let exit = go(alloc, 1, [var(0), var(1), var(2), var(3), word(0)])?;
    none(alloc, [0, 1, 2, 3], exit)
}

// Whether the second has a byte there; if not, the first is no less.
fn less_bytes_second(alloc: Global) -> Result<LlBlock, NoMem>
    ensures { IfOk result (λ made. made ≡ spec.less_bytes_second) }
{
    let ops = operations(alloc, [LlOp::Binary(5, CBinary::Lt, var(4), var(3))])?;
    let exit = fork(alloc, 5, 2, [var(0), var(1), var(2), var(3), var(4)], 6, [])?;
    block(alloc, [0, 1, 2, 3, 4], ops, exit)
}

// Whether the first has one; if not, it is less.
fn less_bytes_first(alloc: Global) -> Result<LlBlock, NoMem>
    ensures { IfOk result (λ made. made ≡ spec.less_bytes_first) }
{
    let ops = operations(alloc, [LlOp::Binary(5, CBinary::Lt, var(4), var(1))])?;
    let exit = fork(alloc, 5, 3, [var(0), var(1), var(2), var(3), var(4)], 5, [])?;
    block(alloc, [0, 1, 2, 3, 4], ops, exit)
}

// Goes on where both have the same byte.
fn less_bytes_turn(alloc: Global) -> Result<LlBlock, NoMem>
    ensures { IfOk result (λ made. made ≡ spec.less_bytes_turn) }
{
    let ops = operations(
        alloc,
        [
            LlOp::GetItem(6, 0, 0, var(4)),
            LlOp::GetItem(7, 0, 2, var(4)),
            LlOp::Unary(8, CUnary::C2S, var(6)),
            LlOp::Unary(9, CUnary::C2S, var(7)),
            LlOp::Binary(5, CBinary::Eq, var(8), var(9)),
            LlOp::Binary(4, CBinary::Add, var(4), word(1)),
        ],
    )?;
    let exit = fork(
        alloc,
        5,
        1,
        [var(0), var(1), var(2), var(3), var(4)],
        4,
        [var(8), var(9)],
    )?;
    block(alloc, [0, 1, 2, 3, 4], ops, exit)
}

// By the first bytes that differ.
fn less_bytes_differ(alloc: Global) -> Result<LlBlock, NoMem>
    ensures { IfOk result (λ made. made ≡ spec.less_bytes_differ) }
{
    let ops = operations(alloc, [LlOp::Binary(5, CBinary::Lt, var(8), var(9))])?;
    let exit = LlExit::Return(Some(var(5)));
    block(alloc, [8, 9], ops, exit)
}

fn less_bytes_blocks_a(alloc: Global, into: &mut Seq<LlBlock>) -> Result<(), NoMem>
    ensures { OnOk result (into.new ≡ into.old ++ spec.less_bytes_blocks_a) }
{
    into.push(less_bytes_start(alloc)?)?;
    into.push(less_bytes_second(alloc)?)?;
    into.push(less_bytes_first(alloc)?)?;
    into.push(less_bytes_turn(alloc)?)
}

fn less_bytes_blocks_b(alloc: Global, into: &mut Seq<LlBlock>) -> Result<(), NoMem>
    ensures { OnOk result (into.new ≡ into.old ++ spec.less_bytes_blocks_b) }
{
    into.push(less_bytes_differ(alloc)?)?;
    into.push(answer(alloc, flag(true))?)?;
    into.push(answer(alloc, flag(false))?)
}

/// Whether the first of two strings of these lengths is less.
pub fn less_bytes(alloc: Global) -> Result<LlGraph, NoMem>
    ensures { IfOk result (λ made. made ≡ spec.less_bytes) }
{
    // 0 first, 1 length, 2 second, 3 size, 4 at, 5 more, 6 left, 7 right, 8 low, 9 high
    let mut blocks = Seq::new(alloc);
    less_bytes_blocks_a(alloc, &mut blocks)?;
    less_bytes_blocks_b(alloc, &mut blocks)?;
    let types = types_of(
        alloc,
        [
            LlType::Ptr(0),
            LlType::Signed,
            LlType::Ptr(0),
            LlType::Signed,
            LlType::Signed,
            LlType::Bool,
            LlType::Char,
            LlType::Char,
            LlType::Signed,
            LlType::Signed,
        ],
    )?;
    let params = variables(alloc, [0, 1, 2, 3])?;
    graph(alloc, b"less_bytes", params, LlType::Bool, types, blocks)
}

// None yet.
fn count_digits_start(alloc: Global) -> Result<LlBlock, NoMem>
    ensures { IfOk result (λ made. made ≡ spec.count_digits_start) }
{
    let exit = go(alloc, 1, [var(0), word(0)])?;
    none(alloc, [0], exit)
}

// Whether there is a digit left.
fn count_digits_test(alloc: Global) -> Result<LlBlock, NoMem>
    ensures { IfOk result (λ made. made ≡ spec.count_digits_test) }
{
    let ops = operations(alloc, [LlOp::Binary(2, CBinary::Lt, word(0), var(0))])?;
    let exit = fork(alloc, 2, 2, [var(0), var(1)], 3, [var(1)])?;
    block(alloc, [0, 1], ops, exit)
}

// One digit more.
fn count_digits_turn(alloc: Global) -> Result<LlBlock, NoMem>
    ensures { IfOk result (λ made. made ≡ spec.count_digits_turn) }
{
    let ops = operations(
        alloc,
        [
            LlOp::Binary(0, CBinary::Div, var(0), word(10)),
            LlOp::Binary(1, CBinary::Add, var(1), word(1)),
        ],
    )?;
    let exit = go(alloc, 1, [var(0), var(1)])?;
    block(alloc, [0, 1], ops, exit)
}

fn count_digits_done(alloc: Global) -> Result<LlBlock, NoMem>
    ensures { IfOk result (λ made. made ≡ spec.count_digits_done) }
{
    let exit = LlExit::Return(Some(var(1)));
    none(alloc, [1], exit)
}

fn count_digits_blocks_a(alloc: Global, blocks: &mut Seq<LlBlock>) -> Result<(), NoMem>
    ensures { OnOk result (blocks.new ≡ blocks.old ++ spec.count_digits_blocks_a) }
{
    blocks.push(count_digits_start(alloc)?)?;
    blocks.push(count_digits_test(alloc)?)
}

fn count_digits_blocks_b(alloc: Global, blocks: &mut Seq<LlBlock>) -> Result<(), NoMem>
    ensures { OnOk result (blocks.new ≡ blocks.old ++ spec.count_digits_blocks_b) }
{
    blocks.push(count_digits_turn(alloc)?)?;
    blocks.push(count_digits_done(alloc)?)
}

/// How many digits a word has that is not negative; zero has none.
pub fn count_digits(alloc: Global) -> Result<LlGraph, NoMem>
    ensures { IfOk result (λ made. made ≡ spec.count_digits) }
{
    // 0 number, 1 count, 2 more
    let mut blocks = Seq::new(alloc);
    count_digits_blocks_a(alloc, &mut blocks)?;
    count_digits_blocks_b(alloc, &mut blocks)?;
    let types = types_of(alloc, [LlType::Signed, LlType::Signed, LlType::Bool])?;
    let params = variables(alloc, [0])?;
    graph(
        alloc,
        b"count_digits",
        params,
        LlType::Signed,
        types,
        blocks,
    )
}

// Whether there is a digit left.
fn write_digits_test(alloc: Global) -> Result<LlBlock, NoMem>
    ensures { IfOk result (λ made. made ≡ spec.write_digits_test) }
{
    let ops = operations(alloc, [LlOp::Binary(3, CBinary::Lt, word(0), var(2))])?;
    let exit = fork(alloc, 3, 1, [var(0), var(1), var(2)], 2, [])?;
    block(alloc, [0, 1, 2], ops, exit)
}

// Writes the last one and goes on.
fn write_digits_turn(alloc: Global) -> Result<LlBlock, NoMem>
    ensures { IfOk result (λ made. made ≡ spec.write_digits_turn) }
{
    let ops = operations(
        alloc,
        [
            LlOp::Binary(4, CBinary::Mod, var(2), word(10)),
            LlOp::Binary(4, CBinary::Add, var(4), word(48)),
            LlOp::Unary(5, CUnary::S2C, var(4)),
            LlOp::Binary(1, CBinary::Sub, var(1), word(1)),
            LlOp::SetItem(0, 0, var(1), var(5)),
            LlOp::Binary(2, CBinary::Div, var(2), word(10)),
        ],
    )?;
    let exit = go(alloc, 0, [var(0), var(1), var(2)])?;
    block(alloc, [0, 1, 2], ops, exit)
}

fn write_digits_blocks(alloc: Global, blocks: &mut Seq<LlBlock>) -> Result<(), NoMem>
    ensures { OnOk result (blocks.new ≡ blocks.old ++ spec.write_digits_blocks) }
{
    blocks.push(write_digits_test(alloc)?)?;
    blocks.push(write_digits_turn(alloc)?)?;
    blocks.push(done(alloc)?)
}

/// Writes the digits of a word that is not negative into a string, so that they end before a place; of zero none.
pub fn write_digits(alloc: Global) -> Result<LlGraph, NoMem>
    ensures { IfOk result (λ made. made ≡ spec.write_digits) }
{
    // 0 text, 1 end, 2 number, 3 more, 4 digit, 5 char
    let mut blocks = Seq::new(alloc);
    write_digits_blocks(alloc, &mut blocks)?;
    let types = types_of(
        alloc,
        [
            LlType::Ptr(0),
            LlType::Signed,
            LlType::Signed,
            LlType::Bool,
            LlType::Signed,
            LlType::Char,
        ],
    )?;
    let params = variables(alloc, [0, 1, 2])?;
    graph(alloc, b"write_digits", params, LlType::Void, types, blocks)
}

// The length, and the first place.
fn skip_forwards_start(alloc: Global) -> Result<LlBlock, NoMem>
    ensures { IfOk result (λ made. made ≡ spec.skip_forwards_start) }
{
    let ops = operations(alloc, [LlOp::GetField(1, 0, 0, 0)])?;
    let exit = go(alloc, 1, [var(0), var(1), word(0)])?;
    block(alloc, [0], ops, exit)
}

// Whether there is a byte at the place.
fn skip_forwards_test(alloc: Global) -> Result<LlBlock, NoMem>
    ensures { IfOk result (λ made. made ≡ spec.skip_forwards_test) }
{
    let ops = operations(alloc, [LlOp::Binary(3, CBinary::Lt, var(2), var(1))])?;
    let exit = fork(alloc, 3, 2, [var(0), var(1), var(2)], 4, [var(2)])?;
    block(alloc, [0, 1, 2], ops, exit)
}

// Whether it is blank.
fn skip_forwards_look(alloc: Global, space: u64) -> Result<LlBlock, NoMem>
    ensures { IfOk result (λ made. made ≡ spec.skip_forwards_look space) }
{
    let ops = operations(
        alloc,
        [
            LlOp::GetItem(4, 0, 0, var(2)),
            call_of(alloc, Some(3), space, [var(4)])?,
        ],
    )?;
    let exit = fork(alloc, 3, 3, [var(0), var(1), var(2)], 4, [var(2)])?;
    block(alloc, [0, 1, 2], ops, exit)
}

// The next place.
fn skip_forwards_next(alloc: Global) -> Result<LlBlock, NoMem>
    ensures { IfOk result (λ made. made ≡ spec.skip_forwards_next) }
{
    let ops = operations(alloc, [LlOp::Binary(2, CBinary::Add, var(2), word(1))])?;
    let exit = go(alloc, 1, [var(0), var(1), var(2)])?;
    block(alloc, [0, 1, 2], ops, exit)
}

fn skip_forwards_done(alloc: Global) -> Result<LlBlock, NoMem>
    ensures { IfOk result (λ made. made ≡ spec.skip_forwards_done) }
{
    let exit = LlExit::Return(Some(var(2)));
    none(alloc, [2], exit)
}

fn skip_forwards_blocks_a(alloc: Global, space: u64, blocks: &mut Seq<LlBlock>) -> Result<(), NoMem>
    ensures { OnOk result (blocks.new ≡ blocks.old ++ spec.skip_forwards_blocks_a space) }
{
    blocks.push(skip_forwards_start(alloc)?)?;
    blocks.push(skip_forwards_test(alloc)?)?;
    blocks.push(skip_forwards_look(alloc, space)?)
}

fn skip_forwards_blocks_b(alloc: Global, blocks: &mut Seq<LlBlock>) -> Result<(), NoMem>
    ensures { OnOk result (blocks.new ≡ blocks.old ++ spec.skip_forwards_blocks_b) }
{
    blocks.push(skip_forwards_next(alloc)?)?;
    blocks.push(skip_forwards_done(alloc)?)
}

/// The first place of a string that has no blank, or its length.
pub fn skip_forwards(alloc: Global, space: u64) -> Result<LlGraph, NoMem>
    ensures { IfOk result (λ made. made ≡ spec.skip_forwards space) }
{
    // 0 text, 1 length, 2 at, 3 more, 4 char
    let mut blocks = Seq::new(alloc);
    skip_forwards_blocks_a(alloc, space, &mut blocks)?;
    skip_forwards_blocks_b(alloc, &mut blocks)?;
    let types = types_of(
        alloc,
        [
            LlType::Ptr(0),
            LlType::Signed,
            LlType::Signed,
            LlType::Bool,
            LlType::Char,
        ],
    )?;
    let params = variables(alloc, [0])?;
    graph(
        alloc,
        b"skip_forwards",
        params,
        LlType::Signed,
        types,
        blocks,
    )
}

// The length.
fn skip_backwards_start(alloc: Global) -> Result<LlBlock, NoMem>
    ensures { IfOk result (λ made. made ≡ spec.skip_backwards_start) }
{
    let ops = operations(alloc, [LlOp::GetField(2, 0, 0, 0)])?;
    let exit = go(alloc, 1, [var(0), var(1), var(2)])?;
    block(alloc, [0, 1], ops, exit)
}

// Whether there is a byte before the place.
fn skip_backwards_test(alloc: Global) -> Result<LlBlock, NoMem>
    ensures { IfOk result (λ made. made ≡ spec.skip_backwards_test) }
{
    let ops = operations(alloc, [LlOp::Binary(4, CBinary::Lt, var(1), var(2))])?;
    let exit = fork(alloc, 4, 2, [var(0), var(1), var(2)], 3, [var(2)])?;
    block(alloc, [0, 1, 2], ops, exit)
}

// Whether it is blank.
fn skip_backwards_look(alloc: Global, space: u64) -> Result<LlBlock, NoMem>
    ensures { IfOk result (λ made. made ≡ spec.skip_backwards_look space) }
{
    let ops = operations(
        alloc,
        [
            LlOp::Binary(3, CBinary::Sub, var(2), word(1)),
            LlOp::GetItem(5, 0, 0, var(3)),
            call_of(alloc, Some(4), space, [var(5)])?,
        ],
    )?;
    let exit = fork(alloc, 4, 1, [var(0), var(1), var(3)], 3, [var(2)])?;
    block(alloc, [0, 1, 2], ops, exit)
}

fn skip_backwards_done(alloc: Global) -> Result<LlBlock, NoMem>
    ensures { IfOk result (λ made. made ≡ spec.skip_backwards_done) }
{
    let exit = LlExit::Return(Some(var(2)));
    none(alloc, [2], exit)
}

fn skip_backwards_blocks_a(alloc: Global, blocks: &mut Seq<LlBlock>) -> Result<(), NoMem>
    ensures { OnOk result (blocks.new ≡ blocks.old ++ spec.skip_backwards_blocks_a) }
{
    blocks.push(skip_backwards_start(alloc)?)?;
    blocks.push(skip_backwards_test(alloc)?)
}

fn skip_backwards_blocks_b(
    alloc: Global,
    space: u64,
    blocks: &mut Seq<LlBlock>,
) -> Result<(), NoMem>
    ensures { OnOk result (blocks.new ≡ blocks.old ++ spec.skip_backwards_blocks_b space) }
{
    blocks.push(skip_backwards_look(alloc, space)?)?;
    blocks.push(skip_backwards_done(alloc)?)
}

/// The place behind the last byte that is no blank, but none before this one.
pub fn skip_backwards(alloc: Global, space: u64) -> Result<LlGraph, NoMem>
    ensures { IfOk result (λ made. made ≡ spec.skip_backwards space) }
{
    // 0 text, 1 from, 2 end, 3 place, 4 more, 5 char
    let mut blocks = Seq::new(alloc);
    skip_backwards_blocks_a(alloc, &mut blocks)?;
    skip_backwards_blocks_b(alloc, space, &mut blocks)?;
    let types = types_of(
        alloc,
        [
            LlType::Ptr(0),
            LlType::Signed,
            LlType::Signed,
            LlType::Signed,
            LlType::Bool,
            LlType::Char,
        ],
    )?;
    let params = variables(alloc, [0, 1])?;
    graph(
        alloc,
        b"skip_backwards",
        params,
        LlType::Signed,
        types,
        blocks,
    )
}
