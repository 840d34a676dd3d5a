// Strings that are made of others, of words and of truth values.
ghost use Rattle.std.specs.Prelude.{◌≡◌, ◌++◌, IfOk, OnOk};
ghost use Rattle.ll_helpers.specs.StringsMake as spec;

use csub_tree::{CBinary, CUnary};
use ll_build::build::{
    answer, ask, block, blocks_of, byte, call_of, fails, fork, graph, none, operations,
    static_table, static_text, types_of, var, variables, word,
};
use ll_code::{LlBlock, LlExit, LlGraph, LlOp, LlType};
use rpy_base::{NoMem, Seq};
use std::alloc::Global;

// Pays, and asks whether the string is one that is never made.
fn string_part_pays(alloc: Global) -> Result<LlBlock, NoMem>
    ensures { IfOk result (λ made. made ≡ spec.string_part_pays) }
{
    let ops = operations(
        alloc,
        [
            LlOp::Step(word(1)),
            LlOp::Step(var(2)),
            LlOp::Binary(3, CBinary::Lt, var(2), word(2)),
        ],
    )?;
    let exit = fork(
        alloc,
        3,
        1,
        [var(0), var(1), var(2)],
        4,
        [var(0), var(1), var(2)],
    )?;
    block(alloc, [0, 1, 2], ops, exit)
}

// No byte or one.
fn string_part_short(alloc: Global) -> Result<LlBlock, NoMem>
    ensures { IfOk result (λ made. made ≡ spec.string_part_short) }
{
    let ops = operations(alloc, [LlOp::Binary(3, CBinary::Lt, var(2), word(1))])?;
    let exit = fork(alloc, 3, 2, [], 3, [var(0), var(1)])?;
    block(alloc, [0, 1, 2], ops, exit)
}

// The string of one byte.
fn string_part_single(alloc: Global, table: u64) -> Result<LlBlock, NoMem>
    ensures { IfOk result (λ made. made ≡ spec.string_part_single table) }
{
    let ops = operations(
        alloc,
        [
            LlOp::GetItem(4, 0, 0, var(1)),
            LlOp::Unary(5, CUnary::C2S, var(4)),
            LlOp::Set(6, static_table(table)),
            LlOp::GetItem(7, table, 6, var(5)),
        ],
    )?;
    let exit = LlExit::Return(Some(var(7)));
    block(alloc, [0, 1], ops, exit)
}

// A new string.
fn string_part_makes(alloc: Global, copy: u64) -> Result<LlBlock, NoMem>
    ensures { IfOk result (λ made. made ≡ spec.string_part_makes copy) }
{
    let ops = operations(
        alloc,
        [
            LlOp::NewArray(7, 0, 0, var(2)),
            LlOp::SetField(0, 7, 0, var(2)),
            call_of(alloc, None, copy, [var(0), var(1), var(7), word(0), var(2)])?,
        ],
    )?;
    let exit = LlExit::Return(Some(var(7)));
    block(alloc, [0, 1, 2], ops, exit)
}

fn string_part_blocks_a(alloc: Global, blocks: &mut Seq<LlBlock>) -> Result<(), NoMem>
    ensures { OnOk result (blocks.new ≡ blocks.old ++ spec.string_part_blocks_a) }
{
    blocks.push(string_part_pays(alloc)?)?;
    blocks.push(string_part_short(alloc)?)?;
    blocks.push(answer(alloc, static_text(0))?)
}

fn string_part_blocks_b(
    alloc: Global,
    table: u64,
    copy: u64,
    blocks: &mut Seq<LlBlock>,
) -> Result<(), NoMem>
    ensures { OnOk result (blocks.new ≡ blocks.old ++ spec.string_part_blocks_b table copy) }
{
    blocks.push(string_part_single(alloc, table)?)?;
    blocks.push(string_part_makes(alloc, copy)?)
}

/// The string of a part of a string, from a place on, of so many bytes, which are paid for with one step more.
pub fn string_part(alloc: Global, table: u64, copy: u64) -> Result<LlGraph, NoMem>
    ensures { IfOk result (λ made. made ≡ spec.string_part table copy) }
{
    // 0 text, 1 at, 2 count, 3 few, 4 char, 5 byte, 6 table, 7 made
    let mut blocks = Seq::new(alloc);
    string_part_blocks_a(alloc, &mut blocks)?;
    string_part_blocks_b(alloc, table, copy, &mut blocks)?;
    let types = types_of(
        alloc,
        [
            LlType::Ptr(0),
            LlType::Signed,
            LlType::Signed,
            LlType::Bool,
            LlType::Char,
            LlType::Signed,
            LlType::Ptr(table),
            LlType::Ptr(0),
        ],
    )?;
    let params = variables(alloc, [0, 1, 2])?;
    graph(alloc, b"string_part", params, LlType::Ptr(0), types, blocks)
}

// From the table.
fn str_of_char_whole(alloc: Global, table: u64) -> Result<LlBlock, NoMem>
    ensures { IfOk result (λ made. made ≡ spec.str_of_char_whole table) }
{
    let ops = operations(
        alloc,
        [
            LlOp::Unary(1, CUnary::C2S, var(0)),
            LlOp::Set(2, static_table(table)),
            LlOp::GetItem(3, table, 2, var(1)),
        ],
    )?;
    let exit = LlExit::Return(Some(var(3)));
    block(alloc, [0], ops, exit)
}

/// The string of a byte.
pub fn str_of_char(alloc: Global, table: u64) -> Result<LlGraph, NoMem>
    ensures { IfOk result (λ made. made ≡ spec.str_of_char table) }
{
    // 0 char, 1 byte, 2 table, 3 made
    let blocks = blocks_of(alloc, [str_of_char_whole(alloc, table)?])?;
    let types = types_of(
        alloc,
        [
            LlType::Char,
            LlType::Signed,
            LlType::Ptr(table),
            LlType::Ptr(0),
        ],
    )?;
    let params = variables(alloc, [0])?;
    graph(alloc, b"str_of_char", params, LlType::Ptr(0), types, blocks)
}

// Whether the word is negative.
fn str_of_word_sign(alloc: Global) -> Result<LlBlock, NoMem>
    ensures { IfOk result (λ made. made ≡ spec.str_of_word_sign) }
{
    let ops = operations(alloc, [LlOp::Binary(1, CBinary::Lt, var(0), word(0))])?;
    let exit = fork(alloc, 1, 1, [var(0)], 2, [var(0)])?;
    block(alloc, [0], ops, exit)
}

// The sign, the digits before the last, and the last.
fn str_of_word_negative(alloc: Global, digits: u64, write: u64) -> Result<LlBlock, NoMem>
    ensures { IfOk result (λ made. made ≡ spec.str_of_word_negative digits write) }
{
    let ops = operations(
        alloc,
        [
            LlOp::Binary(2, CBinary::Div, var(0), word(-10)),
            call_of(alloc, Some(3), digits, [var(2)])?,
            LlOp::Binary(10, CBinary::Add, var(3), word(1)),
            LlOp::Binary(4, CBinary::Add, var(3), word(2)),
            LlOp::Binary(5, CBinary::Add, var(3), word(3)),
            LlOp::Step(var(5)),
            LlOp::NewArray(7, 0, 0, var(4)),
            LlOp::SetField(0, 7, 0, var(4)),
            LlOp::SetItem(0, 7, word(0), byte(45)),
            LlOp::Binary(8, CBinary::Mod, var(0), word(-10)),
            LlOp::Binary(8, CBinary::Sub, word(48), var(8)),
            LlOp::Unary(9, CUnary::S2C, var(8)),
            LlOp::SetItem(0, 7, var(10), var(9)),
            call_of(alloc, None, write, [var(7), var(10), var(2)])?,
        ],
    )?;
    let exit = LlExit::Return(Some(var(7)));
    block(alloc, [0], ops, exit)
}

// How many digits there are, which are paid for.
fn str_of_word_positive(alloc: Global, digits: u64) -> Result<LlBlock, NoMem>
    ensures { IfOk result (λ made. made ≡ spec.str_of_word_positive digits) }
{
    let ops = operations(
        alloc,
        [
            LlOp::Binary(2, CBinary::Div, var(0), word(10)),
            call_of(alloc, Some(3), digits, [var(2)])?,
            LlOp::Binary(4, CBinary::Add, var(3), word(1)),
            LlOp::Binary(5, CBinary::Add, var(3), word(2)),
            LlOp::Step(var(5)),
            LlOp::Binary(1, CBinary::Lt, var(4), word(2)),
        ],
    )?;
    let exit = fork(alloc, 1, 3, [var(0)], 4, [var(0), var(4)])?;
    block(alloc, [0], ops, exit)
}

// One digit, from the table.
fn str_of_word_single(alloc: Global, table: u64) -> Result<LlBlock, NoMem>
    ensures { IfOk result (λ made. made ≡ spec.str_of_word_single table) }
{
    let ops = operations(
        alloc,
        [
            LlOp::Binary(8, CBinary::Add, var(0), word(48)),
            LlOp::Set(6, static_table(table)),
            LlOp::GetItem(7, table, 6, var(8)),
        ],
    )?;
    let exit = LlExit::Return(Some(var(7)));
    block(alloc, [0], ops, exit)
}

// All digits.
fn str_of_word_makes(alloc: Global, write: u64) -> Result<LlBlock, NoMem>
    ensures { IfOk result (λ made. made ≡ spec.str_of_word_makes write) }
{
    let ops = operations(
        alloc,
        [
            LlOp::NewArray(7, 0, 0, var(4)),
            LlOp::SetField(0, 7, 0, var(4)),
            call_of(alloc, None, write, [var(7), var(4), var(0)])?,
        ],
    )?;
    let exit = LlExit::Return(Some(var(7)));
    block(alloc, [0, 4], ops, exit)
}

fn str_of_word_blocks_a(
    alloc: Global,
    digits: u64,
    write: u64,
    blocks: &mut Seq<LlBlock>,
) -> Result<(), NoMem>
    ensures { OnOk result (blocks.new ≡ blocks.old ++ spec.str_of_word_blocks_a digits write) }
{
    blocks.push(str_of_word_sign(alloc)?)?;
    blocks.push(str_of_word_negative(alloc, digits, write)?)
}

fn str_of_word_blocks_b(
    alloc: Global,
    table: u64,
    digits: u64,
    blocks: &mut Seq<LlBlock>,
) -> Result<(), NoMem>
    ensures { OnOk result (blocks.new ≡ blocks.old ++ spec.str_of_word_blocks_b table digits) }
{
    blocks.push(str_of_word_positive(alloc, digits)?)?;
    blocks.push(str_of_word_single(alloc, table)?)
}

fn str_of_word_blocks_c(alloc: Global, write: u64, blocks: &mut Seq<LlBlock>) -> Result<(), NoMem>
    ensures { OnOk result (blocks.new ≡ blocks.old ++ spec.str_of_word_blocks_c write) }
{
    blocks.push(str_of_word_makes(alloc, write)?)
}

/// The decimal of a word. The divisor of a negative one is negative, so that the smallest has a quotient.
pub fn str_of_word(alloc: Global, table: u64, digits: u64, write: u64) -> Result<LlGraph, NoMem>
    ensures { IfOk result (λ made. made ≡ spec.str_of_word table digits write) }
{
    // 0 number, 1 test, 2 rest, 3 digits, 4 length, 5 cost, 6 table, 7 made, 8 digit, 9 char, 10 place
    let mut blocks = Seq::new(alloc);
    str_of_word_blocks_a(alloc, digits, write, &mut blocks)?;
    str_of_word_blocks_b(alloc, table, digits, &mut blocks)?;
    str_of_word_blocks_c(alloc, write, &mut blocks)?;
    let types = types_of(
        alloc,
        [
            LlType::Signed,
            LlType::Bool,
            LlType::Signed,
            LlType::Signed,
            LlType::Signed,
            LlType::Signed,
            LlType::Ptr(table),
            LlType::Ptr(0),
            LlType::Signed,
            LlType::Char,
            LlType::Signed,
        ],
    )?;
    let params = variables(alloc, [0])?;
    graph(alloc, b"str_of_word", params, LlType::Ptr(0), types, blocks)
}

fn str_of_bool_test(alloc: Global) -> Result<LlBlock, NoMem>
    ensures { IfOk result (λ made. made ≡ spec.str_of_bool_test) }
{
    let exit = fork(alloc, 0, 1, [], 2, [])?;
    none(alloc, [0], exit)
}

fn str_of_bool_blocks(alloc: Global, blocks: &mut Seq<LlBlock>) -> Result<(), NoMem>
    ensures { OnOk result (blocks.new ≡ blocks.old ++ spec.str_of_bool_blocks) }
{
    blocks.push(str_of_bool_test(alloc)?)?;
    blocks.push(answer(alloc, static_text(258))?)?;
    blocks.push(answer(alloc, static_text(259))?)
}

/// `True` or `False`.
pub fn str_of_bool(alloc: Global) -> Result<LlGraph, NoMem>
    ensures { IfOk result (λ made. made ≡ spec.str_of_bool) }
{
    // 0 value
    let mut blocks = Seq::new(alloc);
    str_of_bool_blocks(alloc, &mut blocks)?;
    let types = types_of(alloc, [LlType::Bool])?;
    let params = variables(alloc, [0])?;
    graph(alloc, b"str_of_bool", params, LlType::Ptr(0), types, blocks)
}

fn str_add_ask_first(alloc: Global) -> Result<LlBlock, NoMem>
    ensures { IfOk result (λ made. made ≡ spec.str_add_ask_first) }
{
    ask(alloc, [0, 1], [var(0), var(1)], 0, 2, 2, 1)
}

fn str_add_next(alloc: Global) -> Result<LlBlock, NoMem>
    ensures { IfOk result (λ made. made ≡ spec.str_add_next) }
{
    ask(alloc, [0, 1], [var(0), var(1)], 1, 2, 2, 3)
}

// The lengths. Where the first is empty, the bytes are those of the second.
fn str_add_lengths(alloc: Global) -> Result<LlBlock, NoMem>
    ensures { IfOk result (λ made. made ≡ spec.str_add_lengths) }
{
    let ops = operations(
        alloc,
        [
            LlOp::GetField(3, 0, 0, 0),
            LlOp::GetField(4, 0, 1, 0),
            LlOp::Binary(2, CBinary::Lt, var(3), word(1)),
        ],
    )?;
    let exit = fork(
        alloc,
        2,
        4,
        [var(1), var(4)],
        5,
        [var(0), var(3), var(1), var(4)],
    )?;
    block(alloc, [0, 1], ops, exit)
}

fn str_add_second(alloc: Global, part: u64) -> Result<LlBlock, NoMem>
    ensures { IfOk result (λ made. made ≡ spec.str_add_second part) }
{
    let ops = operations(
        alloc,
        [call_of(alloc, Some(6), part, [var(1), word(0), var(4)])?],
    )?;
    let exit = LlExit::Return(Some(var(6)));
    block(alloc, [1, 4], ops, exit)
}

// Where the second is empty, they are those of the first.
fn str_add_sizes(alloc: Global) -> Result<LlBlock, NoMem>
    ensures { IfOk result (λ made. made ≡ spec.str_add_sizes) }
{
    let ops = operations(alloc, [LlOp::Binary(2, CBinary::Lt, var(4), word(1))])?;
    let exit = fork(
        alloc,
        2,
        6,
        [var(0), var(3)],
        7,
        [var(0), var(3), var(1), var(4)],
    )?;
    block(alloc, [0, 3, 1, 4], ops, exit)
}

fn str_add_first(alloc: Global, part: u64) -> Result<LlBlock, NoMem>
    ensures { IfOk result (λ made. made ≡ spec.str_add_first part) }
{
    let ops = operations(
        alloc,
        [call_of(alloc, Some(6), part, [var(0), word(0), var(3)])?],
    )?;
    let exit = LlExit::Return(Some(var(6)));
    block(alloc, [0, 3], ops, exit)
}

// A new string, which is paid for in parts, since the whole cost may be no word.
fn str_add_makes(alloc: Global, copy: u64) -> Result<LlBlock, NoMem>
    ensures { IfOk result (λ made. made ≡ spec.str_add_makes copy) }
{
    let ops = operations(
        alloc,
        [
            LlOp::Step(word(1)),
            LlOp::Step(var(3)),
            LlOp::Step(var(4)),
            LlOp::Binary(5, CBinary::Add, var(3), var(4)),
            LlOp::NewArray(6, 0, 0, var(5)),
            LlOp::SetField(0, 6, 0, var(5)),
            call_of(
                alloc,
                None,
                copy,
                [var(0), word(0), var(6), word(0), var(3)],
            )?,
            call_of(alloc, None, copy, [var(1), word(0), var(6), var(3), var(4)])?,
        ],
    )?;
    let exit = LlExit::Return(Some(var(6)));
    block(alloc, [0, 3, 1, 4], ops, exit)
}

fn str_add_blocks_a(alloc: Global, into: &mut Seq<LlBlock>) -> Result<(), NoMem>
    ensures { OnOk result (into.new ≡ into.old ++ spec.str_add_blocks_a) }
{
    into.push(str_add_ask_first(alloc)?)?;
    into.push(str_add_next(alloc)?)?;
    into.push(fails(alloc, 4)?)
}

fn str_add_blocks_b(alloc: Global, part: u64, into: &mut Seq<LlBlock>) -> Result<(), NoMem>
    ensures { OnOk result (into.new ≡ into.old ++ spec.str_add_blocks_b part) }
{
    into.push(str_add_lengths(alloc)?)?;
    into.push(str_add_second(alloc, part)?)?;
    into.push(str_add_sizes(alloc)?)
}

fn str_add_blocks_c(
    alloc: Global,
    copy: u64,
    part: u64,
    into: &mut Seq<LlBlock>,
) -> Result<(), NoMem>
    ensures { OnOk result (into.new ≡ into.old ++ spec.str_add_blocks_c copy part) }
{
    into.push(str_add_first(alloc, part)?)?;
    into.push(str_add_makes(alloc, copy)?)
}

/// Two strings, one behind the other.
pub fn str_add(alloc: Global, copy: u64, part: u64) -> Result<LlGraph, NoMem>
    ensures { IfOk result (λ made. made ≡ spec.str_add copy part) }
{
    // 0 first, 1 second, 2 test, 3 length, 4 size, 5 whole, 6 made
    let mut blocks = Seq::new(alloc);
    str_add_blocks_a(alloc, &mut blocks)?;
    str_add_blocks_b(alloc, part, &mut blocks)?;
    str_add_blocks_c(alloc, copy, part, &mut blocks)?;
    let types = types_of(
        alloc,
        [
            LlType::Ptr(0),
            LlType::Ptr(0),
            LlType::Bool,
            LlType::Signed,
            LlType::Signed,
            LlType::Signed,
            LlType::Ptr(0),
        ],
    )?;
    let params = variables(alloc, [0, 1])?;
    graph(alloc, b"str_add", params, LlType::Ptr(0), types, blocks)
}

fn str_mul_ask_text(alloc: Global) -> Result<LlBlock, NoMem>
    ensures { IfOk result (λ made. made ≡ spec.str_mul_ask_text) }
{
    ask(alloc, [0, 1], [var(0), var(1)], 0, 2, 1, 2)
}

// Whether it stands at least once.
fn str_mul_sizes(alloc: Global) -> Result<LlBlock, NoMem>
    ensures { IfOk result (λ made. made ≡ spec.str_mul_sizes) }
{
    let ops = operations(
        alloc,
        [
            LlOp::GetField(3, 0, 0, 0),
            LlOp::Binary(2, CBinary::Lt, var(1), word(1)),
        ],
    )?;
    let exit = fork(alloc, 2, 3, [var(0)], 4, [var(0), var(1), var(3)])?;
    block(alloc, [0, 1], ops, exit)
}

// No byte.
fn str_mul_empty(alloc: Global, part: u64) -> Result<LlBlock, NoMem>
    ensures { IfOk result (λ made. made ≡ spec.str_mul_empty part) }
{
    let ops = operations(
        alloc,
        [call_of(alloc, Some(5), part, [var(0), word(0), word(0)])?],
    )?;
    let exit = LlExit::Return(Some(var(5)));
    block(alloc, [0], ops, exit)
}

// Whether the length is a word.
fn str_mul_lengths(alloc: Global) -> Result<LlBlock, NoMem>
    ensures { IfOk result (λ made. made ≡ spec.str_mul_lengths) }
{
    let ops = operations(alloc, [LlOp::Binary(2, CBinary::MulOvf, var(3), var(1))])?;
    let exit = fork(alloc, 2, 5, [], 6, [var(0), var(1), var(3)])?;
    block(alloc, [0, 1, 3], ops, exit)
}

// A cost for which no steps suffice.
fn str_mul_never(alloc: Global) -> Result<LlBlock, NoMem>
    ensures { IfOk result (λ made. made ≡ spec.str_mul_never) }
{
    let ops = operations(alloc, [LlOp::Step(word(4611686018427387904))])?;
    let exit = LlExit::Return(Some(static_text(0)));
    block(alloc, [], ops, exit)
}

// Whether there is more than a byte.
fn str_mul_pays(alloc: Global) -> Result<LlBlock, NoMem>
    ensures { IfOk result (λ made. made ≡ spec.str_mul_pays) }
{
    let ops = operations(
        alloc,
        [
            LlOp::Binary(4, CBinary::Mul, var(3), var(1)),
            LlOp::Binary(2, CBinary::Lt, var(4), word(2)),
        ],
    )?;
    let exit = fork(alloc, 2, 7, [var(0), var(4)], 8, [var(0), var(3), var(4)])?;
    block(alloc, [0, 1, 3], ops, exit)
}

// No byte or one.
fn str_mul_short(alloc: Global, part: u64) -> Result<LlBlock, NoMem>
    ensures { IfOk result (λ made. made ≡ spec.str_mul_short part) }
{
    let ops = operations(
        alloc,
        [call_of(alloc, Some(5), part, [var(0), word(0), var(4)])?],
    )?;
    let exit = LlExit::Return(Some(var(5)));
    block(alloc, [0, 4], ops, exit)
}

// A new string.
fn str_mul_makes(alloc: Global, repeat: u64) -> Result<LlBlock, NoMem>
    ensures { IfOk result (λ made. made ≡ spec.str_mul_makes repeat) }
{
    let ops = operations(
        alloc,
        [
            LlOp::Step(word(1)),
            LlOp::Step(var(4)),
            LlOp::NewArray(5, 0, 0, var(4)),
            LlOp::SetField(0, 5, 0, var(4)),
            call_of(alloc, None, repeat, [var(0), var(5), var(3), var(4)])?,
        ],
    )?;
    let exit = LlExit::Return(Some(var(5)));
    block(alloc, [0, 3, 4], ops, exit)
}

fn str_mul_blocks_a(alloc: Global, into: &mut Seq<LlBlock>) -> Result<(), NoMem>
    ensures { OnOk result (into.new ≡ into.old ++ spec.str_mul_blocks_a) }
{
    into.push(str_mul_ask_text(alloc)?)?;
    into.push(fails(alloc, 4)?)?;
    into.push(str_mul_sizes(alloc)?)
}

fn str_mul_blocks_b(alloc: Global, part: u64, into: &mut Seq<LlBlock>) -> Result<(), NoMem>
    ensures { OnOk result (into.new ≡ into.old ++ spec.str_mul_blocks_b part) }
{
    into.push(str_mul_empty(alloc, part)?)?;
    into.push(str_mul_lengths(alloc)?)?;
    into.push(str_mul_never(alloc)?)
}

fn str_mul_blocks_c(
    alloc: Global,
    part: u64,
    repeat: u64,
    into: &mut Seq<LlBlock>,
) -> Result<(), NoMem>
    ensures { OnOk result (into.new ≡ into.old ++ spec.str_mul_blocks_c part repeat) }
{
    into.push(str_mul_pays(alloc)?)?;
    into.push(str_mul_short(alloc, part)?)?;
    into.push(str_mul_makes(alloc, repeat)?)
}

/// A string so many times; below zero counts as none.
pub fn str_mul(alloc: Global, part: u64, repeat: u64) -> Result<LlGraph, NoMem>
    ensures { IfOk result (λ made. made ≡ spec.str_mul part repeat) }
{
    // 0 text, 1 times, 2 test, 3 size, 4 length, 5 made
    let mut blocks = Seq::new(alloc);
    str_mul_blocks_a(alloc, &mut blocks)?;
    str_mul_blocks_b(alloc, part, &mut blocks)?;
    str_mul_blocks_c(alloc, part, repeat, &mut blocks)?;
    let types = types_of(
        alloc,
        [
            LlType::Ptr(0),
            LlType::Signed,
            LlType::Bool,
            LlType::Signed,
            LlType::Signed,
            LlType::Ptr(0),
        ],
    )?;
    let params = variables(alloc, [0, 1])?;
    graph(alloc, b"str_mul", params, LlType::Ptr(0), types, blocks)
}
