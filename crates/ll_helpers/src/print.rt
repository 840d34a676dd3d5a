// Printing.
ghost use Rattle.std.specs.Prelude.{◌≡◌, IfOk};
ghost use Rattle.ll_helpers.specs.Print as spec;

use csub_tree::{CBinary, COperand};
use ll_build::build::{
    binary, block, call, fork, graph, link, none, one, put, three, two, types_of, variables, word,
};
use ll_code::{LlBlock, LlExit, LlGraph, LlOp, LlType};
use rpy_base::{NoMem, Seq};
use std::alloc::Global;

const N: COperand = COperand::Var(0);

const SHORTER: COperand = COperand::Var(2);

const DIGIT: COperand = COperand::Var(3);

// A block that tests the word against a bound.
fn test(alloc: Global, bound: i64, there: u64, elsewhere: u64) -> Result<LlBlock, NoMem>
    ensures { IfOk result (λ made. made ≡ spec.test bound there elsewhere) }
{
    let exit = fork(alloc, 1, there, [N], elsewhere, [N])?;
    let ops = one(alloc, binary(1, CBinary::Lt, 0, bound))?;
    block(alloc, [0], ops, exit)
}

// A block that puts the last digit.
fn last_digit(
    alloc: Global,
    by: i64,
    op: CBinary,
    x: COperand,
    y: COperand,
) -> Result<LlBlock, NoMem>
    ensures { IfOk result (λ made. made ≡ spec.last_digit by op x y) }
{
    let rest = binary(2, CBinary::Mod, 0, by);
    let ops = three(alloc, rest, LlOp::Binary(3, op, x, y), put(DIGIT))?;
    block(alloc, [0], ops, LlExit::Return(None))
}

// A graph of one parameter without a result.
fn printer(
    alloc: Global,
    name: &[u8],
    types: Seq<LlType>,
    blocks: Seq<LlBlock>,
) -> Result<LlGraph, NoMem>
    ensures { IfOk result (λ made. made ≡ spec.printer name.now types blocks) }
{
    let params = variables(alloc, [0])?;
    graph(alloc, name, params, LlType::Void, types, blocks)
}

fn word_types(alloc: Global) -> Result<Seq<LlType>, NoMem>
    ensures { IfOk result (λ made. made ≡ spec.word_types) }
{
    types_of(
        alloc,
        [LlType::Signed, LlType::Bool, LlType::Signed, LlType::Signed],
    )
}

// The digits before the last.
fn before_last(alloc: Global, number: u64) -> Result<LlBlock, NoMem>
    ensures { IfOk result (λ made. made ≡ spec.before_last number) }
{
    let exit = LlExit::Goto(link(alloc, 2, [N])?);
    let again = call(alloc, number, 2)?;
    let ops = two(alloc, binary(2, CBinary::Div, 0, 10), again)?;
    block(alloc, [0], ops, exit)
}

/// The digits of a word that is not negative. The graph has this number.
pub fn print_digits(alloc: Global, number: u64) -> Result<LlGraph, NoMem>
    ensures { IfOk result (λ made. made ≡ spec.print_digits number) }
{
    let mut blocks = Seq::new(alloc);
    blocks.push(test(alloc, 10, 2, 1)?)?;
    blocks.push(before_last(alloc, number)?)?;
    blocks.push(last_digit(alloc, 10, CBinary::Add, SHORTER, word(48))?)?;
    printer(alloc, b"print_digits", word_types(alloc)?, blocks)
}

// The sign, and whether there are digits before the last.
fn sign(alloc: Global) -> Result<LlBlock, NoMem>
    ensures { IfOk result (λ made. made ≡ spec.sign) }
{
    let exit = fork(alloc, 1, 3, [N], 2, [N, SHORTER])?;
    let shorter = binary(2, CBinary::Div, 0, -10);
    let ops = three(alloc, put(word(45)), shorter, binary(1, CBinary::Eq, 2, 0))?;
    block(alloc, [0], ops, exit)
}

fn digits_before(alloc: Global, digits: u64) -> Result<LlBlock, NoMem>
    ensures { IfOk result (λ made. made ≡ spec.digits_before digits) }
{
    let exit = LlExit::Goto(link(alloc, 3, [N])?);
    let ops = one(alloc, call(alloc, digits, 2)?)?;
    block(alloc, [0, 2], ops, exit)
}

fn all_digits(alloc: Global, digits: u64) -> Result<LlBlock, NoMem>
    ensures { IfOk result (λ made. made ≡ spec.all_digits digits) }
{
    let ops = one(alloc, call(alloc, digits, 0)?)?;
    block(alloc, [0], ops, LlExit::Return(None))
}

/// A word. The digits are printed by the graph of this number.
pub fn print_word(alloc: Global, digits: u64) -> Result<LlGraph, NoMem>
    ensures { IfOk result (λ made. made ≡ spec.print_word digits) }
{
    let mut blocks = Seq::new(alloc);
    blocks.push(test(alloc, 0, 1, 4)?)?;
    blocks.push(sign(alloc)?)?;
    blocks.push(digits_before(alloc, digits)?)?;
    blocks.push(last_digit(alloc, -10, CBinary::Sub, word(48), SHORTER)?)?;
    blocks.push(all_digits(alloc, digits)?)?;
    printer(alloc, b"print_word", word_types(alloc)?, blocks)
}

// A block that puts a text.
fn puts(alloc: Global, text: &[u8]) -> Result<LlBlock, NoMem>
    ensures { IfOk result (λ made. made ≡ spec.puts_text text.now) }
{
    let mut ops = Seq::new(alloc);
    for byte in text {
        ops.push(put(word(*byte as i64)))?;
    }
    Ok(LlBlock {
        inputs: Seq::new(alloc),
        ops,
        exit: LlExit::Return(None),
    })
}

/// `True` or `False`.
pub fn print_bool(alloc: Global) -> Result<LlGraph, NoMem>
    ensures { IfOk result (λ made. made ≡ spec.print_bool) }
{
    let mut blocks = Seq::new(alloc);
    blocks.push(none(alloc, [0], fork(alloc, 0, 1, [], 2, [])?)?)?;
    blocks.push(puts(alloc, b"True")?)?;
    blocks.push(puts(alloc, b"False")?)?;
    printer(
        alloc,
        b"print_bool",
        types_of(alloc, [LlType::Bool])?,
        blocks,
    )
}
