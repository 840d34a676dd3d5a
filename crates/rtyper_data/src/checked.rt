// Operations on words whose results have to fit: one that does not raises `OverflowError`.
ghost use Rattle.std.specs.Prelude.{◌≡◌, ◌∷◌, [], IfOk};
ghost use Rattle.rtyper_data.specs.CheckedGraphs as spec;
ghost use Rattle.rtyper_data.specs.Numbers as numbers;
ghost use Rattle.rtyper_data.specs.Seen.{Asks};

use crate::found::{Found, small_number};
use crate::small::{Small, block, failing, link, variables};
use csub_tree::{CBinary, CConst, COperand, CUnary};
use ll_code::{LlBlock, LlExit, LlGraph, LlOp, LlType};
use rpy_base::{NoMem, Seq, Text};
use rpy_tree::ClassId;
use std::alloc::Global;

const OVERFLOW_ERROR: ClassId = 3;

const ZERO_DIVISION_ERROR: ClassId = 4;

const VALUE_ERROR: ClassId = 8;

const X: COperand = COperand::Var(0);

const Y: COperand = COperand::Var(1);

fn word(n: i64) -> COperand
    ensures { result ≡ numbers.word n }
{
    COperand::Const(CConst::Word(n))
}

fn one(alloc: Global, op: LlOp) -> Result<Seq<LlOp>, NoMem>
    ensures { IfOk result (λ ops. ops ≡ op ∷ []) }
{
    let mut ops = Seq::new(alloc);
    ops.push(op)?;
    Ok(ops)
}

// A block that raises `OverflowError`. Nothing comes behind the call.
fn overflowing(alloc: Global, found: &mut Found) -> Result<LlBlock, NoMem>
    ensures { IfOk result (λ block. Asks (spec.overflowing found.old) block found.new) }
{
    let graph = small_number(Small::Raise(OVERFLOW_ERROR), found)?;
    let ops = one(alloc, LlOp::Call(None, graph, Seq::new(alloc)))?;
    block(alloc, [], ops, LlExit::Fail(3))
}

// By a test of the two words, variable 2.
fn test(
    alloc: Global,
    op: CBinary,
    x: COperand,
    y: COperand,
    there: u64,
    elsewhere: u64,
) -> Result<LlBlock, NoMem>
    ensures { IfOk result (λ block. block ≡ spec.test op x y there elsewhere) }
{
    let ops = one(alloc, LlOp::Binary(2, op, x, y))?;
    let yes = link(alloc, there, [X, Y])?;
    let no = link(alloc, elsewhere, [X, Y])?;
    block(alloc, [0, 1], ops, LlExit::If(2, yes, no))
}

// The words are given to a block that takes none of them.
fn dropped(alloc: Global, to: u64) -> Result<LlBlock, NoMem>
    ensures { IfOk result (λ block. block ≡ spec.dropped to) }
{
    let exit = LlExit::Goto(link(alloc, to, [])?);
    block(alloc, [0, 1], Seq::new(alloc), exit)
}

fn result(alloc: Global, op: CBinary) -> Result<LlBlock, NoMem>
    ensures { IfOk result (λ block. block ≡ spec.result op) }
{
    let ops = one(alloc, LlOp::Binary(3, op, X, Y))?;
    block(alloc, [0, 1], ops, LlExit::Return(Some(COperand::Var(3))))
}

// ---- sums, differences and products

fn of_sum(
    alloc: Global,
    op: CBinary,
    overflows: CBinary,
    found: &mut Found,
) -> Result<Seq<LlBlock>, NoMem>
    ensures { IfOk result (λ blocks. Asks (spec.of_sum op overflows found.old) blocks found.new) }
{
    let mut blocks = Seq::new(alloc);
    blocks.push(test(alloc, overflows, X, Y, 2, 1)?)?;
    blocks.push(result(alloc, op)?)?;
    blocks.push(dropped(alloc, 3)?)?;
    blocks.push(overflowing(alloc, found)?)?;
    Ok(blocks)
}

// ---- shifts: the count is 0 to 63

fn of_shift(alloc: Global, raises: bool, found: &mut Found) -> Result<Seq<LlBlock>, NoMem>
    ensures { IfOk result (λ blocks. Asks (spec.of_shift raises found.old) blocks found.new) }
{
    let mut blocks = Seq::new(alloc);
    blocks.push(test(alloc, CBinary::Lt, Y, word(0), 5, 1)?)?;
    blocks.push(test(alloc, CBinary::Lt, Y, word(64), 2, 5)?)?;
    blocks.push(test(alloc, CBinary::ShlOvf, X, Y, 4, 3)?)?;
    blocks.push(result(alloc, CBinary::Shl)?)?;
    blocks.push(dropped(alloc, 6)?)?;
    blocks.push(dropped(alloc, 7)?)?;
    blocks.push(overflowing(alloc, found)?)?;
    blocks.push(failing(alloc, 3, VALUE_ERROR, raises, found)?)?;
    Ok(blocks)
}

// ---- quotients: the divisor is not zero, and the smallest word has no opposite

fn of_quotient(alloc: Global, raises: bool, found: &mut Found) -> Result<Seq<LlBlock>, NoMem>
    ensures { IfOk result (λ blocks. Asks (spec.of_quotient raises found.old) blocks found.new) }
{
    let mut blocks = Seq::new(alloc);
    blocks.push(test(alloc, CBinary::Eq, Y, word(0), 5, 1)?)?;
    blocks.push(test(alloc, CBinary::Eq, Y, word(-1), 2, 3)?)?;
    blocks.push(test(alloc, CBinary::Eq, X, word(i64::MIN), 4, 3)?)?;
    blocks.push(result(alloc, CBinary::Div)?)?;
    blocks.push(dropped(alloc, 6)?)?;
    blocks.push(dropped(alloc, 7)?)?;
    blocks.push(overflowing(alloc, found)?)?;
    blocks.push(failing(alloc, 2, ZERO_DIVISION_ERROR, raises, found)?)?;
    Ok(blocks)
}

fn of_rest(alloc: Global, raises: bool, found: &mut Found) -> Result<Seq<LlBlock>, NoMem>
    ensures { IfOk result (λ blocks. Asks (spec.of_rest raises found.old) blocks found.new) }
{
    let mut blocks = Seq::new(alloc);
    blocks.push(test(alloc, CBinary::Eq, Y, word(0), 2, 1)?)?;
    blocks.push(result(alloc, CBinary::Mod)?)?;
    blocks.push(dropped(alloc, 3)?)?;
    blocks.push(failing(alloc, 2, ZERO_DIVISION_ERROR, raises, found)?)?;
    Ok(blocks)
}

fn blocks_of(
    alloc: Global,
    op: CBinary,
    raises: bool,
    found: &mut Found,
) -> Result<Seq<LlBlock>, NoMem>
    ensures { IfOk result (λ blocks. Asks (spec.blocks_of op raises found.old) blocks found.new) }
{
    match op {
        CBinary::Add => of_sum(alloc, op, CBinary::AddOvf, found),
        CBinary::Sub => of_sum(alloc, op, CBinary::SubOvf, found),
        CBinary::Mul => of_sum(alloc, op, CBinary::MulOvf, found),
        CBinary::Shl => of_shift(alloc, raises, found),
        CBinary::Mod => of_rest(alloc, raises, found),
        _ => of_quotient(alloc, raises, found),
    }
}

fn types(alloc: Global) -> Result<Seq<LlType>, NoMem>
    ensures { IfOk result (λ list. list ≡ spec.types) }
{
    let mut types = Seq::new(alloc);
    types.push(LlType::Signed)?;
    types.push(LlType::Signed)?;
    types.push(LlType::Bool)?;
    types.push(LlType::Signed)?;
    Ok(types)
}

/// The graph of an operation on two words.
pub fn checked_graph(
    alloc: Global,
    op: CBinary,
    raises: bool,
    found: &mut Found,
) -> Result<LlGraph, NoMem>
    ensures { IfOk result (λ graph. Asks (spec.checked_graph op raises found.old) graph found.new) }
{
    Ok(LlGraph {
        name: Text::from_bytes(alloc, b"checked")?,
        params: variables(alloc, [0, 1])?,
        result: LlType::Signed,
        types: types(alloc)?,
        blocks: blocks_of(alloc, op, raises, found)?,
    })
}

/// The graph of the opposite of a word. The second variable is a word that nothing reads.
pub fn checked_neg_graph(alloc: Global, found: &mut Found) -> Result<LlGraph, NoMem>
    ensures { IfOk result (λ graph. Asks (spec.checked_neg_graph found.old) graph found.new) }
{
    let asked = one(alloc, LlOp::Binary(2, CBinary::Eq, X, word(i64::MIN)))?;
    let yes = link(alloc, 2, [])?;
    let no = link(alloc, 1, [X])?;
    let opposite = one(alloc, LlOp::Unary(3, CUnary::Neg, X))?;
    let given = LlExit::Return(Some(COperand::Var(3)));
    let mut blocks = Seq::new(alloc);
    blocks.push(block(alloc, [0], asked, LlExit::If(2, yes, no))?)?;
    blocks.push(block(alloc, [0], opposite, given)?)?;
    blocks.push(overflowing(alloc, found)?)?;
    Ok(LlGraph {
        name: Text::from_bytes(alloc, b"checked_neg")?,
        params: variables(alloc, [0])?,
        result: LlType::Signed,
        types: types(alloc)?,
        blocks,
    })
}
