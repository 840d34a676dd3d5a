// `int` of a string: blanks at both ends, perhaps a sign, and digits whose number is a word. The number is
// taken together below zero, since the smallest word has no opposite. Any other text raises `ValueError`.
ghost use Rattle.std.specs.Prelude.{◌≡◌, ◌∷◌, [], ◌++◌, IfOk, OnOk};
ghost use Rattle.csub_tree.specs.declared.tree.COperand.TheVariants as COperand;
ghost use Rattle.rtyper_data.specs.IntOfText as spec;
ghost use Rattle.rtyper_data.specs.Numbers as numbers;
ghost use Rattle.rtyper_data.specs.Seen.{Asks};

use crate::found::Found;
use crate::small::{block, failing, link, variables};
use csub_tree::{CBinary, CConst, COperand, CUnary};
use ll_code::{LlBlock, LlExit, LlGraph, LlOp, LlType, VarId};
use rpy_base::{NoMem, Seq, Text};
use rpy_tree::ClassId;
use std::alloc::Global;

const VALUE_ERROR: ClassId = 8;

const TEXT: VarId = 0;

const END: VarId = 1;

const PLACE: VarId = 2;

const BYTE: VarId = 3;

const NUMBER: VarId = 4;

const TEST: VarId = 5;

const SUM: VarId = 6;

const BELOW: VarId = 7;

const NEXT: VarId = 8;

const FIRST: VarId = 9;

const SECOND: VarId = 10;

const TENFOLD: VarId = 11;

fn word(n: i64) -> COperand
    ensures { result ≡ numbers.word n }
{
    COperand::Const(CConst::Word(n))
}

fn var(v: VarId) -> COperand
    ensures { result ≡ COperand.Var v }
{
    COperand::Var(v)
}

// ---- operations

// The number of the byte at a place.
#[tactic(auto, unfolding(crate::specs::IntOfText::byte_at))]
fn push_byte(at: VarId, ops: &mut Seq<LlOp>) -> Result<(), NoMem>
    ensures { OnOk result (ops.new ≡ ops.old ++ spec.byte_at at) }
{
    ops.push(LlOp::GetItem(BYTE, 0, TEXT, var(at)))?;
    ops.push(LlOp::Unary(NUMBER, CUnary::C2S, var(BYTE)))
}

// A test as a word.
#[tactic(auto, unfolding(crate::specs::IntOfText::asked))]
fn push_asked(
    into: VarId,
    op: CBinary,
    x: COperand,
    y: COperand,
    ops: &mut Seq<LlOp>,
) -> Result<(), NoMem>
    ensures { OnOk result (ops.new ≡ ops.old ++ spec.asked into op x y) }
{
    ops.push(LlOp::Binary(TEST, op, x, y))?;
    ops.push(LlOp::Unary(into, CUnary::B2S, var(TEST)))
}

// Whether the number of the byte lies between two.
#[tactic(auto, unfolding(crate::specs::IntOfText::between))]
fn push_between(low: i64, high: i64, ops: &mut Seq<LlOp>) -> Result<(), NoMem>
    ensures { OnOk result (ops.new ≡ ops.old ++ spec.between low high) }
{
    push_asked(FIRST, CBinary::Ge, var(NUMBER), word(low), ops)?;
    push_asked(SECOND, CBinary::Le, var(NUMBER), word(high), ops)?;
    ops.push(LlOp::Binary(FIRST, CBinary::And, var(FIRST), var(SECOND)))
}

// Whether the byte is blank: a space, or one of 9 to 13.
#[tactic(auto, unfolding(crate::specs::IntOfText::blank))]
fn push_blank(ops: &mut Seq<LlOp>) -> Result<(), NoMem>
    ensures { OnOk result (ops.new ≡ ops.old ++ spec.blank) }
{
    push_between(9, 13, ops)?;
    push_asked(SECOND, CBinary::Eq, var(NUMBER), word(32), ops)?;
    ops.push(LlOp::Binary(FIRST, CBinary::Or, var(FIRST), var(SECOND)))?;
    ops.push(LlOp::Binary(TEST, CBinary::Ne, var(FIRST), word(0)))
}

fn one(alloc: Global, op: LlOp) -> Result<Seq<LlOp>, NoMem>
    ensures { IfOk result (λ ops. ops ≡ op ∷ []) }
{
    let mut ops = Seq::new(alloc);
    ops.push(op)?;
    Ok(ops)
}

// ---- blocks: 0 to 2 blanks at the beginning, 3 at the end, 4 to 6 the sign, 7 to 9 the digits, 10 to
// 12 the result, 13 what is no number

fn start(alloc: Global) -> Result<LlBlock, NoMem>
    ensures { IfOk result (λ block. block ≡ spec.start) }
{
    let ops = one(alloc, LlOp::GetField(END, 0, TEXT, 0))?;
    let exit = LlExit::Goto(link(alloc, 1, [var(TEXT), var(END), word(0)])?);
    block(alloc, [TEXT], ops, exit)
}

fn at_end(alloc: Global, there: u64, elsewhere: u64) -> Result<LlBlock, NoMem>
    ensures { IfOk result (λ block. block ≡ spec.at_end there elsewhere) }
{
    let ops = one(alloc, LlOp::Binary(TEST, CBinary::Ge, var(PLACE), var(END)))?;
    let yes = link(alloc, there, [])?;
    let no = link(alloc, elsewhere, [var(TEXT), var(END), var(PLACE)])?;
    block(alloc, [TEXT, END, PLACE], ops, LlExit::If(TEST, yes, no))
}

fn blank_front(alloc: Global) -> Result<LlBlock, NoMem>
    ensures { IfOk result (λ block. block ≡ spec.blank_front) }
{
    let mut ops = Seq::new(alloc);
    push_byte(PLACE, &mut ops)?;
    push_blank(&mut ops)?;
    ops.push(LlOp::Binary(NEXT, CBinary::Add, var(PLACE), word(1)))?;
    let yes = link(alloc, 1, [var(TEXT), var(END), var(NEXT)])?;
    let no = link(alloc, 3, [var(TEXT), var(END), var(PLACE)])?;
    block(alloc, [TEXT, END, PLACE], ops, LlExit::If(TEST, yes, no))
}

// A byte that is not blank stands before the end.
fn blank_back(alloc: Global) -> Result<LlBlock, NoMem>
    ensures { IfOk result (λ block. block ≡ spec.blank_back) }
{
    let mut ops = Seq::new(alloc);
    ops.push(LlOp::Binary(NEXT, CBinary::Sub, var(END), word(1)))?;
    push_byte(NEXT, &mut ops)?;
    push_blank(&mut ops)?;
    let yes = link(alloc, 3, [var(TEXT), var(NEXT), var(PLACE)])?;
    let no = link(alloc, 4, [var(TEXT), var(END), var(PLACE)])?;
    block(alloc, [TEXT, END, PLACE], ops, LlExit::If(TEST, yes, no))
}

fn minus(alloc: Global) -> Result<LlBlock, NoMem>
    ensures { IfOk result (λ block. block ≡ spec.minus) }
{
    let mut ops = Seq::new(alloc);
    push_byte(PLACE, &mut ops)?;
    ops.push(LlOp::Binary(NEXT, CBinary::Add, var(PLACE), word(1)))?;
    ops.push(LlOp::Binary(TEST, CBinary::Eq, var(NUMBER), word(45)))?;
    let yes = link(alloc, 6, [var(TEXT), var(END), var(NEXT), word(1)])?;
    let no = link(
        alloc,
        5,
        [var(TEXT), var(END), var(PLACE), var(NEXT), var(NUMBER)],
    )?;
    block(alloc, [TEXT, END, PLACE], ops, LlExit::If(TEST, yes, no))
}

fn plus(alloc: Global) -> Result<LlBlock, NoMem>
    ensures { IfOk result (λ block. block ≡ spec.plus) }
{
    let ops = one(
        alloc,
        LlOp::Binary(TEST, CBinary::Eq, var(NUMBER), word(43)),
    )?;
    let yes = link(alloc, 6, [var(TEXT), var(END), var(NEXT), word(0)])?;
    let no = link(alloc, 6, [var(TEXT), var(END), var(PLACE), word(0)])?;
    let inputs = [TEXT, END, PLACE, NEXT, NUMBER];
    block(alloc, inputs, ops, LlExit::If(TEST, yes, no))
}

fn any_digit(alloc: Global) -> Result<LlBlock, NoMem>
    ensures { IfOk result (λ block. block ≡ spec.any_digit) }
{
    let ops = one(alloc, LlOp::Binary(TEST, CBinary::Ge, var(PLACE), var(END)))?;
    let yes = link(alloc, 13, [])?;
    let xs = [var(TEXT), var(END), var(PLACE), var(BELOW), word(0)];
    let no = link(alloc, 7, xs)?;
    block(
        alloc,
        [TEXT, END, PLACE, BELOW],
        ops,
        LlExit::If(TEST, yes, no),
    )
}

const DIGITS: [VarId; 5] = [TEXT, END, PLACE, BELOW, SUM];

fn more(alloc: Global) -> Result<LlBlock, NoMem>
    ensures { IfOk result (λ block. block ≡ spec.more) }
{
    let ops = one(alloc, LlOp::Binary(TEST, CBinary::Ge, var(PLACE), var(END)))?;
    let yes = link(alloc, 10, [var(BELOW), var(SUM)])?;
    let xs = [var(TEXT), var(END), var(PLACE), var(BELOW), var(SUM)];
    let no = link(alloc, 8, xs)?;
    block(alloc, DIGITS, ops, LlExit::If(TEST, yes, no))
}

fn digit(alloc: Global) -> Result<LlBlock, NoMem>
    ensures { IfOk result (λ block. block ≡ spec.digit) }
{
    let mut ops = Seq::new(alloc);
    push_byte(PLACE, &mut ops)?;
    push_between(48, 57, &mut ops)?;
    ops.push(LlOp::Binary(TEST, CBinary::Ne, var(FIRST), word(0)))?;
    let xs = [
        var(TEXT),
        var(END),
        var(PLACE),
        var(BELOW),
        var(SUM),
        var(NUMBER),
    ];
    let yes = link(alloc, 9, xs)?;
    let no = link(alloc, 13, [])?;
    block(alloc, DIGITS, ops, LlExit::If(TEST, yes, no))
}

// Ten times the sum, less the digit.
fn taken(alloc: Global) -> Result<LlBlock, NoMem>
    ensures { IfOk result (λ block. block ≡ spec.taken) }
{
    let mut ops = Seq::new(alloc);
    push_asked(FIRST, CBinary::MulOvf, var(SUM), word(10), &mut ops)?;
    ops.push(LlOp::Binary(TENFOLD, CBinary::Mul, var(SUM), word(10)))?;
    ops.push(LlOp::Binary(NUMBER, CBinary::Sub, var(NUMBER), word(48)))?;
    push_asked(SECOND, CBinary::SubOvf, var(TENFOLD), var(NUMBER), &mut ops)?;
    ops.push(LlOp::Binary(SUM, CBinary::Sub, var(TENFOLD), var(NUMBER)))?;
    ops.push(LlOp::Binary(FIRST, CBinary::Or, var(FIRST), var(SECOND)))?;
    ops.push(LlOp::Binary(TEST, CBinary::Ne, var(FIRST), word(0)))?;
    ops.push(LlOp::Binary(NEXT, CBinary::Add, var(PLACE), word(1)))?;
    let yes = link(alloc, 13, [])?;
    let xs = [var(TEXT), var(END), var(NEXT), var(BELOW), var(SUM)];
    let no = link(alloc, 7, xs)?;
    let inputs = [TEXT, END, PLACE, BELOW, SUM, NUMBER];
    block(alloc, inputs, ops, LlExit::If(TEST, yes, no))
}

fn done(alloc: Global) -> Result<LlBlock, NoMem>
    ensures { IfOk result (λ block. block ≡ spec.done) }
{
    let ops = one(alloc, LlOp::Binary(TEST, CBinary::Ne, var(BELOW), word(0)))?;
    let yes = link(alloc, 12, [var(SUM)])?;
    let no = link(alloc, 11, [var(SUM)])?;
    block(alloc, [BELOW, SUM], ops, LlExit::If(TEST, yes, no))
}

fn opposite(alloc: Global) -> Result<LlBlock, NoMem>
    ensures { IfOk result (λ block. block ≡ spec.opposite) }
{
    let mut ops = Seq::new(alloc);
    ops.push(LlOp::Binary(TEST, CBinary::Eq, var(SUM), word(i64::MIN)))?;
    ops.push(LlOp::Unary(SUM, CUnary::Neg, var(SUM)))?;
    let yes = link(alloc, 13, [])?;
    let no = link(alloc, 12, [var(SUM)])?;
    block(alloc, [SUM], ops, LlExit::If(TEST, yes, no))
}

fn given(alloc: Global) -> Result<LlBlock, NoMem>
    ensures { IfOk result (λ block. block ≡ spec.given) }
{
    let exit = LlExit::Return(Some(var(SUM)));
    block(alloc, [SUM], Seq::new(alloc), exit)
}

fn first_blocks(alloc: Global) -> Result<Seq<LlBlock>, NoMem>
    ensures { IfOk result (λ list. list ≡ spec.first_blocks) }
{
    let mut blocks = Seq::new(alloc);
    blocks.push(start(alloc)?)?;
    blocks.push(at_end(alloc, 13, 2)?)?;
    blocks.push(blank_front(alloc)?)?;
    blocks.push(blank_back(alloc)?)?;
    blocks.push(minus(alloc)?)?;
    blocks.push(plus(alloc)?)?;
    blocks.push(any_digit(alloc)?)?;
    Ok(blocks)
}

fn blocks(alloc: Global, found: &mut Found) -> Result<Seq<LlBlock>, NoMem>
    ensures { IfOk result (λ list. Asks (spec.blocks found.old) list found.new) }
{
    let mut blocks = first_blocks(alloc)?;
    blocks.push(more(alloc)?)?;
    blocks.push(digit(alloc)?)?;
    blocks.push(taken(alloc)?)?;
    blocks.push(done(alloc)?)?;
    blocks.push(opposite(alloc)?)?;
    blocks.push(given(alloc)?)?;
    blocks.push(failing(alloc, 3, VALUE_ERROR, true, found)?)?;
    Ok(blocks)
}

fn types(alloc: Global) -> Result<Seq<LlType>, NoMem>
    ensures { IfOk result (λ list. list ≡ spec.types) }
{
    let signed = LlType::Signed;
    let kinds = [
        LlType::Ptr(0),
        signed,
        signed,
        LlType::Char,
        signed,
        LlType::Bool,
        signed,
        signed,
        signed,
        signed,
        signed,
        signed,
    ];
    let kinds = Vec::from_array(alloc, kinds)?;
    Ok(Seq::from_vec(kinds))
}

/// The graph of `int` of a string.
pub fn int_graph(alloc: Global, found: &mut Found) -> Result<LlGraph, NoMem>
    ensures { IfOk result (λ graph. Asks (spec.int_graph found.old) graph found.new) }
{
    Ok(LlGraph {
        name: Text::from_bytes(alloc, b"int_of_text")?,
        params: variables(alloc, [TEXT])?,
        result: LlType::Signed,
        types: types(alloc)?,
        blocks: blocks(alloc, found)?,
    })
}
