// Graphs, written down.
ghost use Rattle.std.specs.Prelude.{◌≡◌, ◌∷◌, [], IfOk};
ghost use Rattle.ll_build.specs.Build as spec;

use csub_tree::{CBinary, CConst, COperand};
use ll_code::{LlBlock, LlExit, LlGraph, LlLink, LlOp, LlType, VarId};
use rpy_base::{NoMem, Seq, Text};
use std::alloc::Global;

pub fn operands<const N: usize>(alloc: Global, items: [COperand; N]) -> Result<Seq<COperand>, NoMem>
    ensures { IfOk result (λ list. list ≡ items.entry) }
{
    let items = Vec::from_array(alloc, items)?;
    Ok(Seq::from_vec(items))
}

pub fn variables<const N: usize>(alloc: Global, items: [VarId; N]) -> Result<Seq<VarId>, NoMem>
    ensures { IfOk result (λ list. list ≡ items.entry) }
{
    let items = Vec::from_array(alloc, items)?;
    Ok(Seq::from_vec(items))
}

pub fn operations<const N: usize>(alloc: Global, items: [LlOp; N]) -> Result<Seq<LlOp>, NoMem>
    ensures { IfOk result (λ list. list ≡ items.entry) }
{
    let items = Vec::from_array(alloc, items)?;
    Ok(Seq::from_vec(items))
}

pub fn types_of<const N: usize>(alloc: Global, items: [LlType; N]) -> Result<Seq<LlType>, NoMem>
    ensures { IfOk result (λ list. list ≡ items.entry) }
{
    let items = Vec::from_array(alloc, items)?;
    Ok(Seq::from_vec(items))
}

pub fn blocks_of<const N: usize>(alloc: Global, items: [LlBlock; N]) -> Result<Seq<LlBlock>, NoMem>
    ensures { IfOk result (λ list. list ≡ items.entry) }
{
    let items = Vec::from_array(alloc, items)?;
    Ok(Seq::from_vec(items))
}

pub fn word(n: i64) -> COperand
    ensures { result ≡ spec.word n }
{
    COperand::Const(CConst::Word(n))
}

pub fn flag(b: bool) -> COperand
    ensures { result ≡ spec.flag b }
{
    COperand::Const(CConst::Bool(b))
}

pub fn byte(b: u8) -> COperand
    ensures { result ≡ spec.byte b }
{
    COperand::Const(CConst::Char(b))
}

pub fn null() -> COperand
    ensures { result ≡ spec.null }
{
    COperand::Const(CConst::Null)
}

/// The static string of this number.
pub fn static_text(n: u64) -> COperand
    ensures { result ≡ spec.static_text n }
{
    COperand::Const(CConst::Static(0, n))
}

/// The table of the strings of one byte, which is of this struct.
pub fn static_table(table: u64) -> COperand
    ensures { result ≡ spec.static_table table }
{
    COperand::Const(CConst::Static(table, 257))
}

pub fn var(v: VarId) -> COperand
    ensures { result ≡ COperand.Var v }
{
    COperand::Var(v)
}

pub fn binary(into: VarId, op: CBinary, x: VarId, y: i64) -> LlOp
    ensures { result ≡ LlOp.Binary into op (COperand.Var x) (spec.word y) }
{
    LlOp::Binary(into, op, COperand::Var(x), word(y))
}

pub fn put(x: COperand) -> LlOp
    ensures { result ≡ LlOp.Put x }
{
    LlOp::Put(x)
}

/// A call without a result.
pub fn call(alloc: Global, graph: u64, x: VarId) -> Result<LlOp, NoMem>
    ensures { IfOk result (λ op. op ≡ LlOp.Call None graph (COperand.Var x ∷ [])) }
{
    Ok(LlOp::Call(None, graph, operands(alloc, [COperand::Var(x)])?))
}

pub fn call_of<const N: usize>(
    alloc: Global,
    into: Option<VarId>,
    graph: u64,
    xs: [COperand; N],
) -> Result<LlOp, NoMem>
    ensures { IfOk result (λ op. op ≡ LlOp.Call into graph xs.entry) }
{
    Ok(LlOp::Call(into, graph, operands(alloc, xs)?))
}

pub fn link<const N: usize>(alloc: Global, to: u64, args: [COperand; N]) -> Result<LlLink, NoMem>
    ensures { IfOk result (λ link. link ≡ record { to = to; args = args.entry }) }
{
    Ok(LlLink {
        to,
        args: operands(alloc, args)?,
    })
}

/// By the truth of a variable.
pub fn fork<const N: usize, const M: usize>(
    alloc: Global,
    a: VarId,
    there: u64,
    xs: [COperand; N],
    elsewhere: u64,
    ys: [COperand; M],
) -> Result<LlExit, NoMem>
    ensures { IfOk result (λ exit. exit ≡ spec.fork a there xs.entry elsewhere ys.entry) }
{
    Ok(LlExit::If(a, link(alloc, there, xs)?, link(alloc, elsewhere, ys)?))
}

pub fn go<const N: usize>(alloc: Global, to: u64, args: [COperand; N]) -> Result<LlExit, NoMem>
    ensures { IfOk result (λ exit. exit ≡ LlExit.Goto (spec.to to args.entry)) }
{
    Ok(LlExit::Goto(link(alloc, to, args)?))
}

/// A block without operations.
pub fn none<const I: usize>(
    alloc: Global,
    inputs: [VarId; I],
    exit: LlExit,
) -> Result<LlBlock, NoMem>
    ensures { IfOk result (λ block. block ≡ spec.block_of inputs.entry [] exit) }
{
    Ok(LlBlock {
        inputs: variables(alloc, inputs)?,
        ops: Seq::new(alloc),
        exit,
    })
}

/// A block of these operations.
pub fn block<const I: usize>(
    alloc: Global,
    inputs: [VarId; I],
    ops: Seq<LlOp>,
    exit: LlExit,
) -> Result<LlBlock, NoMem>
    ensures { IfOk result (λ block. block ≡ spec.block_of inputs.entry ops exit) }
{
    Ok(LlBlock {
        inputs: variables(alloc, inputs)?,
        ops,
        exit,
    })
}

/// A block that asks whether a string is missing.
pub fn ask<const I: usize>(
    alloc: Global,
    inputs: [VarId; I],
    args: [COperand; I],
    text: VarId,
    test: VarId,
    missing: u64,
    there: u64,
) -> Result<LlBlock, NoMem>
    ensures { IfOk result (λ block. block ≡ spec.ask inputs.entry args.entry text test missing there) }
{
    let ops = operations(alloc, [LlOp::Binary(test, CBinary::Peq, var(text), null())])?;
    block(
        alloc,
        inputs,
        ops,
        fork(alloc, test, missing, [], there, args)?,
    )
}

/// A block that fails.
pub fn fails(alloc: Global, number: u32) -> Result<LlBlock, NoMem>
    ensures { IfOk result (λ block. block ≡ spec.fails number) }
{
    none(alloc, [], LlExit::Fail(number))
}

/// A block that gives nothing.
pub fn done(alloc: Global) -> Result<LlBlock, NoMem>
    ensures { IfOk result (λ block. block ≡ spec.done) }
{
    none(alloc, [], LlExit::Return(None))
}

/// A block that gives a constant.
pub fn answer(alloc: Global, x: COperand) -> Result<LlBlock, NoMem>
    ensures { IfOk result (λ block. block ≡ spec.answer x) }
{
    none(alloc, [], LlExit::Return(Some(x)))
}

/// One operation, two or three.
pub fn one(alloc: Global, a: LlOp) -> Result<Seq<LlOp>, NoMem>
    ensures { IfOk result (λ ops. ops ≡ a ∷ []) }
{
    let mut ops = Seq::new(alloc);
    ops.push(a)?;
    Ok(ops)
}

pub fn two(alloc: Global, a: LlOp, b: LlOp) -> Result<Seq<LlOp>, NoMem>
    ensures { IfOk result (λ ops. ops ≡ a ∷ b ∷ []) }
{
    let mut ops = one(alloc, a)?;
    ops.push(b)?;
    Ok(ops)
}

pub fn three(alloc: Global, a: LlOp, b: LlOp, c: LlOp) -> Result<Seq<LlOp>, NoMem>
    ensures { IfOk result (λ ops. ops ≡ a ∷ b ∷ c ∷ []) }
{
    let mut ops = two(alloc, a, b)?;
    ops.push(c)?;
    Ok(ops)
}

pub fn graph(
    alloc: Global,
    name: &[u8],
    params: Seq<VarId>,
    gives: LlType,
    types: Seq<LlType>,
    blocks: Seq<LlBlock>,
) -> Result<LlGraph, NoMem>
    ensures { IfOk result (λ graph. graph ≡ spec.graph_of name.now params gives types blocks) }
{
    Ok(LlGraph {
        name: Text::from_bytes(alloc, name)?,
        params,
        result: gives,
        types,
        blocks,
    })
}
