// The parts of a graph. Each writer hands on want of memory, so a graph is written without a test of its own.
ghost use Rattle.std.specs.Prelude.{◌≡◌, ◌∷◌, [], ◌++◌, None, IfOk, IsOkAnd};
ghost use Rattle.csub_tree.specs.declared.tree.COperand.TheVariants as COperand;
ghost use Rattle.ll_code.specs.declared.program.LlExit.TheVariants as LlExit;
ghost use Rattle.rtyper_data.specs.Building as spec;

use crate::small::{block, link};
use csub_tree::COperand;
use ll_code::{LlBlock, LlExit, LlGraph, LlOp, LlType, VarId};
use rpy_base::{NoMem, Seq, Text};
use std::alloc::Global;

/// The operations of a block.
pub fn ops<const N: usize>(alloc: Global, items: [LlOp; N]) -> Result<Seq<LlOp>, NoMem>
    ensures { IfOk result (λ list. list ≡ items.entry) }
{
    let items = Vec::from_array(alloc, items)?;
    Ok(Seq::from_vec(items))
}

/// One operation more.
pub fn op(ops: Result<Seq<LlOp>, NoMem>, op: LlOp) -> Result<Seq<LlOp>, NoMem>
    ensures { IfOk result (λ list. IsOkAnd ops (λ before. list ≡ before ++ op ∷ [])) }
{
    let mut ops = ops?;
    ops.push(op)?;
    Ok(ops)
}

/// One operation more, where there was memory for it.
pub fn op_made(ops: Result<Seq<LlOp>, NoMem>, op: Result<LlOp, NoMem>) -> Result<Seq<LlOp>, NoMem>
    ensures { IfOk result (λ list. IsOkAnd ops (λ before. IsOkAnd op (λ one. list ≡ before ++ one ∷ []))) }
{
    let mut ops = ops?;
    ops.push(op?)?;
    Ok(ops)
}

/// A block goes on at another one.
pub fn goto<const N: usize>(alloc: Global, to: u64, args: [COperand; N]) -> Result<LlExit, NoMem>
    ensures { IfOk result (λ made. made ≡ LlExit.Goto (spec.link_to to args.entry)) }
{
    Ok(LlExit::Goto(link(alloc, to, args)?))
}

/// A block with its operations and its exit.
pub fn written<const N: usize>(
    alloc: Global,
    inputs: [VarId; N],
    ops: Result<Seq<LlOp>, NoMem>,
    exit: Result<LlExit, NoMem>,
) -> Result<LlBlock, NoMem>
    ensures { IfOk result (λ made. IsOkAnd ops (λ list. IsOkAnd exit (λ e. made ≡ spec.block_with inputs.entry list e))) }
{
    block(alloc, inputs, ops?, exit?)
}

/// A block without operations.
pub fn passes<const N: usize>(
    alloc: Global,
    inputs: [VarId; N],
    exit: Result<LlExit, NoMem>,
) -> Result<LlBlock, NoMem>
    ensures { IfOk result (λ made. IsOkAnd exit (λ e. made ≡ spec.block_with inputs.entry [] e)) }
{
    let none: Seq<LlOp> = Seq::new(alloc);
    block(alloc, inputs, none, exit?)
}

/// One block more.
pub fn and(
    blocks: Result<Seq<LlBlock>, NoMem>,
    block: Result<LlBlock, NoMem>,
) -> Result<Seq<LlBlock>, NoMem>
    ensures { IfOk result (λ list. IsOkAnd blocks (λ before. IsOkAnd block (λ one. list ≡ before ++ one ∷ []))) }
{
    let mut blocks = blocks?;
    blocks.push(block?)?;
    Ok(blocks)
}

// ---- operands and exits

pub fn var(v: VarId) -> COperand
    ensures { result ≡ COperand.Var v }
{
    COperand::Var(v)
}

/// The graph gives the value of a variable.
pub fn gives(v: VarId) -> Result<LlExit, NoMem>
    ensures { IfOk result (λ made. made ≡ spec.gives v) }
{
    Ok(LlExit::Return(Some(COperand::Var(v))))
}

/// The graph ends, and gives nothing.
pub fn ends() -> Result<LlExit, NoMem>
    ensures { IfOk result (λ made. made ≡ LlExit.Return None) }
{
    Ok(LlExit::Return(None))
}

/// By the truth of a variable.
pub fn fork<const N: usize, const M: usize>(
    alloc: Global,
    a: VarId,
    there: u64,
    xs: [COperand; N],
    elsewhere: u64,
    ys: [COperand; M],
) -> Result<LlExit, NoMem>
    ensures { IfOk result (λ made. made ≡ spec.fork a there xs.entry elsewhere ys.entry) }
{
    let there = link(alloc, there, xs)?;
    let elsewhere = link(alloc, elsewhere, ys)?;
    Ok(LlExit::If(a, there, elsewhere))
}

// ---- graphs

pub fn kinds<const N: usize>(alloc: Global, items: [LlType; N]) -> Result<Seq<LlType>, NoMem>
    ensures { IfOk result (λ list. list ≡ items.entry) }
{
    let items = Vec::from_array(alloc, items)?;
    Ok(Seq::from_vec(items))
}

/// A graph whose parameters are the first so many variables.
pub fn graph_of(
    alloc: Global,
    name: &[u8],
    params: u64,
    gives: LlType,
    types: Seq<LlType>,
    blocks: Seq<LlBlock>,
) -> Result<LlGraph, NoMem>
    ensures { IfOk result (λ graph. graph ≡ spec.graph_with name.now (spec.numbers params) gives types blocks) }
{
    let mut variables = Seq::new(alloc);
    for v in 0..params {
        variables.push(v)?;
    }
    Ok(LlGraph {
        name: Text::from_bytes(alloc, name)?,
        params: variables,
        result: gives,
        types,
        blocks,
    })
}

/// A graph, where there was memory for its parts.
pub fn graph_written(
    alloc: Global,
    name: &[u8],
    params: u64,
    gives: LlType,
    types: Result<Seq<LlType>, NoMem>,
    blocks: Result<Seq<LlBlock>, NoMem>,
) -> Result<LlGraph, NoMem>
    ensures { IfOk result (λ graph. IsOkAnd types (λ list. IsOkAnd blocks (λ those. graph ≡ spec.graph_with name.now (spec.numbers params) gives list those))) }
{
    graph_of(alloc, name, params, gives, types?, blocks?)
}
