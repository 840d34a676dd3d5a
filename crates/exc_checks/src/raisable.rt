// Operations, exits, blocks and graphs that raise alike, and read what they know.
ghost use Rattle.std.specs.Prelude.{◌≡◌, ◌&&◌, not, slice_get, IfOk};
ghost use Rattle.ll_code.specs.declared.program.LlType.TheVariants as type;
ghost use Rattle.ll_code.specs.Typed.{has_type};
ghost use Rattle.ll_live.specs.Live as live;
ghost use Rattle.exc_transform.specs.Live.{handler_reads};
ghost use Rattle.exc_laws.specs.Ready as ready;
ghost use Rattle.exc_ready.specs.Raisable as spec;
ghost use Rattle.exc_checks.specs.Tests as tests;

use exc_transform::{Raising, handler_reads, live_variables};
use ll_code::{LlBlock, LlExit, LlGraph, LlOp, LlType, VarId};
use ll_live::{among, set_by};
use rpy_base::NoMem;
use std::alloc::Global;

// ---- operations and exits

fn is_exception(root: u64, types: &[LlType], a: VarId) -> bool
    ensures { result ≡ spec.is_exception root types.now a }
{
    match types.get(a as usize) {
        Some(LlType::Ptr(n)) => root == *n,
        _ => false,
    }
}

fn raises_alike(root: u64, types: &[LlType], op: &LlOp) -> bool
    ensures { result ≡ spec.raises_alike root types.now op.now }
{
    match op {
        LlOp::Raise(a) => is_exception(root, types, *a),
        _ => true,
    }
}

fn exit_raises_alike(root: u64, types: &[LlType], exit: &LlExit) -> bool
    ensures { result ≡ spec.exit_raises_alike root types.now exit.now }
{
    match exit {
        LlExit::Raise(a) | LlExit::OnRaise(a, _, _) => is_exception(root, types, *a),
        _ => true,
    }
}

fn uses_slots(op: &LlOp) -> bool
    ensures { result ≡ ready.uses_slots op.now }
{
    match op {
        LlOp::ExcType(_, _) | LlOp::ExcValue(_, _) | LlOp::ExcSet(_, _) | LlOp::ExcClear => true,
        _ => false,
    }
}

fn sets_none_of(set: Option<VarId>, variables: &[VarId]) -> bool
    ensures { result ≡ spec.sets_none_of set variables.now }
{
    match set {
        None => true,
        Some(a) => !among(a, variables),
    }
}

fn op_raisable(
    alloc: Global,
    root: u64,
    types: &[LlType],
    op: &LlOp,
    rest: &[LlOp],
    exit: &LlExit,
) -> Result<bool, NoMem>
    ensures { IfOk result (λ yes. yes ≡ tests.op_raisable root types.now op.now rest.now exit.now) }
{
    let reads = handler_reads(alloc, rest, exit)?;
    Ok(
        raises_alike(root, types, op)
            && !uses_slots(op)
            && sets_none_of(set_by(op), reads.as_slice()),
    )
}

fn ops_raisable(
    alloc: Global,
    root: u64,
    types: &[LlType],
    ops: &[LlOp],
    exit: &LlExit,
) -> Result<bool, NoMem>
    ensures { IfOk result (λ yes. yes ≡ spec.ops_raisable root types.now ops.now exit.now) }
{
    let mut rest = ops;
    while let [op, others @ ..] = rest {
        if !op_raisable(alloc, root, types, op, others, exit)? {
            return Ok(false);
        }
        rest = others;
    }
    Ok(true)
}

// ---- blocks

fn all_among(variables: &[VarId], others: &[VarId]) -> bool
    ensures { result ≡ spec.all_among variables.now others.now }
{
    for v in variables {
        if !among(*v, others) {
            return false;
        }
    }
    true
}

fn block_raisable(
    alloc: Global,
    raising: Raising<'_>,
    root: u64,
    types: &[LlType],
    block: &LlBlock,
) -> Result<bool, NoMem>
    ensures { IfOk result (λ yes. yes ≡ tests.block_raisable raising.entry.graphs.now raising.entry.any root types.now block.now) }
{
    let ops = block.ops.as_slice();
    let reads = live_variables(alloc, raising, ops, &block.exit)?;
    let raisable = ops_raisable(alloc, root, types, ops, &block.exit)?;
    Ok(
        all_among(reads.as_slice(), block.inputs.as_slice())
            && raisable
            && exit_raises_alike(root, types, &block.exit),
    )
}

fn blocks_raisable(
    alloc: Global,
    raising: Raising<'_>,
    root: u64,
    types: &[LlType],
    blocks: &[LlBlock],
) -> Result<bool, NoMem>
    ensures { IfOk result (λ yes. yes ≡ tests.blocks_raisable raising.entry.graphs.now raising.entry.any root types.now blocks.now) }
{
    for block in blocks {
        if !block_raisable(alloc, raising, root, types, block)? {
            return Ok(false);
        }
    }
    Ok(true)
}

// ---- graphs

fn takes_params(graph: &LlGraph) -> bool
    ensures { result ≡ spec.takes_params graph.now.params (slice_get graph.now.blocks 0) }
{
    match graph.blocks.as_slice().first() {
        None => true,
        Some(block) => all_among(block.inputs.as_slice(), graph.params.as_slice()),
    }
}

fn graph_raisable(
    alloc: Global,
    raising: Raising<'_>,
    root: u64,
    graph: &LlGraph,
) -> Result<bool, NoMem>
    ensures { IfOk result (λ yes. yes ≡ tests.graph_raisable raising.entry.graphs.now raising.entry.any root graph.now) }
{
    let types = graph.types.as_slice();
    let raisable = blocks_raisable(alloc, raising, root, types, graph.blocks.as_slice())?;
    Ok(takes_params(graph) && raisable)
}

/// Whether each graph raises pointers to the root struct of exceptions alone, and reads in each block its
/// inputs and what the block sets.
pub fn graphs_raisable(
    alloc: Global,
    raising: Raising<'_>,
    root: u64,
    graphs: &[LlGraph],
) -> Result<bool, NoMem>
    ensures { IfOk result (λ yes. yes ≡ tests.graphs_raisable raising.entry.graphs.now raising.entry.any root graphs.now) }
{
    for graph in graphs {
        if !graph_raisable(alloc, raising, root, graph)? {
            return Ok(false);
        }
    }
    Ok(true)
}
