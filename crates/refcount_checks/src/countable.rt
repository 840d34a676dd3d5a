// References can be counted: none that is read is set, none that is given back is dropped, and the number of an
// array of references is set where the array is made.
ghost use Rattle.std.specs.Prelude.{◌≡◌, ◌&&◌, nat_lt, slice_get, length, is_some, IfOk, None, Some};
ghost use Rattle.refcount_transform.specs.Plan as p;
ghost use Rattle.refcount_transform.specs.Changes as c;
ghost use Rattle.refcount_transform.specs.Seen.{the_plan};
ghost use Rattle.ll_live.specs.Live as live;
ghost use Rattle.refcount_checks.specs.Countable as spec;

use csub_tree::COperand;
use ll_code::{LlBlock, LlGraph, LlOp, LlType, VarId};
use ll_live::{among, push_reads, set_by};
use refcount_transform::{Plan, items_referred, place_of, reference_given};
use rpy_base::{NoMem, Seq};
use std::alloc::Global;

// ---- what is set

fn is_reference(plan: Plan<'_>, kinds: &[LlType], v: VarId) -> bool
    ensures { result ≡ is_some (c.var_referred (c.around_of (the_plan plan.entry) kinds.now) v) }
{
    match kinds.get(v as usize) {
        None => false,
        Some(kind) => reference_given(plan.counted, Some(*kind)).is_some(),
    }
}

fn is_read(alloc: Global, op: &LlOp, v: VarId) -> Result<bool, NoMem>
    ensures { IfOk result (λ yes. yes ≡ live.among v (live.reads op.now)) }
{
    let mut reads = Seq::new(alloc);
    push_reads(op, &mut reads)?;
    Ok(among(v, reads.as_slice()))
}

fn sets_unread(alloc: Global, plan: Plan<'_>, kinds: &[LlType], op: &LlOp) -> Result<bool, NoMem>
    ensures { IfOk result (λ yes. yes ≡ spec.sets_unread (the_plan plan.entry) kinds.now op.now (live.set_by op.now)) }
{
    match set_by(op) {
        None => Ok(true),
        Some(a) => {
            let read = is_read(alloc, op, a)?;
            Ok(!(is_reference(plan, kinds, a) && read))
        }
    }
}

// ---- calls

fn are_few(count: usize) -> bool
    ensures { result ≡ nat_lt count spec.most }
{
    (count as u64) < 0x4000_0000_0000_0000
}

fn call_countable(
    plan: Plan<'_>,
    into: Option<VarId>,
    given: Option<LlType>,
    xs: &[COperand],
) -> bool
    ensures { result ≡ spec.call_countable (the_plan plan.entry) into given xs.now }
{
    match into {
        Some(_) => are_few(xs.len()),
        None => reference_given(plan.counted, given).is_none() && are_few(xs.len()),
    }
}

fn result_of(graphs: &[LlGraph], f: u64) -> Option<LlType>
    ensures { result ≡ spec.result_of (slice_get graphs.now f) }
{
    match graphs.get(f as usize) {
        None => None,
        Some(graph) => Some(graph.result),
    }
}

fn calls_countable(plan: Plan<'_>, graphs: &[LlGraph], op: &LlOp) -> bool
    ensures { result ≡ spec.calls_countable (the_plan plan.entry) graphs.now op.now }
{
    match op {
        LlOp::Call(into, f, xs) => {
            call_countable(plan, *into, result_of(graphs, *f), xs.as_slice())
        }
        LlOp::CallFn(into, given, _, _, xs) => {
            call_countable(plan, *into, Some(*given), xs.as_slice())
        }
        _ => true,
    }
}

fn op_countable(
    alloc: Global,
    plan: Plan<'_>,
    graphs: &[LlGraph],
    kinds: &[LlType],
    op: &LlOp,
) -> Result<bool, NoMem>
    ensures { IfOk result (λ yes. yes ≡ spec.op_countable (the_plan plan.entry) graphs.now kinds.now op.now) }
{
    let unread = sets_unread(alloc, plan, kinds, op)?;
    Ok(unread && calls_countable(plan, graphs, op))
}

fn ops_countable(
    alloc: Global,
    plan: Plan<'_>,
    graphs: &[LlGraph],
    kinds: &[LlType],
    ops: &[LlOp],
) -> Result<bool, NoMem>
    ensures { IfOk result (λ yes. yes ≡ spec.ops_countable (the_plan plan.entry) graphs.now kinds.now ops.now) }
{
    for op in ops {
        if !op_countable(alloc, plan, graphs, kinds, op)? {
            return Ok(false);
        }
    }
    Ok(true)
}

// ---- arrays of references

fn is_number(plan: Plan<'_>, n: u64, k: u64) -> bool
    ensures { result ≡ spec.is_number (the_plan plan.entry) n k }
{
    items_referred(plan, n).is_some() && place_of(plan, n, k) == 0
}

fn fills(before: &LlOp, n: u64, v: VarId, x: COperand) -> bool
    ensures { result ≡ spec.fills (Some before.now) n v x }
{
    match (before, x) {
        (LlOp::NewArray(a, _, k, COperand::Var(w)), COperand::Var(u)) => {
            *a == v && *k == n && *w == u
        }
        _ => false,
    }
}

fn follows_none(plan: Plan<'_>, op: &LlOp) -> bool
    ensures { result ≡ spec.number_follows (the_plan plan.entry) None op.now }
{
    match op {
        LlOp::SetField(n, _, k, _) => !is_number(plan, *n, *k),
        _ => true,
    }
}

fn number_follows(plan: Plan<'_>, before: &LlOp, op: &LlOp) -> bool
    ensures { result ≡ spec.number_follows (the_plan plan.entry) (Some before.now) op.now }
{
    match op {
        LlOp::SetField(n, v, k, x) => !is_number(plan, *n, *k) || fills(before, *n, *v, *x),
        _ => true,
    }
}

fn numbers_follow(plan: Plan<'_>, first: &LlOp, rest: &[LlOp]) -> bool
    ensures { result ≡ spec.numbers_follow (the_plan plan.entry) (Some first.now) rest.now }
{
    let mut before = first;
    for op in rest {
        if !number_follows(plan, before, op) {
            return false;
        }
        before = op;
    }
    true
}

fn all_numbers_follow(plan: Plan<'_>, ops: &[LlOp]) -> bool
    ensures { result ≡ spec.numbers_follow (the_plan plan.entry) None ops.now }
{
    match ops {
        [] => true,
        [first, rest @ ..] => follows_none(plan, first) && numbers_follow(plan, first, rest),
    }
}

// ---- blocks and graphs

fn block_counts(
    alloc: Global,
    plan: Plan<'_>,
    graphs: &[LlGraph],
    kinds: &[LlType],
    block: &LlBlock,
) -> Result<bool, NoMem>
    ensures { IfOk result (λ yes. yes ≡ spec.block_counts (the_plan plan.entry) graphs.now kinds.now block.now) }
{
    let ops = block.ops.as_slice();
    let count = ops_countable(alloc, plan, graphs, kinds, ops)?;
    Ok(are_few(block.inputs.len()) && count && all_numbers_follow(plan, ops))
}

fn blocks_count(
    alloc: Global,
    plan: Plan<'_>,
    graphs: &[LlGraph],
    kinds: &[LlType],
    blocks: &[LlBlock],
) -> Result<bool, NoMem>
    ensures { IfOk result (λ yes. yes ≡ spec.blocks_count (the_plan plan.entry) graphs.now kinds.now blocks.now) }
{
    for block in blocks {
        if !block_counts(alloc, plan, graphs, kinds, block)? {
            return Ok(false);
        }
    }
    Ok(true)
}

fn all_among(vs: &[VarId], ws: &[VarId]) -> bool
    ensures { result ≡ spec.all_among vs.now ws.now }
{
    for v in vs {
        if !among(*v, ws) {
            return false;
        }
    }
    true
}

fn takes_params(graph: &LlGraph) -> bool
    ensures { result ≡ spec.takes_params graph.now.params (slice_get graph.now.blocks 0) }
{
    match graph.blocks.as_slice().first() {
        None => true,
        Some(block) => {
            all_among(graph.params.as_slice(), block.inputs.as_slice())
                && all_among(block.inputs.as_slice(), graph.params.as_slice())
        }
    }
}

fn graph_counts(
    alloc: Global,
    plan: Plan<'_>,
    graphs: &[LlGraph],
    graph: &LlGraph,
) -> Result<bool, NoMem>
    ensures { IfOk result (λ yes. yes ≡ spec.graph_counts (the_plan plan.entry) graphs.now graph.now) }
{
    let kinds = graph.types.as_slice();
    let count = blocks_count(alloc, plan, graphs, kinds, graph.blocks.as_slice())?;
    Ok(takes_params(graph) && count)
}

/// Whether references can be counted, but for inputs of blocks that stand twice.
pub fn graphs_count(
    alloc: Global,
    plan: Plan<'_>,
    all: &[LlGraph],
    graphs: &[LlGraph],
) -> Result<bool, NoMem>
    ensures { IfOk result (λ yes. yes ≡ spec.graphs_count (the_plan plan.entry) all.now graphs.now) }
{
    for graph in graphs {
        if !graph_counts(alloc, plan, all, graph)? {
            return Ok(false);
        }
    }
    Ok(true)
}
