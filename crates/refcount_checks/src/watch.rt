// Each block of a graph has its inputs once, and reads nothing but these and what it sets itself. One pass over
// the blocks: a variable that is known to be set bears the number of the block.
ghost use Rattle.std.specs.Prelude.{◌≡◌, ◌∷◌, [], IfOk, OnOk};
ghost use Rattle.refcount_checks.specs.Watch as spec;

use ll_code::{LlBlock, LlExit, LlGraph, LlOp, LlType, VarId};
use ll_live::{push_exit_reads, push_reads, set_by};
use rpy_base::{NoMem, Seq};
use std::alloc::Global;

/// The number of the block that is read, from 1; for each variable the last block in which it was set;
/// and whether all that was read so far was known.
#[derive(Drop)]
pub struct Watch {
    pub block: u64,
    pub marks: Seq<u64>,
    pub ok: bool,
}

fn is_known(w: &Watch, v: VarId) -> bool
    ensures { result ≡ spec.is_known w.now v }
{
    match w.marks.as_slice().get(v as usize) {
        None => false,
        Some(mark) => *mark == w.block,
    }
}

fn and_so(w: &mut Watch, b: bool)
    ensures { w.new ≡ spec.and_so b w.old }
{
    w.ok = w.ok && b;
}

fn learn(w: &mut Watch, v: VarId)
    ensures { w.new ≡ spec.learn v w.old }
{
    let at = v as usize;
    let block = w.block;
    if at < w.marks.len() {
        w.marks.set(at, block);
    }
}

fn ask(w: &mut Watch, vs: &[VarId])
    ensures { w.new ≡ spec.ask vs.now w.old }
{
    for v in vs {
        let known = is_known(w, *v);
        and_so(w, known);
    }
}

fn enter_one(w: &mut Watch, v: VarId)
    ensures { w.new ≡ spec.enter (v ∷ []) w.old }
{
    let fresh = (v as usize) < w.marks.len() && !is_known(w, v);
    and_so(w, fresh);
    learn(w, v);
}

fn enter(w: &mut Watch, vs: &[VarId])
    ensures { w.new ≡ spec.enter vs.now w.old }
{
    for v in vs {
        enter_one(w, *v);
    }
}

fn run_op(alloc: Global, w: &mut Watch, op: &LlOp) -> Result<(), NoMem>
    ensures { OnOk result (w.new ≡ spec.run_ops (op.now ∷ []) w.old) }
{
    let mut reads = Seq::new(alloc);
    push_reads(op, &mut reads)?;
    ask(w, reads.as_slice());
    if let Some(v) = set_by(op) {
        learn(w, v);
    }
    Ok(())
}

fn run_ops(alloc: Global, w: &mut Watch, ops: &[LlOp]) -> Result<(), NoMem>
    ensures { OnOk result (w.new ≡ spec.run_ops ops.now w.old) }
{
    for op in ops {
        run_op(alloc, w, op)?;
    }
    Ok(())
}

fn catches_none(exit: &LlExit) -> bool
    ensures { result ≡ spec.catches_none exit.now }
{
    match exit {
        LlExit::OnRaise(_, _, _) => false,
        _ => true,
    }
}

// A graph with more blocks than a u64 counts does not fit in memory.
fn next(w: &mut Watch) -> Result<(), NoMem>
    ensures { OnOk result (w.new ≡ spec.next w.old) }
{
    match w.block.checked_add(1) {
        None => Err(NoMem),
        Some(block) => {
            w.block = block;
            Ok(())
        }
    }
}

fn run_block(alloc: Global, w: &mut Watch, block: &LlBlock) -> Result<(), NoMem>
    ensures { OnOk result (w.new ≡ spec.run_block block.now w.old) }
{
    next(w)?;
    enter(w, block.inputs.as_slice());
    run_ops(alloc, w, block.ops.as_slice())?;
    let mut reads = Seq::new(alloc);
    push_exit_reads(&block.exit, &mut reads)?;
    ask(w, reads.as_slice());
    and_so(w, catches_none(&block.exit));
    Ok(())
}

fn run_blocks(alloc: Global, w: &mut Watch, blocks: &[LlBlock]) -> Result<(), NoMem>
    ensures { OnOk result (w.new ≡ spec.run_blocks blocks.now w.old) }
{
    for block in blocks {
        run_block(alloc, w, block)?;
    }
    Ok(())
}

fn begin(alloc: Global, types: &[LlType]) -> Result<Watch, NoMem>
    ensures { IfOk result (λ w. w ≡ spec.begin types.now) }
{
    let mut marks = Seq::new(alloc);
    for _ in types {
        marks.push(0)?;
    }
    Ok(Watch {
        block: 0,
        marks,
        ok: true,
    })
}

fn graph_reads_known(alloc: Global, graph: &LlGraph) -> Result<bool, NoMem>
    ensures { IfOk result (λ yes. yes ≡ spec.graph_reads_known graph.now) }
{
    let mut w = begin(alloc, graph.types.as_slice())?;
    run_blocks(alloc, &mut w, graph.blocks.as_slice())?;
    Ok(w.ok)
}

/// Whether each block has its inputs once, reads these alone and what it sets itself, and catches no
/// exception.
pub fn graphs_read_known(alloc: Global, graphs: &[LlGraph]) -> Result<bool, NoMem>
    ensures { IfOk result (λ yes. yes ≡ spec.graphs_read_known graphs.now) }
{
    for graph in graphs {
        if !graph_reads_known(alloc, graph)? {
            return Ok(false);
        }
    }
    Ok(true)
}
