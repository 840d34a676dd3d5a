// What the rest of a block reads before it sets it, each variable once.
ghost use Rattle.std.specs.Prelude.{◌≡◌, [], ◌∷◌, ◌++◌, IfOk, OnOk};
ghost use Rattle.ll_live.specs.Live as live;
ghost use Rattle.exc_transform.specs.Live as spec;

use crate::raising::{Raising, may_raise};
use csub_tree::COperand;
use ll_code::{LlExit, LlLink, LlOp, VarId};
use ll_live::{among, push_exit_reads, push_operands, push_reads, set_by};
use rpy_base::{NoMem, Seq};
use std::alloc::Global;

// ---- what is live

// The variables that are in neither list.
fn push_new(variables: &[VarId], set: &[VarId], into: &mut Seq<VarId>) -> Result<(), NoMem>
    ensures { OnOk result (into.new ≡ spec.new_ones variables.now set.now into.old) }
{
    for v in variables {
        if !among(*v, set) && !among(*v, into.as_slice()) {
            into.push(*v)?;
        }
    }
    Ok(())
}

// What a link reads but the variable.
fn read_behind(alloc: Global, a: VarId, link: &LlLink) -> Result<Seq<VarId>, NoMem>
    ensures { IfOk result (λ made. made ≡ spec.read_behind a link.now) }
{
    let mut reads = Seq::new(alloc);
    push_operands(link.args.as_slice(), &mut reads)?;
    let mut live = Seq::new(alloc);
    push_new(reads.as_slice(), &[a], &mut live)?;
    Ok(live)
}

/// What an exit reads where the operation before the others raised an exception, which it takes.
pub fn handler_reads(alloc: Global, rest: &[LlOp], exit: &LlExit) -> Result<Seq<VarId>, NoMem>
    ensures { IfOk result (λ made. made ≡ spec.handler_reads rest.now exit.now) }
{
    match exit {
        LlExit::OnRaise(a, Some(link), _) if rest.is_empty() => read_behind(alloc, *a, link),
        _ => Ok(Seq::new(alloc)),
    }
}

// What the exit reads; by an exception only where the last operation may raise one.
fn exit_reads(alloc: Global, raises: bool, exit: &LlExit) -> Result<Seq<VarId>, NoMem>
    ensures { IfOk result (λ made. made ≡ spec.exit_reads raises exit.now) }
{
    let mut reads = if raises {
        handler_reads(alloc, &[], exit)?
    } else {
        Seq::new(alloc)
    };
    push_exit_reads(exit, &mut reads)?;
    Ok(reads)
}

// What an operation reads that is not set, behind what is read so far.
fn push_live(alloc: Global, op: &LlOp, set: &[VarId], into: &mut Seq<VarId>) -> Result<(), NoMem>
    ensures { OnOk result (into.new ≡ spec.new_ones (live.reads op.now) set.now into.old) }
{
    let mut reads = Seq::new(alloc);
    push_reads(op, &mut reads)?;
    push_new(reads.as_slice(), set, into)
}

// The variable that an operation sets, behind those that are set.
fn push_set(op: &LlOp, set: &mut Seq<VarId>) -> Result<(), NoMem>
    ensures { OnOk result (set.new ≡ spec.and_this set.old (live.set_by op.now)) }
{
    match set_by(op) {
        None => Ok(()),
        Some(a) => set.push(a),
    }
}

/// What operations and the exit behind them read before they set it.
pub fn live_variables(
    alloc: Global,
    raising: Raising<'_>,
    ops: &[LlOp],
    exit: &LlExit,
) -> Result<Seq<VarId>, NoMem>
    ensures { IfOk result (λ made. made ≡ spec.live raising.entry.graphs.now raising.entry.any ops.now exit.now) }
{
    let mut set = Seq::new(alloc);
    let mut live = Seq::new(alloc);
    let mut raises = false;
    for op in ops {
        push_live(alloc, op, set.as_slice(), &mut live)?;
        push_set(op, &mut set)?;
        raises = may_raise(raising, op);
    }
    let reads = exit_reads(alloc, raises, exit)?;
    push_new(reads.as_slice(), set.as_slice(), &mut live)?;
    Ok(live)
}

/// The variables as operands.
pub fn as_operands(alloc: Global, variables: &[VarId]) -> Result<Seq<COperand>, NoMem>
    ensures { IfOk result (λ made. made ≡ spec.as_operands variables.now) }
{
    let mut xs = Seq::new(alloc);
    for v in variables {
        xs.push(COperand::Var(*v))?;
    }
    Ok(xs)
}
