// What the rest of a block reads before it sets it, each variable once.
ghost use Rattle.std.specs.Prelude.{◌≡◌, [], ◌∷◌, IfOk, OnOk};
ghost use Rattle.ll_live.specs.Live.{reads, variables_in};
ghost use Rattle.rtyper_program.specs.Live as spec;

use csub_tree::COperand;
use ll_code::{LlOp, VarId};
use ll_live::{among, push_operands, push_reads, set_by};
use rpy_base::{NoMem, Seq};
use std::alloc::Global;

fn push_one(v: VarId, set: &[VarId], into: &mut Seq<VarId>) -> Result<(), NoMem>
    ensures { OnOk result (into.new ≡ spec.with_one v set.now into.old) }
{
    if !among(v, set) && !among(v, into.as_slice()) {
        into.push(v)?;
    }
    Ok(())
}

// The variables that are not set and are not there.
fn push_new(variables: &[VarId], set: &[VarId], into: &mut Seq<VarId>) -> Result<(), NoMem>
    ensures { OnOk result (into.new ≡ spec.with_new variables.now set.now into.old) }
{
    for v in variables {
        push_one(*v, set, into)?;
    }
    Ok(())
}

/// The variables of operands that are not among these, each once.
pub fn push_variables(
    alloc: Global,
    xs: &[COperand],
    set: &[VarId],
    into: &mut Seq<VarId>,
) -> Result<(), NoMem>
    ensures { OnOk result (into.new ≡ spec.with_new (variables_in xs.now) set.now into.old) }
{
    let mut variables = Seq::new(alloc);
    push_operands(xs, &mut variables)?;
    push_new(variables.as_slice(), set, into)
}

fn push_read(alloc: Global, op: &LlOp, set: &[VarId], into: &mut Seq<VarId>) -> Result<(), NoMem>
    ensures { OnOk result (into.new ≡ spec.with_new (reads op.now) set.now into.old) }
{
    let mut variables = Seq::new(alloc);
    push_reads(op, &mut variables)?;
    push_new(variables.as_slice(), set, into)
}

fn push_set(a: Option<VarId>, set: &mut Seq<VarId>) -> Result<(), NoMem>
    ensures { OnOk result (set.new ≡ spec.with_set a set.old) }
{
    match a {
        None => Ok(()),
        Some(a) => set.push(a),
    }
}

fn push_live(
    alloc: Global,
    ops: &[LlOp],
    further: &[COperand],
    met: &mut Seq<VarId>,
) -> Result<(), NoMem>
    ensures { OnOk result (met.new ≡ spec.live_from ops.now further.now [] met.old) }
{
    let mut set = Seq::new(alloc);
    for op in ops {
        push_read(alloc, op, set.as_slice(), met)?;
        push_set(set_by(op), &mut set)?;
    }
    push_variables(alloc, further, set.as_slice(), met)
}

/// The variables that these links pass on, and those that the operations before them read before they
/// set them. Where an operation may raise, the first link is taken from there.
#[tactic(auto, unfolding(crate::specs::Live::live))]
pub fn live(
    alloc: Global,
    ops: &[LlOp],
    by: &[COperand],
    further: &[COperand],
) -> Result<Seq<VarId>, NoMem>
    ensures { IfOk result (λ variables. variables ≡ spec.live ops.now by.now further.now) }
{
    let mut met = Seq::new(alloc);
    push_variables(alloc, by, &[], &mut met)?;
    push_live(alloc, ops, further, &mut met)?;
    Ok(met)
}

/// The variables as operands.
pub fn as_operands(alloc: Global, variables: &[VarId]) -> Result<Seq<COperand>, NoMem>
    ensures { IfOk result (λ xs. xs ≡ spec.operands variables.now) }
{
    let mut xs = Seq::new(alloc);
    for v in variables {
        xs.push(COperand::Var(*v))?;
    }
    Ok(xs)
}
