// The blocks of a graph. They keep their numbers, and variables keep theirs.
ghost use Rattle.std.specs.Prelude.{◌≡◌, IfOk, OnOk, map};
ghost use Rattle.rtyper_data.specs.Seen.{the_operands, the_place, writing, Gives, Leaves};
ghost use Rattle.rtyper_class.specs.Seen.{the_world};
ghost use Rattle.rtyper_program.specs.Blocks as spec;
ghost use Rattle.rtyper_program.specs.Handlers.{work, Works};
ghost use Rattle.rtyper_program.specs.Seen as seen;
ghost use Rattle.rtyper_program.specs.Seen.{the_lowered};

use crate::cuts::on_raise;
use crate::exits::catches;
use crate::extra::Extra;
use crate::links::{Lowered, branch, give_back, link_of, operand_of, place_of, type_at, typed};
use flow_graph::{Block, Exit, Op, VarId};
use ll_code::{LlBlock, LlExit, LlType};
use rpy_base::{NoMem, Seq};
use rpy_meaning::RowOp;
use rtyper_class::lower_class_op;
use rtyper_data::{Around, Body, Found, NOTHING, Operand, Place};
use rtyper_dict::{is_dict_op, lower_dict_op};
use std::alloc::Global;
use std::mem;

// ---- operations

fn operands_of<'a>(
    alloc: Global,
    lowered: Lowered<'a>,
    variables: &[VarId],
) -> Result<Vec<Operand<'a>>, NoMem>
    ensures { IfOk result (λ args. the_operands args.items ≡ map (seen.operand_of (the_lowered lowered.entry)) variables.now) }
{
    let mut args = Vec::new(alloc);
    for v in variables {
        args.push(operand_of(lowered, *v))?;
    }
    Ok(args)
}

fn push_lowered(
    alloc: Global,
    around: Around<'_>,
    op: &RowOp,
    place: Place<'_>,
    args: &[Operand<'_>],
    found: &mut Found,
    body: &mut Body,
) -> Result<(), NoMem>
    ensures { OnOk result (Leaves (spec.lowered (the_world around.entry) op.now (the_place place.entry) (the_operands args.now) (writing found.old body.old)) found.new body.new) }
{
    if is_dict_op(op, args) {
        return lower_dict_op(alloc, around, op, place, args, found, body);
    }
    lower_class_op(alloc, around, op, place, args, found, body)
}

#[tactic(auto, unfolding(crate::specs::Blocks::op_of))]
fn push_op(
    alloc: Global,
    lowered: Lowered<'_>,
    op: &Op,
    found: &mut Found,
    body: &mut Body,
) -> Result<(), NoMem>
    ensures { OnOk result (Leaves (spec.op_of (the_lowered lowered.entry) op.now (writing found.old body.old)) found.new body.new) }
{
    let args = operands_of(alloc, lowered, op.args.as_slice())?;
    let place = place_of(lowered, op.result);
    found.covered = op.covered;
    push_lowered(alloc, lowered.around, &op.op, place, &args, found, body)?;
    found.covered = NOTHING;
    Ok(())
}

// How many operations stand before those of the last operation of the block.
fn push_ops(
    alloc: Global,
    lowered: Lowered<'_>,
    ops: &[Op],
    found: &mut Found,
    body: &mut Body,
) -> Result<usize, NoMem>
    ensures { IfOk result (λ least. Gives (spec.ops_of (the_lowered lowered.entry) ops.now (writing found.old body.old)) least found.new body.new) }
{
    let mut least = body.ops.len();
    for op in ops {
        least = body.ops.len();
        push_op(alloc, lowered, op, found, body)?;
    }
    Ok(least)
}

// ---- exits

// Nothing goes on from here. No run comes here.
fn never() -> LlExit
    ensures { result ≡ spec.never }
{
    LlExit::Fail(4)
}

// No exception comes to a variable without a type.
fn raise_as(v: VarId, kind: LlType) -> LlExit
    ensures { result ≡ spec.raise_as v kind }
{
    match kind {
        LlType::Void => never(),
        _ => LlExit::Raise(v),
    }
}

#[tactic(auto, unfolding(crate::specs::Blocks::exit_of))]
fn exit_of(
    alloc: Global,
    lowered: Lowered<'_>,
    exit: &Exit,
    least: usize,
    found: &mut Found,
    body: &mut Body,
    extra: &mut Extra,
) -> Result<LlExit, NoMem>
    ensures { IfOk result (λ made. Works (spec.exit_of (the_lowered lowered.entry) exit.now least (work (writing found.old body.old) extra.old)) made found.new body.new extra.new) }
{
    match exit {
        Exit::Goto(link) => Ok(LlExit::Goto(link_of(alloc, lowered, link, None, found, body)?)),
        Exit::If(v, there, elsewhere) => {
            branch(alloc, lowered, *v, there, elsewhere, found, body)
        }
        Exit::OnRaise(v, hands, by, without) => {
            if !catches(lowered.graph, hands.as_slice(), by) {
                return Ok(LlExit::Goto(link_of(alloc, lowered, without, None, found, body)?));
            }
            let hands = hands.as_slice();
            on_raise(
                alloc, lowered, *v, hands, by, without, least, found, body, extra,
            )
        }
        Exit::Return(v) => give_back(alloc, lowered, *v, found, body),
        Exit::Raise(v) => Ok(raise_as(*v, type_at(lowered, *v))),
    }
}

// ---- blocks

/// A block that is reached, behind the operations that stand in the body.
#[tactic(auto, unfolding(crate::specs::Blocks::block_of))]
pub fn block_of(
    alloc: Global,
    lowered: Lowered<'_>,
    block: &Block,
    found: &mut Found,
    body: &mut Body,
    extra: &mut Extra,
) -> Result<LlBlock, NoMem>
    ensures { IfOk result (λ made. Works (spec.block_of (the_lowered lowered.entry) block.now (work (writing found.old body.old) extra.old)) made found.new body.new extra.new) }
{
    let least = push_ops(alloc, lowered, block.ops.as_slice(), found, body)?;
    let exit = exit_of(alloc, lowered, &block.exit, least, found, body, extra)?;
    let inputs = typed(alloc, lowered, block.inputs.as_slice())?;
    let ops = mem::replace(&mut body.ops, Seq::new(alloc));
    Ok(LlBlock { inputs, ops, exit })
}

/// A block that is not reached.
pub fn dead_block(alloc: Global) -> LlBlock
    ensures { result ≡ spec.dead_block }
{
    LlBlock {
        inputs: Seq::new(alloc),
        ops: Seq::new(alloc),
        exit: never(),
    }
}
