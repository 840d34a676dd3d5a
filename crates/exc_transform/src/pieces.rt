// The pieces of a block. Each call that may raise ends one.
ghost use Rattle.std.specs.Prelude.{◌≡◌, ◌+◌, ◌++◌, is_some, None, IfOk, OnOk};
ghost use Rattle.exc_transform.specs.Explicit as spec;
ghost use Rattle.exc_transform.specs.Pieces as p;

use crate::copies::{copy_link, copy_op};
use crate::live::{as_operands, handler_reads, live_variables};
use crate::raising::{Raising, is_tested};
use crate::slots::{Slots, default_of, push_given, push_raise, push_taken, push_test};
use ll_code::{LlBlock, LlExit, LlLink, LlOp, LlType, VarId};
use rpy_base::{NoMem, Seq};
use std::alloc::Global;

/// What is the same for all blocks of a graph.
#[derive(Clone, Copy)]
pub struct Around<'a> {
    pub raising: Raising<'a>,
    pub slots: Slots<'a>,
    pub result: LlType,
}

/// The sum. A graph with more blocks or variables than a u64 counts does not fit in memory.
pub fn add(n: u64, more: u64) -> Result<u64, NoMem>
    ensures { IfOk result (λ sum. sum ≡ n + more) }
{
    match n.checked_add(more) {
        None => Err(NoMem),
        Some(sum) => Ok(sum),
    }
}

// ---- where a piece ends

/// What an operation does to the piece that it stands in: it goes on, raises, or is a call that may.
#[derive(Clone, Copy)]
pub enum Ending {
    Leaves,
    Raises(VarId),
    Tested,
}

/// Where the piece of the operation ends, if it does.
pub fn ending_of(raising: Raising<'_>, op: &LlOp) -> Ending
    ensures { result ≡ p.ending_of raising.entry.graphs.now raising.entry.any op.now }
{
    match op {
        LlOp::Raise(v) => Ending::Raises(*v),
        _ => {
            if is_tested(raising, op) {
                Ending::Tested
            } else {
                Ending::Leaves
            }
        }
    }
}

/// Whether a piece goes on by the exit's link, since nothing stands between it and that.
pub fn goes_on(rest: &[LlOp], exit: &LlExit) -> bool
    ensures { result ≡ is_some (p.onward rest.now exit.now) }
{
    match exit {
        LlExit::Goto(_) => rest.is_empty(),
        LlExit::OnRaise(_, _, _) => rest.is_empty(),
        _ => false,
    }
}

// ---- exits

// The graph is left by the variable's exception.
fn thrown(around: Around<'_>, v: VarId, ops: &mut Seq<LlOp>) -> Result<LlExit, NoMem>
    ensures ops { OnOk result (ops.new ≡ ops.old ++ spec.raising around.entry.slots.family around.entry.slots.kind v) }
    ensures exit { IfOk result (λ made. made ≡ LlExit.Return (spec.default_of around.entry.result)) }
{
    push_raise(around.slots, v, ops)?;
    Ok(LlExit::Return(default_of(around.result)))
}

// The exit of a block whose last operation raises no exception.
fn left(
    alloc: Global,
    around: Around<'_>,
    exit: &LlExit,
    ops: &mut Seq<LlOp>,
) -> Result<LlExit, NoMem>
    ensures ops { OnOk result (ops.new ≡ ops.old ++ spec.left_ops around.entry.slots.family around.entry.slots.kind exit.now) }
    ensures exit { IfOk result (λ made. made ≡ spec.left_exit around.entry.result exit.now) }
{
    match exit {
        LlExit::Goto(link) => Ok(LlExit::Goto(copy_link(alloc, link)?)),
        LlExit::OnRaise(_, _, link) => Ok(LlExit::Goto(copy_link(alloc, link)?)),
        LlExit::If(v, there, elsewhere) => {
            let there = copy_link(alloc, there)?;
            Ok(LlExit::If(*v, there, copy_link(alloc, elsewhere)?))
        }
        LlExit::Return(x) => Ok(LlExit::Return(*x)),
        LlExit::Raise(v) => thrown(around, *v, ops),
        LlExit::Fail(n) => Ok(LlExit::Fail(*n)),
        LlExit::Raised(v) => Ok(LlExit::Raised(*v)),
    }
}

// The exit of a piece that ends by raising.
fn raised(
    alloc: Global,
    around: Around<'_>,
    v: VarId,
    rest: &[LlOp],
    exit: &LlExit,
    ops: &mut Seq<LlOp>,
) -> Result<LlExit, NoMem>
    ensures ops { OnOk result (ops.new ≡ ops.old ++ spec.raised_ops around.entry.slots.family around.entry.slots.types.now around.entry.slots.kind v rest.now exit.now) }
    ensures exit { IfOk result (λ made. made ≡ spec.way_exit around.entry.result rest.now exit.now) }
{
    match exit {
        LlExit::OnRaise(a, Some(link), _) if rest.is_empty() => {
            push_given(around.slots, *a, v, ops)?;
            Ok(LlExit::Goto(copy_link(alloc, link)?))
        }
        _ => thrown(around, v, ops),
    }
}

// Where the rest stands: in the block behind the one for exceptions.
fn on_rest(
    alloc: Global,
    around: Around<'_>,
    rest: &[LlOp],
    exit: &LlExit,
    way: u64,
) -> Result<LlLink, NoMem>
    ensures { IfOk result (λ made. made ≡ p.on_by (p.around_of around.entry.raising.graphs.now around.entry.raising.any around.entry.slots.family around.entry.slots.types.now around.entry.slots.kind around.entry.slots.test around.entry.result) rest.now exit.now way None) }
{
    let inputs = live_variables(alloc, around.raising, rest, exit)?;
    Ok(LlLink {
        to: add(way, 1)?,
        args: as_operands(alloc, inputs.as_slice())?,
    })
}

// Where a piece goes on.
fn on(
    alloc: Global,
    around: Around<'_>,
    rest: &[LlOp],
    exit: &LlExit,
    way: u64,
) -> Result<LlLink, NoMem>
    ensures { IfOk result (λ made. made ≡ p.on (p.around_of around.entry.raising.graphs.now around.entry.raising.any around.entry.slots.family around.entry.slots.types.now around.entry.slots.kind around.entry.slots.test around.entry.result) rest.now exit.now way) }
{
    match exit {
        LlExit::Goto(link) if rest.is_empty() => copy_link(alloc, link),
        LlExit::OnRaise(_, _, link) if rest.is_empty() => copy_link(alloc, link),
        _ => on_rest(alloc, around, rest, exit, way),
    }
}

// The exit of a piece that ends with a call that may raise.
fn tested(
    alloc: Global,
    around: Around<'_>,
    rest: &[LlOp],
    exit: &LlExit,
    way: u64,
    ops: &mut Seq<LlOp>,
) -> Result<LlExit, NoMem>
    ensures ops { OnOk result (ops.new ≡ ops.old ++ spec.testing around.entry.slots.family around.entry.slots.kind around.entry.slots.test) }
    ensures exit { IfOk result (λ made. made ≡ p.test_exit (p.around_of around.entry.raising.graphs.now around.entry.raising.any around.entry.slots.family around.entry.slots.types.now around.entry.slots.kind around.entry.slots.test around.entry.result) rest.now exit.now way) }
{
    push_test(around.slots, ops)?;
    let on = on(alloc, around, rest, exit, way)?;
    let inputs = handler_reads(alloc, rest, exit)?;
    let way = LlLink {
        to: way,
        args: as_operands(alloc, inputs.as_slice())?,
    };
    Ok(LlExit::If(around.slots.test, on, way))
}

// ---- blocks

// The operations of the first piece, and how it ends.
fn exit_of(
    alloc: Global,
    around: Around<'_>,
    given: &[LlOp],
    exit: &LlExit,
    way: u64,
    ops: &mut Seq<LlOp>,
) -> Result<LlExit, NoMem>
    ensures ops { OnOk result (ops.new ≡ ops.old ++ p.piece_ops (p.around_of around.entry.raising.graphs.now around.entry.raising.any around.entry.slots.family around.entry.slots.types.now around.entry.slots.kind around.entry.slots.test around.entry.result) given.now exit.now) }
    ensures exit { IfOk result (λ made. made ≡ p.piece_exit (p.around_of around.entry.raising.graphs.now around.entry.raising.any around.entry.slots.family around.entry.slots.types.now around.entry.slots.kind around.entry.slots.test around.entry.result) given.now exit.now way) }
{
    let mut rest = given;
    while let [op, others @ ..] = rest {
        match ending_of(around.raising, op) {
            Ending::Raises(v) => return raised(alloc, around, v, others, exit, ops),
            Ending::Tested => {
                ops.push(copy_op(alloc, op)?)?;
                return tested(alloc, around, others, exit, way, ops);
            }
            Ending::Leaves => ops.push(copy_op(alloc, op)?)?,
        }
        rest = others;
    }
    left(alloc, around, exit, ops)
}

/// The first piece of these operations and the exit. The block for its exceptions, if it has one, has
/// the number `way`.
pub fn piece(
    alloc: Global,
    around: Around<'_>,
    inputs: Seq<VarId>,
    given: &[LlOp],
    exit: &LlExit,
    way: u64,
) -> Result<LlBlock, NoMem>
    ensures { IfOk result (λ made. made ≡ p.piece (p.around_of around.entry.raising.graphs.now around.entry.raising.any around.entry.slots.family around.entry.slots.types.now around.entry.slots.kind around.entry.slots.test around.entry.result) inputs given.now exit.now way) }
{
    let mut ops = Seq::new(alloc);
    let exit = exit_of(alloc, around, given, exit, way, &mut ops)?;
    Ok(LlBlock { inputs, ops, exit })
}

// What it does first.
fn way_ops(
    alloc: Global,
    around: Around<'_>,
    rest: &[LlOp],
    exit: &LlExit,
) -> Result<Seq<LlOp>, NoMem>
    ensures { IfOk result (λ made. made ≡ spec.way_ops around.entry.slots.family around.entry.slots.types.now rest.now exit.now) }
{
    let mut ops = Seq::new(alloc);
    match exit {
        LlExit::OnRaise(a, Some(_), _) if rest.is_empty() => {
            push_taken(around.slots, *a, &mut ops)?;
            Ok(ops)
        }
        _ => Ok(ops),
    }
}

// Where it goes.
fn way_exit(
    alloc: Global,
    around: Around<'_>,
    rest: &[LlOp],
    exit: &LlExit,
) -> Result<LlExit, NoMem>
    ensures { IfOk result (λ made. made ≡ spec.way_exit around.entry.result rest.now exit.now) }
{
    match exit {
        LlExit::OnRaise(_, Some(link), _) if rest.is_empty() => {
            Ok(LlExit::Goto(copy_link(alloc, link)?))
        }
        _ => Ok(LlExit::Return(default_of(around.result))),
    }
}

/// The block for the exceptions of a call that these operations follow: it catches them, or leaves the
/// graph.
pub fn way_of(
    alloc: Global,
    around: Around<'_>,
    rest: &[LlOp],
    exit: &LlExit,
) -> Result<LlBlock, NoMem>
    ensures { IfOk result (λ made. made ≡ p.way_block (p.around_of around.entry.raising.graphs.now around.entry.raising.any around.entry.slots.family around.entry.slots.types.now around.entry.slots.kind around.entry.slots.test around.entry.result) rest.now exit.now) }
{
    Ok(LlBlock {
        inputs: handler_reads(alloc, rest, exit)?,
        ops: way_ops(alloc, around, rest, exit)?,
        exit: way_exit(alloc, around, rest, exit)?,
    })
}
