// Blocks that are cut behind what may raise.
ghost use Rattle.std.specs.Prelude.{◌≡◌, [], IfOk, OnOk, reverse};
ghost use Rattle.rtyper_layout.specs.Types.{root_of};
ghost use Rattle.rtyper_data.specs.Seen.{writing};
ghost use Rattle.rtyper_program.specs.Cuts as spec;
ghost use Rattle.rtyper_program.specs.Cuts.{Cuts};
ghost use Rattle.rtyper_program.specs.Handlers.{work, Works, Adds};
ghost use Rattle.rtyper_class.specs.Seen.{the_world, laid};
ghost use Rattle.rtyper_program.specs.Seen.{the_lowered};

use crate::extra::{Extra, push_block};
use crate::handlers::push_taken;
use crate::links::{Caught, Lowered, link_of};
use crate::live::{as_operands, live, push_variables};
use crate::raising::is_covered;
use csub_tree::COperand;
use flow_graph::{Link, VarId};
use ll_code::{LlBlock, LlExit, LlLink, LlOp, LlType};
use rpy_base::{NoMem, Seq};
use rpy_tree::ClassId;
use rtyper_data::{Around, Body, Found, Keyed, Listed, Small};
use std::alloc::Global;
use std::mem;

// ---- what may raise

fn small_raises(small: Small) -> bool
    ensures { result ≡ spec.small_raises small }
{
    match small {
        Small::Fail(raises) | Small::Present(_, raises) | Small::Attribute(_, _, raises) => raises,
        Small::Raise(_) | Small::Checked(_, _) | Small::CheckedNeg | Small::IntOfText => true,
        Small::Listed(Listed::Place(_, raises)) => raises,
        Small::Keyed(Keyed::Entry(_)) => true,
        Small::Listed(_)
        | Small::Keyed(_)
        | Small::Cast(_, _)
        | Small::Equal(_, _)
        | Small::New(_)
        | Small::IsInstance(_, _, _, _) => false,
    }
}

// Whether the graph of a helper, or a small graph, may raise. While it is only found what a program asks
// for, the numbers of graphs mean nothing yet.
#[tactic(auto, unfolding(crate::specs::Cuts::graph_raises))]
fn graph_raises(found: &Found, number: u64) -> bool
    ensures { result ≡ spec.graph_raises found.now number }
{
    if found.first_small == 0 {
        return true;
    }
    if let Some(caught) = found.caught.get(number as usize) {
        return is_covered(*caught);
    }
    if number < found.first_small {
        return true;
    }
    match found.smalls.get((number - found.first_small) as usize) {
        None => true,
        Some(small) => small_raises(*small),
    }
}

fn may_raise(found: &Found, op: &LlOp) -> bool
    ensures { result ≡ spec.may_raise found.now op.now }
{
    match op {
        LlOp::Call(_, number, _) => graph_raises(found, *number),
        LlOp::CallFn(_, _, _, _, _) | LlOp::Raise(_) => true,
        _ => false,
    }
}

// Whether one of the operations behind the first so many may raise.
fn any_raises(found: &Found, least: usize, ops: &[LlOp]) -> bool
    ensures { result ≡ spec.any_raises found.now least ops.now }
{
    let mut least = least;
    for op in ops {
        if least == 0 && may_raise(found, op) {
            return true;
        }
        least = least.saturating_sub(1);
    }
    false
}

// ---- pieces

/// Pieces that each end with an operation that may raise, and what is left behind the last.
#[derive(Drop)]
pub struct Pieces {
    pub ended: Seq<Seq<LlOp>>,
    pub left: Seq<LlOp>,
}

fn push_op(alloc: Global, op: LlOp, ends: bool, pieces: &mut Pieces) -> Result<(), NoMem>
    ensures { OnOk result (pieces.new ≡ spec.with_piece op ends pieces.old) }
{
    pieces.left.push(op)?;
    if ends {
        let piece = mem::replace(&mut pieces.left, Seq::new(alloc));
        pieces.ended.push(piece)?;
    }
    Ok(())
}

// The same operations, in the opposite order.
#[tactic(auto, using(crate::proofs::Turns::last_first))]
fn turned(alloc: Global, ops: Seq<LlOp>) -> Result<Seq<LlOp>, NoMem>
    ensures { IfOk result (λ made. made ≡ reverse ops) }
{
    let mut left = ops;
    let mut made = Seq::new(alloc);
    while let Some(op) = left.pop() {
        made.push(op)?;
    }
    Ok(made)
}

#[tactic(auto, using(crate::proofs::Turns::next_piece), unfolding(crate::specs::Cuts::pieces_of))]
fn pieces_of(alloc: Global, found: &Found, least: usize, ops: Seq<LlOp>) -> Result<Pieces, NoMem>
    ensures { IfOk result (λ pieces. pieces ≡ spec.pieces_of found.now least ops) }
{
    let mut left = turned(alloc, ops)?;
    let mut least = least;
    let mut pieces = Pieces {
        ended: Seq::new(alloc),
        left: Seq::new(alloc),
    };
    while let Some(op) = left.pop() {
        let ends = least == 0 && may_raise(found, &op);
        push_op(alloc, op, ends, &mut pieces)?;
        least = least.saturating_sub(1);
    }
    Ok(pieces)
}

// ---- blocks of pieces

fn copied(alloc: Global, link: &LlLink) -> Result<LlLink, NoMem>
    ensures { IfOk result (λ made. made ≡ link.now) }
{
    let args = Vec::from_slice(alloc, link.args.as_slice())?;
    Ok(LlLink {
        to: link.to,
        args: Seq::from_vec(args),
    })
}

fn on_raise_to(alloc: Global, v: VarId, by: &LlLink, next: LlLink) -> Result<LlExit, NoMem>
    ensures { IfOk result (λ exit. exit ≡ spec.on_raise_to v by.now next) }
{
    Ok(LlExit::OnRaise(v, Some(copied(alloc, by)?), next))
}

// The variables that a link passes on, but for the exception.
fn passed_by(alloc: Global, by: &LlLink, v: VarId) -> Result<Seq<COperand>, NoMem>
    ensures { IfOk result (λ xs. xs ≡ spec.passed_by by.now v) }
{
    let mut variables = Seq::new(alloc);
    push_variables(alloc, by.args.as_slice(), &[v], &mut variables)?;
    as_operands(alloc, variables.as_slice())
}

// A block of the operations before a link, and the link to that.
fn push_tail(
    alloc: Global,
    ops: Seq<LlOp>,
    next: LlLink,
    extra: &mut Extra,
) -> Result<LlLink, NoMem>
    ensures { IfOk result (λ made. Adds (spec.tail ops next extra.old) made extra.new) }
{
    if ops.as_slice().is_empty() {
        return Ok(next);
    }
    let inputs = live(alloc, ops.as_slice(), &[], next.args.as_slice())?;
    let exit = LlExit::Goto(next);
    push_block(alloc, LlBlock { inputs, ops, exit }, extra)
}

// A block whose last operation may raise, and the link to that.
#[tactic(auto, unfolding(crate::specs::Cuts::piece))]
fn push_piece(
    alloc: Global,
    v: VarId,
    by: &LlLink,
    ops: Seq<LlOp>,
    next: LlLink,
    extra: &mut Extra,
) -> Result<LlLink, NoMem>
    ensures { IfOk result (λ made. Adds (spec.piece v by.now ops (next, extra.old)) made extra.new) }
{
    let passed = passed_by(alloc, by, v)?;
    let further = next.args.as_slice();
    let inputs = live(alloc, ops.as_slice(), passed.as_slice(), further)?;
    let exit = on_raise_to(alloc, v, by, next)?;
    push_block(alloc, LlBlock { inputs, ops, exit }, extra)
}

// The first piece ends the block that is being written, and each of the others has a block: these are made
// from the last one on.
#[tactic(auto, using(crate::proofs::Turns::last_piece, crate::proofs::Turns::only_piece))]
fn cut_into(
    alloc: Global,
    v: VarId,
    by: &LlLink,
    pieces: Seq<Seq<LlOp>>,
    next: LlLink,
    body: &mut Body,
    extra: &mut Extra,
) -> Result<LlExit, NoMem>
    ensures { IfOk result (λ exit. Cuts (spec.cut_into v by.now pieces (next, extra.old) body.old) exit body.new extra.new) }
{
    let mut left = pieces;
    let mut next = next;
    while let Some(ops) = left.pop() {
        if left.as_slice().is_empty() {
            body.ops = ops;
            return on_raise_to(alloc, v, by, next);
        }
        next = push_piece(alloc, v, by, ops, next, extra)?;
    }
    Ok(LlExit::Goto(next))
}

fn cut_as(
    alloc: Global,
    v: VarId,
    by: &LlLink,
    last: LlLink,
    pieces: Pieces,
    body: &mut Body,
    extra: &mut Extra,
) -> Result<LlExit, NoMem>
    ensures { IfOk result (λ exit. Cuts (spec.cut_as v by.now last pieces body.old extra.old) exit body.new extra.new) }
{
    let Pieces { ended, left } = pieces;
    if ended.as_slice().is_empty() {
        body.ops = left;
        return Ok(LlExit::Goto(last));
    }
    let next = push_tail(alloc, left, last, extra)?;
    cut_into(alloc, v, by, ended, next, body, extra)
}

// Each operation behind the first so many that may raise ends a block, and its exception takes the link;
// the first of them ends the block that is being written.
#[tactic(auto, unfolding(crate::specs::Cuts::cut))]
fn cut(
    alloc: Global,
    v: VarId,
    by: &LlLink,
    last: LlLink,
    least: usize,
    found: &Found,
    body: &mut Body,
    extra: &mut Extra,
) -> Result<LlExit, NoMem>
    ensures { IfOk result (λ exit. Cuts (spec.cut v by.now last least found.now body.old extra.old) exit body.new extra.new) }
{
    let ops = mem::replace(&mut body.ops, Seq::new(alloc));
    let pieces = pieces_of(alloc, found, least, ops)?;
    cut_as(alloc, v, by, last, pieces, body, extra)
}

// ---- exits

fn exception_type(around: Around<'_>) -> LlType
    ensures { result ≡ root_of (laid (the_world around.entry) 0) }
{
    match around.layout.laid(0) {
        None => LlType::Void,
        Some(laid) => LlType::Ptr(laid.root),
    }
}

fn raised(
    alloc: Global,
    lowered: Lowered<'_>,
    v: VarId,
    hands: &[(ClassId, Link)],
    by: &Option<Link>,
    last: LlLink,
    least: usize,
    found: &mut Found,
    body: &mut Body,
    extra: &mut Extra,
) -> Result<LlExit, NoMem>
    ensures { IfOk result (λ exit. Works (spec.raised_before (the_lowered lowered.entry) v hands.now by.now least extra.old (last, writing found.old body.old)) exit found.new body.new extra.new) }
{
    let kind = exception_type(lowered.around);
    let exception = body.fresh(kind)?;
    let caught = Caught {
        variable: v,
        exception,
        kind,
    };
    let taken = push_taken(alloc, lowered, caught, hands, by, found, body, extra)?;
    cut(alloc, exception, &taken, last, least, found, body, extra)
}

/// An exit by the exceptions of the operations behind the first so many.
#[tactic(auto, unfolding(crate::specs::Cuts::on_raise))]
pub fn on_raise(
    alloc: Global,
    lowered: Lowered<'_>,
    v: VarId,
    hands: &[(ClassId, Link)],
    by: &Option<Link>,
    without: &Link,
    least: usize,
    found: &mut Found,
    body: &mut Body,
    extra: &mut Extra,
) -> Result<LlExit, NoMem>
    ensures { IfOk result (λ exit. Works (spec.on_raise (the_lowered lowered.entry) v hands.now by.now without.now least (work (writing found.old body.old) extra.old)) exit found.new body.new extra.new) }
{
    let is_raised = any_raises(found, least, body.ops.as_slice());
    let last = link_of(alloc, lowered, without, None, found, body)?;
    if !is_raised {
        return Ok(LlExit::Goto(last));
    }
    raised(
        alloc, lowered, v, hands, by, last, least, found, body, extra,
    )
}
