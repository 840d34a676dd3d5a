// A call that reaches several functions is met function by function, and two by two. Asking all of it anew
// after each step would take the cube of their number. Two that share all are compared, and not asked.
ghost use Rattle.std.specs.Prelude.{◌≡◌, IfErr, OnOk};
ghost use Rattle.ann_needs.specs.View.{assignment, whole};
ghost use Rattle.ann_grown.specs.Partial.{Keeps};
ghost use Rattle.ann_meets.specs.Steps.{spots_in, Stopped};

use crate::block::are_one;
use crate::grow::grow_part;
use crate::meet::News;
use crate::part::{Part, Piece};
use crate::stop::Stop;
use ann_element::Element;
use ann_needs::{Plan, State, functions_of, methods_of};
use flow_graph::{Op, VarId};
use rpy_base::{NoMem, Seq, Text};
use rpy_meaning::RowOp;
use rpy_tree::FunId;
use std::alloc::Global;

/// The functions that the call reaches with which a block begins; methods have a receiver.
#[derive(Drop)]
struct Reached {
    graph: usize,
    block: u64,
    received: bool,
    functions: Seq<FunId>,
}

// ---- which functions

fn first_of<'a>(p: &'a Plan, s: &'a State, g: usize, args: &[VarId]) -> Option<&'a Element> {
    match args {
        [] => None,
        [v, _others @ ..] => s.cells.get(p.variable(g, *v)),
    }
}

fn copied(alloc: Global, fs: &[FunId]) -> Result<Seq<FunId>, NoMem> {
    let mut copy = Seq::new(alloc);
    for f in fs {
        copy.push(*f)?;
    }
    Ok(copy)
}

fn values_of(alloc: Global, p: &Plan, s: &State, g: usize, op: &Op) -> Result<Seq<FunId>, NoMem> {
    match first_of(p, s, g, op.args.as_slice()) {
        Some(Element::Func(fs, _)) => copied(alloc, fs.as_slice()),
        _ => Ok(Seq::new(alloc)),
    }
}

fn methods_called(
    alloc: Global,
    p: &Plan,
    s: &State,
    g: usize,
    name: &Text,
    op: &Op,
) -> Result<Seq<FunId>, NoMem> {
    match first_of(p, s, g, op.args.as_slice()) {
        Some(Element::Instance(class, _)) => {
            let methods = methods_of(alloc, p, s, *class, name)?;
            functions_of(alloc, methods.as_slice())
        }
        _ => Ok(Seq::new(alloc)),
    }
}

fn reached_by(
    alloc: Global,
    p: &Plan,
    s: &State,
    place: (usize, u64),
    op: &Op,
) -> Result<Reached, NoMem> {
    let (received, functions) = match &op.op {
        RowOp::CallValue => (false, values_of(alloc, p, s, place.0, op)?),
        RowOp::Method(name, _) => (true, methods_called(alloc, p, s, place.0, name, op)?),
        _ => (false, Seq::new(alloc)),
    };
    Ok(Reached {
        graph: place.0,
        block: place.1,
        received,
        functions,
    })
}

// ---- what two functions share

fn share_params(p: &Plan, s: &State, received: bool, f: FunId, h: FunId) -> bool {
    let count = p.defaults(f).len().min(p.defaults(h).len());
    for at in (received as usize)..count {
        if !are_one(p, s, p.param(f, at), p.param(h, at)) {
            return false;
        }
    }
    true
}

fn share(p: &Plan, s: &State, received: bool, f: FunId, h: FunId) -> bool {
    are_one(p, s, p.result(f), p.result(h)) && share_params(p, s, received, f, h)
}

// The function with most parameters.
fn longest(p: &Plan, first: FunId, fs: &[FunId]) -> FunId {
    let mut longest = first;
    for f in fs {
        if p.defaults(longest).len() < p.defaults(*f).len() {
            longest = *f;
        }
    }
    longest
}

// What each shares with the one that has most parameters, any two share.
fn all_share(p: &Plan, s: &State, received: bool, fs: &[FunId]) -> bool {
    let longest = match fs {
        [] => return true,
        [first, others @ ..] => longest(p, *first, others),
    };
    for f in fs {
        if !share(p, s, received, longest, *f) {
            return false;
        }
    }
    true
}

// ---- growing

fn reach_each(
    alloc: Global,
    p: &Plan,
    spots: &Seq<bool>,
    s: &mut State,
    call: &Reached,
    news: &mut News,
) -> Result<(), Stop>
    ensures kept { OnOk result (Keeps (whole p.now) (spots_in spots.now) (assignment s.old) (assignment s.new)) }
    ensures first { IfErr result (Stopped (whole p.now) (spots_in spots.now) (assignment s.old) (assignment s.new)) }
{
    for at in 0..call.functions.len() {
        let part = Part::Call(call.graph, call.block, Piece::Reach(at));
        grow_part(alloc, p, spots, s, part, news)?;
    }
    Ok(())
}

fn share_two(
    alloc: Global,
    p: &Plan,
    spots: &Seq<bool>,
    s: &mut State,
    call: &Reached,
    one: (usize, FunId),
    other: (usize, FunId),
    news: &mut News,
) -> Result<(), Stop>
    ensures kept { OnOk result (Keeps (whole p.now) (spots_in spots.now) (assignment s.old) (assignment s.new)) }
    ensures first { IfErr result (Stopped (whole p.now) (spots_in spots.now) (assignment s.old) (assignment s.new)) }
{
    if share(p, s, call.received, one.1, other.1) {
        return Ok(());
    }
    let part = Part::Call(call.graph, call.block, Piece::Share(one.0, other.0));
    grow_part(alloc, p, spots, s, part, news)
}

fn share_with(
    alloc: Global,
    p: &Plan,
    spots: &Seq<bool>,
    s: &mut State,
    call: &Reached,
    one: (usize, FunId),
    news: &mut News,
) -> Result<(), Stop>
    ensures kept { OnOk result (Keeps (whole p.now) (spots_in spots.now) (assignment s.old) (assignment s.new)) }
    ensures first { IfErr result (Stopped (whole p.now) (spots_in spots.now) (assignment s.old) (assignment s.new)) }
{
    for (at, other) in call.functions.as_slice().iter().enumerate() {
        share_two(alloc, p, spots, s, call, one, (at, *other), news)?;
    }
    Ok(())
}

fn share_each(
    alloc: Global,
    p: &Plan,
    spots: &Seq<bool>,
    s: &mut State,
    call: &Reached,
    news: &mut News,
) -> Result<(), Stop>
    ensures kept { OnOk result (Keeps (whole p.now) (spots_in spots.now) (assignment s.old) (assignment s.new)) }
    ensures first { IfErr result (Stopped (whole p.now) (spots_in spots.now) (assignment s.old) (assignment s.new)) }
{
    for (at, one) in call.functions.as_slice().iter().enumerate() {
        share_with(alloc, p, spots, s, call, (at, *one), news)?;
    }
    Ok(())
}

// Once through all that the call asks, in the order of the rules.
fn grow_round(
    alloc: Global,
    p: &Plan,
    spots: &Seq<bool>,
    s: &mut State,
    call: &Reached,
    news: &mut News,
) -> Result<(), Stop>
    ensures kept { OnOk result (Keeps (whole p.now) (spots_in spots.now) (assignment s.old) (assignment s.new)) }
    ensures first { IfErr result (Stopped (whole p.now) (spots_in spots.now) (assignment s.old) (assignment s.new)) }
{
    let part = Part::Call(call.graph, call.block, Piece::Result);
    grow_part(alloc, p, spots, s, part, news)?;
    reach_each(alloc, p, spots, s, call, news)?;
    if all_share(p, s, call.received, call.functions.as_slice()) {
        return Ok(());
    }
    share_each(alloc, p, spots, s, call, news)
}

// Until a round finds nothing to do.
fn grow_call(
    alloc: Global,
    p: &Plan,
    spots: &Seq<bool>,
    s: &mut State,
    call: &Reached,
    news: &mut News,
) -> Result<(), Stop>
    ensures kept { OnOk result (Keeps (whole p.now) (spots_in spots.now) (assignment s.old) (assignment s.new)) }
    ensures first { IfErr result (Stopped (whole p.now) (spots_in spots.now) (assignment s.old) (assignment s.new)) }
{
    for _round in 0..u64::MAX {
        let before = (news.cells.len(), news.marks.len());
        grow_round(alloc, p, spots, s, call, news)?;
        if before.0 == news.cells.len() && before.1 == news.marks.len() {
            return Ok(());
        }
    }
    Ok(())
}

fn grow_first(
    alloc: Global,
    p: &Plan,
    spots: &Seq<bool>,
    s: &mut State,
    place: (usize, u64),
    op: &Op,
    news: &mut News,
) -> Result<(), Stop>
    ensures kept { OnOk result (Keeps (whole p.now) (spots_in spots.now) (assignment s.old) (assignment s.new)) }
    ensures first { IfErr result (Stopped (whole p.now) (spots_in spots.now) (assignment s.old) (assignment s.new)) }
{
    let call = reached_by(alloc, p, s, place, op)?;
    if call.functions.len() > 1 {
        grow_call(alloc, p, spots, s, &call, news)
    } else {
        grow_part(alloc, p, spots, s, Part::Ops(place.0, place.1), news)
    }
}

/// What the operations of a block ask.
pub fn grow_ops(
    alloc: Global,
    p: &Plan,
    spots: &Seq<bool>,
    s: &mut State,
    place: (usize, u64),
    ops: &[Op],
    news: &mut News,
) -> Result<(), Stop>
    ensures kept { OnOk result (Keeps (whole p.now) (spots_in spots.now) (assignment s.old) (assignment s.new)) }
    ensures first { IfErr result (Stopped (whole p.now) (spots_in spots.now) (assignment s.old) (assignment s.new)) }
{
    match ops {
        [] => Ok(()),
        [op] => grow_first(alloc, p, spots, s, place, op, news),
        _ => grow_part(alloc, p, spots, s, Part::Ops(place.0, place.1), news),
    }
}
