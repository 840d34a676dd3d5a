// What a block asks is met: links by exception, operations, and the links behind them. What goes on along
// a link is compared first, and only where it is not there yet the link is asked.
ghost use Rattle.std.specs.Prelude.{◌≡◌, IfErr, OnOk};
ghost use Rattle.ann_needs.specs.View.{assignment, whole};
ghost use Rattle.ann_grown.specs.Partial.{Keeps};
ghost use Rattle.ann_meets.specs.Steps.{spots_in, Stopped};

use crate::calling::grow_ops;
use crate::grow::grow_part;
use crate::meet::News;
use crate::part::{Part, Way, all_go, caught_as, inputs_at, is_loose, may_go};
use crate::stop::Stop;
use ann_element::Element;
use ann_lattice::below;
use ann_needs::{Plan, State};
use flow_graph::{Block, Exit, Graph, Link, VarId};
use rpy_base::Seq;
use rpy_tree::ClassId;
use std::alloc::Global;

/// A link of a block.
#[derive(Clone, Copy)]
struct Along {
    graph: usize,
    block: u64,
    way: Way,
    caught: Option<(VarId, ClassId)>,
}

// ---- what is there

fn is_under(p: &Plan, s: &State, e: &Element, to: usize) -> bool {
    match s.cells.get(to) {
        None => true,
        Some(old) => below(&p.classes, &s.same, e, old),
    }
}

// Whether a cell is above another.
fn is_below_cell(p: &Plan, s: &State, from: usize, to: usize) -> bool {
    match s.cells.get(from) {
        None => true,
        Some(e) => is_under(p, s, e, to),
    }
}

/// Whether two cells have one element.
pub fn are_one(p: &Plan, s: &State, cell: usize, other: usize) -> bool {
    is_below_cell(p, s, cell, other) && is_below_cell(p, s, other, cell)
}

// Whether all that goes on to an input is there.
fn is_passed(p: &Plan, s: &State, from: Along, v: VarId, input: VarId) -> bool {
    let g = from.graph;
    let to = p.variable(g, input);
    match caught_as(from.caught, v) {
        Some(class) => is_under(p, s, &Element::Instance(class, false), to),
        None => {
            is_below_cell(p, s, p.variable(g, v), to)
                && (!is_loose(p, s, g, v) || is_loose(p, s, g, input))
        }
    }
}

// ---- links

fn pass_one(
    alloc: Global,
    p: &Plan,
    spots: &Seq<bool>,
    s: &mut State,
    from: Along,
    at: usize,
    v: VarId,
    input: VarId,
    news: &mut News,
) -> Result<(), Stop>
    ensures kept { OnOk result (Keeps (whole p.now) (spots_in spots.now) (assignment s.old) (assignment s.new)) }
    ensures first { IfErr result (Stopped (whole p.now) (spots_in spots.now) (assignment s.old) (assignment s.new)) }
{
    if is_passed(p, s, from, v, input) {
        return Ok(());
    }
    let part = Part::Link(from.graph, from.block, from.way, Some(at));
    grow_part(alloc, p, spots, s, part, news)
}

fn pass_all(
    alloc: Global,
    p: &Plan,
    spots: &Seq<bool>,
    s: &mut State,
    from: Along,
    inputs: &[VarId],
    vs: &[VarId],
    news: &mut News,
) -> Result<(), Stop>
    ensures kept { OnOk result (Keeps (whole p.now) (spots_in spots.now) (assignment s.old) (assignment s.new)) }
    ensures first { IfErr result (Stopped (whole p.now) (spots_in spots.now) (assignment s.old) (assignment s.new)) }
{
    for (at, input) in inputs.iter().enumerate() {
        match vs.get(at) {
            None => return Ok(()),
            Some(v) => pass_one(alloc, p, spots, s, from, at, *v, *input, news)?,
        }
    }
    Ok(())
}

fn enter(
    alloc: Global,
    p: &Plan,
    spots: &Seq<bool>,
    s: &mut State,
    from: Along,
    to: u64,
    news: &mut News,
) -> Result<(), Stop>
    ensures kept { OnOk result (Keeps (whole p.now) (spots_in spots.now) (assignment s.old) (assignment s.new)) }
    ensures first { IfErr result (Stopped (whole p.now) (spots_in spots.now) (assignment s.old) (assignment s.new)) }
{
    if s.is_marked(p.block(from.graph, to)) {
        return Ok(());
    }
    let part = Part::Link(from.graph, from.block, from.way, None);
    grow_part(alloc, p, spots, s, part, news)
}

fn pass_link(
    alloc: Global,
    p: &Plan,
    spots: &Seq<bool>,
    s: &mut State,
    from: Along,
    graph: &Graph,
    link: &Link,
    news: &mut News,
) -> Result<(), Stop>
    ensures kept { OnOk result (Keeps (whole p.now) (spots_in spots.now) (assignment s.old) (assignment s.new)) }
    ensures first { IfErr result (Stopped (whole p.now) (spots_in spots.now) (assignment s.old) (assignment s.new)) }
{
    enter(alloc, p, spots, s, from, link.to, news)?;
    let inputs = inputs_at(graph.blocks.as_slice(), link.to);
    pass_all(alloc, p, spots, s, from, inputs, link.args.as_slice(), news)
}

fn pass_caught(
    alloc: Global,
    p: &Plan,
    spots: &Seq<bool>,
    s: &mut State,
    place: (usize, u64),
    graph: &Graph,
    v: VarId,
    links: &[(ClassId, Link)],
    news: &mut News,
) -> Result<(), Stop>
    ensures kept { OnOk result (Keeps (whole p.now) (spots_in spots.now) (assignment s.old) (assignment s.new)) }
    ensures first { IfErr result (Stopped (whole p.now) (spots_in spots.now) (assignment s.old) (assignment s.new)) }
{
    for (number, link) in links.iter().enumerate() {
        let from = Along {
            graph: place.0,
            block: place.1,
            way: Way::Caught(number),
            caught: Some((v, link.0)),
        };
        pass_link(alloc, p, spots, s, from, graph, &link.1, news)?;
    }
    Ok(())
}

fn pass_other(
    alloc: Global,
    p: &Plan,
    spots: &Seq<bool>,
    s: &mut State,
    place: (usize, u64),
    graph: &Graph,
    v: VarId,
    link: &Option<Link>,
    news: &mut News,
) -> Result<(), Stop>
    ensures kept { OnOk result (Keeps (whole p.now) (spots_in spots.now) (assignment s.old) (assignment s.new)) }
    ensures first { IfErr result (Stopped (whole p.now) (spots_in spots.now) (assignment s.old) (assignment s.new)) }
{
    match link {
        None => Ok(()),
        Some(link) => {
            let from = Along {
                graph: place.0,
                block: place.1,
                way: Way::Other,
                caught: Some((v, 0)),
            };
            pass_link(alloc, p, spots, s, from, graph, link, news)
        }
    }
}

fn pass_exceptions(
    alloc: Global,
    p: &Plan,
    spots: &Seq<bool>,
    s: &mut State,
    place: (usize, u64),
    graph: &Graph,
    exit: &Exit,
    news: &mut News,
) -> Result<(), Stop>
    ensures kept { OnOk result (Keeps (whole p.now) (spots_in spots.now) (assignment s.old) (assignment s.new)) }
    ensures first { IfErr result (Stopped (whole p.now) (spots_in spots.now) (assignment s.old) (assignment s.new)) }
{
    match exit {
        Exit::OnRaise(v, links, other, _) => {
            pass_caught(alloc, p, spots, s, place, graph, *v, links.as_slice(), news)?;
            pass_other(alloc, p, spots, s, place, graph, *v, other, news)
        }
        _ => Ok(()),
    }
}

// ---- exits

fn pass_way(
    alloc: Global,
    p: &Plan,
    spots: &Seq<bool>,
    s: &mut State,
    place: (usize, u64),
    graph: &Graph,
    way: Way,
    link: &Link,
    news: &mut News,
) -> Result<(), Stop>
    ensures kept { OnOk result (Keeps (whole p.now) (spots_in spots.now) (assignment s.old) (assignment s.new)) }
    ensures first { IfErr result (Stopped (whole p.now) (spots_in spots.now) (assignment s.old) (assignment s.new)) }
{
    let from = Along {
        graph: place.0,
        block: place.1,
        way,
        caught: None,
    };
    pass_link(alloc, p, spots, s, from, graph, link, news)
}

fn pass_branch(
    alloc: Global,
    p: &Plan,
    spots: &Seq<bool>,
    s: &mut State,
    place: (usize, u64),
    graph: &Graph,
    way: Way,
    v: VarId,
    link: &Link,
    news: &mut News,
) -> Result<(), Stop>
    ensures kept { OnOk result (Keeps (whole p.now) (spots_in spots.now) (assignment s.old) (assignment s.new)) }
    ensures first { IfErr result (Stopped (whole p.now) (spots_in spots.now) (assignment s.old) (assignment s.new)) }
{
    if may_go(alloc, p, s, place.0, v, way == Way::First)? {
        pass_way(alloc, p, spots, s, place, graph, way, link, news)
    } else {
        Ok(())
    }
}

fn pass_return(
    alloc: Global,
    p: &Plan,
    spots: &Seq<bool>,
    s: &mut State,
    place: (usize, u64),
    graph: &Graph,
    v: VarId,
    news: &mut News,
) -> Result<(), Stop>
    ensures kept { OnOk result (Keeps (whole p.now) (spots_in spots.now) (assignment s.old) (assignment s.new)) }
    ensures first { IfErr result (Stopped (whole p.now) (spots_in spots.now) (assignment s.old) (assignment s.new)) }
{
    if is_below_cell(p, s, p.variable(place.0, v), p.result(graph.function)) {
        return Ok(());
    }
    let part = Part::Link(place.0, place.1, Way::First, None);
    grow_part(alloc, p, spots, s, part, news)
}

fn pass_exit(
    alloc: Global,
    p: &Plan,
    spots: &Seq<bool>,
    s: &mut State,
    place: (usize, u64),
    graph: &Graph,
    exit: &Exit,
    news: &mut News,
) -> Result<(), Stop>
    ensures kept { OnOk result (Keeps (whole p.now) (spots_in spots.now) (assignment s.old) (assignment s.new)) }
    ensures first { IfErr result (Stopped (whole p.now) (spots_in spots.now) (assignment s.old) (assignment s.new)) }
{
    match exit {
        Exit::Goto(link) => pass_way(alloc, p, spots, s, place, graph, Way::First, link, news),
        Exit::If(v, one, two) => {
            pass_branch(alloc, p, spots, s, place, graph, Way::First, *v, one, news)?;
            pass_branch(alloc, p, spots, s, place, graph, Way::Second, *v, two, news)
        }
        Exit::OnRaise(_, _, _, link) => {
            pass_way(alloc, p, spots, s, place, graph, Way::First, link, news)
        }
        Exit::Return(v) => pass_return(alloc, p, spots, s, place, graph, *v, news),
        Exit::Raise(_) => Ok(()),
    }
}

// ---- blocks

fn grow_reached(
    alloc: Global,
    p: &Plan,
    spots: &Seq<bool>,
    s: &mut State,
    place: (usize, u64),
    graph: &Graph,
    block: &Block,
    news: &mut News,
) -> Result<(), Stop>
    ensures kept { OnOk result (Keeps (whole p.now) (spots_in spots.now) (assignment s.old) (assignment s.new)) }
    ensures first { IfErr result (Stopped (whole p.now) (spots_in spots.now) (assignment s.old) (assignment s.new)) }
{
    pass_exceptions(alloc, p, spots, s, place, graph, &block.exit, news)?;
    grow_ops(alloc, p, spots, s, place, block.ops.as_slice(), news)?;
    if all_go(alloc, p, s, place.0, block.ops.as_slice())? {
        pass_exit(alloc, p, spots, s, place, graph, &block.exit, news)
    } else {
        Ok(())
    }
}

/// What a block asks, if it is reached.
pub fn grow_block(
    alloc: Global,
    p: &Plan,
    spots: &Seq<bool>,
    s: &mut State,
    g: usize,
    number: u64,
    news: &mut News,
) -> Result<(), Stop>
    ensures kept { OnOk result (Keeps (whole p.now) (spots_in spots.now) (assignment s.old) (assignment s.new)) }
    ensures first { IfErr result (Stopped (whole p.now) (spots_in spots.now) (assignment s.old) (assignment s.new)) }
{
    if !s.is_marked(p.block(g, number)) {
        return Ok(());
    }
    match p.graphs.graphs.get(g) {
        None => Ok(()),
        Some(graph) => match graph.blocks.get(number as usize) {
            None => Ok(()),
            Some(block) => grow_reached(alloc, p, spots, s, (g, number), graph, block, news),
        },
    }
}
