// Small parts of what graphs ask.
ghost use Rattle.std.specs.Prelude.{◌≡◌, ◌++◌, ◌∷◌, [], slice_get, true, false, IfOk, OnOk};
ghost use Rattle.std.specs.Option.{option_copied};
ghost use Rattle.ann_lattice.specs.Shape.{shape};
ghost use Rattle.ann_rules.specs.Asks as ask;
ghost use Rattle.ann_rules.specs.Rules as rule;
ghost use Rattle.ann_needs.specs.View as spec;
ghost use Rattle.flow_graph.specs.declared.graph.Exit.TheVariants as exit;
ghost use Rattle.ann_meets.specs.Parts as parts;

use crate::call::first_piece;
use ann_element::Element;
use ann_needs::{Asks, Plan, State, entry_asks, goes_on, op_asks, site_asks, start_asks};
use flow_graph::{Block, Exit, Graph, Link, Op, VarId};
use rpy_base::{NoMem, Seq};
use rpy_tree::{ClassId, FunId, SiteId};
use std::alloc::Global;

/// An operation of a graph.
#[derive(Clone, Copy, Debug, PartialEq, Eq)]
pub struct OpPlace {
    pub block: usize,
    pub index: usize,
}

/// A link of a block: by an exception of a class, by any other, or without one. A return is the first.
#[derive(Clone, Copy, Debug, PartialEq, Eq)]
pub enum Way {
    Caught(usize),
    Other,
    First,
    Second,
}

/// A piece of what a call asks: of its result, of a function that it reaches, or of two of those.
#[derive(Clone, Copy, Debug, PartialEq, Eq)]
pub enum Piece {
    Result,
    Reach(usize),
    Share(usize, usize),
}

/// A part of what graphs ask. Ties are of two results of one node; a call is the operation that a block
/// begins with; a link of a block reaches its target, or goes on to an input of that.
#[derive(Clone, Copy, Debug, PartialEq, Eq)]
pub enum Part {
    Entry,
    Start(FunId),
    Site(SiteId),
    Tie(usize, OpPlace, OpPlace),
    Ops(usize, u64),
    Call(usize, u64, Piece),
    Link(usize, u64, Way, Option<usize>),
}

// ---- functions and sites

fn add_start(alloc: Global, p: &Plan, s: &State, asks: &mut Asks, f: FunId) -> Result<(), NoMem>
    ensures { OnOk result (spec.seen asks.new ≡ spec.seen asks.old ++ parts.start_of (spec.whole p.now) (spec.assignment s.now) f (slice_get p.now.callees f)) }
{
    match p.callees.get(f as usize) {
        None => Ok(()),
        Some(callee) => start_asks(alloc, p, s, asks, f, callee),
    }
}

fn add_site(alloc: Global, p: &Plan, s: &State, asks: &mut Asks, site: SiteId) -> Result<(), NoMem>
    ensures { OnOk result (spec.seen asks.new ≡ spec.seen asks.old ++ parts.site_of (spec.whole p.now) (spec.assignment s.now) site (slice_get p.now.sites site)) }
{
    match p.sites.get(site as usize) {
        None => Ok(()),
        Some(of) => site_asks(alloc, p, s, asks, site, of),
    }
}

// ---- the results of one node

// Two cells have one element.
fn tie(alloc: Global, p: &Plan, s: &State, asks: &mut Asks, c: usize, d: usize) -> Result<(), NoMem>
    ensures { OnOk result (spec.seen asks.new ≡ spec.seen asks.old ++ ask.tie (spec.whole p.now) (spec.assignment s.now) c d) }
{
    let there = s.element(alloc, d)?;
    asks.above(alloc, c, &there)?;
    let back = s.element(alloc, c)?;
    asks.above(alloc, d, &back)
}

fn tie_both(
    alloc: Global,
    p: &Plan,
    s: &State,
    asks: &mut Asks,
    g: usize,
    graph: &Graph,
    one: &Op,
    two: &Op,
) -> Result<(), NoMem>
    ensures { OnOk result (spec.seen asks.new ≡ spec.seen asks.old ++ rule.tie_with (spec.whole p.now) (spec.assignment s.now) g graph.now one.now two.now) }
{
    if one.value && (two.value && two.node == one.node) {
        let cell = p.variable(g, one.result);
        tie(alloc, p, s, asks, cell, p.variable(g, two.result))
    } else {
        Ok(())
    }
}

fn tie_second(
    alloc: Global,
    p: &Plan,
    s: &State,
    asks: &mut Asks,
    g: usize,
    graph: &Graph,
    one: &Op,
    at: OpPlace,
) -> Result<(), NoMem>
    ensures { OnOk result (spec.seen asks.new ≡ spec.seen asks.old ++ parts.tie_two (spec.whole p.now) (spec.assignment s.now) g graph.now one.now (parts.op_at graph.now.blocks at)) }
{
    match graph.blocks.get(at.block) {
        None => Ok(()),
        Some(block) => match block.ops.get(at.index) {
            None => Ok(()),
            Some(two) => tie_both(alloc, p, s, asks, g, graph, one, two),
        },
    }
}

fn tie_first(
    alloc: Global,
    p: &Plan,
    s: &State,
    asks: &mut Asks,
    g: usize,
    graph: &Graph,
    at: OpPlace,
    other: OpPlace,
) -> Result<(), NoMem>
    ensures { OnOk result (spec.seen asks.new ≡ spec.seen asks.old ++ parts.tie_one (spec.whole p.now) (spec.assignment s.now) g graph.now (parts.op_at graph.now.blocks at) (parts.op_at graph.now.blocks other)) }
{
    match graph.blocks.get(at.block) {
        None => Ok(()),
        Some(block) => match block.ops.get(at.index) {
            None => Ok(()),
            Some(one) => tie_second(alloc, p, s, asks, g, graph, one, other),
        },
    }
}

fn add_tie(
    alloc: Global,
    p: &Plan,
    s: &State,
    asks: &mut Asks,
    g: usize,
    at: OpPlace,
    other: OpPlace,
) -> Result<(), NoMem>
    ensures { OnOk result (spec.seen asks.new ≡ spec.seen asks.old ++ parts.tie_in (spec.whole p.now) (spec.assignment s.now) g at other (slice_get p.now.graphs.graphs g)) }
{
    match p.graphs.graphs.get(g) {
        None => Ok(()),
        Some(graph) => tie_first(alloc, p, s, asks, g, graph, at, other),
    }
}

// ---- operations

fn ops_asks(
    alloc: Global,
    p: &Plan,
    s: &State,
    asks: &mut Asks,
    g: usize,
    ops: &[Op],
) -> Result<(), NoMem>
    ensures { OnOk result (spec.seen asks.new ≡ spec.seen asks.old ++ parts.ops_needs (spec.whole p.now) (spec.assignment s.now) g ops.now) }
{
    for op in ops {
        op_asks(alloc, p, s, asks, g, op)?;
        if !goes_on(alloc, p, s, g, op)? {
            return Ok(());
        }
    }
    Ok(())
}

fn reached_ops(
    alloc: Global,
    p: &Plan,
    s: &State,
    asks: &mut Asks,
    g: usize,
    number: u64,
    graph: &Graph,
) -> Result<(), NoMem>
    ensures { OnOk result (spec.seen asks.new ≡ spec.seen asks.old ++ parts.ops_of (spec.whole p.now) (spec.assignment s.now) g number (slice_get graph.now.blocks number)) }
{
    match graph.blocks.get(number as usize) {
        None => Ok(()),
        Some(block) => {
            if s.is_marked(p.block(g, number)) {
                ops_asks(alloc, p, s, asks, g, block.ops.as_slice())
            } else {
                Ok(())
            }
        }
    }
}

fn add_ops(
    alloc: Global,
    p: &Plan,
    s: &State,
    asks: &mut Asks,
    g: usize,
    number: u64,
) -> Result<(), NoMem>
    ensures { OnOk result (spec.seen asks.new ≡ spec.seen asks.old ++ parts.ops_in (spec.whole p.now) (spec.assignment s.now) g number (slice_get p.now.graphs.graphs g)) }
{
    match p.graphs.graphs.get(g) {
        None => Ok(()),
        Some(graph) => reached_ops(alloc, p, s, asks, g, number, graph),
    }
}

fn reached_call(
    alloc: Global,
    p: &Plan,
    s: &State,
    asks: &mut Asks,
    g: usize,
    number: u64,
    piece: Piece,
    graph: &Graph,
) -> Result<(), NoMem>
    ensures { OnOk result (spec.seen asks.new ≡ spec.seen asks.old ++ parts.call_of (spec.whole p.now) (spec.assignment s.now) g number piece (slice_get graph.now.blocks number)) }
{
    match graph.blocks.get(number as usize) {
        None => Ok(()),
        Some(block) => {
            let ops = block.ops.as_slice();
            if !s.is_marked(p.block(g, number)) {
                return Ok(());
            }
            first_piece(alloc, p, s, asks, g, piece, ops)
        }
    }
}

fn add_call(
    alloc: Global,
    p: &Plan,
    s: &State,
    asks: &mut Asks,
    g: usize,
    number: u64,
    piece: Piece,
) -> Result<(), NoMem>
    ensures { OnOk result (spec.seen asks.new ≡ spec.seen asks.old ++ parts.call_in (spec.whole p.now) (spec.assignment s.now) g number piece (slice_get p.now.graphs.graphs g)) }
{
    match p.graphs.graphs.get(g) {
        None => Ok(()),
        Some(graph) => reached_call(alloc, p, s, asks, g, number, piece, graph),
    }
}

// ---- links

// The exception on a link, and the class that it has there.
pub fn caught_as(caught: Option<(VarId, ClassId)>, v: VarId) -> Option<ClassId>
    ensures { result ≡ rule.caught_as caught v }
{
    match caught {
        None => None,
        Some(exception) => {
            if exception.0 == v {
                Some(exception.1)
            } else {
                None
            }
        }
    }
}

pub fn is_loose(p: &Plan, s: &State, g: usize, v: VarId) -> bool
    ensures { result ≡ rule.may_be_unbound (spec.whole p.now) (spec.assignment s.now) g v }
{
    s.is_marked(p.loose(g, v))
}

fn passed(
    alloc: Global,
    p: &Plan,
    s: &State,
    asks: &mut Asks,
    g: usize,
    caught: Option<ClassId>,
    v: VarId,
    input: VarId,
) -> Result<(), NoMem>
    ensures { OnOk result (spec.seen asks.new ≡ spec.seen asks.old ++ rule.passed (spec.whole p.now) (spec.assignment s.now) g caught v input) }
{
    match caught {
        Some(class) => asks.above(
            alloc,
            p.variable(g, input),
            &Element::Instance(class, false),
        ),
        None => {
            let e = s.element(alloc, p.variable(g, v))?;
            asks.above(alloc, p.variable(g, input), &e)?;
            if is_loose(p, s, g, v) {
                asks.set(p.loose(g, input))?;
            }
            Ok(())
        }
    }
}

fn pass_one(
    alloc: Global,
    p: &Plan,
    s: &State,
    asks: &mut Asks,
    g: usize,
    caught: Option<(VarId, ClassId)>,
    input: Option<&VarId>,
    v: Option<&VarId>,
) -> Result<(), NoMem>
    ensures { OnOk result (spec.seen asks.new ≡ spec.seen asks.old ++ parts.pass_one (spec.whole p.now) (spec.assignment s.now) g caught (option_copied input.entry) (option_copied v.entry)) }
{
    match input {
        None => Ok(()),
        Some(input) => match v {
            None => Ok(()),
            Some(v) => passed(alloc, p, s, asks, g, caught_as(caught, *v), *v, *input),
        },
    }
}

pub fn inputs_at(blocks: &[Block], number: u64) -> &[VarId]
    ensures { result.now ≡ rule.inputs_of (rule.block_at blocks.now number) }
{
    match blocks.get(number as usize) {
        None => &[],
        Some(block) => block.inputs.as_slice(),
    }
}

fn add_along(
    alloc: Global,
    p: &Plan,
    s: &State,
    asks: &mut Asks,
    g: usize,
    graph: &Graph,
    caught: Option<(VarId, ClassId)>,
    link: &Link,
    at: Option<usize>,
) -> Result<(), NoMem>
    ensures { OnOk result (spec.seen asks.new ≡ spec.seen asks.old ++ parts.link (spec.whole p.now) (spec.assignment s.now) g graph.now caught link.now at) }
{
    match at {
        None => asks.set(p.block(g, link.to)),
        Some(at) => {
            let inputs = inputs_at(graph.blocks.as_slice(), link.to);
            pass_one(
                alloc,
                p,
                s,
                asks,
                g,
                caught,
                inputs.get(at),
                link.args.get(at),
            )
        }
    }
}

fn add_caught(
    alloc: Global,
    p: &Plan,
    s: &State,
    asks: &mut Asks,
    g: usize,
    graph: &Graph,
    v: VarId,
    links: &Seq<(ClassId, Link)>,
    number: usize,
    at: Option<usize>,
) -> Result<(), NoMem>
    ensures { OnOk result (spec.seen asks.new ≡ spec.seen asks.old ++ parts.caught_link (spec.whole p.now) (spec.assignment s.now) g graph.now v (slice_get links.now number) at) }
{
    match links.get(number) {
        None => Ok(()),
        Some(link) => add_along(alloc, p, s, asks, g, graph, Some((v, link.0)), &link.1, at),
    }
}

fn add_other(
    alloc: Global,
    p: &Plan,
    s: &State,
    asks: &mut Asks,
    g: usize,
    graph: &Graph,
    v: VarId,
    link: &Option<Link>,
    at: Option<usize>,
) -> Result<(), NoMem>
    ensures { OnOk result (spec.seen asks.new ≡ spec.seen asks.old ++ parts.other_link (spec.whole p.now) (spec.assignment s.now) g graph.now v link.now at) }
{
    match link {
        None => Ok(()),
        Some(link) => add_along(alloc, p, s, asks, g, graph, Some((v, 0)), link, at),
    }
}

fn raise_asks(
    alloc: Global,
    p: &Plan,
    s: &State,
    asks: &mut Asks,
    g: usize,
    graph: &Graph,
    way: Way,
    v: VarId,
    links: &Seq<(ClassId, Link)>,
    other: &Option<Link>,
    norm: &Link,
    at: Option<usize>,
) -> Result<(), NoMem>
    ensures { OnOk result (spec.seen asks.new ≡ spec.seen asks.old ++ parts.raise_way (spec.whole p.now) (spec.assignment s.now) g graph.now way v links.now other.now norm.now at) }
{
    match way {
        Way::Caught(number) => add_caught(alloc, p, s, asks, g, graph, v, links, number, at),
        Way::Other => add_other(alloc, p, s, asks, g, graph, v, other, at),
        Way::First => add_along(alloc, p, s, asks, g, graph, None, norm, at),
        Way::Second => Ok(()),
    }
}

// Whether a test that has this element may go one way.
fn goes(way: bool, e: &Element) -> bool
    ensures { result ≡ rule.goes way (shape e.now) }
{
    match e {
        Element::Unreached => false,
        Element::KnownTrue => way,
        Element::KnownFalse => !way,
        _ => true,
    }
}

/// Whether a test of this variable may go one way.
pub fn may_go(
    alloc: Global,
    p: &Plan,
    s: &State,
    g: usize,
    v: VarId,
    way: bool,
) -> Result<bool, NoMem>
    ensures { IfOk result (λ may. may ≡ rule.goes way (rule.value (spec.whole p.now) (spec.assignment s.now) g v)) }
{
    let e = s.element(alloc, p.variable(g, v))?;
    Ok(goes(way, &e))
}

fn branch_asks(
    alloc: Global,
    p: &Plan,
    s: &State,
    asks: &mut Asks,
    g: usize,
    graph: &Graph,
    v: VarId,
    way: bool,
    link: &Link,
    at: Option<usize>,
) -> Result<(), NoMem>
    ensures { OnOk result (spec.seen asks.new ≡ spec.seen asks.old ++ ask.when (rule.goes way (rule.value (spec.whole p.now) (spec.assignment s.now) g v)) (parts.link (spec.whole p.now) (spec.assignment s.now) g graph.now None link.now at)) }
{
    if may_go(alloc, p, s, g, v, way)? {
        add_along(alloc, p, s, asks, g, graph, None, link, at)
    } else {
        Ok(())
    }
}

fn test_asks(
    alloc: Global,
    p: &Plan,
    s: &State,
    asks: &mut Asks,
    g: usize,
    graph: &Graph,
    way: Way,
    v: VarId,
    one: &Link,
    two: &Link,
    at: Option<usize>,
) -> Result<(), NoMem>
    ensures { OnOk result (spec.seen asks.new ≡ spec.seen asks.old ++ parts.test_way (spec.whole p.now) (spec.assignment s.now) g graph.now way v one.now two.now at) }
{
    match way {
        Way::First => branch_asks(alloc, p, s, asks, g, graph, v, true, one, at),
        Way::Second => branch_asks(alloc, p, s, asks, g, graph, v, false, two, at),
        _ => Ok(()),
    }
}

fn goto_asks(
    alloc: Global,
    p: &Plan,
    s: &State,
    asks: &mut Asks,
    g: usize,
    graph: &Graph,
    way: Way,
    link: &Link,
    at: Option<usize>,
) -> Result<(), NoMem>
    ensures { OnOk result (spec.seen asks.new ≡ spec.seen asks.old ++ parts.only_way (spec.whole p.now) (spec.assignment s.now) g graph.now way (parts.link (spec.whole p.now) (spec.assignment s.now) g graph.now None link.now at)) }
{
    match way {
        Way::First => add_along(alloc, p, s, asks, g, graph, None, link, at),
        _ => Ok(()),
    }
}

fn return_asks(
    alloc: Global,
    p: &Plan,
    s: &State,
    asks: &mut Asks,
    g: usize,
    graph: &Graph,
    way: Way,
    v: VarId,
) -> Result<(), NoMem>
    ensures { OnOk result (spec.seen asks.new ≡ spec.seen asks.old ++ parts.only_way (spec.whole p.now) (spec.assignment s.now) g graph.now way (rule.exit_needs (spec.whole p.now) (spec.assignment s.now) g graph.now (exit.Return v))) }
{
    match way {
        Way::First => {
            let e = s.element(alloc, p.variable(g, v))?;
            asks.above(alloc, p.result(graph.function), &e)
        }
        _ => Ok(()),
    }
}

fn way_asks(
    alloc: Global,
    p: &Plan,
    s: &State,
    asks: &mut Asks,
    g: usize,
    graph: &Graph,
    exit: &Exit,
    way: Way,
    at: Option<usize>,
) -> Result<(), NoMem>
    ensures { OnOk result (spec.seen asks.new ≡ spec.seen asks.old ++ parts.by_way (spec.whole p.now) (spec.assignment s.now) g graph.now exit.now way at) }
{
    match exit {
        Exit::Goto(link) => goto_asks(alloc, p, s, asks, g, graph, way, link, at),
        Exit::If(v, one, two) => test_asks(alloc, p, s, asks, g, graph, way, *v, one, two, at),
        Exit::OnRaise(v, links, other, norm) => {
            raise_asks(alloc, p, s, asks, g, graph, way, *v, links, other, norm, at)
        }
        Exit::Return(v) => return_asks(alloc, p, s, asks, g, graph, way, *v),
        Exit::Raise(_) => Ok(()),
    }
}

// ---- blocks that go on

fn is_thrown(way: Way) -> bool
    ensures { result ≡ parts.is_thrown way }
{
    match way {
        Way::Caught(_) => true,
        Way::Other => true,
        _ => false,
    }
}

/// Whether each of these operations gave a value, or goes on without.
pub fn all_go(alloc: Global, p: &Plan, s: &State, g: usize, ops: &[Op]) -> Result<bool, NoMem>
    ensures { IfOk result (λ onward. onward ≡ parts.all_go (spec.whole p.now) (spec.assignment s.now) g ops.now) }
{
    for op in ops {
        if !goes_on(alloc, p, s, g, op)? {
            return Ok(false);
        }
    }
    Ok(true)
}

fn is_open(
    alloc: Global,
    p: &Plan,
    s: &State,
    g: usize,
    number: u64,
    block: &Block,
    way: Way,
) -> Result<bool, NoMem>
    ensures { IfOk result (λ opened. opened ≡ parts.is_open (spec.whole p.now) (spec.assignment s.now) g number block.now way) }
{
    if !s.is_marked(p.block(g, number)) {
        return Ok(false);
    }
    if is_thrown(way) {
        return Ok(true);
    }
    all_go(alloc, p, s, g, block.ops.as_slice())
}

fn open_asks(
    alloc: Global,
    p: &Plan,
    s: &State,
    asks: &mut Asks,
    g: usize,
    number: u64,
    graph: &Graph,
    way: Way,
    at: Option<usize>,
) -> Result<(), NoMem>
    ensures { OnOk result (spec.seen asks.new ≡ spec.seen asks.old ++ parts.exit_of (spec.whole p.now) (spec.assignment s.now) g graph.now number way at (slice_get graph.now.blocks number)) }
{
    match graph.blocks.get(number as usize) {
        None => Ok(()),
        Some(block) => {
            if is_open(alloc, p, s, g, number, block, way)? {
                way_asks(alloc, p, s, asks, g, graph, &block.exit, way, at)
            } else {
                Ok(())
            }
        }
    }
}

fn add_link(
    alloc: Global,
    p: &Plan,
    s: &State,
    asks: &mut Asks,
    g: usize,
    number: u64,
    way: Way,
    at: Option<usize>,
) -> Result<(), NoMem>
    ensures { OnOk result (spec.seen asks.new ≡ spec.seen asks.old ++ parts.exit_in (spec.whole p.now) (spec.assignment s.now) g number way at (slice_get p.now.graphs.graphs g)) }
{
    match p.graphs.graphs.get(g) {
        None => Ok(()),
        Some(graph) => open_asks(alloc, p, s, asks, g, number, graph, way, at),
    }
}

// ---- the whole

fn add_part(alloc: Global, p: &Plan, s: &State, asks: &mut Asks, part: Part) -> Result<(), NoMem>
    ensures { OnOk result (spec.seen asks.new ≡ spec.seen asks.old ++ parts.part_needs p.now (spec.assignment s.now) part) }
{
    match part {
        Part::Entry => entry_asks(alloc, p, s, asks),
        Part::Start(f) => add_start(alloc, p, s, asks, f),
        Part::Site(site) => add_site(alloc, p, s, asks, site),
        Part::Tie(g, one, two) => add_tie(alloc, p, s, asks, g, one, two),
        Part::Ops(g, number) => add_ops(alloc, p, s, asks, g, number),
        Part::Call(g, number, piece) => add_call(alloc, p, s, asks, g, number, piece),
        Part::Link(g, number, way, at) => add_link(alloc, p, s, asks, g, number, way, at),
    }
}

/// What a part asks.
pub fn asks_of(alloc: Global, p: &Plan, s: &State, part: Part) -> Result<Asks, NoMem>
    ensures { IfOk result (λ asks. spec.seen asks ≡ parts.part_needs p.now (spec.assignment s.now) part) }
{
    let mut asks = Asks::new(alloc);
    add_part(alloc, p, s, &mut asks, part)?;
    Ok(asks)
}
