// What links ask and does not hold yet. An element that goes on along a link is compared in place, and only
// where the input is not above it is it asked for.
ghost use Rattle.std.specs.Prelude.{◌≡◌, ◌++◌, ◌∷◌, [], true, false, IfOk, OnOk};
ghost use Rattle.ann_lattice.specs.Shape.{shape, Nothing};
ghost use Rattle.ann_lattice.specs.Order.{is_below};
ghost use Rattle.ann_lattice.specs.Assign.{at};
ghost use Rattle.ann_rules.specs.Rules as rule;
ghost use Rattle.ann_needs.specs.View as spec;
ghost use Rattle.ann_holding.specs.Links as unmet;

use ann_element::Element;
use ann_lattice::below;
use ann_needs::{Asks, Plan, State};
use flow_graph::{Block, Exit, Graph, Link, VarId};
use rpy_base::NoMem;
use rpy_tree::ClassId;
use std::alloc::Global;

// ---- one variable

fn is_loose(p: &Plan, s: &State, g: usize, v: VarId) -> bool
    ensures { result ≡ rule.may_be_unbound (spec.whole p.now) (spec.assignment s.now) g v }
{
    s.is_marked(p.loose(g, v))
}

// The exception on a link, and the class that it has there.
fn caught_as(caught: Option<(VarId, ClassId)>, v: VarId) -> Option<ClassId>
    ensures { result ≡ rule.caught_as caught v }
{
    match caught {
        None => None,
        Some(exception) => {
            if exception.0 == v {
                Some(exception.1)
            } else {
                None
            }
        }
    }
}

fn passed(
    alloc: Global,
    p: &Plan,
    s: &State,
    asks: &mut Asks,
    g: usize,
    caught: Option<ClassId>,
    v: VarId,
    input: VarId,
) -> Result<(), NoMem>
    ensures { OnOk result (spec.seen asks.new ≡ spec.seen asks.old ++ rule.passed (spec.whole p.now) (spec.assignment s.now) g caught v input) }
{
    match caught {
        Some(class) => asks.above(
            alloc,
            p.variable(g, input),
            &Element::Instance(class, false),
        ),
        None => {
            let e = s.element(alloc, p.variable(g, v))?;
            asks.above(alloc, p.variable(g, input), &e)?;
            if is_loose(p, s, g, v) {
                asks.set(p.loose(g, input))?;
            }
            Ok(())
        }
    }
}

fn unreached() -> Element
    ensures { shape result ≡ Nothing }
{
    Element::Unreached
}

#[tactic(auto, using(ann_needs::proofs::Read::cell_none, ann_needs::proofs::Read::cell_some))]
fn is_under(p: &Plan, s: &State, e: &Element, to: usize) -> bool
    ensures { result ≡ is_below p.now.classes.classes s.now.same (shape e.now) (at (spec.assignment s.now) to) }
{
    match s.cells.get(to) {
        None => below(&p.classes, &s.same, e, &unreached()),
        Some(old) => below(&p.classes, &s.same, e, old),
    }
}

#[tactic(auto, using(ann_needs::proofs::Read::cell_none, ann_needs::proofs::Read::cell_some))]
fn is_below_cell(p: &Plan, s: &State, from: usize, to: usize) -> bool
    ensures { result ≡ is_below p.now.classes.classes s.now.same (at (spec.assignment s.now) from) (at (spec.assignment s.now) to) }
{
    match s.cells.get(from) {
        None => true,
        Some(e) => is_under(p, s, e, to),
    }
}

// Whether all that goes on to an input is there.
fn is_passed(p: &Plan, s: &State, g: usize, caught: Option<ClassId>, v: VarId, input: VarId) -> bool
    ensures { result ≡ unmet.is_passed (spec.whole p.now) (spec.assignment s.now) g caught v input }
{
    let to = p.variable(g, input);
    match caught {
        Some(class) => is_under(p, s, &Element::Instance(class, false), to),
        None => {
            is_below_cell(p, s, p.variable(g, v), to)
                && (!is_loose(p, s, g, v) || is_loose(p, s, g, input))
        }
    }
}

fn pass(
    alloc: Global,
    p: &Plan,
    s: &State,
    asks: &mut Asks,
    g: usize,
    caught: Option<ClassId>,
    v: VarId,
    input: VarId,
) -> Result<(), NoMem>
    ensures { OnOk result (spec.seen asks.new ≡ spec.seen asks.old ++ unmet.passed (spec.whole p.now) (spec.assignment s.now) g caught v input) }
{
    if is_passed(p, s, g, caught, v, input) {
        Ok(())
    } else {
        passed(alloc, p, s, asks, g, caught, v, input)
    }
}

// ---- links

fn pass_all(
    alloc: Global,
    p: &Plan,
    s: &State,
    asks: &mut Asks,
    g: usize,
    caught: Option<(VarId, ClassId)>,
    inputs: &[VarId],
    vs: &[VarId],
) -> Result<(), NoMem>
    ensures { OnOk result (spec.seen asks.new ≡ spec.seen asks.old ++ unmet.pass_all (spec.whole p.now) (spec.assignment s.now) g caught inputs.now vs.now) }
{
    match inputs {
        [] => Ok(()),
        [input, inputs @ ..] => match vs {
            [] => Ok(()),
            [v, vs @ ..] => {
                pass(alloc, p, s, asks, g, caught_as(caught, *v), *v, *input)?;
                pass_all(alloc, p, s, asks, g, caught, inputs, vs)
            }
        },
    }
}

fn inputs_at(blocks: &[Block], number: u64) -> &[VarId]
    ensures { result.now ≡ rule.inputs_of (rule.block_at blocks.now number) }
{
    match blocks.get(number as usize) {
        None => &[],
        Some(block) => block.inputs.as_slice(),
    }
}

fn link_asks(
    alloc: Global,
    p: &Plan,
    s: &State,
    asks: &mut Asks,
    g: usize,
    graph: &Graph,
    caught: Option<(VarId, ClassId)>,
    link: &Link,
) -> Result<(), NoMem>
    ensures { OnOk result (spec.seen asks.new ≡ spec.seen asks.old ++ unmet.link (spec.whole p.now) (spec.assignment s.now) g graph.now caught link.now) }
{
    asks.set(p.block(g, link.to))?;
    let inputs = inputs_at(graph.blocks.as_slice(), link.to);
    pass_all(alloc, p, s, asks, g, caught, inputs, link.args.as_slice())
}

// ---- exits

fn caught_asks(
    alloc: Global,
    p: &Plan,
    s: &State,
    asks: &mut Asks,
    g: usize,
    graph: &Graph,
    v: VarId,
    links: &[(ClassId, Link)],
) -> Result<(), NoMem>
    ensures { OnOk result (spec.seen asks.new ≡ spec.seen asks.old ++ unmet.caught_links (spec.whole p.now) (spec.assignment s.now) g graph.now v links.now) }
{
    for link in links {
        link_asks(alloc, p, s, asks, g, graph, Some((v, link.0)), &link.1)?;
    }
    Ok(())
}

fn other_asks(
    alloc: Global,
    p: &Plan,
    s: &State,
    asks: &mut Asks,
    g: usize,
    graph: &Graph,
    v: VarId,
    link: &Option<Link>,
) -> Result<(), NoMem>
    ensures { OnOk result (spec.seen asks.new ≡ spec.seen asks.old ++ unmet.other_link (spec.whole p.now) (spec.assignment s.now) g graph.now v link.now) }
{
    match link {
        None => Ok(()),
        Some(link) => link_asks(alloc, p, s, asks, g, graph, Some((v, 0)), link),
    }
}

/// What the links by exception ask and does not hold yet.
pub fn exception_asks(
    alloc: Global,
    p: &Plan,
    s: &State,
    asks: &mut Asks,
    g: usize,
    graph: &Graph,
    exit: &Exit,
) -> Result<(), NoMem>
    ensures { OnOk result (spec.seen asks.new ≡ spec.seen asks.old ++ unmet.exceptions (spec.whole p.now) (spec.assignment s.now) g graph.now exit.now) }
{
    match exit {
        Exit::OnRaise(v, links, other, _) => {
            caught_asks(alloc, p, s, asks, g, graph, *v, links.as_slice())?;
            other_asks(alloc, p, s, asks, g, graph, *v, other)
        }
        _ => Ok(()),
    }
}

// Whether a test that has this element may go one way.
fn goes(way: bool, e: &Element) -> bool
    ensures { result ≡ rule.goes way (shape e.now) }
{
    match e {
        Element::Unreached => false,
        Element::KnownTrue => way,
        Element::KnownFalse => !way,
        _ => true,
    }
}

fn way_asks(
    alloc: Global,
    p: &Plan,
    s: &State,
    asks: &mut Asks,
    g: usize,
    graph: &Graph,
    may: bool,
    link: &Link,
) -> Result<(), NoMem>
    ensures { OnOk result (spec.seen asks.new ≡ spec.seen asks.old ++ unmet.way (spec.whole p.now) (spec.assignment s.now) g graph.now may link.now) }
{
    if may {
        link_asks(alloc, p, s, asks, g, graph, None, link)
    } else {
        Ok(())
    }
}

/// What the exit of a block asks once its operations gave values, and does not hold yet.
pub fn exit_asks(
    alloc: Global,
    p: &Plan,
    s: &State,
    asks: &mut Asks,
    g: usize,
    graph: &Graph,
    exit: &Exit,
) -> Result<(), NoMem>
    ensures { OnOk result (spec.seen asks.new ≡ spec.seen asks.old ++ unmet.exits (spec.whole p.now) (spec.assignment s.now) g graph.now exit.now) }
{
    match exit {
        Exit::Goto(link) => link_asks(alloc, p, s, asks, g, graph, None, link),
        Exit::If(v, one, two) => {
            let e = s.element(alloc, p.variable(g, *v))?;
            way_asks(alloc, p, s, asks, g, graph, goes(true, &e), one)?;
            way_asks(alloc, p, s, asks, g, graph, goes(false, &e), two)
        }
        Exit::OnRaise(_, _, _, link) => link_asks(alloc, p, s, asks, g, graph, None, link),
        Exit::Return(v) => {
            let e = s.element(alloc, p.variable(g, *v))?;
            asks.above(alloc, p.result(graph.function), &e)
        }
        Exit::Raise(_) => Ok(()),
    }
}
