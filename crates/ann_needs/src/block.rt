// What operations, links and exits ask.
ghost use Rattle.std.specs.Prelude.{◌≡◌, ◌++◌, ◌∷◌, [], map, IfOk, OnOk};
ghost use Rattle.ann_lattice.specs.Shape.{shape};
ghost use Rattle.ann_lattice.specs.Kind.{some_nothing, some_clash};
ghost use Rattle.ann_rules.specs.Rules as rule;
ghost use Rattle.ann_needs.specs.View as spec;

use crate::ask::Asks;
use crate::method::is_unreached;
use crate::operation::operation_asks;
use crate::part::parts_of;
use crate::plan::Plan;
use crate::state::State;
use ann_element::{Element, copy_element};
use ann_lattice::pieces_of;
use flow_graph::{Block, Exit, Graph, Link, Op, VarId};
use rpy_base::{NoMem, Seq};
use rpy_meaning::RowOp;
use rpy_tree::{ClassId, NodeId};
use std::alloc::Global;

// ---- operations

fn is_narrowing(op: &RowOp) -> bool
    ensures { result ≡ rule.is_narrowing op.now }
{
    match op {
        RowOp::DropNone => true,
        RowOp::OnlyNone => true,
        RowOp::FalseNone => true,
        RowOp::Lower(_) => true,
        RowOp::NonNegative => true,
        _ => false,
    }
}

fn is_copy(op: &RowOp) -> bool
    ensures { result ≡ rule.is_copy op.now }
{
    match op {
        RowOp::Copy => true,
        _ => false,
    }
}

fn value_of(alloc: Global, p: &Plan, s: &State, g: usize, v: VarId) -> Result<Element, NoMem>
    ensures { IfOk result (λ e. shape e ≡ rule.value (spec.whole p.now) (spec.assignment s.now) g v) }
{
    s.element(alloc, p.variable(g, v))
}

/// The elements of operands.
pub fn operands_of(
    alloc: Global,
    p: &Plan,
    s: &State,
    g: usize,
    args: &[VarId],
) -> Result<Seq<Element>, NoMem>
    ensures { IfOk result (λ xs. map shape xs ≡ map (rule.value (spec.whole p.now) (spec.assignment s.now) g) args.now) }
{
    let mut xs = Seq::new(alloc);
    for v in args {
        xs.push(value_of(alloc, p, s, g, *v)?)?;
    }
    Ok(xs)
}

fn is_loose(p: &Plan, s: &State, g: usize, v: VarId) -> bool
    ensures { result ≡ rule.may_be_unbound (spec.whole p.now) (spec.assignment s.now) g v }
{
    s.is_marked(p.loose(g, v))
}

fn first_is_loose(p: &Plan, s: &State, g: usize, args: &[VarId]) -> bool
    ensures { result ≡ rule.first_loose (spec.whole p.now) (spec.assignment s.now) g args.now }
{
    match args {
        [] => false,
        [v, _others @ ..] => is_loose(p, s, g, *v),
    }
}

// A class without `__init__` takes no argument but, below `Exception`, a string literal.
fn is_unfit(p: &Plan, s: &State, g: usize, op: &RowOp, xs: &[Element], node: NodeId) -> bool
    ensures { result ≡ rule.is_unfit (spec.whole p.now) (spec.assignment s.now) g op.now (map shape xs.now) node }
{
    match op {
        RowOp::New(class) => match xs {
            [] => false,
            [_, _others @ ..] => p.classes.init(*class).is_none() && !p.has_literal(node),
        },
        _ => false,
    }
}

fn add_all(alloc: Global, list: &mut Seq<Element>, more: &[Element]) -> Result<(), NoMem>
    ensures { OnOk result (map shape list.new ≡ map shape list.old ++ map shape more.now) }
{
    for e in more {
        list.push(copy_element(alloc, e)?)?;
    }
    Ok(())
}

// The pieces of its row, for each further part.
fn add_pieces(
    alloc: Global,
    p: &Plan,
    s: &State,
    g: usize,
    op: &RowOp,
    xs: &[Element],
    parts: &[Element],
    list: &mut Seq<Element>,
) -> Result<(), NoMem>
    ensures { OnOk result (map shape list.new ≡ map shape list.old ++ rule.pieces_for (spec.whole p.now) (spec.assignment s.now) g op.now (map shape xs.now) (map shape parts.now)) }
{
    for part in parts {
        let pieces = pieces_of(alloc, &p.classes, op, xs, part)?;
        add_all(alloc, list, pieces.as_slice())?;
    }
    Ok(())
}

fn misfit(alloc: Global) -> Result<Seq<Element>, NoMem>
    ensures { IfOk result (λ list. map shape list ≡ spec.misfits) }
{
    let mut list = Seq::new(alloc);
    list.push(Element::Conflict(None, None))?;
    Ok(list)
}

/// What the result of an operation is to be above.
pub fn asked(
    alloc: Global,
    p: &Plan,
    s: &State,
    g: usize,
    op: &RowOp,
    xs: &[Element],
    node: NodeId,
) -> Result<Seq<Element>, NoMem>
    ensures { IfOk result (λ list. map shape list ≡ rule.asked (spec.whole p.now) (spec.assignment s.now) g op.now (map shape xs.now) node) }
{
    if is_unfit(p, s, g, op, xs, node) {
        return misfit(alloc);
    }
    let mut list = pieces_of(alloc, &p.classes, op, xs, &Element::Unreached)?;
    let parts = parts_of(alloc, p, s, op, xs)?;
    add_pieces(alloc, p, s, g, op, xs, parts.as_slice(), &mut list)?;
    Ok(list)
}

/// Whether some operand is not reached.
pub fn has_unreached(xs: &[Element]) -> bool
    ensures { result ≡ some_nothing (map shape xs.now) }
{
    match xs {
        [] => false,
        [x, others @ ..] => is_unreached(x) || has_unreached(others),
    }
}

/// Whether some element is a conflict.
pub fn has_conflict(xs: &[Element]) -> bool
    ensures { result ≡ some_clash (map shape xs.now) }
{
    match xs {
        [] => false,
        [Element::Conflict(_, _), _others @ ..] => true,
        [_, others @ ..] => has_conflict(others),
    }
}

fn loose_asks(p: &Plan, s: &State, asks: &mut Asks, g: usize, op: &Op) -> Result<(), NoMem>
    ensures { OnOk result (spec.seen asks.new ≡ spec.seen asks.old ++ rule.loose_needs (spec.whole p.now) (spec.assignment s.now) g op.now) }
{
    let loose = first_is_loose(p, s, g, op.args.as_slice());
    if is_copy(&op.op) && loose {
        asks.set(p.unbound(op.node))?;
    }
    if is_narrowing(&op.op) && loose {
        asks.set(p.loose(g, op.result))?;
    }
    Ok(())
}

// The result is above what the row asks, and where the row fits the parts of the program are above what
// it asks of them.
fn reached_asks(
    alloc: Global,
    p: &Plan,
    s: &State,
    asks: &mut Asks,
    g: usize,
    op: &Op,
    xs: &[Element],
) -> Result<(), NoMem>
    ensures { OnOk result (spec.seen asks.new ≡ spec.seen asks.old ++ rule.reached_needs (spec.whole p.now) (spec.assignment s.now) g op.now (map shape xs.now)) }
{
    let list = asked(alloc, p, s, g, &op.op, xs, op.node)?;
    let fits = !has_conflict(list.as_slice());
    asks.above_all(p.variable(g, op.result), list)?;
    if fits {
        operation_asks(alloc, p, s, asks, &op.op, xs)
    } else {
        Ok(())
    }
}

/// What an operation asks.
pub fn op_asks(
    alloc: Global,
    p: &Plan,
    s: &State,
    asks: &mut Asks,
    g: usize,
    op: &Op,
) -> Result<(), NoMem>
    ensures { OnOk result (spec.seen asks.new ≡ spec.seen asks.old ++ rule.op_needs (spec.whole p.now) (spec.assignment s.now) g op.now) }
{
    loose_asks(p, s, asks, g, op)?;
    let xs = operands_of(alloc, p, s, g, op.args.as_slice())?;
    if has_unreached(xs.as_slice()) {
        Ok(())
    } else {
        reached_asks(alloc, p, s, asks, g, op, xs.as_slice())
    }
}

/// Whether the block goes on after an operation: one that gives no value stops it.
pub fn goes_on(alloc: Global, p: &Plan, s: &State, g: usize, op: &Op) -> Result<bool, NoMem>
    ensures { IfOk result (λ onward. onward ≡ rule.goes_on (spec.whole p.now) (spec.assignment s.now) g op.now) }
{
    let value = value_of(alloc, p, s, g, op.result)?;
    Ok(is_narrowing(&op.op) || !is_unreached(&value))
}

// ---- links

// The exception on a link, and the class that it has there.
fn caught_as(caught: Option<(VarId, ClassId)>, v: VarId) -> Option<ClassId>
    ensures { result ≡ rule.caught_as caught v }
{
    match caught {
        None => None,
        Some(exception) => {
            if exception.0 == v {
                Some(exception.1)
            } else {
                None
            }
        }
    }
}

fn passed(
    alloc: Global,
    p: &Plan,
    s: &State,
    asks: &mut Asks,
    g: usize,
    caught: Option<ClassId>,
    v: VarId,
    input: VarId,
) -> Result<(), NoMem>
    ensures { OnOk result (spec.seen asks.new ≡ spec.seen asks.old ++ rule.passed (spec.whole p.now) (spec.assignment s.now) g caught v input) }
{
    match caught {
        Some(class) => asks.above(
            alloc,
            p.variable(g, input),
            &Element::Instance(class, false),
        ),
        None => {
            let e = value_of(alloc, p, s, g, v)?;
            asks.above(alloc, p.variable(g, input), &e)?;
            if is_loose(p, s, g, v) {
                asks.set(p.loose(g, input))?;
            }
            Ok(())
        }
    }
}

fn pass_all(
    alloc: Global,
    p: &Plan,
    s: &State,
    asks: &mut Asks,
    g: usize,
    caught: Option<(VarId, ClassId)>,
    inputs: &[VarId],
    vs: &[VarId],
) -> Result<(), NoMem>
    ensures { OnOk result (spec.seen asks.new ≡ spec.seen asks.old ++ rule.pass_all (spec.whole p.now) (spec.assignment s.now) g caught inputs.now vs.now) }
{
    match inputs {
        [] => Ok(()),
        [input, inputs @ ..] => match vs {
            [] => Ok(()),
            [v, vs @ ..] => {
                passed(alloc, p, s, asks, g, caught_as(caught, *v), *v, *input)?;
                pass_all(alloc, p, s, asks, g, caught, inputs, vs)
            }
        },
    }
}

pub fn inputs_at(blocks: &[Block], number: u64) -> &[VarId]
    ensures { result.now ≡ rule.inputs_of (rule.block_at blocks.now number) }
{
    match blocks.get(number as usize) {
        None => &[],
        Some(block) => block.inputs.as_slice(),
    }
}

fn link_asks(
    alloc: Global,
    p: &Plan,
    s: &State,
    asks: &mut Asks,
    g: usize,
    graph: &Graph,
    caught: Option<(VarId, ClassId)>,
    link: &Link,
) -> Result<(), NoMem>
    ensures { OnOk result (spec.seen asks.new ≡ spec.seen asks.old ++ rule.link_needs (spec.whole p.now) (spec.assignment s.now) g graph.now caught link.now) }
{
    asks.set(p.block(g, link.to))?;
    let inputs = inputs_at(graph.blocks.as_slice(), link.to);
    pass_all(alloc, p, s, asks, g, caught, inputs, link.args.as_slice())
}

// ---- exits

fn caught_asks(
    alloc: Global,
    p: &Plan,
    s: &State,
    asks: &mut Asks,
    g: usize,
    graph: &Graph,
    v: VarId,
    links: &[(ClassId, Link)],
) -> Result<(), NoMem>
    ensures { OnOk result (spec.seen asks.new ≡ spec.seen asks.old ++ spec.caught_needs (spec.whole p.now) (spec.assignment s.now) g graph.now v links.now) }
{
    for link in links {
        link_asks(alloc, p, s, asks, g, graph, Some((v, link.0)), &link.1)?;
    }
    Ok(())
}

fn other_asks(
    alloc: Global,
    p: &Plan,
    s: &State,
    asks: &mut Asks,
    g: usize,
    graph: &Graph,
    v: VarId,
    link: &Option<Link>,
) -> Result<(), NoMem>
    ensures { OnOk result (spec.seen asks.new ≡ spec.seen asks.old ++ rule.other_link (spec.whole p.now) (spec.assignment s.now) g graph.now v link.now) }
{
    match link {
        None => Ok(()),
        Some(link) => link_asks(alloc, p, s, asks, g, graph, Some((v, 0)), link),
    }
}

/// What the links by exception ask, which are reached where their block is.
pub fn exception_asks(
    alloc: Global,
    p: &Plan,
    s: &State,
    asks: &mut Asks,
    g: usize,
    graph: &Graph,
    exit: &Exit,
) -> Result<(), NoMem>
    ensures { OnOk result (spec.seen asks.new ≡ spec.seen asks.old ++ rule.exception_needs (spec.whole p.now) (spec.assignment s.now) g graph.now exit.now) }
{
    match exit {
        Exit::OnRaise(v, links, other, _) => {
            caught_asks(alloc, p, s, asks, g, graph, *v, links.as_slice())?;
            other_asks(alloc, p, s, asks, g, graph, *v, other)
        }
        _ => Ok(()),
    }
}

// Whether a test that has this element may go one way.
fn goes(way: bool, e: &Element) -> bool
    ensures { result ≡ rule.goes way (shape e.now) }
{
    match e {
        Element::Unreached => false,
        Element::KnownTrue => way,
        Element::KnownFalse => !way,
        _ => true,
    }
}

fn way_asks(
    alloc: Global,
    p: &Plan,
    s: &State,
    asks: &mut Asks,
    g: usize,
    graph: &Graph,
    may: bool,
    link: &Link,
) -> Result<(), NoMem>
    ensures { OnOk result (spec.seen asks.new ≡ spec.seen asks.old ++ spec.way_needs (spec.whole p.now) (spec.assignment s.now) g graph.now may link.now) }
{
    if may {
        link_asks(alloc, p, s, asks, g, graph, None, link)
    } else {
        Ok(())
    }
}

/// What the exit of a block asks once its operations gave values.
pub fn exit_asks(
    alloc: Global,
    p: &Plan,
    s: &State,
    asks: &mut Asks,
    g: usize,
    graph: &Graph,
    exit: &Exit,
) -> Result<(), NoMem>
    ensures { OnOk result (spec.seen asks.new ≡ spec.seen asks.old ++ rule.exit_needs (spec.whole p.now) (spec.assignment s.now) g graph.now exit.now) }
{
    match exit {
        Exit::Goto(link) => link_asks(alloc, p, s, asks, g, graph, None, link),
        Exit::If(v, one, two) => {
            let e = value_of(alloc, p, s, g, *v)?;
            way_asks(alloc, p, s, asks, g, graph, goes(true, &e), one)?;
            way_asks(alloc, p, s, asks, g, graph, goes(false, &e), two)
        }
        Exit::OnRaise(_, _, _, link) => link_asks(alloc, p, s, asks, g, graph, None, link),
        Exit::Return(v) => {
            let e = value_of(alloc, p, s, g, *v)?;
            asks.above(alloc, p.result(graph.function), &e)
        }
        Exit::Raise(_) => Ok(()),
    }
}
