// What the starts of functions and the entry point ask, and that the results of one node have one
// element.
ghost use Rattle.std.specs.Prelude.{◌≡◌, ◌++◌, length, IfOk, OnOk};
ghost use Rattle.ann_rules.specs.Rules as rule;
ghost use Rattle.ann_needs.specs.View as spec;

use crate::ask::Asks;
use crate::block::inputs_at;
use crate::held::{tie, to_items};
use crate::plan::{Callee, Plan, next};
use crate::state::State;
use ann_element::Element;
use flow_graph::{Block, Graph, Op, VarId};
use rpy_base::{NoMem, Seq};
use rpy_tree::{FunId, NodeId};
use std::alloc::Global;

// ---- starts

fn input_asks(
    alloc: Global,
    p: &Plan,
    s: &State,
    asks: &mut Asks,
    f: FunId,
    count: usize,
    locals: usize,
    at: usize,
    input: VarId,
) -> Result<(), NoMem>
    ensures { OnOk result (spec.seen asks.new ≡ spec.seen asks.old ++ spec.input_need (spec.whole p.now) (spec.assignment s.now) f count locals at input) }
{
    if at < count {
        let e = s.element(alloc, p.param(f, at))?;
        asks.above(alloc, p.variable(f as usize, input), &e)?;
    }
    if locals <= at {
        asks.set(p.loose(f as usize, input))?;
    }
    Ok(())
}

fn inputs_asks(
    alloc: Global,
    p: &Plan,
    s: &State,
    asks: &mut Asks,
    f: FunId,
    count: usize,
    locals: usize,
    at: usize,
    inputs: &[VarId],
) -> Result<(), NoMem>
    ensures { OnOk result (spec.seen asks.new ≡ spec.seen asks.old ++ rule.input_needs (spec.whole p.now) (spec.assignment s.now) f count locals at inputs.now) }
{
    match inputs {
        [] => Ok(()),
        [input, others @ ..] => {
            input_asks(alloc, p, s, asks, f, count, locals, at, *input)?;
            inputs_asks(alloc, p, s, asks, f, count, locals, next(at)?, others)
        }
    }
}

fn locals_of(callee: &Callee) -> Result<usize, NoMem>
    ensures { IfOk result (λ count. count ≡ spec.locals_of callee.now) }
{
    if callee.star {
        next(callee.defaults.len())
    } else {
        Ok(callee.defaults.len())
    }
}

fn first_inputs(graphs: &[Graph], f: FunId) -> &[VarId]
    ensures { result.now ≡ spec.first_inputs graphs.now f }
{
    match graphs.get(f as usize) {
        None => &[],
        Some(graph) => inputs_at(graph.blocks.as_slice(), 0),
    }
}

/// What the start of a function asks, once it is reached.
pub fn start_asks(
    alloc: Global,
    p: &Plan,
    s: &State,
    asks: &mut Asks,
    f: FunId,
    callee: &Callee,
) -> Result<(), NoMem>
    ensures { OnOk result (spec.seen asks.new ≡ spec.seen asks.old ++ rule.start_needs (spec.whole p.now) (spec.assignment s.now) f (spec.callee_of callee.now)) }
{
    if !s.is_marked(p.reached(f)) {
        return Ok(());
    }
    asks.set(p.block(f as usize, 0))?;
    let count = callee.defaults.len();
    let locals = locals_of(callee)?;
    let inputs = first_inputs(p.graphs.graphs.as_slice(), f);
    inputs_asks(alloc, p, s, asks, f, count, locals, 0, inputs)
}

/// What the run's beginning asks: the entry point takes the list of arguments, which are strings.
pub fn entry_asks(alloc: Global, p: &Plan, s: &State, asks: &mut Asks) -> Result<(), NoMem>
    ensures { OnOk result (spec.seen asks.new ≡ spec.seen asks.old ++ rule.entry_needs (spec.whole p.now) (spec.assignment s.now)) }
{
    to_items(alloc, p, s, asks, 0, &Element::Str)?;
    asks.above(alloc, p.param(p.entry, 0), &Element::List(0, false))?;
    asks.set(p.reached(p.entry))
}

// ---- the results of one node have one element

fn add_valued(valued: &mut Seq<(NodeId, VarId)>, ops: &[Op]) -> Result<(), NoMem>
    ensures { OnOk result (valued.new ≡ valued.old ++ spec.valued ops.now) }
{
    for op in ops {
        if op.value {
            valued.push((op.node, op.result))?;
        }
    }
    Ok(())
}

// The results that are values of nodes, each with its node.
fn all_valued(alloc: Global, blocks: &[Block]) -> Result<Seq<(NodeId, VarId)>, NoMem>
    ensures { IfOk result (λ valued. valued ≡ spec.all_valued blocks.now) }
{
    let mut valued = Seq::new(alloc);
    for block in blocks {
        add_valued(&mut valued, block.ops.as_slice())?;
    }
    Ok(valued)
}

fn tie_with(
    alloc: Global,
    p: &Plan,
    s: &State,
    asks: &mut Asks,
    g: usize,
    one: (NodeId, VarId),
    others: &[(NodeId, VarId)],
) -> Result<(), NoMem>
    ensures { OnOk result (spec.seen asks.new ≡ spec.seen asks.old ++ spec.tie_with (spec.whole p.now) (spec.assignment s.now) g one others.now) }
{
    for other in others {
        if other.0 == one.0 {
            tie(
                alloc,
                p,
                s,
                asks,
                p.variable(g, one.1),
                p.variable(g, other.1),
            )?;
        }
    }
    Ok(())
}

fn tie_each(
    alloc: Global,
    p: &Plan,
    s: &State,
    asks: &mut Asks,
    g: usize,
    ones: &[(NodeId, VarId)],
    others: &[(NodeId, VarId)],
) -> Result<(), NoMem>
    ensures { OnOk result (spec.seen asks.new ≡ spec.seen asks.old ++ spec.tie_each (spec.whole p.now) (spec.assignment s.now) g ones.now others.now) }
{
    for one in ones {
        tie_with(alloc, p, s, asks, g, *one, others)?;
    }
    Ok(())
}

/// That the results of one node have one element.
#[tactic(auto, using(crate::proofs::Tied::ties))]
pub fn tie_asks(
    alloc: Global,
    p: &Plan,
    s: &State,
    asks: &mut Asks,
    g: usize,
    graph: &Graph,
) -> Result<(), NoMem>
    ensures { OnOk result (spec.seen asks.new ≡ spec.seen asks.old ++ spec.graph_ties (spec.whole p.now) (spec.assignment s.now) g graph.now) }
{
    let valued = all_valued(alloc, graph.blocks.as_slice())?;
    tie_each(alloc, p, s, asks, g, valued.as_slice(), valued.as_slice())
}
