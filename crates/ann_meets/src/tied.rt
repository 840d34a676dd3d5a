// The results of one node have one element.
ghost use Rattle.std.specs.Prelude.{◌≡◌, IfErr, OnOk};
ghost use Rattle.ann_needs.specs.View.{assignment, whole};
ghost use Rattle.ann_grown.specs.Partial.{Keeps};
ghost use Rattle.ann_meets.specs.Steps.{spots_in, Stopped};

use crate::block::are_one;
use crate::grow::grow_part;
use crate::meet::News;
use crate::part::{OpPlace, Part};
use crate::stop::Stop;
use ann_needs::{Plan, State};
use flow_graph::{Block, Op, VarId};
use rpy_base::{NoMem, Seq};
use rpy_tree::NodeId;
use std::alloc::Global;

// A result that is the value of a node.
#[derive(Clone, Copy)]
struct Valued {
    node: NodeId,
    result: VarId,
    at: OpPlace,
}

fn add_valued(valued: &mut Seq<Valued>, block: usize, ops: &[Op]) -> Result<(), NoMem> {
    for (index, op) in ops.iter().enumerate() {
        if op.value {
            valued.push(Valued {
                node: op.node,
                result: op.result,
                at: OpPlace { block, index },
            })?;
        }
    }
    Ok(())
}

fn all_valued(alloc: Global, blocks: &[Block]) -> Result<Seq<Valued>, NoMem> {
    let mut valued = Seq::new(alloc);
    for (number, block) in blocks.iter().enumerate() {
        add_valued(&mut valued, number, block.ops.as_slice())?;
    }
    Ok(valued)
}

fn is_tied(p: &Plan, s: &State, g: usize, one: VarId, two: VarId) -> bool {
    are_one(p, s, p.variable(g, one), p.variable(g, two))
}

fn tie_two(
    alloc: Global,
    p: &Plan,
    spots: &Seq<bool>,
    s: &mut State,
    g: usize,
    one: Valued,
    two: Valued,
    news: &mut News,
) -> Result<(), Stop>
    ensures kept { OnOk result (Keeps (whole p.now) (spots_in spots.now) (assignment s.old) (assignment s.new)) }
    ensures first { IfErr result (Stopped (whole p.now) (spots_in spots.now) (assignment s.old) (assignment s.new)) }
{
    if one.node != two.node || is_tied(p, s, g, one.result, two.result) {
        return Ok(());
    }
    grow_part(alloc, p, spots, s, Part::Tie(g, one.at, two.at), news)
}

fn tie_with(
    alloc: Global,
    p: &Plan,
    spots: &Seq<bool>,
    s: &mut State,
    g: usize,
    one: Valued,
    others: &[Valued],
    news: &mut News,
) -> Result<(), Stop>
    ensures kept { OnOk result (Keeps (whole p.now) (spots_in spots.now) (assignment s.old) (assignment s.new)) }
    ensures first { IfErr result (Stopped (whole p.now) (spots_in spots.now) (assignment s.old) (assignment s.new)) }
{
    for other in others {
        tie_two(alloc, p, spots, s, g, one, *other, news)?;
    }
    Ok(())
}

fn tie_each(
    alloc: Global,
    p: &Plan,
    spots: &Seq<bool>,
    s: &mut State,
    g: usize,
    valued: &[Valued],
    news: &mut News,
) -> Result<(), Stop>
    ensures kept { OnOk result (Keeps (whole p.now) (spots_in spots.now) (assignment s.old) (assignment s.new)) }
    ensures first { IfErr result (Stopped (whole p.now) (spots_in spots.now) (assignment s.old) (assignment s.new)) }
{
    for one in valued {
        tie_with(alloc, p, spots, s, g, *one, valued, news)?;
    }
    Ok(())
}

/// That the results of each node of a graph have one element.
pub fn grow_ties(
    alloc: Global,
    p: &Plan,
    spots: &Seq<bool>,
    s: &mut State,
    g: usize,
    news: &mut News,
) -> Result<(), Stop>
    ensures kept { OnOk result (Keeps (whole p.now) (spots_in spots.now) (assignment s.old) (assignment s.new)) }
    ensures first { IfErr result (Stopped (whole p.now) (spots_in spots.now) (assignment s.old) (assignment s.new)) }
{
    match p.graphs.graphs.get(g) {
        None => Ok(()),
        Some(graph) => {
            let valued = all_valued(alloc, graph.blocks.as_slice())?;
            tie_each(alloc, p, spots, s, g, valued.as_slice(), news)
        }
    }
}
