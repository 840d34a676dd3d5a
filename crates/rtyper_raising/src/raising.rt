// The helpers whose failures are raised.
ghost use Rattle.std.specs.Prelude.{◌≡◌, reverse, IfOk};
ghost use Rattle.rtyper_data.specs.Seen.{Asks};
ghost use Rattle.rtyper_raising.specs.Raising as spec;

use ll_code::{LlBlock, LlExit, LlGraph, LlOp};
use rpy_base::{NoMem, Seq};
use rpy_meaning::Covers;
use rpy_tree::ClassId;
use rtyper_data::{Found, NOTHING, Small, small_number};
use std::alloc::Global;

fn if_covered(covered: bool, class: ClassId) -> Option<ClassId>
    ensures { result ≡ spec.if_covered covered class }
{
    if covered { Some(class) } else { None }
}

// The class of a failure that is raised, by its number.
fn class_of(number: u32, caught: Covers) -> Option<ClassId>
    ensures { result ≡ spec.class_of number caught }
{
    match number {
        1 => if_covered(caught.index, 6),
        2 => if_covered(caught.zero, 4),
        3 => if_covered(caught.number, 8),
        4 => if_covered(caught.attribute, 9),
        _ => None,
    }
}

fn failing_with(exit: &LlExit, caught: Covers) -> Option<ClassId>
    ensures { result ≡ spec.failing_with exit.now caught }
{
    match exit {
        LlExit::Fail(number) => class_of(*number, caught),
        _ => None,
    }
}

// A block that fails raises the exception of the failure before that.
fn raising_block(
    alloc: Global,
    block: LlBlock,
    caught: Covers,
    found: &mut Found,
) -> Result<LlBlock, NoMem>
    ensures { IfOk result (λ made. Asks (spec.raising_block block (spec.failing_with block.exit caught) found.old) made found.new) }
{
    let class = failing_with(&block.exit, caught);
    let LlBlock {
        inputs,
        mut ops,
        exit,
    } = block;
    match class {
        None => {}
        Some(class) => {
            let graph = small_number(Small::Raise(class), found)?;
            ops.push(LlOp::Call(None, graph, Seq::new(alloc)))?;
        }
    }
    Ok(LlBlock { inputs, ops, exit })
}

/// The same blocks, in the opposite order.
#[tactic(auto, using(crate::proofs::Turning::last_first))]
pub fn turned_blocks(alloc: Global, blocks: Seq<LlBlock>) -> Result<Seq<LlBlock>, NoMem>
    ensures { IfOk result (λ made. made ≡ reverse blocks) }
{
    let mut left = blocks;
    let mut made = Seq::new(alloc);
    while let Some(block) = left.pop() {
        made.push(block)?;
    }
    Ok(made)
}

#[tactic(auto, using(crate::proofs::Turning::last_block, crate::proofs::Turning::block_left))]
fn raising_blocks(
    alloc: Global,
    blocks: Seq<LlBlock>,
    caught: Covers,
    found: &mut Found,
) -> Result<Seq<LlBlock>, NoMem>
    ensures { IfOk result (λ made. Asks (spec.raising_blocks caught blocks found.old) made found.new) }
{
    let mut left = turned_blocks(alloc, blocks)?;
    let mut made = Seq::new(alloc);
    while let Some(block) = left.pop() {
        made.push(raising_block(alloc, block, caught, found)?)?;
    }
    Ok(made)
}

fn raising_graph(
    alloc: Global,
    graph: LlGraph,
    caught: Covers,
    found: &mut Found,
) -> Result<LlGraph, NoMem>
    ensures { IfOk result (λ made. Asks (spec.raising_graph caught graph found.old, (spec.raising_blocks caught graph.blocks found.old).1) made found.new) }
{
    let LlGraph {
        name,
        params,
        result,
        types,
        blocks,
    } = graph;
    Ok(LlGraph {
        name,
        params,
        result,
        types,
        blocks: raising_blocks(alloc, blocks, caught, found)?,
    })
}

#[tactic(auto, using(crate::proofs::Turning::last_first))]
fn turned_graphs(alloc: Global, graphs: Seq<LlGraph>) -> Result<Seq<LlGraph>, NoMem>
    ensures { IfOk result (λ made. made ≡ reverse graphs) }
{
    let mut left = graphs;
    let mut made = Seq::new(alloc);
    while let Some(graph) = left.pop() {
        made.push(graph)?;
    }
    Ok(made)
}

fn caught_at(found: &Found, at: usize) -> Covers
    ensures { result ≡ spec.caught_at found.now at }
{
    match found.caught.get(at) {
        None => NOTHING,
        Some(caught) => *caught,
    }
}

/// The graphs of helpers, with the failures raised that each was asked for to raise.
#[tactic(auto, using(crate::proofs::Turning::last_graph, crate::proofs::Turning::graph_left))]
pub fn raising_graphs(
    alloc: Global,
    graphs: Seq<LlGraph>,
    found: &mut Found,
) -> Result<Seq<LlGraph>, NoMem>
    ensures { IfOk result (λ made. Asks (spec.raising_graphs 0 graphs found.old) made found.new) }
{
    let mut left = turned_graphs(alloc, graphs)?;
    let mut made = Seq::new(alloc);
    while let Some(graph) = left.pop() {
        let caught = caught_at(found, made.len());
        made.push(raising_graph(alloc, graph, caught, found)?)?;
    }
    Ok(made)
}
