// Straight ways as single blocks.
ghost use Rattle.std.specs.Prelude.{◌≡◌, ◌++◌, length, map, reverse, slice_get, Some, None, IfOk, OnOk};
ghost use Rattle.std.specs.Option.{option_copied};
ghost use Rattle.ll_joined.specs.Keeps.{Keeps};
ghost use Rattle.ll_joined.specs.Named.{naming};
ghost use Rattle.ll_joined.specs.Marked.{marks_of};
ghost use Rattle.ll_joined.specs.Joined as spec;

use crate::copies::without_copies;
use crate::count::{Counts, counts_of, follows, taken_in};
use crate::marks::marks_of;
use crate::names::{Names, copied, exit, push_named, variables};
use crate::number::{blocks_by, numbers_of, places_of, stays, types_of};
use csub_tree::COperand;
use ll_code::{LlBlock, LlExit, LlGraph, LlLink, LlOp, LlProgram, LlType, VarId};
use rpy_base::{NoMem, Seq};
use std::alloc::Global;

// ---- one block with those that follow at once

// What the inputs of the next block are called. One that is a constant is set.
#[tactic(auto, using(crate::proofs::Steps::pairs_end, crate::proofs::Steps::constants_end))]
fn pairs_of(
    alloc: Global,
    names: Names<'_>,
    link: &LlLink,
    inputs: &[VarId],
    ops: &mut Seq<LlOp>,
) -> Result<Seq<(VarId, VarId)>, NoMem>
    ensures pairs { IfOk result (λ made. made ≡ spec.pairs_of (naming names.entry) inputs.now link.now.args) }
    ensures ops { OnOk result (ops.new ≡ ops.old ++ spec.constants_of inputs.now link.now.args) }
{
    let mut pairs = Seq::new(alloc);
    let args = link.args.as_slice();
    for i in 0..inputs.len() {
        if i >= args.len() {
            return Ok(pairs);
        }
        match args[i] {
            COperand::Var(v) => pairs.push((inputs[i], names.of(v)))?,
            COperand::Const(c) => ops.push(LlOp::Set(inputs[i], COperand::Const(c)))?,
        }
    }
    Ok(pairs)
}

/// What was taken in, and the block that is next, with what its variables are called.
#[derive(Drop)]
struct Way {
    ops: Seq<LlOp>,
    pairs: Seq<(VarId, VarId)>,
    at: usize,
}

// The exit, where the way ends at its block; else the way goes on at the next one.
fn goes_on(
    alloc: Global,
    blocks: &[LlBlock],
    counts: &Counts,
    way: &mut Way,
) -> Result<Option<LlExit>, NoMem>
    ensures { IfOk result (λ found. spec.went way.new found ≡ spec.goes_on blocks.now counts.now way.old) }
{
    match blocks.get(way.at) {
        None => Ok(Some(LlExit::Fail(4))),
        Some(block) => goes_by(
            alloc,
            blocks,
            block,
            follows(blocks, counts, &block.exit),
            way,
        ),
    }
}

fn goes_by(
    alloc: Global,
    blocks: &[LlBlock],
    block: &LlBlock,
    link: Option<&LlLink>,
    way: &mut Way,
) -> Result<Option<LlExit>, NoMem>
    ensures { IfOk result (λ found. spec.went way.new found ≡ spec.goes_by blocks.now way.old block.now (option_copied link.entry)) }
{
    match link {
        None => {
            let exit = ends_at(alloc, blocks, block, way)?;
            Ok(Some(exit))
        }
        Some(link) => {
            goes_past(alloc, blocks, block, link, way)?;
            Ok(None)
        }
    }
}

fn push_block(alloc: Global, block: &LlBlock, way: &mut Way) -> Result<(), NoMem>
    ensures { OnOk result (way.new ≡ spec.past way.old block.now) }
{
    push_named(
        alloc,
        Names::Pairs(way.pairs.as_slice()),
        block.ops.as_slice(),
        &mut way.ops,
    )
}

fn ends_at(
    alloc: Global,
    blocks: &[LlBlock],
    block: &LlBlock,
    way: &mut Way,
) -> Result<LlExit, NoMem>
    ensures { IfOk result (λ e. spec.Ends way.new.ops e ≡ spec.goes_by blocks.now way.old block.now None) }
{
    push_block(alloc, block, way)?;
    exit(alloc, Names::Pairs(way.pairs.as_slice()), &[], &block.exit)
}

fn goes_past(
    alloc: Global,
    blocks: &[LlBlock],
    block: &LlBlock,
    link: &LlLink,
    way: &mut Way,
) -> Result<(), NoMem>
    ensures { OnOk result (spec.On way.new ≡ spec.goes_by blocks.now way.old block.now (Some link.now)) }
{
    push_block(alloc, block, way)?;
    go_onto(alloc, link, inputs_at(blocks, link.to), way)
}

fn go_onto(alloc: Global, link: &LlLink, inputs: &[VarId], way: &mut Way) -> Result<(), NoMem>
    ensures { OnOk result (way.new ≡ spec.onto way.old link.now inputs.now) }
{
    way.pairs = pairs_of(
        alloc,
        Names::Pairs(way.pairs.as_slice()),
        link,
        inputs,
        &mut way.ops,
    )?;
    way.at = link.to as usize;
    Ok(())
}

fn inputs_at(blocks: &[LlBlock], n: u64) -> &[VarId]
    ensures { result.now ≡ spec.inputs_of (slice_get blocks.now n) }
{
    match blocks.get(n as usize) {
        None => &[],
        Some(block) => block.inputs.as_slice(),
    }
}

// A ring to which nothing leads has no end; no run comes there.
#[tactic(auto, using(crate::proofs::Steps::way_next, crate::proofs::Steps::way_end))]
fn way_from(
    alloc: Global,
    blocks: &[LlBlock],
    counts: &Counts,
    way: &mut Way,
) -> Result<LlExit, NoMem>
    ensures { IfOk result (λ e. (way.new.ops, e) ≡ spec.way_from blocks.now counts.now (length blocks.now) way.old) }
{
    for _ in 0..blocks.len() {
        if let Some(exit) = goes_on(alloc, blocks, counts, way)? {
            return Ok(exit);
        }
    }
    Ok(LlExit::Fail(4))
}

fn joined_block(
    alloc: Global,
    blocks: &[LlBlock],
    counts: &Counts,
    i: usize,
) -> Result<LlBlock, NoMem>
    ensures { IfOk result (λ made. made ≡ spec.joined_block blocks.now counts.now i) }
{
    let mut way = Way {
        ops: Seq::new(alloc),
        pairs: Seq::new(alloc),
        at: i,
    };
    let exit = way_from(alloc, blocks, counts, &mut way)?;
    let inputs = copied(alloc, inputs_at(blocks, i as u64))?;
    Ok(LlBlock {
        inputs,
        ops: way.ops,
        exit,
    })
}

// ---- graphs and programs

fn push_if(
    alloc: Global,
    blocks: &[LlBlock],
    counts: &Counts,
    taken: &[u64],
    i: usize,
    all: &mut Seq<LlBlock>,
) -> Result<(), NoMem>
    ensures { OnOk result (all.new ≡ all.old ++ spec.block_if (spec.stays counts.now taken.now i) (spec.joined_block blocks.now counts.now i)) }
{
    if stays(counts, taken, i) {
        return all.push(joined_block(alloc, blocks, counts, i)?);
    }
    Ok(())
}

// The blocks that stay, which go to the numbers that were given.
#[tactic(auto, using(crate::proofs::Steps::joined_next))]
fn joined_blocks(
    alloc: Global,
    blocks: &[LlBlock],
    counts: &Counts,
    taken: &[u64],
) -> Result<Seq<LlBlock>, NoMem>
    ensures { IfOk result (λ made. made ≡ spec.joined_blocks blocks.now counts.now taken.now) }
{
    let mut all = Seq::new(alloc);
    for i in 0..blocks.len() {
        push_if(alloc, blocks, counts, taken, i, &mut all)?;
    }
    Ok(all)
}

// The ways without copies.
fn plain_ways(
    alloc: Global,
    params: &[VarId],
    types: &[LlType],
    ways: &[LlBlock],
) -> Result<Seq<LlBlock>, NoMem>
    ensures { IfOk result (λ made. made ≡ spec.plain_ways params.now types.now ways.now) }
{
    let counts = counts_of(alloc, types.len(), ways)?;
    let marks = marks_of(alloc, types.len(), params, ways)?;
    without_copies(alloc, types, &counts, &marks, ways)
}

// What is left of the variables and blocks is numbered anew.
fn numbered(
    alloc: Global,
    graph: &LlGraph,
    named: &[u64],
    numbers: &[u64],
    blocks: &[LlBlock],
) -> Result<LlGraph, NoMem>
    ensures { IfOk result (λ made. made ≡ spec.numbered graph.now named.now numbers.now blocks.now) }
{
    let places = places_of(alloc, named)?;
    let names = Names::Places(places.as_slice());
    let params = variables(alloc, names, graph.params.as_slice())?;
    let types = types_of(alloc, named, graph.types.as_slice())?;
    let blocks = blocks_by(alloc, names, numbers, blocks)?;
    Ok(LlGraph {
        name: graph.name.copy(alloc)?,
        params,
        result: graph.result,
        types,
        blocks,
    })
}

// .. by how often they are named in these blocks.
fn numbered_by(
    alloc: Global,
    graph: &LlGraph,
    numbers: &[u64],
    blocks: &[LlBlock],
) -> Result<LlGraph, NoMem>
    ensures { IfOk result (λ made. made ≡ spec.numbered graph.now (marks_of (length graph.now.types) graph.now.params blocks.now).named numbers.now blocks.now) }
{
    let marks = marks_of(alloc, graph.types.len(), graph.params.as_slice(), blocks)?;
    numbered(alloc, graph, marks.named.as_slice(), numbers, blocks)
}

#[tactic(auto, using(crate::proofs::Steps::joined_is))]
fn joined(alloc: Global, graph: &LlGraph) -> Result<LlGraph, NoMem>
    ensures { IfOk result (λ made. made ≡ spec.joined_graph graph.now) }
{
    let blocks = graph.blocks.as_slice();
    let types = graph.types.as_slice();
    let params = graph.params.as_slice();
    let counts = counts_of(alloc, types.len(), blocks)?;
    let taken = taken_in(alloc, blocks, &counts)?;
    let numbers = numbers_of(alloc, &counts, taken.as_slice())?;
    let ways = joined_blocks(alloc, blocks, &counts, taken.as_slice())?;
    let plain = plain_ways(alloc, params, types, ways.as_slice())?;
    numbered_by(alloc, graph, numbers.as_slice(), plain.as_slice())
}

fn joined_graphs(alloc: Global, graphs: &[LlGraph]) -> Result<Seq<LlGraph>, NoMem>
    ensures { IfOk result (λ made. made ≡ map spec.joined_graph graphs.now) }
{
    let mut all = Seq::new(alloc);
    for graph in graphs {
        all.push(joined(alloc, graph)?)?;
    }
    Ok(all)
}

/// The program with straight ways as single blocks. Structs, statics, stage and entry are as they were, and so are the names, the results and
/// the order of graphs.
pub fn join_blocks(alloc: Global, program: LlProgram) -> Result<LlProgram, NoMem>
    ensures exact { IfOk result (λ made. made ≡ spec.joined program) }
    ensures kept { IfOk result (Keeps program) }
{
    let LlProgram {
        stage,
        structs,
        statics,
        graphs,
        entry,
    } = program;
    Ok(LlProgram {
        stage,
        structs,
        statics,
        graphs: joined_graphs(alloc, graphs.as_slice())?,
        entry,
    })
}
