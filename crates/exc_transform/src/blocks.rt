// Graphs. The blocks keep their numbers, and the new ones stand behind them.
ghost use Rattle.std.specs.Prelude.{◌≡◌, ◌+◌, ◌∷◌, [], ◌++◌, length, reverse, IfOk, OnOk};
ghost use Rattle.exc_transform.specs.Pieces as p;

use crate::copies::{copy_types, copy_variables};
use crate::family::{Family, kind_of};
use crate::live::live_variables;
use crate::pieces::{Around, Ending, add, ending_of, goes_on, piece, way_of};
use crate::raising::{Raising, raises_within};
use crate::slots::Slots;
use ll_code::{LlBlock, LlExit, LlGraph, LlOp, LlType};
use rpy_base::{NoMem, Seq};
use std::alloc::Global;

// The block of the rest, unless the piece before it goes on by the exit's link.
fn push_rest(
    alloc: Global,
    around: Around<'_>,
    first: u64,
    rest: &[LlOp],
    exit: &LlExit,
    extra: &mut Seq<LlBlock>,
) -> Result<(), NoMem>
    ensures { OnOk result (extra.new ≡ extra.old ++ p.rest_block (p.around_of around.entry.raising.graphs.now around.entry.raising.any around.entry.slots.family around.entry.slots.types.now around.entry.slots.kind around.entry.slots.test around.entry.result) rest.now exit.now (first + length extra.old + 1) ∷ []) }
{
    let inputs = live_variables(alloc, around.raising, rest, exit)?;
    let own = add(first, extra.len() as u64)?;
    extra.push(piece(alloc, around, inputs, rest, exit, add(own, 1)?)?)
}

// The pieces behind the first, each behind the block for the exceptions of the one before it.
fn push_pieces(
    alloc: Global,
    around: Around<'_>,
    first: u64,
    ops: &[LlOp],
    exit: &LlExit,
    extra: &mut Seq<LlBlock>,
) -> Result<(), NoMem>
    ensures { OnOk result (extra.new ≡ extra.old ++ p.behind (p.around_of around.entry.raising.graphs.now around.entry.raising.any around.entry.slots.family around.entry.slots.types.now around.entry.slots.kind around.entry.slots.test around.entry.result) (first + length extra.old) ops.now exit.now) }
{
    let mut given = ops;
    while let [op, rest @ ..] = given {
        match ending_of(around.raising, op) {
            Ending::Raises(_) => return Ok(()),
            Ending::Tested => {
                extra.push(way_of(alloc, around, rest, exit)?)?;
                if goes_on(rest, exit) {
                    return Ok(());
                }
                push_rest(alloc, around, first, rest, exit, extra)?;
            }
            Ending::Leaves => {}
        }
        given = rest;
    }
    Ok(())
}

fn push_first(
    alloc: Global,
    around: Around<'_>,
    next: u64,
    block: &LlBlock,
    made: &mut Seq<LlBlock>,
) -> Result<(), NoMem>
    ensures { OnOk result (made.new ≡ made.old ++ p.piece (p.around_of around.entry.raising.graphs.now around.entry.raising.any around.entry.slots.family around.entry.slots.types.now around.entry.slots.kind around.entry.slots.test around.entry.result) block.now.inputs block.now.ops block.now.exit next ∷ []) }
{
    let inputs = copy_variables(alloc, block.inputs.as_slice())?;
    made.push(piece(
        alloc,
        around,
        inputs,
        block.ops.as_slice(),
        &block.exit,
        next,
    )?)
}

fn push_block(
    alloc: Global,
    around: Around<'_>,
    first: u64,
    block: &LlBlock,
    made: &mut Seq<LlBlock>,
    extra: &mut Seq<LlBlock>,
) -> Result<(), NoMem>
    ensures made { OnOk result (made.new ≡ made.old ++ p.piece (p.around_of around.entry.raising.graphs.now around.entry.raising.any around.entry.slots.family around.entry.slots.types.now around.entry.slots.kind around.entry.slots.test around.entry.result) block.now.inputs block.now.ops block.now.exit (first + length extra.old) ∷ []) }
    ensures extra { OnOk result (extra.new ≡ extra.old ++ p.behind_block (p.around_of around.entry.raising.graphs.now around.entry.raising.any around.entry.slots.family around.entry.slots.types.now around.entry.slots.kind around.entry.slots.test around.entry.result) (first + length extra.old) block.now) }
{
    let next = add(first, extra.len() as u64)?;
    push_first(alloc, around, next, block, made)?;
    push_pieces(
        alloc,
        around,
        first,
        block.ops.as_slice(),
        &block.exit,
        extra,
    )
}

// Blocks in the other order.
#[tactic(auto, using(crate::proofs::Behind::last_first))]
fn turned(alloc: Global, blocks: Seq<LlBlock>) -> Result<Seq<LlBlock>, NoMem>
    ensures { IfOk result (λ made. made ≡ reverse blocks) }
{
    let mut left = blocks;
    let mut made = Seq::new(alloc);
    while let Some(block) = left.pop() {
        made.push(block)?;
    }
    Ok(made)
}

// The blocks behind the others, in their order.
#[tactic(auto, using(crate::proofs::Behind::last_first))]
fn append(alloc: Global, into: &mut Seq<LlBlock>, extra: Seq<LlBlock>) -> Result<(), NoMem>
    ensures { OnOk result (into.new ≡ into.old ++ extra) }
{
    let mut left = turned(alloc, extra)?;
    while let Some(block) = left.pop() {
        into.push(block)?;
    }
    Ok(())
}

fn blocks_of(alloc: Global, around: Around<'_>, blocks: &[LlBlock]) -> Result<Seq<LlBlock>, NoMem>
    ensures { IfOk result (λ made. made ≡ p.blocks_of (p.around_of around.entry.raising.graphs.now around.entry.raising.any around.entry.slots.family around.entry.slots.types.now around.entry.slots.kind around.entry.slots.test around.entry.result) blocks.now) }
{
    let first = blocks.len() as u64;
    let mut made = Seq::new(alloc);
    let mut extra = Seq::new(alloc);
    for block in blocks {
        push_block(alloc, around, first, block, &mut made, &mut extra)?;
    }
    append(alloc, &mut made, extra)?;
    Ok(made)
}

// The types of the variables, with those of the tests behind them.
fn types_of(
    alloc: Global,
    family: Family,
    tested: bool,
    types: &[LlType],
) -> Result<Seq<LlType>, NoMem>
    ensures { IfOk result (λ made. made ≡ p.types_of family tested types.now) }
{
    let mut made = copy_types(alloc, types)?;
    if tested {
        made.push(LlType::Ptr(kind_of(family)))?;
        made.push(LlType::Bool)?;
    }
    Ok(made)
}

/// A graph without exceptions.
pub fn graph_of(
    alloc: Global,
    family: Family,
    raising: Raising<'_>,
    graph: &LlGraph,
) -> Result<LlGraph, NoMem>
    ensures { IfOk result (λ made. made ≡ p.graph_with family raising.entry.graphs.now raising.entry.any graph.now) }
{
    let types = graph.types.as_slice();
    let blocks = graph.blocks.as_slice();
    let kind = types.len() as u64;
    let slots = Slots {
        family,
        types,
        kind,
        test: add(kind, 1)?,
    };
    let around = Around {
        raising,
        slots,
        result: graph.result,
    };
    Ok(LlGraph {
        name: graph.name.copy(alloc)?,
        params: copy_variables(alloc, graph.params.as_slice())?,
        result: graph.result,
        types: types_of(alloc, family, raises_within(raising, blocks), types)?,
        blocks: blocks_of(alloc, around, blocks)?,
    })
}
