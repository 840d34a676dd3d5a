// The graph of a function.
ghost use Rattle.std.specs.Prelude.{◌≡◌, [], ◌++◌, IfOk, OnOk, slice_get};
ghost use Rattle.rtyper_data.specs.Seen.{the_around, writing, Gives, Asks};
ghost use Rattle.rtyper_class.specs.Seen.{the_world};
ghost use Rattle.rtyper_program.specs.Graphs as spec;
ghost use Rattle.rtyper_program.specs.Handlers.{work, Works};
ghost use Rattle.rtyper_program.specs.Seen.{the_known, the_lowered};

use crate::blocks::{block_of, dead_block};
use crate::extra::Extra;
use crate::known::{Known, is_block_reached};
use crate::links::Lowered;
use ann_element::Element;
use csub_tree::{CConst, COperand};
use flow_graph::{Block, Graph, VarId};
use ll_code::{LlBlock, LlGraph, LlOp, LlType};
use rpy_base::{NoMem, Seq, Text};
use rtyper_data::{Around, Body, Found};
use rtyper_layout::{Layout, repr, repr_seen};
use rtyper_raising::turned_blocks;
use std::alloc::Global;

// ---- blocks

// A function's first block pays for its call.
fn push_cost(i: usize, body: &mut Body) -> Result<(), NoMem>
    ensures { OnOk result (body.new ≡ spec.with_cost i body.old) }
{
    if i == 0 {
        body.ops.push(LlOp::Step(COperand::Const(CConst::Word(1))))?;
    }
    Ok(())
}

// Blocks behind others.
fn push_blocks(alloc: Global, blocks: Seq<LlBlock>, into: &mut Seq<LlBlock>) -> Result<(), NoMem>
    ensures { OnOk result (into.new ≡ into.old ++ blocks) }
{
    let mut left = turned_blocks(alloc, blocks)?;
    while let Some(block) = left.pop() {
        into.push(block)?;
    }
    Ok(())
}

// A block that has a number.
fn block_at(
    alloc: Global,
    lowered: Lowered<'_>,
    i: usize,
    block: &Block,
    found: &mut Found,
    body: &mut Body,
    extra: &mut Extra,
) -> Result<LlBlock, NoMem>
    ensures { IfOk result (λ made. Works (spec.block_at (the_lowered lowered.entry) i block.now (work (writing found.old body.old) extra.old)) made found.new body.new extra.new) }
{
    if !is_block_reached(lowered.known.annotation, lowered.number, i) {
        return Ok(dead_block(alloc));
    }
    push_cost(i, body)?;
    block_of(alloc, lowered, block, found, body, extra)
}

fn first_blocks(
    alloc: Global,
    lowered: Lowered<'_>,
    blocks: &[Block],
    found: &mut Found,
    body: &mut Body,
    extra: &mut Extra,
) -> Result<Seq<LlBlock>, NoMem>
    ensures { IfOk result (λ made. Works (spec.blocks_from (the_lowered lowered.entry) 0 blocks.now ([], work (writing found.old body.old) extra.old)) made found.new body.new extra.new) }
{
    let mut made = Seq::new(alloc);
    let mut i: usize = 0;
    for block in blocks {
        made.push(block_at(alloc, lowered, i, block, found, body, extra)?)?;
        i += 1;
    }
    Ok(made)
}

// The blocks that were made on the way follow.
#[tactic(auto, unfolding(crate::specs::Graphs::blocks_of))]
fn blocks_of(
    alloc: Global,
    lowered: Lowered<'_>,
    found: &mut Found,
    body: &mut Body,
) -> Result<Seq<LlBlock>, NoMem>
    ensures { IfOk result (λ made. Gives (spec.blocks_of (the_lowered lowered.entry) (writing found.old body.old)) made found.new body.new) }
{
    let blocks = lowered.graph.blocks.as_slice();
    let mut extra = Extra {
        first: blocks.len() as u64,
        blocks: Seq::new(alloc),
    };
    let mut made = first_blocks(alloc, lowered, blocks, found, body, &mut extra)?;
    push_blocks(alloc, extra.blocks, &mut made)?;
    Ok(made)
}

// ---- graphs

fn types_of(alloc: Global, layout: &Layout, elements: &[Element]) -> Result<Seq<LlType>, NoMem>
    ensures { IfOk result (λ types. types ≡ spec.types_of layout.now elements.now) }
{
    let mut types = Seq::new(alloc);
    for element in elements {
        types.push(repr(layout, element))?;
    }
    Ok(types)
}

// The parameters that have a type. They are the first variables.
fn typed(alloc: Global, layout: &Layout, elements: &[Element]) -> Result<Seq<VarId>, NoMem>
    ensures { IfOk result (λ variables. variables ≡ spec.typed_from layout.now 0 elements.now) }
{
    let mut variables = Seq::new(alloc);
    let mut i: usize = 0;
    for element in elements {
        if repr(layout, element) != LlType::Void {
            variables.push(i as u64)?;
        }
        i += 1;
    }
    Ok(variables)
}

fn elements_at<'a>(all: &'a [Seq<Element>], at: usize) -> &'a [Element]
    ensures { result.now ≡ spec.elements_in (slice_get all.now at) }
{
    match all.get(at) {
        None => &[],
        Some(elements) => elements.as_slice(),
    }
}

fn params_of(alloc: Global, around: Around<'_>, function: usize) -> Result<Seq<VarId>, NoMem>
    ensures { IfOk result (λ variables. variables ≡ spec.params_of (the_around around.entry) function) }
{
    typed(alloc, around.layout, elements_at(around.params, function))
}

fn name_of(alloc: Global, known: Known<'_>, function: usize) -> Result<Text, NoMem>
    ensures { IfOk result (λ name. name ≡ spec.name_in (slice_get (the_known known.entry).program.functions function)) }
{
    match known.program.functions.get(function) {
        None => Ok(Text::new(alloc)),
        Some(of) => of.name.copy(alloc),
    }
}

/// The type of what a function gives.
pub fn result_of(around: Around<'_>, function: usize) -> LlType
    ensures { result ≡ spec.result_of (the_around around.entry) function }
{
    repr_seen(around.layout, around.results.get(function))
}

// The variables keep their numbers.
fn variables(
    alloc: Global,
    known: Known<'_>,
    around: Around<'_>,
    number: usize,
) -> Result<Seq<LlType>, NoMem>
    ensures { IfOk result (λ types. types ≡ spec.variables (the_known known.entry) (the_world around.entry) number) }
{
    let elements = elements_at(known.annotation.vars.as_slice(), number);
    types_of(alloc, around.layout, elements)
}

/// The low-level graph of a flow graph, which has the name of its function.
#[tactic(auto, unfolding(crate::specs::Graphs::graph_of))]
pub fn graph_of(
    alloc: Global,
    known: Known<'_>,
    around: Around<'_>,
    number: usize,
    graph: &Graph,
    found: &mut Found,
) -> Result<LlGraph, NoMem>
    ensures { IfOk result (λ made. Asks (spec.graph_of (the_known known.entry) (the_world around.entry) number graph.now found.old) made found.new) }
{
    let function = graph.function as usize;
    let lowered = Lowered {
        known,
        around,
        number,
        graph,
        result: result_of(around, function),
    };
    let mut body = Body {
        types: variables(alloc, known, around, number)?,
        ops: Seq::new(alloc),
    };
    let blocks = blocks_of(alloc, lowered, found, &mut body)?;
    Ok(LlGraph {
        name: name_of(alloc, known, function)?,
        params: params_of(alloc, around, function)?,
        result: lowered.result,
        types: body.types,
        blocks,
    })
}
