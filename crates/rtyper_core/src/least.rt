// The least fault of a program.
ghost use Rattle.std.specs.Prelude.{◌≡◌, slice_get, IfOk};
ghost use Rattle.rtyper_core.specs.Typing as spec;

use crate::arity::{Arity, arities_of};
use crate::call::{fits, reach_of};
use crate::fault::{Fault, FaultKind, TypeFault, fault_if, lesser, told};
use crate::modify::{is_marked, modifies_prebuilt, narrow, prebuilt_of};
use ann_element::{Annotation, Element};
use class_desc::Classes;
use flow_graph::{Block, Graph, Graphs, Op, VarId};
use rpy_base::{NoMem, Seq};
use rpy_meaning::RowOp;
use rpy_tree::{FunId, FunInfo, NodeId, Program};
use std::alloc::Global;

/// What functions take, and the leaders of the classes of sites that hold a prebuilt one.
#[derive(Drop)]
pub struct Facts {
    pub arities: Seq<Arity>,
    pub prebuilt: Seq<bool>,
}

fn is_unreached(e: &Element) -> bool
    ensures { result ≡ spec.is_unreached e.now }
{
    match e {
        Element::Unreached => true,
        _ => false,
    }
}

// Whether an operation says what a test says of a local.
fn narrows(op: &RowOp) -> bool
    ensures { result ≡ spec.narrows op.now }
{
    match op {
        RowOp::DropNone => true,
        RowOp::OnlyNone => true,
        RowOp::FalseNone => true,
        RowOp::Lower(_) => true,
        RowOp::NonNegative => true,
        _ => false,
    }
}

// Whether a variable has no value.
fn is_unreached_at(elements: &[Element], variable: VarId) -> bool
    ensures { result ≡ spec.is_unreached_at (slice_get elements.now variable) }
{
    match elements.get(variable as usize) {
        None => true,
        Some(e) => is_unreached(e),
    }
}

// Whether the operations after it in its block are not reached: it gives no value.
fn stops(elements: &[Element], op: &Op) -> bool
    ensures { result ≡ spec.stops elements.now op.now }
{
    is_unreached_at(elements, op.result) && !narrows(&op.op)
}

// Whether one of these variables has no value.
fn some_unreached(elements: &[Element], variables: &[VarId]) -> bool
    ensures { result ≡ spec.some_unreached elements.now variables.now }
{
    for variable in variables {
        if is_unreached_at(elements, *variable) {
            return true;
        }
    }
    false
}

// The fault of an operation that is reached, where its operands are.
fn op_fault(
    alloc: Global,
    facts: &Facts,
    classes: &Classes,
    annotation: &Annotation,
    elements: &[Element],
    op: &Op,
) -> Result<Option<Fault>, NoMem>
    ensures { IfOk result (λ fault. fault ≡ spec.op_fault facts.now classes.now annotation.now elements.now op.now) }
{
    if some_unreached(elements, op.args.as_slice()) {
        return Ok(None);
    }
    if modifies_prebuilt(facts.prebuilt.as_slice(), &annotation.same, elements, op) {
        return Ok(fault_if(true, op.node, FaultKind::ConstantModified));
    }
    let reach = reach_of(alloc, classes, annotation.made.as_slice(), elements, op)?;
    let fits = fits(facts.arities.as_slice(), &reach);
    Ok(fault_if(!fits, op.node, FaultKind::Family))
}

// The least fault of a block's operations, up to the first that gives no value.
fn ops_fault(
    alloc: Global,
    facts: &Facts,
    classes: &Classes,
    annotation: &Annotation,
    elements: &[Element],
    ops: &[Op],
    least: Option<Fault>,
) -> Result<Option<Fault>, NoMem>
    ensures { IfOk result (λ fault. fault ≡ spec.ops_fault facts.now classes.now annotation.now elements.now ops.now least) }
{
    let mut least = least;
    for op in ops {
        least = lesser(
            least,
            op_fault(alloc, facts, classes, annotation, elements, op)?,
        );
        if stops(elements, op) {
            return Ok(least);
        }
    }
    Ok(least)
}

fn block_fault(
    alloc: Global,
    facts: &Facts,
    classes: &Classes,
    annotation: &Annotation,
    elements: &[Element],
    reached: bool,
    block: &Block,
    least: Option<Fault>,
) -> Result<Option<Fault>, NoMem>
    ensures { IfOk result (λ fault. fault ≡ spec.block_fault facts.now classes.now annotation.now elements.now reached block.now least) }
{
    if !reached {
        return Ok(least);
    }
    let ops = block.ops.as_slice();
    ops_fault(alloc, facts, classes, annotation, elements, ops, least)
}

fn blocks_fault(
    alloc: Global,
    facts: &Facts,
    classes: &Classes,
    annotation: &Annotation,
    elements: &[Element],
    reached: &[bool],
    blocks: &[Block],
    least: Option<Fault>,
) -> Result<Option<Fault>, NoMem>
    ensures { IfOk result (λ fault. fault ≡ spec.blocks_fault facts.now classes.now annotation.now elements.now reached.now 0 blocks.now least) }
{
    let mut least = least;
    for (place, block) in blocks.iter().enumerate() {
        let mark = is_marked(reached, place);
        least = block_fault(
            alloc, facts, classes, annotation, elements, mark, block, least,
        )?;
    }
    Ok(least)
}

fn elements_at(lists: &[Seq<Element>], place: usize) -> &[Element]
    ensures { result.now ≡ spec.elements_at lists.now place }
{
    match lists.get(place) {
        None => &[],
        Some(elements) => elements.as_slice(),
    }
}

fn marks_at(lists: &[Seq<bool>], place: usize) -> &[bool]
    ensures { result.now ≡ spec.marks_at lists.now place }
{
    match lists.get(place) {
        None => &[],
        Some(marks) => marks.as_slice(),
    }
}

fn graph_fault(
    alloc: Global,
    facts: &Facts,
    classes: &Classes,
    annotation: &Annotation,
    number: usize,
    graph: &Graph,
    least: Option<Fault>,
) -> Result<Option<Fault>, NoMem>
    ensures { IfOk result (λ fault. fault ≡ spec.graph_fault facts.now classes.now annotation.now number graph.now least) }
{
    let elements = elements_at(annotation.vars.as_slice(), number);
    let reached = marks_at(annotation.blocks.as_slice(), number);
    let blocks = graph.blocks.as_slice();
    blocks_fault(
        alloc, facts, classes, annotation, elements, reached, blocks, least,
    )
}

fn graphs_fault(
    alloc: Global,
    facts: &Facts,
    classes: &Classes,
    annotation: &Annotation,
    graphs: &[Graph],
    least: Option<Fault>,
) -> Result<Option<Fault>, NoMem>
    ensures { IfOk result (λ fault. fault ≡ spec.graphs_fault facts.now classes.now annotation.now 0 graphs.now least) }
{
    let mut least = least;
    for (number, graph) in graphs.iter().enumerate() {
        least = graph_fault(alloc, facts, classes, annotation, number, graph, least)?;
    }
    Ok(least)
}

// The least node that reads a local which may be unbound.
fn unbound_fault(unbound: &[bool]) -> Result<Option<Fault>, NoMem>
    ensures { IfOk result (λ fault. fault ≡ spec.unbound_fault unbound.now) }
{
    let mut least = None;
    for (node, mark) in unbound.iter().enumerate() {
        least = lesser(
            least,
            fault_if(*mark, narrow(node)?, FaultKind::MaybeUnbound),
        );
    }
    Ok(least)
}

fn node_of(functions: &[FunInfo], function: FunId) -> NodeId
    ensures { result ≡ spec.node_of functions.now function }
{
    match functions.get(function as usize) {
        None => 0,
        Some(info) => info.node,
    }
}

// Whether an element is that of no value or of integers.
fn is_result(e: &Element) -> bool
    ensures { result ≡ spec.is_result e.now }
{
    match e {
        Element::Unreached => true,
        Element::IntPos => true,
        Element::Int => true,
        _ => false,
    }
}

fn is_result_at(results: &[Element], function: FunId) -> bool
    ensures { result ≡ spec.is_result_at (slice_get results.now function) }
{
    match results.get(function as usize) {
        None => true,
        Some(e) => is_result(e),
    }
}

fn entry_fault(program: &Program, results: &[Element]) -> Option<Fault>
    ensures { result ≡ spec.entry_fault program.now results.now }
{
    let fits = is_result_at(results, program.entry);
    let node = node_of(program.functions.as_slice(), program.entry);
    fault_if(!fits, node, FaultKind::EntryResult)
}

fn least_fault(
    alloc: Global,
    program: &Program,
    graphs: &Graphs,
    annotation: &Annotation,
    classes: &Classes,
) -> Result<Option<Fault>, NoMem>
    ensures { IfOk result (λ fault. fault ≡ spec.least_fault program.now graphs.now annotation.now classes.now) }
{
    let facts = Facts {
        arities: arities_of(alloc, program.modules.as_slice())?,
        prebuilt: prebuilt_of(alloc, &annotation.same, program.sites.as_slice())?,
    };
    let entry = entry_fault(program, annotation.results.as_slice());
    let unbound = unbound_fault(annotation.unbound.as_slice())?;
    let least = lesser(entry, unbound);
    let graphs = graphs.graphs.as_slice();
    graphs_fault(alloc, &facts, classes, annotation, graphs, least)
}

/// Whether a program with this annotation has types: the least fault by its node, of two at one node
/// that with the smaller number. The graphs, the annotation and the classes are those of the program.
#[tactic(auto, using(crate::proofs::Told::tells_told))]
pub fn typing(
    alloc: Global,
    program: &Program,
    graphs: &Graphs,
    annotation: &Annotation,
    classes: &Classes,
) -> Result<(), TypeFault>
    ensures { spec.Tells (spec.least_fault program.now graphs.now annotation.now classes.now) result }
{
    let fault = least_fault(alloc, program, graphs, annotation, classes)?;
    told(fault)
}
