// Where the parts of a program stand: the cells and the marks are numbered part by part.
ghost use Rattle.std.specs.Prelude.{◌≡◌, ◌≤◌, ◌+◌, ◌++◌, ◌∷◌, [], max, map, length, sum, slice_get, IfOk, OnOk};
ghost use Rattle.class_desc.specs.Tables.{declared};
ghost use Rattle.ann_needs.specs.View.{nowhere};
ghost use Rattle.ann_layout.specs.Layout as spec;

use crate::callee::{callees_of, plus};
use crate::literal::literals_of;
use ann_needs::{Callee, Places, Plan};
use class_desc::Classes;
use flow_graph::{Block, Graph, Graphs, Op, VarId};
use rpy_base::{NoMem, Seq, Text};
use rpy_copies::copy_pairs;
use rpy_tree::{ClassId, Const, FunId, Program, Site};
use std::alloc::Global;

// ---- numbers

fn numbers(alloc: Global, next: &mut usize, count: usize) -> Result<Seq<usize>, NoMem>
    ensures row { IfOk result (λ row. row ≡ spec.numbers next.old count) }
    ensures after { OnOk result (next.new ≡ next.old + count) }
{
    let mut row = Seq::new(alloc);
    for _place in 0..count {
        row.push(*next)?;
        *next = plus(*next, 1)?;
    }
    Ok(row)
}

fn rows(alloc: Global, next: &mut usize, counts: &[usize]) -> Result<Seq<Seq<usize>>, NoMem>
    ensures rows { IfOk result (λ all. all ≡ spec.rows next.old counts.now) }
    ensures after { OnOk result (next.new ≡ next.old + sum counts.now) }
{
    let mut all = Seq::new(alloc);
    for count in counts {
        all.push(numbers(alloc, next, *count)?)?;
    }
    Ok(all)
}

fn add_name(
    alloc: Global,
    classes: &Classes,
    class: ClassId,
    place: usize,
    number: usize,
    row: &mut Seq<(Text, usize)>,
) -> Result<(), NoMem>
    ensures { OnOk result (row.new ≡ row.old ++ spec.named_at number (slice_get (declared classes.now class) place)) }
{
    match classes.attribute(class, place) {
        None => Ok(()),
        Some(name) => row.push((name.copy(alloc)?, number)),
    }
}

#[tactic(auto, using(crate::proofs::Rows::kept_row))]
fn named_row(
    alloc: Global,
    classes: &Classes,
    next: &mut usize,
    class: ClassId,
) -> Result<Seq<(Text, usize)>, NoMem>
    ensures row { IfOk result (λ row. row ≡ spec.named_row next.old (declared classes.now class)) }
    ensures after { OnOk result (next.new ≡ next.old + length (declared classes.now class)) }
{
    let mut row = Seq::new(alloc);
    for place in 0..classes.attribute_count(class) {
        add_name(alloc, classes, class, place, *next, &mut row)?;
        *next = plus(*next, 1)?;
    }
    Ok(row)
}

fn narrow(number: usize) -> Result<u32, NoMem>
    ensures { IfOk result (λ narrowed. narrowed ≡ number) }
{
    if number <= 4294967295 {
        Ok(number as u32)
    } else {
        Err(NoMem)
    }
}

fn add_row(
    alloc: Global,
    classes: &Classes,
    next: &mut usize,
    class: usize,
    all: &mut Seq<Seq<(Text, usize)>>,
) -> Result<(), NoMem>
    ensures rows { OnOk result (all.new ≡ all.old ++ spec.named_row next.old (declared classes.now class) ∷ []) }
    ensures after { OnOk result (next.new ≡ next.old + length (declared classes.now class)) }
{
    let row = named_row(alloc, classes, next, narrow(class)?)?;
    all.push(row)
}

fn named_rows(
    alloc: Global,
    classes: &Classes,
    next: &mut usize,
) -> Result<Seq<Seq<(Text, usize)>>, NoMem>
    ensures rows { IfOk result (λ all. all ≡ spec.named_rows classes.now next.old 0 (length classes.now.classes)) }
    ensures after { OnOk result (next.new ≡ next.old + spec.declared_count classes.now 0 (length classes.now.classes)) }
{
    let mut all = Seq::new(alloc);
    for class in 0..classes.len() {
        add_row(alloc, classes, next, class, &mut all)?;
    }
    Ok(all)
}

// ---- how many there are

fn past(most: usize, v: VarId) -> Result<usize, NoMem>
    ensures { IfOk result (λ past. past ≡ max most (v + 1)) }
{
    Ok(most.max(plus(v as usize, 1)?))
}

fn past_all(most: usize, vs: &[VarId]) -> Result<usize, NoMem>
    ensures { IfOk result (λ past. past ≡ spec.past_all vs.now most) }
{
    let mut most = most;
    for v in vs {
        most = past(most, *v)?;
    }
    Ok(most)
}

fn past_ops(most: usize, ops: &[Op]) -> Result<usize, NoMem>
    ensures { IfOk result (λ past. past ≡ spec.past_ops ops.now most) }
{
    let mut most = most;
    for op in ops {
        most = past(most, op.result)?;
    }
    Ok(most)
}

fn variable_count(blocks: &[Block]) -> Result<usize, NoMem>
    ensures { IfOk result (λ count. count ≡ spec.past_blocks blocks.now 0) }
{
    let mut most = 0;
    for block in blocks {
        most = past_all(most, block.inputs.as_slice())?;
        most = past_ops(most, block.ops.as_slice())?;
    }
    Ok(most)
}

fn variable_counts(alloc: Global, graphs: &[Graph]) -> Result<Seq<usize>, NoMem>
    ensures { IfOk result (λ counts. counts ≡ map spec.variable_count graphs.now) }
{
    let mut counts = Seq::new(alloc);
    for graph in graphs {
        counts.push(variable_count(graph.blocks.as_slice())?)?;
    }
    Ok(counts)
}

fn block_counts(alloc: Global, graphs: &[Graph]) -> Result<Seq<usize>, NoMem>
    ensures { IfOk result (λ counts. counts ≡ map spec.block_count graphs.now) }
{
    let mut counts = Seq::new(alloc);
    for graph in graphs {
        counts.push(graph.blocks.len())?;
    }
    Ok(counts)
}

fn param_counts(alloc: Global, callees: &[Callee]) -> Result<Seq<usize>, NoMem>
    ensures { IfOk result (λ counts. counts ≡ map spec.param_count callees.now) }
{
    let mut counts = Seq::new(alloc);
    for callee in callees {
        counts.push(callee.defaults.len())?;
    }
    Ok(counts)
}

// ---- the layout

/// Where the parts of a program stand, and how many cells and marks there are.
#[derive(Drop)]
pub struct Layout {
    pub places: Places,
    pub cells: usize,
    pub marks: usize,
}

// How many functions, sites and nodes there are.
#[derive(Clone, Copy)]
pub struct Counts {
    pub functions: usize,
    pub sites: usize,
    pub nodes: usize,
}

// Nothing has a place.
fn empty_layout(alloc: Global) -> Layout
    ensures { result ≡ spec.empty }
{
    Layout {
        places: Places {
            variables: Seq::new(alloc),
            params: Seq::new(alloc),
            results: Seq::new(alloc),
            attributes: Seq::new(alloc),
            items: Seq::new(alloc),
            keys: Seq::new(alloc),
            blocks: Seq::new(alloc),
            reached: Seq::new(alloc),
            made: Seq::new(alloc),
            loaded: Seq::new(alloc),
            loose: Seq::new(alloc),
            unbound: Seq::new(alloc),
        },
        cells: 0,
        marks: 0,
    }
}

// Puts in all places, and how many there are.
fn lay_out(
    alloc: Global,
    classes: &Classes,
    params: &[usize],
    variables: &[usize],
    blocks: &[usize],
    counts: Counts,
    layout: &mut Layout,
) -> Result<(), NoMem>
    ensures { OnOk result (layout.new ≡ spec.layout params.now variables.now blocks.now counts.functions (length classes.now.classes) counts.sites counts.nodes classes.now) }
{
    let mut cells = 0;
    layout.places.params = rows(alloc, &mut cells, params)?;
    layout.places.results = numbers(alloc, &mut cells, counts.functions)?;
    layout.places.attributes = named_rows(alloc, classes, &mut cells)?;
    layout.places.items = numbers(alloc, &mut cells, counts.sites)?;
    layout.places.keys = numbers(alloc, &mut cells, counts.sites)?;
    layout.places.variables = rows(alloc, &mut cells, variables)?;
    let mut marks = 0;
    layout.places.reached = numbers(alloc, &mut marks, counts.functions)?;
    layout.places.made = numbers(alloc, &mut marks, classes.len())?;
    layout.places.loaded = numbers(alloc, &mut marks, counts.sites)?;
    layout.places.blocks = rows(alloc, &mut marks, blocks)?;
    layout.places.loose = rows(alloc, &mut marks, variables)?;
    layout.places.unbound = numbers(alloc, &mut marks, counts.nodes)?;
    layout.cells = cells;
    layout.marks = marks;
    Ok(())
}

fn layout_of(
    alloc: Global,
    classes: &Classes,
    params: &[usize],
    variables: &[usize],
    blocks: &[usize],
    counts: Counts,
) -> Result<Layout, NoMem>
    ensures { IfOk result (λ layout. layout ≡ spec.layout params.now variables.now blocks.now counts.functions (length classes.now.classes) counts.sites counts.nodes classes.now) }
{
    let mut layout = empty_layout(alloc);
    match lay_out(
        alloc,
        classes,
        params,
        variables,
        blocks,
        counts,
        &mut layout,
    ) {
        Ok(()) => Ok(layout),
        Err(fault) => Err(fault),
    }
}

fn copy_contents(
    alloc: Global,
    contents: &Option<Seq<(Const, Const)>>,
) -> Result<Option<Seq<(Const, Const)>>, NoMem>
    ensures { IfOk result (λ copy. copy ≡ contents.now) }
{
    match contents {
        None => Ok(None),
        Some(pairs) => Ok(Some(copy_pairs(alloc, pairs.as_slice())?)),
    }
}

fn copy_sites(alloc: Global, sites: &[Site]) -> Result<Seq<Site>, NoMem>
    ensures { IfOk result (λ copies. copies ≡ sites.now) }
{
    let mut copies = Seq::new(alloc);
    for site in sites {
        copies.push(Site {
            node: site.node,
            dict: site.dict,
            prebuilt: copy_contents(alloc, &site.prebuilt)?,
        })?;
    }
    Ok(copies)
}

/// A plan, and how many cells and marks there are.
#[derive(Drop)]
pub struct Planned {
    pub plan: Plan,
    pub cells: usize,
    pub marks: usize,
}

fn laid_out(
    alloc: Global,
    program: &Program,
    graphs: &Graphs,
    classes: &Classes,
    callees: &[Callee],
) -> Result<Layout, NoMem>
    ensures { IfOk result (λ layout. layout ≡ spec.laid_out program.now graphs.now classes.now callees.now) }
{
    let params = param_counts(alloc, callees)?;
    let variables = variable_counts(alloc, graphs.graphs.as_slice())?;
    let blocks = block_counts(alloc, graphs.graphs.as_slice())?;
    let counts = Counts {
        functions: callees.len(),
        sites: program.sites.len(),
        nodes: program.uses.len(),
    };
    layout_of(
        alloc,
        classes,
        params.as_slice(),
        variables.as_slice(),
        blocks.as_slice(),
        counts,
    )
}

// What the plan of a program has beside its graphs and its classes, and where it all stands.
#[derive(Drop)]
pub struct Parts {
    pub callees: Seq<Callee>,
    pub sites: Seq<Site>,
    pub literals: Seq<bool>,
    pub layout: Layout,
}

fn parts_of(
    alloc: Global,
    program: &Program,
    graphs: &Graphs,
    classes: &Classes,
) -> Result<Parts, NoMem>
    ensures { IfOk result (λ parts. parts ≡ spec.parts program.now graphs.now classes.now) }
{
    let callees = callees_of(alloc, program)?;
    let sites = copy_sites(alloc, program.sites.as_slice())?;
    let literals = literals_of(alloc, program.uses.len(), graphs.graphs.as_slice())?;
    let layout = laid_out(alloc, program, graphs, classes, callees.as_slice())?;
    Ok(Parts {
        callees,
        sites,
        literals,
        layout,
    })
}

fn put_together(graphs: Graphs, classes: Classes, entry: FunId, parts: Parts) -> Planned
    ensures plan { result ≡ spec.planned_with graphs classes entry parts }
    ensures cells { result.cells ≤ nowhere }
    ensures marks { result.marks ≤ nowhere }
{
    let Layout {
        places,
        cells,
        marks,
    } = parts.layout;
    Planned {
        plan: Plan {
            classes,
            callees: parts.callees,
            sites: parts.sites,
            graphs,
            entry,
            literals: parts.literals,
            places,
        },
        cells,
        marks,
    }
}

/// The plan of a program with its graphs and its classes. It has no cell and no mark with the number of
/// what does not exist.
pub fn plan_of(
    alloc: Global,
    program: &Program,
    graphs: Graphs,
    classes: Classes,
) -> Result<Planned, NoMem>
    ensures plan { IfOk result (λ planned. planned ≡ spec.planned program.now graphs classes) }
    ensures cells { IfOk result (λ planned. planned.cells ≤ nowhere) }
    ensures marks { IfOk result (λ planned. planned.marks ≤ nowhere) }
{
    match parts_of(alloc, program, &graphs, &classes) {
        Ok(parts) => Ok(put_together(graphs, classes, program.entry, parts)),
        Err(fault) => Err(fault),
    }
}
