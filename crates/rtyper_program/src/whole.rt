// Whole programs.
ghost use Rattle.std.specs.Prelude.{◌≡◌, IfOk, OnOk};
ghost use Rattle.rtyper_data.specs.Seen.{Asks};
ghost use Rattle.rtyper_class.specs.Seen.{the_world};
ghost use Rattle.rtyper_program.specs.Program as spec;
ghost use Rattle.rtyper_program.specs.Program.{IsPassed, IsRtyped, IsSettled, Written};
ghost use Rattle.rtyper_program.specs.Seen.{the_known};

use crate::entry::entry_graph;
use crate::graph::graph_of;
use crate::known::{Known, is_reached};
use crate::raising::raises;
use ann_element::Annotation;
use class_desc::Classes;
use flow_graph::{Graph, Graphs};
use ll_build::Need;
use ll_code::{LlGraph, LlProgram, LlStatic};
use ll_helpers::helpers;
use rpy_base::{NoMem, Seq};
use rpy_meaning::Covers;
use rpy_resolved::Resolved;
use rtyper_class::{class_graph, push_exceptions, push_vtables};
use rtyper_data::{Around, Found, Listed, NOTHING, Small, small_number};
use rtyper_dict::dict_graph;
use rtyper_layout::Layout;
use rtyper_op::push_prebuilt;
use rtyper_raising::raising_graphs;
use std::alloc::Global;
use std::mem;

// ---- numbers

fn next_number(annotation: &Annotation, next: u64, graph: &Graph) -> u64
    ensures { result ≡ spec.next_number annotation.now next graph.now }
{
    if is_reached(annotation, graph.function) {
        next.saturating_add(1)
    } else {
        next
    }
}

// For each function the number of its graph, behind so many graphs of helpers; where it is not
// reached it has none, and the number means nothing.
fn numbers_of(alloc: Global, known: Known<'_>, first: u64) -> Result<Seq<u64>, NoMem>
    ensures { IfOk result (λ numbers. numbers ≡ spec.numbers_from (the_known known.entry).annotation first (the_known known.entry).graphs) }
{
    let mut numbers = Seq::new(alloc);
    let mut next = first;
    for graph in known.graphs {
        numbers.push(next)?;
        next = next_number(known.annotation, next, graph);
    }
    Ok(numbers)
}

// The number behind theirs.
fn number_behind(known: Known<'_>, first: u64) -> u64
    ensures { result ≡ spec.number_behind (the_known known.entry).annotation first (the_known known.entry).graphs }
{
    let mut next = first;
    for graph in known.graphs {
        next = next_number(known.annotation, next, graph);
    }
    next
}

// ---- graphs

fn push_function(
    alloc: Global,
    known: Known<'_>,
    around: Around<'_>,
    i: usize,
    graph: &Graph,
    found: &mut Found,
    into: &mut Seq<LlGraph>,
) -> Result<(), NoMem>
    ensures { OnOk result (Asks (spec.with_function (the_known known.entry) (the_world around.entry) i graph.now (into.old, found.old)) into.new found.new) }
{
    if is_reached(known.annotation, graph.function) {
        into.push(graph_of(alloc, known, around, i, graph, found)?)?;
    }
    Ok(())
}

// The graphs of the functions that are reached.
fn push_functions(
    alloc: Global,
    known: Known<'_>,
    around: Around<'_>,
    found: &mut Found,
    into: &mut Seq<LlGraph>,
) -> Result<(), NoMem>
    ensures { OnOk result (Asks (spec.functions_from (the_known known.entry) (the_world around.entry) 0 (the_known known.entry).graphs (into.old, found.old)) into.new found.new) }
{
    let mut i: usize = 0;
    for graph in known.graphs {
        push_function(alloc, known, around, i, graph, found, into)?;
        i += 1;
    }
    Ok(())
}

fn small_of(
    alloc: Global,
    around: Around<'_>,
    small: Small,
    found: &mut Found,
) -> Result<LlGraph, NoMem>
    ensures { IfOk result (λ graph. Asks (spec.small_of (the_world around.entry) small found.old) graph found.new) }
{
    match small {
        Small::Keyed(keyed) => dict_graph(alloc, around.layout, keyed, found),
        _ => class_graph(alloc, around, small, found),
    }
}

// The small graphs that are asked for, those that these ask for among them; and how many there are.
fn push_smalls(
    alloc: Global,
    around: Around<'_>,
    found: &mut Found,
    into: &mut Seq<LlGraph>,
) -> Result<usize, NoMem>
    ensures { IfOk result (λ count. Written count (spec.smalls_to (the_world around.entry) count (into.old, found.old)) into.new found.new) }
{
    for i in 0..usize::MAX {
        match found.smalls.get(i) {
            None => return Ok(i),
            Some(small) => {
                let small = *small;
                into.push(small_of(alloc, around, small, found)?)?;
            }
        }
    }
    Err(NoMem)
}

// The graphs of helpers and of functions, behind the lists and dicts that are constants.
#[tactic(auto, unfolding(crate::specs::Program::plain_graphs))]
fn plain_graphs(
    alloc: Global,
    known: Known<'_>,
    around: Around<'_>,
    helped: Seq<LlGraph>,
    found: &mut Found,
) -> Result<Seq<LlGraph>, NoMem>
    ensures { IfOk result (λ made. Asks (spec.plain_graphs (the_known known.entry) (the_world around.entry) around.entry.sites.now around.entry.same.now helped found.old) made found.new) }
{
    push_prebuilt(alloc, around, found)?;
    let mut made = raising_graphs(alloc, helped, found)?;
    push_functions(alloc, known, around, found, &mut made)?;
    Ok(made)
}

// The number of the graph that makes the list of arguments, whose site is the first.
fn arguments_number(around: Around<'_>, found: &mut Found) -> Result<u64, NoMem>
    ensures { IfOk result (λ number. Asks (spec.arguments_number (the_world around.entry) found.old) number found.new) }
{
    let small = Small::Listed(Listed::Arguments(around.layout.first_list));
    small_number(small, found)
}

// The small graphs and the entry, behind these; and how many small ones there are.
fn push_further(
    alloc: Global,
    known: Known<'_>,
    around: Around<'_>,
    found: &mut Found,
    into: &mut Seq<LlGraph>,
) -> Result<usize, NoMem>
    ensures { IfOk result (λ count. Written count (spec.further_graphs (the_known known.entry) (the_world around.entry) count (into.old, found.old)) into.new found.new) }
{
    let arguments = arguments_number(around, found)?;
    let count = push_smalls(alloc, around, found, into)?;
    into.push(entry_graph(alloc, around, known.program.entry, arguments)?)?;
    Ok(count)
}

// All of them, and how many small ones there are among them.
#[tactic(auto, unfolding(crate::specs::Program::all_graphs))]
fn all_graphs(
    alloc: Global,
    known: Known<'_>,
    around: Around<'_>,
    helped: Seq<LlGraph>,
    found: &mut Found,
) -> Result<(Seq<LlGraph>, usize), NoMem>
    ensures { IfOk result (λ made. Written made.1 (spec.all_graphs (the_known known.entry) (the_world around.entry) around.entry.sites.now around.entry.same.now made.1 helped found.old) made.0 found.new) }
{
    let mut made = plain_graphs(alloc, known, around, helped, found)?;
    let count = push_further(alloc, known, around, found, &mut made)?;
    Ok((made, count))
}

// ---- a pass

fn around_of<'a>(
    known: Known<'a>,
    classes: &'a Classes,
    layout: &'a Layout,
    numbers: &'a [u64],
    first_vtable: u64,
) -> Around<'a>
    ensures world { the_world result ≡ spec.world_of (the_known known.entry) classes.now layout.now numbers.now first_vtable }
    ensures sites { result.sites.now ≡ (the_known known.entry).program.sites }
    ensures same { result.same.now ≡ (the_known known.entry).annotation.same }
{
    let vtables = layout.order.len() as u64;
    Around {
        layout,
        numbers,
        params: known.annotation.params.as_slice(),
        results: known.annotation.results.as_slice(),
        functions: known.program.functions.as_slice(),
        classes,
        made: known.annotation.made.as_slice(),
        attributes: known.annotation.attributes.as_slice(),
        first_vtable,
        first_exception: first_vtable.saturating_add(vtables),
        sites: known.program.sites.as_slice(),
        same: &known.annotation.same,
    }
}

// The statics of helpers and of classes.
fn first_statics(
    alloc: Global,
    known: Known<'_>,
    around: Around<'_>,
    statics: Seq<LlStatic>,
) -> Result<Seq<LlStatic>, NoMem>
    ensures { IfOk result (λ made. made ≡ spec.first_statics (the_known known.entry) (the_world around.entry) statics) }
{
    let mut statics = statics;
    let reached = known.annotation.reached.as_slice();
    push_vtables(alloc, around, known.program, reached, &mut statics)?;
    push_exceptions(alloc, around, &mut statics)?;
    Ok(statics)
}

/// A program, what it asks for, and how many small graphs it has.
#[derive(Drop)]
pub struct Passed {
    pub program: LlProgram,
    pub found: Found,
    pub smalls: usize,
}

// Behind these helpers.
fn pass_behind(
    alloc: Global,
    known: Known<'_>,
    around: Around<'_>,
    helped: LlProgram,
    needs: Seq<Need>,
    caught: Seq<Covers>,
) -> Result<Passed, NoMem>
    ensures { IfOk result (λ made. IsPassed (spec.pass_behind (the_known known.entry) (the_world around.entry) around.entry.sites.now around.entry.same.now helped needs caught) made.program made.found made.smalls) }
{
    let LlProgram {
        stage,
        structs,
        statics,
        graphs,
        entry: _,
    } = helped;
    let mut found = Found {
        needs,
        caught,
        covered: NOTHING,
        statics: first_statics(alloc, known, around, statics)?,
        prebuilt: Seq::new(alloc),
        smalls: Seq::new(alloc),
        first_small: number_behind(known, graphs.len() as u64),
    };
    let (graphs, smalls) = all_graphs(alloc, known, around, graphs, &mut found)?;
    let entry = (graphs.len() as u64).saturating_sub(1);
    let statics = mem::replace(&mut found.statics, Seq::new(alloc));
    let program = LlProgram {
        stage,
        structs,
        statics,
        graphs,
        entry,
    };
    Ok(Passed {
        program,
        found,
        smalls,
    })
}

// A program behind these helpers, each with the failures that it was asked for to raise; and what it asks
// for.
#[tactic(auto, unfolding(crate::specs::Program::pass))]
fn pass(
    alloc: Global,
    known: Known<'_>,
    classes: &Classes,
    layout: &Layout,
    needs: Seq<Need>,
    caught: Seq<Covers>,
) -> Result<Passed, NoMem>
    ensures { IfOk result (λ made. IsPassed (spec.pass (the_known known.entry) classes.now layout.now needs caught) made.program made.found made.smalls) }
{
    let helped = helpers(alloc, layout.structs.as_slice(), needs.as_slice())?;
    let numbers = numbers_of(alloc, known, helped.graphs.len() as u64)?;
    let first_vtable = helped.statics.len() as u64;
    let around = around_of(known, classes, layout, numbers.as_slice(), first_vtable);
    pass_behind(alloc, known, around, helped, needs, caught)
}

// ---- programs

// What the program asks for, as far as that is seen while numbers mean nothing yet. The graphs that are
// written on the way are dropped.
fn found_in(
    alloc: Global,
    known: Known<'_>,
    classes: &Classes,
    layout: &Layout,
) -> Result<Found, NoMem> {
    let mut found = Found::new(alloc);
    let numbers = numbers_of(alloc, known, 0)?;
    let around = around_of(known, classes, layout, numbers.as_slice(), 0);
    all_graphs(alloc, known, around, Seq::new(alloc), &mut found)?;
    Ok(found)
}

// A pass is made from what the one before it asked for, until one asks for no helper that was not given.
fn settled(
    alloc: Global,
    known: Known<'_>,
    classes: &Classes,
    layout: &Layout,
) -> Result<LlProgram, NoMem>
    ensures { IfOk result (λ program. IsSettled (the_known known.entry) classes.now layout.now program) }
{
    let mut asked = found_in(alloc, known, classes, layout)?;
    for _ in 0..usize::MAX {
        let given = asked.needs.len();
        let is_paired = asked.caught.len() == given;
        let Passed { program, found, .. } = pass(
            alloc,
            known,
            classes,
            layout,
            asked.needs,
            asked.caught,
        )?;
        if is_paired && found.needs.len() == given {
            return Ok(program);
        }
        asked = found;
    }
    Err(NoMem)
}

/// A program as a low-level program of the stage `Raw`: the helpers, the functions that are reached,
/// each under its name, small graphs, and the entry. The graphs are the flow graphs of the program's
/// functions in their order, and classes and annotation are theirs.
pub fn rtype(
    alloc: Global,
    program: &Resolved,
    graphs: &Graphs,
    annotation: &Annotation,
    classes: &Classes,
) -> Result<LlProgram, NoMem>
    ensures { IfOk result (λ made. IsRtyped program.now graphs.now.graphs annotation.now classes.now made) }
{
    let known = Known::new(program, graphs, annotation);
    let layout = Layout::new(alloc, program, classes, annotation, raises(known))?;
    settled(alloc, known, classes, &layout)
}
