// What is known of a program: its graphs, and the elements of what they work on.
ghost use Rattle.std.specs.Prelude.{◌≡◌};
ghost use Rattle.std.specs.Option.{option_copied};
ghost use Rattle.rtyper_program.specs.Seen as spec;

use ann_element::{Annotation, Element};
use flow_graph::{Graph, Graphs, VarId};
use rpy_resolved::Resolved;
use rpy_tree::FunId;
use rtyper_layout::{Kind, kind_seen};

/// The functions, their graphs and their annotation.
#[derive(Clone, Copy)]
pub struct Known<'a> {
    pub program: &'a Resolved,
    pub graphs: &'a [Graph],
    pub annotation: &'a Annotation,
}

/// Whether a function is reached.
pub fn is_reached(annotation: &Annotation, function: FunId) -> bool
    ensures { result ≡ spec.is_reached annotation.now function }
{
    match annotation.reached.get(function as usize) {
        None => false,
        Some(reached) => *reached,
    }
}

/// Whether a block of a graph is reached.
pub fn is_block_reached(annotation: &Annotation, graph: usize, block: usize) -> bool
    ensures { result ≡ spec.is_block_reached annotation.now graph block }
{
    match annotation.blocks.get(graph) {
        None => false,
        Some(blocks) => match blocks.get(block) {
            None => false,
            Some(reached) => *reached,
        },
    }
}

/// The element of a variable of a graph.
pub fn element_at(annotation: &Annotation, graph: usize, v: VarId) -> Option<&Element>
    ensures { option_copied result ≡ spec.element_at annotation.now graph v }
{
    match annotation.vars.get(graph) {
        None => None,
        Some(vars) => vars.get(v as usize),
    }
}

/// The kind of a variable of a graph.
pub fn variable_kind(annotation: &Annotation, graph: usize, v: VarId) -> Kind
    ensures { result ≡ spec.variable_kind annotation.now graph v }
{
    kind_seen(element_at(annotation, graph, v))
}

impl<'a> Known<'a> {
    pub fn new(program: &'a Resolved, graphs: &'a Graphs, annotation: &'a Annotation) -> Known<'a>
        ensures { spec.the_known result ≡ record { program = program.now; graphs = graphs.now.graphs; annotation = annotation.now } }
    {
        Known {
            program,
            graphs: graphs.graphs.as_slice(),
            annotation,
        }
    }
}
