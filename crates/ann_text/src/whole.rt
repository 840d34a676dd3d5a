// The text of a whole annotation.
ghost use Rattle.std.specs.Prelude.{◌≡◌, IfOk};
ghost use Rattle.ann_text.specs.AnnotationText as spec;

use crate::function::{params_of, put_attributes, put_functions};
use crate::site::{put_dicts, put_lists, shown_sites};
use ann_element::Annotation;
use flow_graph::Graphs;
use rpy_base::{NoMem, Text};
use rpy_resolved::{Labels, labels_of};
use rpy_tree::Program;
use std::alloc::Global;

// The text with the names of functions and classes.
fn text_by(
    alloc: Global,
    labels: &Labels,
    program: &Program,
    graphs: &Graphs,
    annotation: &Annotation,
) -> Result<Text, NoMem>
    ensures { IfOk result (λ text. text ≡ spec.text_by labels.now program.now graphs.now annotation.now) }
{
    let params = params_of(alloc, program.modules.as_slice())?;
    let sites = program.sites.as_slice();
    let shown = shown_sites(alloc, graphs.graphs.as_slice(), annotation, sites)?;
    let mut text = Text::new(alloc);
    put_functions(alloc, labels, annotation, params.as_slice(), &mut text)?;
    let attributes = annotation.attributes.as_slice();
    put_attributes(alloc, labels, &annotation.same, attributes, &mut text)?;
    put_lists(
        alloc,
        labels,
        annotation,
        shown.as_slice(),
        sites,
        &mut text,
    )?;
    put_dicts(
        alloc,
        labels,
        annotation,
        shown.as_slice(),
        sites,
        &mut text,
    )?;
    Ok(text)
}

/// The text of the annotation of a program and its graphs, a line each: the functions that are
/// reached, with the elements of their parameters and of their result, the attributes at their homes,
/// and the lists and dicts by the least site of a class in which one is reached or prebuilt.
pub fn annotation_text(
    alloc: Global,
    program: &Program,
    graphs: &Graphs,
    annotation: &Annotation,
) -> Result<Text, NoMem>
    ensures { IfOk result (λ text. text ≡ spec.annotation_text program.now graphs.now annotation.now) }
{
    let labels = labels_of(alloc, program)?;
    text_by(alloc, &labels, program, graphs, annotation)
}
