// The lines of sites.
ghost use Rattle.std.specs.Prelude.{◌≡◌, ◌++◌, replicate, length, slice_get, IfOk, OnOk, false};
ghost use Rattle.ann_text.specs.AnnotationText as spec;

use crate::element::put_number;
use crate::function::put_element_at;
use ann_element::{Annotation, Element, Sites};
use flow_graph::{Block, Graph, Op, VarId};
use rpy_base::{NoMem, Seq, Text};
use rpy_meaning::RowOp;
use rpy_resolved::Labels;
use rpy_tree::{Site, SiteId};
use std::alloc::Global;

/// By site: whether it is that of a walk, and whether such a walk goes over a dict.
#[derive(Drop)]
struct Walked {
    walks: Seq<bool>,
    dicts: Seq<bool>,
}

// There is no memory for 2 ^ 32 sites.
fn narrow(place: usize) -> Result<SiteId, NoMem>
    ensures { IfOk result (λ site. site ≡ place) }
{
    if place < 4294967296 {
        Ok(place as u32)
    } else {
        Err(NoMem)
    }
}

// So many marks that are not set.
fn unmarked(alloc: Global, count: usize) -> Result<Seq<bool>, NoMem>
    ensures { IfOk result (λ marks. marks ≡ replicate count false) }
{
    let mut marks = Seq::new(alloc);
    for _place in 0..count {
        marks.push(false)?;
    }
    Ok(marks)
}

fn set_mark(marks: &mut Seq<bool>, place: usize)
    ensures { marks.new ≡ spec.with_mark place marks.old }
{
    if place < marks.len() {
        marks.set(place, true);
    }
}

fn is_marked(marks: &[bool], place: usize) -> bool
    ensures { result ≡ spec.is_marked marks.now place }
{
    match marks.get(place) {
        None => false,
        Some(mark) => *mark,
    }
}

fn is_dict(e: &Element) -> bool
    ensures { result ≡ spec.is_dict e.now }
{
    match e {
        Element::Dict(_, _) => true,
        _ => false,
    }
}

fn is_dict_at(elements: &[Element], place: usize) -> bool
    ensures { result ≡ spec.is_dict_at (slice_get elements.now place) }
{
    match elements.get(place) {
        None => false,
        Some(e) => is_dict(e),
    }
}

// Whether the first operand is a dict.
fn is_over_dict(elements: &[Element], args: &[VarId]) -> bool
    ensures { result ≡ spec.is_over_dict elements.now args.now }
{
    match args {
        [] => false,
        [first, ..] => is_dict_at(elements, *first as usize),
    }
}

fn add_walk(walked: &mut Walked, site: SiteId, over_dict: bool)
    ensures { walked.new ≡ spec.with_walk site over_dict walked.old }
{
    set_mark(&mut walked.walks, site as usize);
    if over_dict {
        set_mark(&mut walked.dicts, site as usize);
    }
}

fn add_op(walked: &mut Walked, elements: &[Element], op: &Op)
    ensures { walked.new ≡ spec.with_op elements.now op.now walked.old }
{
    match &op.op {
        RowOp::Walk(site) => {
            let over_dict = is_over_dict(elements, op.args.as_slice());
            add_walk(walked, *site, over_dict);
        }
        _ => {}
    }
}

fn add_ops(walked: &mut Walked, elements: &[Element], ops: &[Op])
    ensures { walked.new ≡ spec.with_ops elements.now ops.now walked.old }
{
    for op in ops {
        add_op(walked, elements, op);
    }
}

fn add_blocks(walked: &mut Walked, elements: &[Element], blocks: &[Block])
    ensures { walked.new ≡ spec.with_blocks elements.now blocks.now walked.old }
{
    for block in blocks {
        add_ops(walked, elements, block.ops.as_slice());
    }
}

fn add_graph(walked: &mut Walked, lists: &[Seq<Element>], number: usize, graph: &Graph)
    ensures { walked.new ≡ spec.with_graph lists.now number graph.now walked.old }
{
    match lists.get(number) {
        None => {}
        Some(elements) => add_blocks(walked, elements.as_slice(), graph.blocks.as_slice()),
    }
}

fn walked_by(
    alloc: Global,
    count: usize,
    lists: &[Seq<Element>],
    graphs: &[Graph],
) -> Result<Walked, NoMem>
    ensures { IfOk result (λ walked. walked ≡ spec.walked_by count lists.now graphs.now) }
{
    let mut walked = Walked {
        walks: unmarked(alloc, count)?,
        dicts: unmarked(alloc, count)?,
    };
    for (number, graph) in graphs.iter().enumerate() {
        add_graph(&mut walked, lists, number, graph);
    }
    Ok(walked)
}

// Whether an element is a list or a dict of the site's own class.
fn is_own(same: &Sites, dict: bool, number: SiteId, e: &Element) -> bool
    ensures { result ≡ spec.is_own same.now dict number e.now }
{
    match e {
        Element::List(site, _) => !dict && same.leader(*site) == same.leader(number),
        Element::Dict(site, _) => dict && same.leader(*site) == same.leader(number),
        _ => false,
    }
}

// Whether a site is reached or prebuilt.
fn is_there(annotation: &Annotation, walked: &Walked, number: SiteId, site: &Site) -> bool
    ensures { result ≡ spec.is_there annotation.now walked.now number site.now }
{
    if number == 0 || site.prebuilt.is_some() {
        return true;
    }
    if is_marked(walked.walks.as_slice(), number as usize) {
        return is_marked(walked.dicts.as_slice(), number as usize);
    }
    match annotation.nodes.get(site.node as usize) {
        None => false,
        Some(e) => is_own(&annotation.same, site.dict, number, e),
    }
}

fn add_shown(
    annotation: &Annotation,
    walked: &Walked,
    number: SiteId,
    site: &Site,
    shown: &mut Seq<bool>,
)
    ensures { shown.new ≡ spec.with_shown annotation.now walked.now number site.now shown.old }
{
    if is_there(annotation, walked, number, site) {
        let leader = annotation.same.leader(number);
        set_mark(shown, leader as usize);
    }
}

/// The leaders of the classes of sites in which one is reached or prebuilt.
pub fn shown_sites(
    alloc: Global,
    graphs: &[Graph],
    annotation: &Annotation,
    sites: &[Site],
) -> Result<Seq<bool>, NoMem>
    ensures { IfOk result (λ shown. shown ≡ spec.shown_sites graphs.now annotation.now sites.now) }
{
    let walked = walked_by(alloc, sites.len(), annotation.vars.as_slice(), graphs)?;
    let mut shown = unmarked(alloc, sites.len())?;
    for (number, site) in sites.iter().enumerate() {
        add_shown(annotation, &walked, narrow(number)?, site, &mut shown);
    }
    Ok(shown)
}

fn put_list(
    alloc: Global,
    labels: &Labels,
    annotation: &Annotation,
    number: usize,
    text: &mut Text,
) -> Result<(), NoMem>
    ensures { OnOk result (text.new ≡ text.old ++ spec.list_text labels.now annotation.now number) }
{
    text.append(b"list#")?;
    put_number(alloc, number as u64, text)?;
    text.append(b": ")?;
    put_element_at(
        alloc,
        labels,
        &annotation.same,
        annotation.items.as_slice(),
        number,
        text,
    )?;
    text.append(b"\n")
}

fn put_dict(
    alloc: Global,
    labels: &Labels,
    annotation: &Annotation,
    number: usize,
    text: &mut Text,
) -> Result<(), NoMem>
    ensures { OnOk result (text.new ≡ text.old ++ spec.dict_text labels.now annotation.now number) }
{
    text.append(b"dict#")?;
    put_number(alloc, number as u64, text)?;
    text.append(b": ")?;
    put_element_at(
        alloc,
        labels,
        &annotation.same,
        annotation.keys.as_slice(),
        number,
        text,
    )?;
    text.append(b" -> ")?;
    put_element_at(
        alloc,
        labels,
        &annotation.same,
        annotation.items.as_slice(),
        number,
        text,
    )?;
    text.append(b"\n")
}

// The line of a class of lists, at its leader.
fn put_list_site(
    alloc: Global,
    labels: &Labels,
    annotation: &Annotation,
    shown: &[bool],
    number: usize,
    site: &Site,
    text: &mut Text,
) -> Result<(), NoMem>
    ensures { OnOk result (text.new ≡ text.old ++ spec.list_line labels.now annotation.now shown.now number site.now) }
{
    if site.dict || !is_marked(shown, number) {
        return Ok(());
    }
    put_list(alloc, labels, annotation, number, text)
}

fn put_dict_site(
    alloc: Global,
    labels: &Labels,
    annotation: &Annotation,
    shown: &[bool],
    number: usize,
    site: &Site,
    text: &mut Text,
) -> Result<(), NoMem>
    ensures { OnOk result (text.new ≡ text.old ++ spec.dict_line labels.now annotation.now shown.now number site.now) }
{
    if !site.dict || !is_marked(shown, number) {
        return Ok(());
    }
    put_dict(alloc, labels, annotation, number, text)
}

pub fn put_lists(
    alloc: Global,
    labels: &Labels,
    annotation: &Annotation,
    shown: &[bool],
    sites: &[Site],
    text: &mut Text,
) -> Result<(), NoMem>
    ensures { OnOk result (text.new ≡ spec.onto (spec.list_line labels.now annotation.now shown.now) text.old 0 sites.now) }
{
    for (number, site) in sites.iter().enumerate() {
        put_list_site(alloc, labels, annotation, shown, number, site, text)?;
    }
    Ok(())
}

pub fn put_dicts(
    alloc: Global,
    labels: &Labels,
    annotation: &Annotation,
    shown: &[bool],
    sites: &[Site],
    text: &mut Text,
) -> Result<(), NoMem>
    ensures { OnOk result (text.new ≡ spec.onto (spec.dict_line labels.now annotation.now shown.now) text.old 0 sites.now) }
{
    for (number, site) in sites.iter().enumerate() {
        put_dict_site(alloc, labels, annotation, shown, number, site, text)?;
    }
    Ok(())
}
