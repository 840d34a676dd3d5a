// The annotation that stands in the cells and marks.
ghost use Rattle.std.specs.Prelude.{◌≡◌, ◌++◌, map, IfOk, OnOk};
ghost use Rattle.class_desc.specs.Tables.{home};
ghost use Rattle.ann_settled.specs.Read as spec;

use ann_element::{Annotation, Element, copy_element};
use ann_needs::{Places, State};
use class_desc::Classes;
use rpy_base::{NoMem, Seq, Text};
use rpy_tree::ClassId;
use std::alloc::Global;

/// The element of a cell.
pub fn cell_of(alloc: Global, cells: &[Element], place: usize) -> Result<Element, NoMem>
    ensures { IfOk result (λ e. e ≡ spec.element_at cells.now place) }
{
    match cells.get(place) {
        None => Ok(Element::Unreached),
        Some(e) => copy_element(alloc, e),
    }
}

fn mark_of(marks: &[bool], place: usize) -> bool
    ensures { result ≡ spec.mark_at marks.now place }
{
    match marks.get(place) {
        None => false,
        Some(mark) => *mark,
    }
}

fn read_cells(alloc: Global, s: &State, row: &[usize]) -> Result<Seq<Element>, NoMem>
    ensures { IfOk result (λ es. es ≡ spec.cells s.now row.now) }
{
    let mut es = Seq::new(alloc);
    for place in row {
        es.push(cell_of(alloc, s.cells.as_slice(), *place)?)?;
    }
    Ok(es)
}

fn read_marks(alloc: Global, s: &State, row: &[usize]) -> Result<Seq<bool>, NoMem>
    ensures { IfOk result (λ marks. marks ≡ spec.marks s.now row.now) }
{
    let mut marks = Seq::new(alloc);
    for place in row {
        marks.push(mark_of(s.marks.as_slice(), *place))?;
    }
    Ok(marks)
}

fn read_cell_rows(alloc: Global, s: &State, rows: &[Seq<usize>]) -> Result<Seq<Seq<Element>>, NoMem>
    ensures { IfOk result (λ lists. lists ≡ map (spec.cells s.now) rows.now) }
{
    let mut lists = Seq::new(alloc);
    for row in rows {
        lists.push(read_cells(alloc, s, row.as_slice())?)?;
    }
    Ok(lists)
}

fn read_mark_rows(alloc: Global, s: &State, rows: &[Seq<usize>]) -> Result<Seq<Seq<bool>>, NoMem>
    ensures { IfOk result (λ lists. lists ≡ map (spec.marks s.now) rows.now) }
{
    let mut lists = Seq::new(alloc);
    for row in rows {
        lists.push(read_marks(alloc, s, row.as_slice())?)?;
    }
    Ok(lists)
}

fn is_home(classes: &Classes, class: ClassId, name: &Text) -> bool
    ensures { result ≡ spec.at_home class (home classes.now class name.now) }
{
    match classes.home(class, name) {
        None => false,
        Some(home) => home == class,
    }
}

// An attribute stands at its home.
fn add_attribute(
    alloc: Global,
    s: &State,
    classes: &Classes,
    class: ClassId,
    entry: &(Text, usize),
    list: &mut Seq<(ClassId, Text, Element)>,
) -> Result<(), NoMem>
    ensures { OnOk result (list.new ≡ list.old ++ spec.own s.now classes.now class entry.now) }
{
    if !is_home(classes, class, &entry.0) {
        return Ok(());
    }
    let e = cell_of(alloc, s.cells.as_slice(), entry.1)?;
    list.push((class, entry.0.copy(alloc)?, e))
}

fn add_attributes(
    alloc: Global,
    s: &State,
    classes: &Classes,
    class: ClassId,
    row: &[(Text, usize)],
    list: &mut Seq<(ClassId, Text, Element)>,
) -> Result<(), NoMem>
    ensures { OnOk result (list.new ≡ list.old ++ spec.attributes_of s.now classes.now class row.now) }
{
    for entry in row {
        add_attribute(alloc, s, classes, class, entry, list)?;
    }
    Ok(())
}

fn narrow(class: usize) -> Result<ClassId, NoMem>
    ensures { IfOk result (λ number. number ≡ class) }
{
    if class <= 4294967295 {
        Ok(class as u32)
    } else {
        Err(NoMem)
    }
}

fn read_attributes(
    alloc: Global,
    s: &State,
    classes: &Classes,
    rows: &[Seq<(Text, usize)>],
) -> Result<Seq<(ClassId, Text, Element)>, NoMem>
    ensures { IfOk result (λ list. list ≡ spec.attributes s.now classes.now 0 rows.now) }
{
    let mut list = Seq::new(alloc);
    for (class, row) in rows.iter().enumerate() {
        add_attributes(alloc, s, classes, narrow(class)?, row.as_slice(), &mut list)?;
    }
    Ok(list)
}

/// The lists of an annotation that have elements, but those of nodes.
#[derive(Drop)]
pub struct Filled {
    pub params: Seq<Seq<Element>>,
    pub results: Seq<Element>,
    pub attributes: Seq<(ClassId, Text, Element)>,
    pub items: Seq<Element>,
    pub keys: Seq<Element>,
    pub vars: Seq<Seq<Element>>,
}

/// The lists of an annotation that have marks.
#[derive(Drop)]
pub struct Marked {
    pub unbound: Seq<bool>,
    pub reached: Seq<bool>,
    pub made: Seq<bool>,
    pub blocks: Seq<Seq<bool>>,
}

fn read_filled(
    alloc: Global,
    s: &State,
    classes: &Classes,
    places: &Places,
) -> Result<Filled, NoMem>
    ensures { IfOk result (λ filled. filled ≡ spec.filled s.now classes.now places.now) }
{
    let params = read_cell_rows(alloc, s, places.params.as_slice())?;
    let results = read_cells(alloc, s, places.results.as_slice())?;
    let attributes = read_attributes(alloc, s, classes, places.attributes.as_slice())?;
    let items = read_cells(alloc, s, places.items.as_slice())?;
    let keys = read_cells(alloc, s, places.keys.as_slice())?;
    let vars = read_cell_rows(alloc, s, places.variables.as_slice())?;
    Ok(Filled {
        params,
        results,
        attributes,
        items,
        keys,
        vars,
    })
}

fn read_marked(alloc: Global, s: &State, places: &Places) -> Result<Marked, NoMem>
    ensures { IfOk result (λ marked. marked ≡ spec.marked s.now places.now) }
{
    let unbound = read_marks(alloc, s, places.unbound.as_slice())?;
    let reached = read_marks(alloc, s, places.reached.as_slice())?;
    let made = read_marks(alloc, s, places.made.as_slice())?;
    let blocks = read_mark_rows(alloc, s, places.blocks.as_slice())?;
    Ok(Marked {
        unbound,
        reached,
        made,
        blocks,
    })
}

fn read_lists(
    alloc: Global,
    s: &State,
    classes: &Classes,
    places: &Places,
) -> Result<(Marked, Filled), NoMem>
    ensures { IfOk result (λ lists. lists ≡ (spec.marked s.now places.now, spec.filled s.now classes.now places.now)) }
{
    let marked = read_marked(alloc, s, places)?;
    let filled = read_filled(alloc, s, classes, places)?;
    Ok((marked, filled))
}

fn with_lists(s: State, nodes: Seq<Element>, marked: Marked, filled: Filled) -> Annotation
    ensures { result ≡ spec.with_lists s nodes marked filled }
{
    Annotation {
        nodes,
        unbound: marked.unbound,
        params: filled.params,
        results: filled.results,
        reached: marked.reached,
        attributes: filled.attributes,
        items: filled.items,
        keys: filled.keys,
        made: marked.made,
        same: s.same,
        vars: filled.vars,
        blocks: marked.blocks,
    }
}

/// The annotation that stands in the cells and marks, with the elements that nodes have.
pub fn read(
    alloc: Global,
    s: State,
    classes: &Classes,
    places: &Places,
    nodes: Seq<Element>,
) -> Result<Annotation, NoMem>
    ensures { IfOk result (λ annotation. annotation ≡ spec.annotation s classes.now nodes places.now) }
{
    match read_lists(alloc, &s, classes, places) {
        Ok((marked, filled)) => Ok(with_lists(s, nodes, marked, filled)),
        Err(fault) => Err(fault),
    }
}
