// What is asked is met.
ghost use Rattle.std.specs.Prelude.{◌≡◌, ◌∷◌, [], map, get_or, false, IfErr, OnOk};
ghost use Rattle.ann_lattice.specs.Shape.{shape};
ghost use Rattle.ann_lattice.specs.Join.{is_clash};
ghost use Rattle.ann_lattice.specs.Assign.{at, meet, Up, Set};
ghost use Rattle.ann_needs.specs.View.{assignment, need_of, whole};
ghost use Rattle.ann_grown.specs.Partial as spec;
ghost use Rattle.ann_meets.specs.Steps.{spots_in, Stopped};

use crate::stop::Stop;
use ann_element::Element;
use ann_lattice::join;
use ann_needs::{Ask, Plan, State};
use class_desc::Classes;
use rpy_base::{NoMem, Seq};
use std::alloc::Global;

/// Where what does not exist stands.
const NOWHERE: usize = 18446744073709551615;

/// Which cells and marks have changed.
#[derive(Drop)]
pub struct News {
    pub cells: Seq<usize>,
    pub marks: Seq<usize>,
}

impl News {
    pub fn new(alloc: Global) -> News {
        News {
            cells: Seq::new(alloc),
            marks: Seq::new(alloc),
        }
    }
}

// A cell, if there is one, is joined with an element.
fn raise(
    alloc: Global,
    classes: &Classes,
    s: &mut State,
    cell: usize,
    e: &Element,
) -> Result<(), NoMem>
    ensures { OnOk result (assignment s.new ≡ meet classes.now.classes (Up cell (shape e.now ∷ [])) (assignment s.old)) }
{
    let joined = match s.cells.get(cell) {
        None => return Ok(()),
        Some(old) => join(alloc, classes, &mut s.same, old, e)?,
    };
    s.cells.set(cell, joined);
    Ok(())
}

fn raise_all(
    alloc: Global,
    classes: &Classes,
    s: &mut State,
    cell: usize,
    es: &[Element],
) -> Result<(), NoMem>
    ensures { OnOk result (assignment s.new ≡ meet classes.now.classes (Up cell (map shape es.now)) (assignment s.old)) }
{
    for e in es {
        raise(alloc, classes, s, cell, e)?;
    }
    Ok(())
}

fn set_mark(classes: &Classes, s: &mut State, mark: usize)
    ensures { assignment s.new ≡ meet classes.now.classes (Set mark) (assignment s.old) }
{
    if mark < s.marks.len() {
        s.marks.set(mark, true);
    }
}

fn meet_one(
    alloc: Global,
    classes: &Classes,
    s: &mut State,
    ask: &Ask,
    news: &mut News,
) -> Result<(), NoMem>
    ensures { OnOk result (assignment s.new ≡ meet classes.now.classes (need_of ask.now) (assignment s.old)) }
{
    match ask {
        Ask::Up(cell, es) => {
            news.cells.push(*cell)?;
            raise_all(alloc, classes, s, *cell, es.as_slice())
        }
        Ask::Set(mark) => {
            news.marks.push(*mark)?;
            set_mark(classes, s, *mark);
            Ok(())
        }
    }
}

// ---- conflicts

fn is_conflict(e: &Element) -> bool
    ensures { result ≡ is_clash (shape e.now) }
{
    match e {
        Element::Conflict(_, _) => true,
        _ => false,
    }
}

#[tactic(auto, using(crate::proofs::Stepping::clash_none, crate::proofs::Stepping::clash_some))]
fn is_in_conflict(s: &State, cell: usize) -> bool
    ensures { result ≡ is_clash (at (assignment s.now) cell) }
{
    match s.cells.get(cell) {
        None => false,
        Some(e) => is_conflict(e),
    }
}

#[tactic(auto, using(ann_needs::proofs::Read::mark_none, ann_needs::proofs::Read::mark_some))]
fn is_marked(marks: &Seq<bool>, cell: usize) -> bool
    ensures { result ≡ get_or marks.now cell false }
{
    match marks.get(cell) {
        None => false,
        Some(mark) => *mark,
    }
}

/// Whether no conflict may stand in a cell.
pub fn is_spot(spots: &Seq<bool>, cell: usize) -> bool
    ensures { result ≡ spots_in spots.now cell }
{
    cell == NOWHERE || is_marked(spots, cell)
}

// The cell of what was asked, if a conflict stands there and none may.
fn clash_at(spots: &Seq<bool>, s: &State, ask: &Ask) -> Option<usize>
    ensures { result ≡ spec.clash_at (spots_in spots.now) (assignment s.now) (need_of ask.now) }
{
    match ask {
        Ask::Up(cell, _) => {
            if is_spot(spots, *cell) && is_in_conflict(s, *cell) {
                Some(*cell)
            } else {
                None
            }
        }
        Ask::Set(_) => None,
    }
}

/// A step: what is asked is met. It stops at a conflict where none may be.
#[tactic(auto, using(crate::proofs::Stepping::kept_by, crate::proofs::Stepping::met_by))]
pub fn meet_asked(
    alloc: Global,
    p: &Plan,
    spots: &Seq<bool>,
    s: &mut State,
    ask: &Ask,
    news: &mut News,
) -> Result<(), Stop>
    ensures kept { OnOk result (spec.IsAsked (whole p.now) (assignment s.old) (need_of ask.now) → spec.Keeps (whole p.now) (spots_in spots.now) (assignment s.old) (assignment s.new)) }
    ensures first { IfErr result (λ e. spec.IsAsked (whole p.now) (assignment s.old) (need_of ask.now) → Stopped (whole p.now) (spots_in spots.now) (assignment s.old) (assignment s.new) e) }
{
    meet_one(alloc, &p.classes, s, ask, news)?;
    match clash_at(spots, s, ask) {
        None => Ok(()),
        Some(cell) => Err(Stop::Conflict(cell)),
    }
}
