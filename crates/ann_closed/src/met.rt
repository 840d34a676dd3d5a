// Whether what is asked of an assignment holds in it.
ghost use Rattle.std.specs.Prelude.{◌≡◌, map, slice_get};
ghost use Rattle.ann_lattice.specs.Shape.{shape};
ghost use Rattle.ann_lattice.specs.Assign.{Up};
ghost use Rattle.ann_needs.specs.View.{assignment, need_of};
ghost use Rattle.ann_closed.specs.Met as spec;

use ann_element::{Element, Sites};
use ann_lattice::below;
use ann_needs::{Ask, State};
use class_desc::Classes;

fn all_below(classes: &Classes, same: &Sites, xs: &[Element], z: &Element) -> bool
    ensures { result ≡ spec.all_below classes.now.classes same.now (map shape xs.now) (shape z.now) }
{
    for x in xs {
        if !below(classes, same, x, z) {
            return false;
        }
    }
    true
}

#[tactic(auto, using(crate::proofs::Cells::cell_is))]
fn is_above(classes: &Classes, s: &State, cell: usize, xs: &[Element]) -> bool
    ensures { result ≡ spec.holds classes.now.classes (assignment s.now) (Up cell (map shape xs.now)) }
{
    match s.cells.get(cell) {
        None => true,
        Some(z) => all_below(classes, &s.same, xs, z),
    }
}

fn is_set(s: &State, mark: usize) -> bool
    ensures { result ≡ spec.is_set (slice_get s.now.marks mark) }
{
    match s.marks.get(mark) {
        None => true,
        Some(mark) => *mark,
    }
}

/// Whether what is asked holds.
pub fn is_met(classes: &Classes, s: &State, ask: &Ask) -> bool
    ensures { result ≡ spec.holds classes.now.classes (assignment s.now) (need_of ask.now) }
{
    match ask {
        Ask::Up(cell, xs) => is_above(classes, s, *cell, xs.as_slice()),
        Ask::Set(mark) => is_set(s, *mark),
    }
}
