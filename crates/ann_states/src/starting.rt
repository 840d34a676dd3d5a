// The state in which nothing is reached.
ghost use Rattle.std.specs.Prelude.{◌≡◌, map, replicate, false, IfOk};
ghost use Rattle.ann_lattice.specs.Shape.{shape, Nothing};
ghost use Rattle.ann_needs.specs.View.{assignment};
ghost use Rattle.ann_places.specs.Spots.{empty};

use ann_element::{Element, Sites};
use ann_needs::State;
use rpy_base::{NoMem, Seq};
use rpy_tree::Program;
use std::alloc::Global;

fn nothing() -> Element
    ensures { shape result ≡ Nothing }
{
    Element::Unreached
}

fn unreached(alloc: Global, count: usize) -> Result<Seq<Element>, NoMem>
    ensures { IfOk result (λ cells. map shape cells ≡ replicate count Nothing) }
{
    let mut cells = Seq::new(alloc);
    for _cell in 0..count {
        cells.push(nothing())?;
    }
    Ok(cells)
}

pub fn unset(alloc: Global, count: usize) -> Result<Seq<bool>, NoMem>
    ensures { IfOk result (λ marks. marks ≡ replicate count false) }
{
    let mut marks = Seq::new(alloc);
    for _mark in 0..count {
        marks.push(false)?;
    }
    Ok(marks)
}

/// So many cells and marks: every element is unreached, no mark is set, and each site of the program is
/// alone.
pub fn nothing_reached(
    alloc: Global,
    program: &Program,
    cells: usize,
    marks: usize,
) -> Result<State, NoMem>
    ensures { IfOk result (λ s. assignment s ≡ empty cells marks program.now.sites) }
{
    let cells = unreached(alloc, cells)?;
    let marks = unset(alloc, marks)?;
    let same = Sites::new(alloc, program)?;
    Ok(State { cells, marks, same })
}
