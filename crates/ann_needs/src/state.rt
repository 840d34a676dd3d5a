// The elements of all cells, the marks, and the classes of sites.
ghost use Rattle.std.specs.Prelude.{◌≡◌, IfOk};
ghost use Rattle.ann_lattice.specs.Shape.{Nothing, shape};
ghost use Rattle.ann_lattice.specs.Assign.{at, mark};
ghost use Rattle.ann_needs.specs.View as spec;

use ann_element::{Element, Sites, copy_element};
use rpy_base::{NoMem, Seq};
use std::alloc::Global;

#[derive(Drop)]
pub struct State {
    pub cells: Seq<Element>,
    pub marks: Seq<bool>,
    pub same: Sites,
}

fn unreached() -> Element
    ensures { shape result ≡ Nothing }
{
    Element::Unreached
}

impl State {
    /// The element of a cell once more.
    #[tactic(auto, using(crate::proofs::Read::cell_some))]
    pub fn element(&self, alloc: Global, cell: usize) -> Result<Element, NoMem>
        ensures { IfOk result (λ e. shape e ≡ at (spec.assignment self.now) cell) }
    {
        match self.cells.get(cell) {
            None => Ok(unreached()),
            Some(e) => {
                let copy = copy_element(alloc, e)?;
                Ok(copy)
            }
        }
    }

    #[tactic(auto, using(crate::proofs::Read::mark_none, crate::proofs::Read::mark_some))]
    pub fn is_marked(&self, number: usize) -> bool
        ensures { result ≡ mark (spec.assignment self.now) number }
    {
        match self.marks.get(number) {
            None => false,
            Some(mark) => *mark,
        }
    }
}
