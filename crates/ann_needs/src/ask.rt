// What is asked of an assignment.
ghost use Rattle.std.specs.Prelude.{◌≡◌, ◌++◌, ◌∷◌, [], map, IfOk, OnOk};
ghost use Rattle.ann_lattice.specs.Assign.{Up, Set};
ghost use Rattle.ann_lattice.specs.Shape.{shape};
ghost use Rattle.ann_needs.specs.View as spec;

use ann_element::{Element, copy_element};
use rpy_base::{NoMem, Seq};
use std::alloc::Global;

/// That a cell is above some elements, or that a mark is set.
#[derive(Drop)]
pub enum Ask {
    Up(usize, Seq<Element>),
    Set(usize),
}

/// What is asked, in order.
#[derive(Drop)]
pub struct Asks {
    pub items: Seq<Ask>,
}

impl Asks {
    pub fn new(alloc: Global) -> Asks
        ensures { spec.seen result ≡ [] }
    {
        Asks {
            items: Seq::new(alloc),
        }
    }

    /// A cell is to be above each of some elements.
    pub fn above_all(&mut self, cell: usize, pieces: Seq<Element>) -> Result<(), NoMem>
        ensures { OnOk result (spec.seen self.new ≡ spec.seen self.old ++ Up cell (map shape pieces) ∷ []) }
    {
        self.items.push(Ask::Up(cell, pieces))
    }

    /// A cell is to be above an element.
    pub fn above(&mut self, alloc: Global, cell: usize, e: &Element) -> Result<(), NoMem>
        ensures { OnOk result (spec.seen self.new ≡ spec.seen self.old ++ Up cell (shape e.now ∷ []) ∷ []) }
    {
        self.above_all(cell, single(alloc, e)?)
    }

    /// A mark is to be set.
    pub fn set(&mut self, mark: usize) -> Result<(), NoMem>
        ensures { OnOk result (spec.seen self.new ≡ spec.seen self.old ++ Set mark ∷ []) }
    {
        self.items.push(Ask::Set(mark))
    }
}

fn single(alloc: Global, e: &Element) -> Result<Seq<Element>, NoMem>
    ensures { IfOk result (λ list. list ≡ e.now ∷ []) }
{
    let mut list = Seq::new(alloc);
    list.push(copy_element(alloc, e)?)?;
    Ok(list)
}
