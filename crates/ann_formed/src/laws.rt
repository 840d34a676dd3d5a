// Laws of well-formed assignments, over all programs, graphs and assignments.
ghost use Rattle.ann_lattice.specs.Assign.{Assignment};
ghost use Rattle.ann_rules.specs.Program.{Whole};
ghost use Rattle.ann_rules.specs.Rules.{needs};
ghost use Rattle.ann_formed.specs.Formed.{AreFormedCells, AreFormedNeeds};

/// What the graphs ask of well-formed elements, of which no item and no key is in conflict, is well-formed.
pub fn what_is_asked_is_well_formed()
    ensures { (p : Whole) (w : Assignment) → AreFormedCells p w → AreFormedNeeds (needs p w) }
{}
