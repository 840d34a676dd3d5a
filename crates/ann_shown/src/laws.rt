// A law of steps that put a conflict into a cell.
ghost use Rattle.std.specs.Prelude.{ℕ, Bool};
ghost use Rattle.ann_lattice.specs.Assign.{Assignment};
ghost use Rattle.ann_rules.specs.Program.{Whole};
ghost use Rattle.ann_grown.specs.Partial.{IsFirst};
ghost use Rattle.ann_shown.specs.Told.{IsOfRow};

/// Where the last step is what the row of an operation asks, and the row gives a conflict, it does so for
/// the operands behind the step too.
pub fn a_conflict_of_a_row_stays_one()
    ensures { (p : Whole) (spots : ℕ → Bool) (start a : Assignment) (c : ℕ) (f : IsFirst p spots start a c) → IsOfRow p f.before f.rule a }
{}
