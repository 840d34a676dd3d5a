// Laws of the table of operations, over all classes and all classes of sites.
ghost use Rattle.std.specs.Prelude.{List, ℕ};
ghost use Rattle.class_desc.specs.Tables.{Tables};
ghost use Rattle.ann_laws.specs.Rows.{HasClasses, AreMonotone};

/// What is free of conflict and above all that an operation asks for larger operands is above all that it
/// asks for smaller ones.
#[tactic(auto, using(crate::proofs::Whole::are_monotone))]
pub fn rows_are_monotone()
    ensures { (t : Tables) → HasClasses t → (same : List ℕ) → AreMonotone t same }
{}
