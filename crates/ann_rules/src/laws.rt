// Laws of the rules of graphs, over all programs, graphs and assignments.
ghost use Rattle.std.specs.Prelude.{ℕ, Bool, length};
ghost use Rattle.ann_lattice.specs.Assign.{Assignment, IsTable, Monotone, Grown, IsLeast};
ghost use Rattle.ann_laws.specs.Rows.{HasClasses};
ghost use Rattle.ann_rules.specs.Program.{Whole};
ghost use Rattle.ann_rules.specs.Rules.{rules};
ghost use Rattle.ann_rules.specs.Hold.{IsPlaced};

/// What the graphs of a program ask of an assignment holds in each larger one that is closed under all
/// that they ask and free of conflict.
pub fn rules_are_monotone()
    ensures { (p : Whole) → HasClasses p.tables → (spots : ℕ → Bool) (start : Assignment) → IsPlaced p spots start → Monotone p.tables.classes (rules p) spots start }
{}

/// What is grown by all that the graphs of a program ask, in any order, is below each assignment that is
/// closed under it, free of conflict and above the start.
pub fn what_graphs_grow_is_least()
    ensures { (p : Whole) → HasClasses p.tables → (spots : ℕ → Bool) (start : Assignment) → IsPlaced p spots start → IsTable (length start.same) start.same → (a : Assignment) → Grown p.tables.classes (rules p) start a → IsLeast p.tables.classes (rules p) spots start a }
{}
