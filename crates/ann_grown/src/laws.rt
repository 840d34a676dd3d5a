// Laws of growing step by step, over all programs, graphs and assignments.
ghost use Rattle.std.specs.Prelude.{◌≡◌, ℕ, Bool, true, false};
ghost use Rattle.ann_lattice.specs.Join.{is_clash};
ghost use Rattle.ann_lattice.specs.Assign.{Assignment, Need, Up, Set, Grown, Fits, Free, at, meet};
ghost use Rattle.ann_rules.specs.Program.{Whole};
ghost use Rattle.ann_rules.specs.Rules.{rules};
ghost use Rattle.ann_grown.specs.Partial.{Basis, IsPartial, NoneFree, IsAsked, Keeps};

/// What such steps lead to is below each closed, free assignment.
pub fn what_is_grown_is_partial()
    ensures { (p : Whole) (spots : ℕ → Bool) (start a : Assignment) → Basis p spots start → Grown p.tables.classes (rules p) start a → IsPartial p spots start a }
{}

/// Where that is free of conflict, it is above the start and well-formed, as closed, free assignments are.
pub fn what_grows_without_conflict_fits()
    ensures { (p : Whole) (spots : ℕ → Bool) (start a : Assignment) → IsPartial p spots start a → Free spots a → Fits p.tables.classes start a }
{}

/// A need that is asked is a step, if its cell is in no conflict behind it.
pub fn what_is_asked_is_a_step()
    ensures { (p : Whole) (spots : ℕ → Bool) (a : Assignment) (n : Need) → IsAsked p a n → (Free spots a → Free spots (meet p.tables.classes n a)) → Keeps p spots a (meet p.tables.classes n a) }
{}

/// Where an assignment that is below each closed, free one has a conflict at a place where none may be,
/// there is no closed, free one.
pub fn a_conflict_leaves_none_free()
    ensures { (p : Whole) (spots : ℕ → Bool) (start a : Assignment) → IsPartial p spots start a → (c : ℕ) → spots c ≡ true → is_clash (at a c) ≡ true → NoneFree p spots start }
{}
