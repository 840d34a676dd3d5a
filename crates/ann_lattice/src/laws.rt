// Laws of the order of elements and of their join, over all classes and all classes of sites.
ghost use Rattle.std.specs.Prelude.{ℕ, Bool, List, length};
ghost use Rattle.rpy_tree.specs.declared.program.ClassInfo.{ClassInfo};
ghost use Rattle.ann_lattice.specs.Laws.{IsTree, IsOrder, IsJoin, IsLattice, IsTested};
ghost use Rattle.ann_lattice.specs.Assign.{Assignment, Rules, IsTable, Monotone, Grown, IsLeast};

/// The order is reflexive and transitive, and elements below each other are one, written with the least
/// sites of their classes.
#[tactic(auto, using(crate::proofs::Ordered::is_order))]
pub fn elements_are_ordered()
    ensures { (classes : List ClassInfo) → IsTree classes → (same : List ℕ) → IsOrder classes same }
{}

/// The join of two elements is the least one above both, under the finest classes of sites that allow it.
#[tactic(auto, using(crate::proofs::Joined::is_join))]
pub fn joins_are_least()
    ensures { (classes : List ClassInfo) → IsTree classes → (same : List ℕ) → IsJoin classes same }
{}

/// In which order elements are joined does not matter, nor does joining one again.
#[tactic(auto, using(crate::proofs::Joined::is_lattice))]
pub fn joins_are_a_lattice()
    ensures { (classes : List ClassInfo) → IsTree classes → (same : List ℕ) → IsLattice classes same }
{}

/// The test of the order tells it.
#[tactic(auto, using(crate::proofs::Tested::is_tested))]
pub fn the_order_is_tested()
    ensures { (classes : List ClassInfo) (same : List ℕ) → IsTested classes same }
{}

/// What is grown by monotone rules, in any order, is below each assignment that is closed under them, is
/// free of conflict and is above the start, whose sites stand each by the least of its class.
pub fn what_is_grown_is_least()
    ensures { (classes : List ClassInfo) → IsTree classes → (rules : Rules) (spots : ℕ → Bool) (start : Assignment) → IsTable (length start.same) start.same → Monotone classes rules spots start → (a : Assignment) → Grown classes rules start a → IsLeast classes rules spots start a }
{}
