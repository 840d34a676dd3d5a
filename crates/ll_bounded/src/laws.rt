// A law of how many blocks are held.
ghost use Rattle.std.specs.Prelude.{ℕ, List, Option};
ghost use Rattle.csub_tree.specs.State.{Value, Block};
ghost use Rattle.rpy_tree.specs.Value.{Value as Meant, Heap};
ghost use Rattle.ll_bounded.specs.Represents.{Represents, RootsStand, IsWhole, FewBlocks, AtMostThree};

/// Where blocks represent the objects, tuples and strings of a heap, at most three are held for each value
/// that is held, cycles and all.
#[tactic(auto)]
pub fn blocks_are_few()
    ensures { (prebuilt : ℕ) (heap : Heap) (blocks : List (Option Block)) (own : ℕ → List ℕ) (kept : ℕ → List Value) (rank : ℕ → ℕ) → Represents prebuilt heap blocks own kept rank → (roots : List Value) (holds : List Meant) → RootsStand blocks own roots holds → FewBlocks prebuilt heap blocks roots holds }
{}

/// Where no reference leads out of the heap, they are at most three times the number of values that a run
/// holds.
#[tactic(auto)]
pub fn blocks_are_at_most_three_times_held()
    ensures { (prebuilt : ℕ) (heap : Heap) (blocks : List (Option Block)) (own : ℕ → List ℕ) (kept : ℕ → List Value) (rank : ℕ → ℕ) → Represents prebuilt heap blocks own kept rank → (roots : List Value) (holds : List Meant) → RootsStand blocks own roots holds → IsWhole heap holds → AtMostThree prebuilt heap blocks roots holds }
{}
