// Laws of the meaning, over all programs, arguments and bounds.
ghost use Rattle.std.specs.Prelude.{ℕ, ◌+◌, ◌≤◌, List};
ghost use Rattle.rpy_tree.specs.Pure as first;
ghost use Rattle.rpy_tree.specs.Meaning as old;
ghost use Rattle.rpy_tree.specs.Value.{Value, Heap};
ghost use Rattle.rpy_meaning.specs.Tree.{Program};
ghost use Rattle.rpy_meaning.specs.Laws.{IsLawful, KeepsRoom};
ghost use Rattle.rpy_meaning.specs.Operations.{op};
ghost use Rattle.rpy_meaning.specs.Bounds.{EndsAlike};
ghost use Rattle.rpy_meaning.specs.FirstPath.{program, Agrees};
ghost use Rattle.rpy_meaning.specs.Meaning.{mean};
ghost use Rattle.rpy_meaning.specs.Moments.{NoMore, held, references};

use crate::row::{Covers, RowOp};

/// No operation adds steps, and none takes an object away.
#[tactic(auto, using(crate::proofs::Lawful::lawful))]
pub fn operations_are_lawful()
    ensures { (p : Program) (c : Covers) (o : RowOp) (vs : List Value) → IsLawful (op p c o vs) }
{}

/// What lists and dicts grow by is paid: a bound on the size of each with the steps left stays one.
pub fn growth_is_paid()
    ensures { (p : Program) (c : Covers) (o : RowOp) (vs : List Value) → KeepsRoom (op p c o vs) }
{}

/// A bound only stops a run: with more steps it ends the same, unless it was still running. So the
/// levels of the meaning, which the bound counts, show nowhere.
#[tactic(auto, using(crate::proofs::Bound::bound_stops))]
pub fn a_bound_only_stops()
    ensures { (p : Program) (args : List (List ℕ)) (n k : ℕ) → EndsAlike k (mean p args n) (mean p args (n + k)) }
{}

/// A program whose statements bind names to sums, print sums and return one means what it means as
/// a program of the whole language.
#[tactic(auto, using(crate::proofs::FirstPath::agrees))]
pub fn first_path_agrees()
    ensures { (p : first.Program) (args : List (List ℕ)) (n : ℕ) → Agrees (old.mean p args n) (mean (program p) args n) }
{}

/// Roots that hold no more of any value reach no more objects, strings, tuples and references.
pub fn fewer_roots_hold_no_more()
    ensures objects { (vs us : List Value) → NoMore vs us → (heap : Heap) (prebuilt : ℕ) → held prebuilt vs heap ≤ held prebuilt us heap }
    ensures references { (vs us : List Value) → NoMore vs us → (heap : Heap) (prebuilt : ℕ) → references prebuilt vs heap ≤ references prebuilt us heap }
{}
