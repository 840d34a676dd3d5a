// Laws of the explicit programs of those that pass the tests, over all of them.
ghost use Rattle.std.specs.Prelude.{◌≡◌, ℕ, List, [], true};
ghost use Rattle.csub_tree.specs.State.{Value, Core, Event};
ghost use Rattle.ll_code.specs.State.{State, Returning};
ghost use Rattle.ll_code.specs.Machine.{start};
ghost use Rattle.ll_code.specs.Meaning.{Unfinished, run};
ghost use Rattle.ll_code.specs.declared.program.LlProgram.{LlProgram};
ghost use Rattle.ll_held.specs.Held.{Reaches};
ghost use Rattle.exc_transform.specs.Pieces.{explicit};
ghost use Rattle.exc_ready.specs.Along.{EachState};
ghost use Rattle.exc_ready.specs.Classes.{names_classes, RaisesSome};
ghost use Rattle.refcount_ready.specs.Programs.{RunsSmall, LeavesNothing};
ghost use Rattle.ll_compiled.specs.Compiled.{compiled, CanBeCompiled, SameRuns};
ghost use Rattle.exc_counted.specs.Both.{CanBeBoth};
ghost use Rattle.exc_counted.specs.Along.{HasFile, RunsWell, HoldsWhatIsThere};

/// The explicit program of one that passes the tests for exceptions and for counts can be compiled.
#[tactic(auto, using(crate::proofs::Whole::can_be_compiled))]
pub fn explicit_programs_can_be_compiled()
    ensures { (p : LlProgram) → CanBeBoth p → CanBeCompiled (explicit p) }
{}

/// A run of a program that has a file is as the laws below ask, where its exceptions name their classes,
/// NULL is never raised, and the run of the explicit program is small and writes no reference into a
/// static.
pub fn runs_are_well()
    ensures { (p : LlProgram) → HasFile p → names_classes p ≡ true → (args : List (List ℕ)) (steps : ℕ) → EachState (RaisesSome p) p args steps → RunsSmall (explicit p) args steps → RunsWell p args steps }
{}

/// The file of the explicit program means what the program means, exceptions and all.
pub fn files_mean_the_same()
    ensures { (p : LlProgram) → HasFile p → (args : List (List ℕ)) (steps : ℕ) → RunsWell p args steps → SameRuns p (compiled (explicit p)) args steps }
{}

/// At each state that such a run comes to, the counted program of the explicit one has come to a state
/// with the same output, and each block that is there then is held in the program's.
#[tactic(auto, using(crate::proofs::Composed::holds_what_is_there))]
pub fn what_is_there_is_held()
    ensures { (p : LlProgram) → HasFile p → (args : List (List ℕ)) (steps : ℕ) → RunsWell p args steps → (k : ℕ) (s : State) (text : List ℕ) (events : List Event) → run p args k (start p steps) [] [] ≡ Unfinished s text events → HoldsWhatIsThere p args steps s text }
{}

/// Where such a run returns out of its first graph and no block lies on a cycle, the counted program of
/// the explicit one comes to a state in which no block is there any more.
#[tactic(auto, using(crate::proofs::Composed::leaves_nothing))]
pub fn nothing_is_left_behind()
    ensures { (p : LlProgram) → HasFile p → (args : List (List ℕ)) (steps : ℕ) → RunsWell p args steps → (k : ℕ) (value : Value) (core : Core) (text : List ℕ) (events : List Event) → run p args k (start p steps) [] [] ≡ Unfinished (Returning value [] core) text events → ((b : ℕ) → Reaches core.blocks b b → ⊥) → LeavesNothing (explicit p) args steps text }
{}
