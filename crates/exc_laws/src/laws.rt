// Laws of what `make_explicit` gives, over all programs.
ghost use Rattle.std.specs.Prelude.{◌≡◌, ◌+◌, ℕ, List, [], false};
ghost use Rattle.ll_code.specs.State.{State};
ghost use Rattle.csub_tree.specs.State.{Event};
ghost use Rattle.ll_code.specs.Machine.{step, start};
ghost use Rattle.ll_code.specs.Meaning.{Unfinished, run, Meant, within, LMeans, RunsOn, NeverStuck};
ghost use Rattle.ll_code.specs.Typed.{IsWellTyped};
ghost use Rattle.ll_code.specs.declared.program.LlStage.TheVariants as stage;
ghost use Rattle.ll_code.specs.declared.program.LlProgram.{LlProgram};
ghost use Rattle.ll_laws.specs.States.{StateFits};
ghost use Rattle.ll_held.specs.Places.{IsPlaced};
ghost use Rattle.exc_transform.specs.Explicit.{IsWithoutExceptions, graphs_calm};
ghost use Rattle.exc_transform.specs.Pieces.{explicit};
ghost use Rattle.exc_laws.specs.Ready.{IsClosed, IsReady};
ghost use Rattle.exc_laws.specs.Stands.{Stands};
ghost use Rattle.exc_laws.specs.Follows.{Follows};
ghost use Rattle.exc_laws.specs.Alike.{Allows};
ghost use Rattle.exc_laws.specs.Holds.{Found, AreApartOn, IsSmallOn, HasFewVariables};

/// The explicit program of a well-typed one is well typed.
#[tactic(auto, using(crate::proofs::WellTyped::explicit_typed))]
pub fn explicit_programs_are_well_typed()
    ensures { (p : LlProgram) → IsWellTyped p → p.stage ≡ stage.Raw → IsWellTyped (explicit p) }
{}

/// A program in which nothing raises an exception means exactly the same, within as many steps of the
/// machine.
#[tactic(auto, using(crate::proofs::Without::without_same))]
pub fn programs_without_exceptions_mean_the_same()
    ensures { (p : LlProgram) → IsWithoutExceptions p → (args : List (List ℕ)) (steps k : ℕ) → within (explicit p) args steps k ≡ within p args steps k }
{}

/// The machine of the explicit program follows each step of the program's, where exceptions are raised
/// and each block reads its inputs alone. States of runs are placed.
#[tactic(auto, using(crate::proofs::Steps::step_follows))]
pub fn steps_are_followed()
    ensures { (p : LlProgram) → IsWellTyped p → p.stage ≡ stage.Raw → graphs_calm p.graphs ≡ false → IsClosed p → (args : List (List ℕ)) (s x : State) → Stands p s x → IsPlaced p s → IsPlaced (explicit p) x → StateFits p s → IsReady p s → Follows p args x (step p args s) }
{}

/// The explicit program means what the program means, where each block reads its inputs alone and each
/// state of the run is ready: each meaning of the one is one of the other, and the one runs on where the
/// other does.
pub fn explicit_programs_mean_the_same()
    ensures forth { (p : LlProgram) → IsWellTyped p → p.stage ≡ stage.Raw → (args : List (List ℕ)) (steps : ℕ) → Allows p args steps → (meant : Meant) → LMeans p args steps meant → LMeans (explicit p) args steps meant }
    ensures back { (p : LlProgram) → IsWellTyped p → p.stage ≡ stage.Raw → (args : List (List ℕ)) (steps : ℕ) → Allows p args steps → (meant : Meant) → LMeans (explicit p) args steps meant → LMeans p args steps meant }
    ensures on { (p : LlProgram) → IsWellTyped p → p.stage ≡ stage.Raw → (args : List (List ℕ)) (steps : ℕ) → Allows p args steps → ((k : ℕ) → RunsOn k p args steps) → (k : ℕ) → RunsOn k (explicit p) args steps }
    ensures on_too { (p : LlProgram) → IsWellTyped p → p.stage ≡ stage.Raw → (args : List (List ℕ)) (steps : ℕ) → Allows p args steps → ((k : ℕ) → RunsOn k (explicit p) args steps) → (k : ℕ) → RunsOn k p args steps }
{}

/// The explicit program of one that is never stuck, and whose runs are ready, is never stuck.
#[tactic(auto, using(crate::proofs::Whole::never_stuck))]
pub fn explicit_programs_are_never_stuck()
    ensures { (p : LlProgram) → IsWellTyped p → p.stage ≡ stage.Raw → ((args : List (List ℕ)) (steps : ℕ) → Allows p args steps) → NeverStuck p → NeverStuck (explicit p) }
{}

/// Each state of a run of the explicit program holds no more than some state of the program's run, with
/// the same output and the same blocks made and freed, where in the states of that run the statics name no
/// block: the same blocks stand in both, each block that can be reached from the roots of the one, or
/// lies on a cycle, is held in the other, and the calls that wait hold no more references. Where the one
/// ends, so does the other.
pub fn explicit_programs_hold_no_more()
    ensures { (p : LlProgram) → IsWellTyped p → p.stage ≡ stage.Raw → (args : List (List ℕ)) (steps : ℕ) → Allows p args steps → AreApartOn p args steps → (k : ℕ) (x : State) (text : List ℕ) (events : List Event) → run (explicit p) args k (start (explicit p) steps) [] [] ≡ Unfinished x text events → Found p args (start p steps) [] [] x text events }
{}

/// A run in each of whose states fewer than so many references stand, in the roots and in what is held,
/// is so in the explicit program too, but for as many more as a graph has variables, and six.
pub fn small_runs_stay_small()
    ensures { (p : LlProgram) → IsWellTyped p → p.stage ≡ stage.Raw → (args : List (List ℕ)) (steps : ℕ) → Allows p args steps → AreApartOn p args steps → (most few : ℕ) → IsSmallOn most p args steps → HasFewVariables few p → IsSmallOn (most + few + 6) (explicit p) args steps }
{}
