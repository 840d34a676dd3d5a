// Laws of programs that pass the test, over all of them.
ghost use Rattle.std.specs.Prelude.{◌≡◌, ◌+◌, ℕ, List, [], true};
ghost use Rattle.ll_code.specs.State.{State};
ghost use Rattle.csub_tree.specs.State.{Event};
ghost use Rattle.ll_code.specs.Machine.{start};
ghost use Rattle.ll_code.specs.Meaning.{Unfinished, run, Meant, LMeans, RunsOn, NeverStuck};
ghost use Rattle.ll_code.specs.Typed.{IsWellTyped};
ghost use Rattle.ll_code.specs.declared.program.LlStage.TheVariants as stage;
ghost use Rattle.ll_code.specs.declared.program.LlProgram.{LlProgram};
ghost use Rattle.exc_transform.specs.Pieces.{explicit};
ghost use Rattle.exc_laws.specs.Alike.{Allows};
ghost use Rattle.exc_laws.specs.Holds.{Found, AreApartOn, IsSmallOn, HasFewVariables};
ghost use Rattle.ll_held.specs.Quiet.{ReadsInputs};
ghost use Rattle.ll_points.specs.Agrees.{Agrees};
ghost use Rattle.exc_ready.specs.Raisable.{IsRaisable, slots_for};
ghost use Rattle.exc_ready.specs.Classes.{names_classes, RaisesSome};
ghost use Rattle.exc_ready.specs.Along.{EachState, RaisesClassed, RaisedLeads, LeavesMarked};

/// In the run of any program an exception leaves none but a graph that is marked.
#[tactic(auto, using(crate::proofs::Escapes::exceptions_leave_marked))]
pub fn exceptions_leave_marked_graphs()
    ensures { (p : LlProgram) (args : List (List ℕ)) (steps : ℕ) → EachState (LeavesMarked p) p args steps }
{}

/// In the run of a well-typed program that passes the test what is raised, and what leaves a graph, leads
/// to a block or a static that begins with the struct of exceptions, if it is no NULL.
#[tactic(auto, using(crate::proofs::Leading::state_raised_leads))]
pub fn exceptions_lead_to_their_struct()
    ensures { (p : LlProgram) → IsWellTyped p → p.stage ≡ stage.Raw → IsRaisable p → (args : List (List ℕ)) (steps : ℕ) → EachState (RaisedLeads p) p args steps }
{}

/// A run of a well-typed program that passes the test is as the laws of explicit exceptions ask, where
/// what is raised has a class.
pub fn runs_are_allowed()
    ensures { (p : LlProgram) → IsWellTyped p → p.stage ≡ stage.Raw → IsRaisable p → (args : List (List ℕ)) (steps : ℕ) → EachState (RaisesClassed p) p args steps → Allows p args steps }
{}

/// What is raised has a class in each run in which NULL is never raised, where each operation that makes
/// an exception is followed by one that writes a static into the field that tells classes apart, nothing
/// else is written there, and the statics have it.
#[tactic(auto, using(crate::proofs::Classes::classed))]
pub fn exceptions_have_classes()
    ensures { (p : LlProgram) → IsWellTyped p → p.stage ≡ stage.Raw → IsRaisable p → names_classes p ≡ true → (args : List (List ℕ)) (steps : ℕ) → EachState (RaisesSome p) p args steps → EachState (RaisesClassed p) p args steps }
{}

/// The explicit program of such a program means what it means.
pub fn explicit_programs_mean_the_same()
    ensures forth { (p : LlProgram) → IsWellTyped p → p.stage ≡ stage.Raw → IsRaisable p → (args : List (List ℕ)) (steps : ℕ) → EachState (RaisesClassed p) p args steps → (meant : Meant) → LMeans p args steps meant → LMeans (explicit p) args steps meant }
    ensures back { (p : LlProgram) → IsWellTyped p → p.stage ≡ stage.Raw → IsRaisable p → (args : List (List ℕ)) (steps : ℕ) → EachState (RaisesClassed p) p args steps → (meant : Meant) → LMeans (explicit p) args steps meant → LMeans p args steps meant }
    ensures on { (p : LlProgram) → IsWellTyped p → p.stage ≡ stage.Raw → IsRaisable p → (args : List (List ℕ)) (steps : ℕ) → EachState (RaisesClassed p) p args steps → ((k : ℕ) → RunsOn k p args steps) → (k : ℕ) → RunsOn k (explicit p) args steps }
    ensures on_too { (p : LlProgram) → IsWellTyped p → p.stage ≡ stage.Raw → IsRaisable p → (args : List (List ℕ)) (steps : ℕ) → EachState (RaisesClassed p) p args steps → ((k : ℕ) → RunsOn k (explicit p) args steps) → (k : ℕ) → RunsOn k p args steps }
{}

/// The explicit program of one that is never stuck is never stuck, where what is raised has a class in
/// each of its runs.
pub fn explicit_programs_are_never_stuck()
    ensures { (p : LlProgram) → IsWellTyped p → p.stage ≡ stage.Raw → IsRaisable p → ((args : List (List ℕ)) (steps : ℕ) → EachState (RaisesClassed p) p args steps) → NeverStuck p → NeverStuck (explicit p) }
{}

/// Each state of a run of the explicit program holds no more than some state of the program's run, where
/// in the states of that run the statics name no block.
pub fn explicit_programs_hold_no_more()
    ensures { (p : LlProgram) → IsWellTyped p → p.stage ≡ stage.Raw → IsRaisable p → (args : List (List ℕ)) (steps : ℕ) → EachState (RaisesClassed p) p args steps → AreApartOn p args steps → (k : ℕ) (x : State) (text : List ℕ) (events : List Event) → run (explicit p) args k (start (explicit p) steps) [] [] ≡ Unfinished x text events → Found p args (start p steps) [] [] x text events }
{}

/// A run in each of whose states fewer than so many references stand is so in the explicit program too,
/// but for as many more as a graph has variables, and six.
pub fn small_runs_stay_small()
    ensures { (p : LlProgram) → IsWellTyped p → p.stage ≡ stage.Raw → IsRaisable p → (args : List (List ℕ)) (steps : ℕ) → EachState (RaisesClassed p) p args steps → AreApartOn p args steps → (most few : ℕ) → IsSmallOn most p args steps → HasFewVariables few p → IsSmallOn (most + few + 6) (explicit p) args steps }
{}

/// The explicit program raises and frees nothing, and its slots are used alike.
#[tactic(auto, using(crate::proofs::Agreeing::explicit_agrees))]
pub fn explicit_programs_use_slots_alike()
    ensures { (p : LlProgram) → IsWellTyped p → p.stage ≡ stage.Raw → IsRaisable p → Agrees (slots_for p) (explicit p) }
{}

/// Each block of the explicit program reads its inputs alone.
pub fn explicit_programs_read_their_inputs()
    ensures { (p : LlProgram) → IsRaisable p → ReadsInputs (explicit p) }
{}
