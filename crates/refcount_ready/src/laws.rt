// Laws of the states of runs, over all programs that can be counted.
ghost use Rattle.std.specs.Prelude.{◌≡◌, ℕ, List, []};
ghost use Rattle.csub_tree.specs.State.{Value, Null, Core, Event};
ghost use Rattle.ll_code.specs.Machine.{start};
ghost use Rattle.ll_code.specs.Meaning.{Meant, LMeans, RunsOn, Unfinished, run, within, comes};
ghost use Rattle.ll_code.specs.State.{State, Returning};
ghost use Rattle.ll_code.specs.declared.program.LlProgram.{LlProgram};
ghost use Rattle.ll_held.specs.Held.{Reaches};
ghost use Rattle.refcount_transform.specs.Counted.{counted};
ghost use Rattle.refcount_laws.specs.Means.{SameMeaning};
ghost use Rattle.refcount_laws.specs.Run.{ReadyAlong};
ghost use Rattle.refcount_ready.specs.Programs.{CanBeCounted, RunsSmall, ComesAlong, LeavesNothing};

/// Each state of a run is ready, where the program can be counted: it is well typed, raises and frees
/// nothing, uses its exception slots alike, leads to roots, has the number of each array, reads in each
/// block its inputs alone, and passes the test; and where the run is small and writes no reference into
/// a static.
#[tactic(auto, using(crate::proofs::Composed::ready_so))]
pub fn states_are_ready()
    ensures { (p : LlProgram) → CanBeCounted p → (args : List (List ℕ)) (steps : ℕ) → RunsSmall p args steps → (k : ℕ) → ReadyAlong p args k (start p steps) }
{}

/// The counted program of such a program means the same on such a run: it ends the same way, with the
/// same output, steps paid and blocks made. Where the program is never stuck there, neither is the
/// counted one, and it ends only where the program does; where that runs on, so does the counted one.
pub fn counted_runs_mean_the_same()
    ensures means { (p : LlProgram) → CanBeCounted p → (args : List (List ℕ)) (steps : ℕ) → RunsSmall p args steps → (m : Meant) → LMeans p args steps m → comes m.ending → SameMeaning p args steps m }
    ensures back { (p : LlProgram) → CanBeCounted p → (args : List (List ℕ)) (steps : ℕ) → RunsSmall p args steps → ((m : Meant) → LMeans p args steps m → comes m.ending) → (last : Meant) → LMeans (counted p) args steps last → (m : Meant) × LMeans p args steps m × SameMeaning p args steps m }
    ensures stuck { (p : LlProgram) → CanBeCounted p → (args : List (List ℕ)) (steps : ℕ) → RunsSmall p args steps → ((m : Meant) → LMeans p args steps m → comes m.ending) → (last : Meant) → LMeans (counted p) args steps last → comes last.ending }
    ensures on { (p : LlProgram) → CanBeCounted p → (args : List (List ℕ)) (steps : ℕ) → RunsSmall p args steps → ((k : ℕ) → RunsOn k p args steps) → (k : ℕ) → RunsOn k (counted p) args steps }
{}

/// At each state that such a run comes to, the counted program has come to a state that stands for it:
/// with the same output, and with counts that are right. Each block that is there then is held in the
/// program: it is reached from a root of that state, or from a cycle.
#[tactic(auto, using(crate::proofs::Composed::comes_along))]
pub fn what_is_there_is_reached()
    ensures { (p : LlProgram) → CanBeCounted p → (args : List (List ℕ)) (steps : ℕ) → RunsSmall p args steps → (k : ℕ) (s : State) (text : List ℕ) (events : List Event) → run p args k (start p steps) [] [] ≡ Unfinished s text events → ComesAlong p args steps k s text }
{}

/// Where such a run returns out of its first graph, its exception slots are clear and no block lies on a
/// cycle, the counted program comes to a state in which no block is there any more.
#[tactic(auto, using(crate::proofs::Composed::leaves_nothing))]
pub fn nothing_is_left_behind()
    ensures { (p : LlProgram) → CanBeCounted p → (args : List (List ℕ)) (steps : ℕ) → RunsSmall p args steps → (k : ℕ) (value : Value) (core : Core) (text : List ℕ) (events : List Event) → run p args k (start p steps) [] [] ≡ Unfinished (Returning value [] core) text events → core.exc_type ≡ Null → core.exc_value ≡ Null → ((b : ℕ) → Reaches core.blocks b b → ⊥) → LeavesNothing p args steps text }
{}
