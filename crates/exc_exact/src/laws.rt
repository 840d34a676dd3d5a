// Laws of endings, from programs with exceptions to their files.
ghost use Rattle.std.specs.Prelude.{◌≡◌, ℕ, ℤ, List, []};
ghost use Rattle.rpy_base.specs.declared.outcome.Outcome.TheVariants.{Returned};
ghost use Rattle.csub_tree.specs.State.{Static, Core, Event};
ghost use Rattle.csub_tree.specs.Statement.{read};
ghost use Rattle.ll_code.specs.Machine.{start};
ghost use Rattle.ll_code.specs.Meaning.{Came, Meant, LMeans, Unfinished, run, comes};
ghost use Rattle.ll_code.specs.State.{State, At};
ghost use Rattle.ll_code.specs.declared.program.LlExit.TheVariants as exit;
ghost use Rattle.ll_code.specs.declared.program.LlProgram.{LlProgram};
ghost use Rattle.ll_held.specs.Held.{Reaches};
ghost use Rattle.ll_held.specs.Roots.{core_of};
ghost use Rattle.ll_events.specs.Told.{EndsAt};
ghost use Rattle.exc_transform.specs.Pieces.{explicit};
ghost use Rattle.refcount_transform.specs.Counted.{counted};
ghost use Rattle.refcount_exact.specs.Exact.{IsExact};
ghost use Rattle.refcount_exact.specs.Payments.{Pays};
ghost use Rattle.exc_counted.specs.Along.{HasFile, RunsWell};
ghost use Rattle.exc_exact.specs.Ends.{FileHolds, FileEmpty, CountsExactly};

/// Where a run of a program that has a file ends, the file comes to the same ending; no block goes twice,
/// and each that the file made and that is not gone is held in the program, in the state at which that
/// ends: it is reached from a root of that state, or from a cycle.
pub fn what_files_leave_is_held()
    ensures { (p : LlProgram) → HasFile p → (args : List (List ℕ)) (steps : ℕ) → RunsWell p args steps → (s : State) (m : Meant) → EndsAt p args steps s m → comes m.ending → FileHolds p args steps s m }
{}

/// Where such a run returns and no block of the program lies on a cycle then, each block that the file
/// made is gone, and went once.
pub fn returned_files_leave_nothing()
    ensures { (p : LlProgram) → HasFile p → (args : List (List ℕ)) (steps : ℕ) → RunsWell p args steps → (n : ℤ) (s : State) (m : Meant) → EndsAt p args steps s m → m.ending ≡ Came (Returned n) → ((b : ℕ) → Reaches (core_of s).blocks b b → ⊥) → FileEmpty p args steps m }
{}

/// So it is where such a run ends with an exception whose name stands in a static, while no call waits.
pub fn raised_files_leave_nothing()
    ensures { (p : LlProgram) → HasFile p → (args : List (List ℕ)) (steps : ℕ) → RunsWell p args steps → (a g : ℕ) (core : Core) (m : Meant) → EndsAt p args steps (At [] (exit.Raised a) [] core) m → comes m.ending → read core.vars a ≡ Static g → ((b : ℕ) → Reaches core.blocks b b → ⊥) → FileEmpty p args steps m }
{}

/// At each state that such a run comes to, the counted program of the explicit one has come to a state
/// with the same output, in which each count is exact.
pub fn counts_are_exact()
    ensures { (p : LlProgram) → HasFile p → (args : List (List ℕ)) (steps : ℕ) → RunsWell p args steps → (k : ℕ) (s : State) (text : List ℕ) (events : List Event) → run p args k (start p steps) [] [] ≡ Unfinished s text events → CountsExactly p args steps text }
{}

/// Where the program is never stuck there, the counts are exact wherever the counted program pays for
/// steps, one or more at a time.
pub fn payments_are_counted()
    ensures { (p : LlProgram) → HasFile p → (args : List (List ℕ)) (steps : ℕ) → RunsWell p args steps → ((m : Meant) → LMeans p args steps m → comes m.ending) → (j : ℕ) (t : State) (text : List ℕ) (events : List Event) → run (counted (explicit p)) args j (start (counted (explicit p)) steps) [] [] ≡ Unfinished t text events → Pays t → IsExact t }
{}
