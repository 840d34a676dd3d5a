// Laws of exact counts, over all programs that can be counted.
ghost use Rattle.std.specs.Prelude.{◌≡◌, ℕ, ℤ, List, []};
ghost use Rattle.rpy_base.specs.declared.outcome.Outcome.TheVariants.{Returned};
ghost use Rattle.csub_tree.specs.State.{Static, Core, Event};
ghost use Rattle.csub_tree.specs.Statement.{read};
ghost use Rattle.ll_code.specs.Machine.{start};
ghost use Rattle.ll_code.specs.Meaning.{Came, Meant, LMeans, Unfinished, run, comes};
ghost use Rattle.ll_code.specs.State.{State, At};
ghost use Rattle.ll_code.specs.declared.program.LlExit.TheVariants as exit;
ghost use Rattle.ll_code.specs.declared.program.LlProgram.{LlProgram};
ghost use Rattle.ll_held.specs.Roots.{core_of};
ghost use Rattle.ll_events.specs.Told.{EndsAt};
ghost use Rattle.refcount_transform.specs.Counted.{counted};
ghost use Rattle.refcount_ready.specs.Programs.{CanBeCounted, RunsSmall};
ghost use Rattle.refcount_exact.specs.Exact.{ComesExact};
ghost use Rattle.refcount_exact.specs.Payments.{Pays, StandsExact};
ghost use Rattle.refcount_exact.specs.Endings.{EndsHolding, ReturnsExact, EndsEmpty, IsClear};

/// Where a run of a program that can be counted ends, the counted program ends the same way, in a state
/// in which its counts are exact; and each block that it made and that is not among those gone is held in
/// the program, in the state at which that ends: it is reached from a root of that state, or lies on a
/// cycle or is reached from one.
pub fn what_is_left_is_held()
    ensures { (p : LlProgram) → CanBeCounted p → (args : List (List ℕ)) (steps : ℕ) → RunsSmall p args steps → (s : State) (m : Meant) → EndsAt p args steps s m → comes m.ending → EndsHolding p args steps s m }
{}

/// Where such a run returns, no frame is left, and the count of each block that is there is the number of
/// references to it from blocks and exception slots.
pub fn returned_runs_count_exactly()
    ensures { (p : LlProgram) → CanBeCounted p → (args : List (List ℕ)) (steps : ℕ) → RunsSmall p args steps → (n : ℤ) (s : State) (m : Meant) → EndsAt p args steps s m → m.ending ≡ Came (Returned n) → ReturnsExact p args steps m }
{}

/// Where such a run returns, its exception slots are clear and no block lies on a cycle, each block that
/// the counted program made is gone, and went once.
pub fn returned_runs_leave_nothing()
    ensures { (p : LlProgram) → CanBeCounted p → (args : List (List ℕ)) (steps : ℕ) → RunsSmall p args steps → (n : ℤ) (s : State) (m : Meant) → EndsAt p args steps s m → m.ending ≡ Came (Returned n) → IsClear (core_of s) → EndsEmpty p args steps m }
{}

/// So it is where such a run ends with an exception whose name stands in a static, while no call waits.
pub fn raised_runs_leave_nothing()
    ensures { (p : LlProgram) → CanBeCounted p → (args : List (List ℕ)) (steps : ℕ) → RunsSmall p args steps → (a g : ℕ) (core : Core) (m : Meant) → EndsAt p args steps (At [] (exit.Raised a) [] core) m → comes m.ending → read core.vars a ≡ Static g → IsClear core → EndsEmpty p args steps m }
{}

/// At each state that such a run comes to, the counted program has come to a state that stands for it, in
/// which each count is exact: the first word of a block that is there is no less than the number of
/// references to it in fields and items of blocks that are there and in the exception slots, and no more
/// than that and the number of references in the variables of all frames.
pub fn counts_are_exact()
    ensures { (p : LlProgram) → CanBeCounted p → (args : List (List ℕ)) (steps : ℕ) → RunsSmall p args steps → (k : ℕ) (s : State) (text : List ℕ) (events : List Event) → run p args k (start p steps) [] [] ≡ Unfinished s text events → ComesExact p args steps k s text }
{}

/// Where such a run is never stuck, the counted program pays for steps, one or more at a time, only in
/// states that stand for one to which the program's run comes; and in each of them its counts are exact.
pub fn payments_are_counted()
    ensures { (p : LlProgram) → CanBeCounted p → (args : List (List ℕ)) (steps : ℕ) → RunsSmall p args steps → ((m : Meant) → LMeans p args steps m → comes m.ending) → (j : ℕ) (t : State) (text : List ℕ) (events : List Event) → run (counted p) args j (start (counted p) steps) [] [] ≡ Unfinished t text events → Pays t → StandsExact p args steps t }
{}
