// Laws of events, over all programs.
ghost use Rattle.std.specs.Prelude.{◌≡◌, ℕ, ℤ, List, [], map};
ghost use Rattle.rpy_base.specs.declared.outcome.Outcome.{Outcome};
ghost use Rattle.rpy_base.specs.declared.outcome.Outcome.TheVariants.{Returned};
ghost use Rattle.csub_tree.specs.State.{Core, Event};
ghost use Rattle.csub_tree.specs.Meaning.{made_in, gone_in};
ghost use Rattle.ll_code.specs.Machine.{start, step};
ghost use Rattle.ll_code.specs.Meaning.{Came, Meant, LMeans, Unfinished, run};
ghost use Rattle.ll_code.specs.State.{State, Ends};
ghost use Rattle.ll_code.specs.declared.program.LlProgram.{LlProgram};
ghost use Rattle.ll_held.specs.Roots.{core_of};
ghost use Rattle.ll_events.specs.Told.{mark, told, InOrder, TellOf, EndsAt, EndsHere, IsLast, AddsTo};

/// At each state of a run, of any program, the events tell the memory. Blocks are made with the numbers
/// 0, 1, 2 and on, as many as there are; only a block that is there goes. So a block is gone exactly
/// where its number stands among those gone, where it stands once; and each block that is there has the
/// struct and as many cells as when it was made.
#[tactic(auto, using(crate::proofs::Telling::whole_run_told, crate::proofs::Telling::whole_run_tells))]
pub fn events_tell_the_memory()
    ensures order { (p : LlProgram) (args : List (List ℕ)) (steps k : ℕ) (s : State) (text : List ℕ) (events : List Event) → run p args k (start p steps) [] [] ≡ Unfinished s text events → InOrder [] events }
    ensures memory { (p : LlProgram) (args : List (List ℕ)) (steps k : ℕ) (s : State) (text : List ℕ) (events : List Event) → run p args k (start p steps) [] [] ≡ Unfinished s text events → told [] events ≡ map mark (core_of s).blocks }
    ensures numbers { (p : LlProgram) (args : List (List ℕ)) (steps k : ℕ) (s : State) (text : List ℕ) (events : List Event) → run p args k (start p steps) [] [] ≡ Unfinished s text events → TellOf (core_of s).blocks (made_in events) (gone_in events) }
{}

/// A run that ends, in whatever way, comes to a state whose next step ends it.
#[tactic(auto, using(crate::proofs::Telling::run_ends))]
pub fn runs_end_at_a_state()
    ensures { (p : LlProgram) (args : List (List ℕ)) (steps : ℕ) (m : Meant) → LMeans p args steps m → (s : State) × EndsAt p args steps s m }
{}

/// Where a run ends, what it means by the blocks made and those gone is exactly which blocks are there
/// in the state at which it ends. The step that ends a run changes no block: the first graph returns, a
/// payment is too much, the program fails, or an exception leaves it.
pub fn endings_tell_the_memory()
    ensures blocks { (p : LlProgram) (args : List (List ℕ)) (steps : ℕ) (s : State) (m : Meant) → EndsAt p args steps s m → TellOf (core_of s).blocks m.made m.gone }
    ensures unchanged { (p : LlProgram) (args : List (List ℕ)) (s : State) (outcome : Outcome) (core : Core) → step p args s ≡ Ends outcome core → core.blocks ≡ (core_of s).blocks }
    ensures places { (p : LlProgram) (args : List (List ℕ)) (s : State) (outcome : Outcome) (core : Core) → step p args s ≡ Ends outcome core → EndsHere s }
{}

/// A run that returns ends where its first graph gives the word.
pub fn returned_runs_end_at_a_return()
    ensures { (p : LlProgram) (args : List (List ℕ)) (steps : ℕ) (n : ℤ) (s : State) (m : Meant) → EndsAt p args steps s m → m.ending ≡ Came (Returned n) → IsLast n s }
{}

/// What was made and what was gone in a state of a run that ends, was made and is gone at its end.
pub fn what_is_told_stays_told()
    ensures { (p : LlProgram) (args : List (List ℕ)) (steps k : ℕ) (s t : State) (text : List ℕ) (events : List Event) (m : Meant) → run p args k (start p steps) [] [] ≡ Unfinished s text events → EndsAt p args steps t m → AddsTo events m }
{}
