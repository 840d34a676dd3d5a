// Laws of what `lower` gives, over all programs.
ghost use Rattle.std.specs.Prelude.{◌≡◌, ◌≤◌, ◌-◌, ◌⊎◌, ℕ, List, length, slice_get, Some, true};
ghost use Rattle.csub_tree.specs.State.{Core};
ghost use Rattle.csub_tree.specs.Machine as c_machine;
ghost use Rattle.csub_tree.specs.Meaning as c;
ghost use Rattle.csub_tree.specs.Checked.{IsChecked};
ghost use Rattle.ll_code.specs.State.{State};
ghost use Rattle.ll_code.specs.Machine.{does, step, start};
ghost use Rattle.ll_code.specs.Meaning as l;
ghost use Rattle.ll_code.specs.Typed.{IsWellTyped, operation_ok};
ghost use Rattle.ll_code.specs.declared.program.LlStage.TheVariants as stage;
ghost use Rattle.ll_code.specs.declared.program.LlType.{LlType};
ghost use Rattle.ll_code.specs.declared.program.LlOp.{LlOp};
ghost use Rattle.ll_code.specs.declared.program.LlGraph.{LlGraph};
ghost use Rattle.ll_code.specs.declared.program.LlProgram.{LlProgram};
ghost use Rattle.ll_laws.specs.Fits.{CoreFits};
ghost use Rattle.ll_laws.specs.States.{StateFits};
ghost use Rattle.genc_lower.specs.Lower.{lowered, order_of, statement};
ghost use Rattle.genc_laws.specs.Same.{SameVars, SameMemory, SameAfter, stays};
ghost use Rattle.genc_laws.specs.Stands.{Stands};
ghost use Rattle.genc_laws.specs.Follows.{Follows};
ghost use Rattle.genc_laws.specs.Alike.{SameMeant, IsStuckAtLink, IsFunctionOf};

/// The file keeps every rule of C files.
#[tactic(auto, using(crate::proofs::Rules::lowered_is_checked))]
pub fn files_keep_the_rules()
    ensures { (p : LlProgram) → IsWellTyped p → p.stage ≡ stage.Counted → IsChecked (lowered p) }
{}

/// There is a function for each graph, and it has its name.
#[tactic(auto, using(crate::proofs::Whole::named, crate::proofs::Whole::as_many))]
pub fn functions_have_the_names_of_graphs()
    ensures names { (p : LlProgram) → IsWellTyped p → (g : ℕ) (graph : LlGraph) → slice_get p.graphs g ≡ Some graph → IsFunctionOf p g graph }
    ensures count { (p : LlProgram) → IsWellTyped p → length (lowered p).functions ≡ length p.graphs }
{}

/// The statement of an operation that stays in its block does what the operation does: it leads to
/// the same values and blocks, puts or tells the same, or is stuck for the same reason.
#[tactic(auto, using(crate::proofs::Operations::does_same))]
pub fn operations_do_the_same()
    ensures { (p : LlProgram) (types : List LlType) (all : ℕ) (core c_core : Core) → SameVars (order_of p) (length types) all core.vars c_core.vars → CoreFits p types core → SameMemory (order_of p) core c_core → p.entry ≤ length p.graphs - 1 → (args : List (List ℕ)) (o : LlOp) → stays o ≡ true → operation_ok p types o ≡ true → SameAfter (order_of p) (length types) all core c_core (does p args core o) (c_machine.does (lowered p) args c_core (statement (order_of p) o)) }
{}

/// A run of the program begins where its file begins.
#[tactic(auto, using(crate::proofs::Whole::start_stands))]
pub fn runs_begin_alike()
    ensures { (p : LlProgram) → IsWellTyped p → p.stage ≡ stage.Counted → (steps : ℕ) → Stands p (start p steps) (c_machine.start (lowered p) steps) }
{}

/// The machine of the file follows each step of the program's.
#[tactic(auto, using(crate::proofs::Steps::step_follows))]
pub fn steps_are_followed()
    ensures { (p : LlProgram) → IsWellTyped p → p.stage ≡ stage.Counted → (args : List (List ℕ)) (s : State) (c_core : Core) → Stands p s c_core → StateFits p s → Follows p args s c_core (step p args s) }
{}

/// The file means what the program means, unless the program is stuck at a link that passes what is
/// unset: each ending of the one is one of the other, and where the program runs on, so does the file.
pub fn files_mean_the_same()
    ensures forth { (p : LlProgram) → IsWellTyped p → p.stage ≡ stage.Counted → (args : List (List ℕ)) (steps : ℕ) (meant : l.Meant) → l.LMeans p args steps meant → ((c_meaning : c.Meant) × c.CMeans (lowered p) args steps c_meaning × SameMeant meant c_meaning) ⊎ IsStuckAtLink p args steps meant }
    ensures back { (p : LlProgram) → IsWellTyped p → p.stage ≡ stage.Counted → (args : List (List ℕ)) (steps : ℕ) (c_meaning : c.Meant) → c.CMeans (lowered p) args steps c_meaning → (meant : l.Meant) × l.LMeans p args steps meant × (SameMeant meant c_meaning ⊎ IsStuckAtLink p args steps meant) }
    ensures on { (p : LlProgram) → IsWellTyped p → p.stage ≡ stage.Counted → (args : List (List ℕ)) (steps : ℕ) → ((k : ℕ) → l.RunsOn k p args steps) → (k : ℕ) → c.RunsOn k (lowered p) args steps }
{}

/// The file of a program that is never stuck means exactly what the program means.
#[tactic(auto, using(crate::proofs::Whole::exactly_forth, crate::proofs::Whole::exactly_back, crate::proofs::Whole::goes_on_too))]
pub fn files_mean_exactly_the_same()
    ensures forth { (p : LlProgram) → IsWellTyped p → p.stage ≡ stage.Counted → l.NeverStuck p → (args : List (List ℕ)) (steps : ℕ) (meant : l.Meant) → l.LMeans p args steps meant → (c_meaning : c.Meant) × c.CMeans (lowered p) args steps c_meaning × SameMeant meant c_meaning }
    ensures back { (p : LlProgram) → IsWellTyped p → p.stage ≡ stage.Counted → l.NeverStuck p → (args : List (List ℕ)) (steps : ℕ) (c_meaning : c.Meant) → c.CMeans (lowered p) args steps c_meaning → (meant : l.Meant) × l.LMeans p args steps meant × SameMeant meant c_meaning }
    ensures on { (p : LlProgram) → IsWellTyped p → p.stage ≡ stage.Counted → l.NeverStuck p → (args : List (List ℕ)) (steps : ℕ) → ((k : ℕ) → c.RunsOn k (lowered p) args steps) → (k : ℕ) → l.RunsOn k p args steps }
{}
