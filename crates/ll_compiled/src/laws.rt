// Laws of the passes behind explicit exceptions in a row: counts, and the C file.
ghost use Rattle.std.specs.Prelude.{ℕ, List};
ghost use Rattle.csub_tree.specs.Checked.{IsChecked};
ghost use Rattle.ll_code.specs.declared.program.LlProgram.{LlProgram};
ghost use Rattle.refcount_ready.specs.Programs.{RunsSmall};
ghost use Rattle.ll_compiled.specs.Compiled.{compiled, CanBeCompiled, SameRuns};

/// The file of a program that can be compiled keeps every rule of C files.
#[tactic(auto, using(crate::proofs::Whole::keeps_rules))]
pub fn files_keep_the_rules()
    ensures { (p : LlProgram) → CanBeCompiled p → IsChecked (compiled p) }
{}

/// The file of a program that can be compiled means what the program means, for all arguments and every
/// number of steps with which the run is small and writes no reference into a static.
#[tactic(auto, using(crate::proofs::Whole::same_runs))]
pub fn files_mean_the_same()
    ensures { (p : LlProgram) → CanBeCompiled p → (args : List (List ℕ)) (steps : ℕ) → RunsSmall p args steps → SameRuns p (compiled p) args steps }
{}
