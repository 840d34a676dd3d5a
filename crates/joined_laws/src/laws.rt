// What joining keeps, and what it asks of a program: without that the joined program means something else. Each law of
// the second kind has a program that is well typed.
ghost use Rattle.std.specs.Prelude.{◌≡◌, ℕ, List};
ghost use Rattle.ll_code.specs.declared.program.LlProgram.{LlProgram};
ghost use Rattle.ll_code.specs.Typed.{IsWellTyped};
ghost use Rattle.ll_code.specs.Meaning.{within};
ghost use Rattle.ll_held.specs.Quiet.{ReadsInputs};
ghost use Rattle.ll_joined.specs.Joined.{joined};
ghost use Rattle.joined_laws.specs.Asks.{Changes, reads_another, sets_a_parameter, takes_twice, passes_unset, returns, stuck};
ghost use Rattle.joined_laws.specs.Fewer.{fewer, HasNumbers};
ghost use Rattle.joined_laws.specs.Renamed.{RenamedDoTheSame, RenamedStand};
ghost use Rattle.joined_laws.specs.Straight.{straight};

/// The last pass of joining, by which variables that nothing names are left out and the others are numbered anew, keeps what
/// each well-typed program means, within as many steps of the machine, where words number the variables of each graph.
#[tactic(auto, using(crate::proofs::Runs::fewer_same))]
pub fn programs_with_fewer_variables_mean_the_same()
    ensures { (p : LlProgram) → IsWellTyped p → HasNumbers p → (args : List (List ℕ)) (steps k : ℕ) → within (fewer p) args steps k ≡ within p args steps k }
{}

/// That pass keeps the rules of programs.
#[tactic(auto, using(crate::proofs::Typing::fewer_well_typed))]
pub fn programs_with_fewer_variables_are_well_typed()
    ensures { (p : LlProgram) → IsWellTyped p → HasNumbers p → IsWellTyped (fewer p) }
{}

/// Where each block of a program reads its inputs alone, it does so after that pass.
#[tactic(auto, using(crate::proofs::Closed::fewer_closed))]
pub fn programs_with_fewer_variables_read_their_inputs()
    ensures { (p : LlProgram) → ReadsInputs p → ReadsInputs (fewer p) }
{}

/// An operation that finds what it read under other names, and the same memory, does the same, and sets its variable under the
/// other name.
#[tactic(auto, using(crate::proofs::Renaming::renamed_do_the_same))]
pub fn renamed_operations_do_the_same()
    ensures { RenamedDoTheSame }
{}

/// What is left of a block then finds what it reads as before, where the variable that was set has a name of its own.
#[tactic(auto, using(crate::proofs::Standing::renamed_stand))]
pub fn renamed_operations_keep_what_stands()
    ensures { RenamedStand }
{}

/// Joining is that pass over the program whose straight ways are single blocks without copies.
#[tactic(auto, using(crate::proofs::Straightened::joined_same))]
pub fn joining_ends_with_fewer_variables()
    ensures { (p : LlProgram) → joined p ≡ fewer (straight p) }
{}

/// Each block has to read its inputs alone, and what it sets itself. Where one reads what the link to an earlier block passed
/// on, joining takes that away: this program returns 5, and the joined one is stuck.
pub fn blocks_have_to_read_their_inputs()
    ensures { Changes reads_another (returns 5) stuck }
{}

/// So has the first block of a graph: what it reads of the parameters has to stand among its inputs. Where it passes one on
/// to a block that sets that parameter, this program returns 3, and the joined one 5.
pub fn parameters_have_to_be_inputs()
    ensures { Changes sets_a_parameter (returns 3) (returns 5) }
{}

/// No variable may be an input of a block twice, though each block reads its inputs alone: the last value counts, and in the
/// joined block the first. This program returns 6, and the joined one 5.
pub fn inputs_have_to_differ()
    ensures changes { Changes takes_twice (returns 6) (returns 5) }
    ensures closed { ReadsInputs takes_twice }
{}

/// A variable that is passed on has to be set: this program is stuck there, and the joined one returns 7.
pub fn variables_have_to_be_set()
    ensures { Changes passes_unset stuck (returns 7) }
{}
