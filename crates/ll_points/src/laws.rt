// Laws of pointers, over all programs whose exceptions are explicit.
ghost use Rattle.std.specs.Prelude.{ℕ, List, []};
ghost use Rattle.ll_code.specs.Machine.{step, start};
ghost use Rattle.ll_code.specs.Meaning.{run};
ghost use Rattle.ll_code.specs.State.{State};
ghost use Rattle.ll_code.specs.Typed.{IsWellTyped};
ghost use Rattle.ll_code.specs.declared.program.LlProgram.{LlProgram};
ghost use Rattle.ll_laws.specs.States.{StateFits};
ghost use Rattle.ll_points.specs.Agrees.{Slots, Agrees, slots_of};
ghost use Rattle.ll_points.specs.Points.{StateLeads, NextLeads, RanLeads};

/// A step of a well-typed program that raises and frees nothing leads from a state whose pointers lead
/// to their structs to one whose do.
#[tactic(auto, using(crate::proofs::Runs::one_step))]
pub fn steps_keep_pointers()
    ensures { (p : LlProgram) → IsWellTyped p → (slots : Slots) → Agrees slots p → (args : List (List ℕ)) (s : State) → StateFits p s → StateLeads p slots s → NextLeads p slots (step p args s) }
{}

/// In each state of a run of a well-typed program that raises and frees nothing and uses its exception
/// slots alike, a pointer leads to a block or a static that begins with the struct of its type: in
/// variables, in fields and items, in the slots, and in what is given to graphs and back.
#[tactic(auto, using(crate::proofs::Runs::whole_run_leads))]
pub fn pointers_lead_to_their_structs()
    ensures { (p : LlProgram) → IsWellTyped p → (slots : Slots) → Agrees slots p → (args : List (List ℕ)) (steps k : ℕ) → RanLeads p slots (run p args k (start p steps) [] []) }
{}

/// Where any slots agree with a program, those do that its first operation that sets them shows.
#[tactic(auto, using(crate::proofs::Found::slots_found))]
pub fn slots_are_found()
    ensures { (p : LlProgram) (slots : Slots) → Agrees slots p → Agrees (slots_of p) p }
{}
