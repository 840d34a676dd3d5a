// Laws of where the states of runs stand, over all programs.
ghost use Rattle.std.specs.Prelude.{◌≡◌, ℕ, List, [], ◌∷◌};
ghost use Rattle.csub_tree.specs.State.{Event};
ghost use Rattle.ll_code.specs.State.{State};
ghost use Rattle.ll_code.specs.Machine.{start};
ghost use Rattle.ll_code.specs.Meaning.{Unfinished, run};
ghost use Rattle.ll_code.specs.declared.program.LlProgram.{LlProgram};
ghost use Rattle.ll_held.specs.Places.{IsPlaced};

/// What is left to do in a state of a run is the rest of a block of the program, and each call that waits
/// stands right behind it in its block.
#[tactic(auto, using(crate::proofs::Placing::whole_run_placed))]
pub fn states_are_placed()
    ensures { (p : LlProgram) (args : List (List ℕ)) (steps k : ℕ) (s : State) (text : List ℕ) (events : List Event) → run p args k (start p steps) [] [] ≡ Unfinished s text events → IsPlaced p s }
{}
