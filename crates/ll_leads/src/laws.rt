// Laws of ways of the machine of low-level programs.
ghost use Rattle.std.specs.Prelude.{◌≡◌, ◌⊎◌, ℕ, length, List};
ghost use Rattle.ll_code.specs.State.{State, Frame, Goes, Puts, Tells};
ghost use Rattle.ll_code.specs.Machine.{step};
ghost use Rattle.ll_code.specs.declared.program.LlProgram.{LlProgram};
ghost use Rattle.ll_leads.specs.Bounded.{IsRaw, IsSound, CallsStaySmall};
ghost use Rattle.ll_leads.specs.Effect.{Effect, IsHeld, blocks_of};

/// A step of a sound state writes or makes no more than one block, and names nothing that was not held
/// before it but the block that it makes.
#[tactic(auto)]
pub fn steps_have_effects()
    ensures { (p : LlProgram) → IsRaw p → (args : List (List ℕ)) (s t : State) → IsSound p s → step p args s ≡ Goes t → Effect p s t }
{}

/// What is held after a step was held before it, or is the block that the step makes.
#[tactic(auto)]
pub fn effects_hold_no_more()
    ensures { (p : LlProgram) (s t : State) → Effect p s t → (b : ℕ) → IsHeld p t b → IsHeld p s b ⊎ (b ≡ length (blocks_of s)) }
{}

/// A call goes the same way whatever waits below it, and in each state on its way there stand no more
/// references than at the call, with those that are written on the way, and with three more than the
/// graphs that it leads to have variables.
#[tactic(auto)]
pub fn calls_stay_small()
    ensures { (p : LlProgram) → CallsStaySmall p }
{}
