// Laws of what `count` gives, over all programs.
ghost use Rattle.std.specs.Prelude.{◌≡◌, ◌++◌, ℕ, length, map, slice_get};
ghost use Rattle.ll_code.specs.Typed.{IsWellTyped, base_of, items_of};
ghost use Rattle.ll_code.specs.declared.program.LlStage.TheVariants as stage;
ghost use Rattle.ll_code.specs.declared.program.LlProgram.{LlProgram};
ghost use Rattle.refcount_transform.specs.Plan.{plan_of};
ghost use Rattle.refcount_transform.specs.Counted.{counted};
ghost use Rattle.refcount_typed.specs.Heads.{head_of, made_heads};
ghost use Rattle.refcount_typed.specs.Leads.{LeadsToRoots};
ghost use Rattle.refcount_typed.specs.Numbered.{HasNumbers};

/// The graphs of a program come first, in order, with their names, their parameters and what they
/// give. Those that are made stand behind them, with the names that they have.
#[tactic(auto, using(crate::proofs::Heads::heads_kept))]
pub fn counted_programs_keep_names()
    ensures { (p : LlProgram) → map head_of (counted p).graphs ≡ map head_of p.graphs ++ made_heads (plan_of p) }
{}

/// As many structs and statics, each struct with its base and its items, each static of its struct.
#[tactic(auto, using(crate::proofs::Structs::structs_many, crate::proofs::Structs::base_same, crate::proofs::Structs::items_same))]
pub fn counted_programs_keep_structs()
    ensures many { (p : LlProgram) → length (counted p).structs ≡ length p.structs }
    ensures bases { (p : LlProgram) (n : ℕ) → base_of (slice_get (counted p).structs n) ≡ base_of (slice_get p.structs n) }
    ensures items { (p : LlProgram) (n : ℕ) → items_of (slice_get (counted p).structs n) ≡ items_of (slice_get p.structs n) }
{}

/// The counted program of a well-typed one is well typed, where references lead to root structs, and a
/// struct of which the items are references begins with their number.
#[tactic(auto, using(crate::proofs::Whole::counted_typed))]
pub fn counted_programs_are_well_typed()
    ensures { (p : LlProgram) → IsWellTyped p → p.stage ≡ stage.Explicit → LeadsToRoots p → HasNumbers p → IsWellTyped (counted p) }
{}
