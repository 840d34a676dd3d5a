// Laws of the machine, over all programs.
ghost use Rattle.std.specs.Prelude.{◌≡◌, ℕ, List, [], true};
ghost use Rattle.csub_tree.specs.State.{Value};
ghost use Rattle.csub_tree.specs.Layout.{constant};
ghost use Rattle.csub_tree.specs.Operation.{unary_of, binary_of};
ghost use Rattle.csub_tree.specs.Statement.{operand};
ghost use Rattle.csub_tree.specs.declared.tree.CConst.{CConst};
ghost use Rattle.csub_tree.specs.declared.tree.COperand.{COperand};
ghost use Rattle.csub_tree.specs.declared.tree.CUnary.{CUnary};
ghost use Rattle.csub_tree.specs.declared.tree.CBinary.{CBinary};
ghost use Rattle.ll_code.specs.declared.program.LlProgram.{LlProgram};
ghost use Rattle.ll_code.specs.declared.program.LlType.{LlType};
ghost use Rattle.ll_code.specs.declared.program.LlOp.{LlOp};
ghost use Rattle.ll_code.specs.Machine.{does};
ghost use Rattle.ll_code.specs.Typed.{IsWellTyped, is_of_any, takes, unary_gives, binary_gives, operation_ok, structs_ok};
ghost use Rattle.csub_tree.specs.State.{Core};
ghost use Rattle.ll_code.specs.State.{State};
ghost use Rattle.ll_code.specs.Machine.{step, start};
ghost use Rattle.ll_code.specs.Meaning.{run};
ghost use Rattle.ll_laws.specs.States.{StateFits, NextFits, RanFits};
ghost use Rattle.ll_laws.specs.Fits.{Fits, AnswerFits, AllFit, CoreFits, AfterFits};

/// What an operator gives is of its type, whatever it is given.
#[tactic(auto, using(crate::proofs::Values::unary_fits, crate::proofs::Values::binary_fits))]
pub fn operators_fit()
    ensures one { (p : LlProgram) (made : ℕ) (o : CUnary) (x : Value) → AnswerFits p made (unary_gives o) (unary_of o x) }
    ensures two { (p : LlProgram) (made : ℕ) (o : CBinary) (x y : Value) → AnswerFits p made (binary_gives o) (binary_of o x y) }
{}

/// A constant that a type takes is of the type.
#[tactic(auto, using(crate::proofs::Values::constant_fits))]
pub fn constants_fit()
    ensures { (p : LlProgram) (made : ℕ) (t : LlType) (c : CConst) → is_of_any p t c ≡ true → Fits p made t (constant c) }
{}

/// An operand that a type takes gives a value of the type, where the variables fit theirs.
#[tactic(auto, using(crate::proofs::Values::operand_fits))]
pub fn operands_fit()
    ensures { (p : LlProgram) (made : ℕ) (types : List LlType) (vars : List Value) → AllFit p made types vars → (t : LlType) (x : COperand) → takes p types t x ≡ true → Fits p made t (operand vars x) }
{}

/// An operation that keeps its rules and stays in its block leaves variables, cells and exception
/// slots with values of their types, and no pointer to a block that was never made.
#[tactic(auto, using(crate::proofs::Heap::operation_fits))]
pub fn operations_keep_types()
    ensures { (p : LlProgram) (types : List LlType) (core : Core) → CoreFits p types core → structs_ok p.structs 0 p.structs ≡ true → (args : List (List ℕ)) (o : LlOp) → operation_ok p types o ≡ true → AfterFits p types core (does p args core o) }
{}

/// A step of a well-typed program leads from a state that is well typed to one that is.
#[tactic(auto, using(crate::proofs::Steps::step_fits))]
pub fn steps_keep_types()
    ensures { (p : LlProgram) → IsWellTyped p → (args : List (List ℕ)) (s : State) → StateFits p s → NextFits p (step p args s) }
{}

/// Each state of a run of a well-typed program is well typed, whatever its arguments and its bound.
#[tactic(auto, using(crate::proofs::Runs::whole_run_fits))]
pub fn states_are_well_typed()
    ensures { (p : LlProgram) → IsWellTyped p → (args : List (List ℕ)) (steps k : ℕ) → RanFits p (run p args k (start p steps) [] []) }
{}
