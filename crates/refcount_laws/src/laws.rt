// Laws of the graphs that count references, over all programs that have them.
ghost use Rattle.std.specs.Prelude.{ℤ, ◌≡◌, ◌≢◌, ◌<◌, ℕ, suc, ◌+◌, true, List, ◌∷◌, [], Option, Some, None, slice_get, slice_set, length, map};
ghost use Rattle.csub_tree.specs.State.{Value, Word, Null, Ptr, Static, Block, Core, Event};
ghost use Rattle.csub_tree.specs.Layout.{shape_at, place, begins_with};
ghost use Rattle.csub_tree.specs.Statement.{operand, read, fun_of};
ghost use Rattle.ll_code.specs.Machine.{shapes_of, start, step};
ghost use Rattle.ll_code.specs.declared.program.LlStruct.{LlStruct};
ghost use Rattle.csub_tree.specs.declared.tree.COperand.{COperand};
ghost use Rattle.ll_code.specs.State.{Frame, State, At};
ghost use Rattle.ll_code.specs.Meaning.{Meant, LMeans, RunsOn, run, within, comes};
ghost use Rattle.csub_tree.specs.Meaning.{made_in};
ghost use Rattle.ll_held.specs.Quiet.{ReadsInputs};
ghost use Rattle.ll_held.specs.Held.{Held as IsHeld, Reaches};
ghost use Rattle.ll_held.specs.Roots.{core_of};
ghost use Rattle.refcount_laws.specs.Kept.{used_values};
ghost use Rattle.refcount_laws.specs.Whole.{BothReturning, Call, StandsFor, ReadyFor, NextStands};
ghost use Rattle.refcount_laws.specs.Run.{ReadyAlong, RunStands, wider};
ghost use Rattle.refcount_laws.specs.Means.{SameMeaning, Starts};
ghost use Rattle.ll_code.specs.Typed.{IsWellTyped, operation_ok, field_of, items_of};
ghost use Rattle.ll_code.specs.declared.program.LlType.{LlType};
ghost use Rattle.refcount_transform.specs.declared.plan.Held.{Held};
ghost use Rattle.refcount_transform.specs.Plan.{plan_of, is_counted, fields_of, referred, counts_at, references_before, field_number, field_referred, reference_given};
ghost use Rattle.refcount_transform.specs.Changes.{around_of, var_referred};
ghost use Rattle.refcount_transform.specs.Counted.{counted};
ghost use Rattle.ll_code.specs.declared.program.LlOp.{LlOp};
ghost use Rattle.ll_code.specs.declared.program.LlOp.TheVariants as op;
ghost use Rattle.ll_code.specs.declared.program.LlExit.{LlExit};
ghost use Rattle.ll_code.specs.declared.program.LlProgram.{LlProgram};
ghost use Rattle.refcount_laws.specs.Graphs.{Reference, Counts, Counting, StandsWith, IsRoot, IsField, put_types, put_block};
ghost use Rattle.refcount_laws.specs.Ghost.{Ghost, S, slot_at, count, hit, memory, LeadsTo, HasRoom, IsCounted, OnceIn, written};
ghost use Rattle.refcount_laws.specs.Made.{counts_of, reference_of, leads_to_roots};
ghost use Rattle.refcount_laws.specs.Runs.{here};
ghost use Rattle.refcount_laws.specs.Before.{Before, IsFollowed, NoBlocksIn};
ghost use Rattle.refcount_laws.specs.Ready.{Ready};
ghost use Rattle.refcount_laws.specs.Calls.{OperandsPoint, CallFollows};
ghost use Rattle.refcount_laws.specs.Owned.{Roomy};
ghost use Rattle.refcount_laws.specs.Slots.{slot_hits, SlotLeads};
ghost use Rattle.refcount_laws.specs.Touched.{block_in, Shown, Done};

/// The counted program of a well-typed one, whose references lead to root structs, has for each struct
/// that is counted the graph that releases a block, for each field that is a reference the graph that
/// writes it, and for each root those that count a reference and drop one; and each struct begins with
/// the count and the graph that releases it.
#[tactic(auto, using(crate::proofs::Places::counted_counting, crate::proofs::Putting::counted_puts))]
pub fn counted_programs_have_their_graphs()
    ensures all { (p : LlProgram) → IsWellTyped p → leads_to_roots p ≡ true → Counting (counted p) (counts_of (plan_of p)) }
    ensures puts { (p : LlProgram) → IsWellTyped p → (n : ℕ) → is_counted (plan_of p) n ≡ true → (k : ℕ) (t : LlType) (m : ℕ) → slice_get (fields_of (plan_of p) n) k ≡ Some t → referred (plan_of p) t ≡ Some m → StandsWith (counted p) ((counts_at (plan_of p) n).puts + references_before (plan_of p).counted k (fields_of (plan_of p) n)) (0 ∷ 1 ∷ []) (put_types (counts_of (plan_of p)) (reference_of (plan_of p) (record { owner = n; number = field_number (plan_of p) n k; to = m }))) (put_block (counts_of (plan_of p)) (reference_of (plan_of p) (record { owner = n; number = field_number (plan_of p) n k; to = m })) ∷ []) }
{}

/// Where the counts are right and a reference is owned besides `own`, the graph that drops it leads
/// back to where it was called, with each block freed that no reference leads to any more, the others
/// as they were, and counts that are right for `own`.
#[tactic(auto, using(crate::proofs::Doing::down_done))]
pub fn dropped_references_release()
    ensures { (q : LlProgram) (args : List (List ℕ)) (c : Counts) → Counting q c → (g : Ghost) (h : List (Option Block)) (own : Value → ℕ) (to : ℕ) (v : Value) (core : Core) (f b : ℕ) (ex : LlExit) (frames : List Frame) (x : COperand) (at : ℕ) (ops : List LlOp) (vars : List Value) → Shown c h g.blocks → IsRoot c to → LeadsTo q g to v → IsCounted q c g (λ r. hit r v + own r) → operand vars x ≡ v → Done q args c g own (At (op.Call None (c.down to) (x ∷ []) ∷ ops) ex frames (here core f b at vars h (memory g))) (λ h2 s2. At ops ex frames (here core f b (at + 1) vars h2 s2)) }
{}

/// The graph that counts a reference leads back with one count that is one more, where it has room.
#[tactic(auto, using(crate::proofs::Doing::up_done))]
pub fn references_are_counted()
    ensures { (q : LlProgram) (args : List (List ℕ)) (c : Counts) → Counting q c → (g : Ghost) (h : List (Option Block)) (own : Value → ℕ) (to : ℕ) (v : Value) (core : Core) (f b : ℕ) (ex : LlExit) (frames : List Frame) (x : COperand) (at : ℕ) (ops : List LlOp) (vars : List Value) → Shown c h g.blocks → IsRoot c to → LeadsTo q g to v → HasRoom g v → IsCounted q c g own → operand vars x ≡ v → Done q args c g (λ r. hit r v + own r) (At (op.Call None (c.up to) (x ∷ []) ∷ ops) ex frames (here core f b at vars h (memory g))) (λ h2 s2. At ops ex frames (here core f b (at + 1) vars h2 s2)) }
{}

/// The graph that writes a field which is a reference counts the new value, drops the old one, and
/// leads back with counts that are right for what was owned.
#[tactic(auto, using(crate::proofs::Writing::put_done))]
pub fn references_are_written()
    ensures { (q : LlProgram) (args : List (List ℕ)) (c : Counts) → Counting q c → (r : Reference) (put : ℕ) → StandsWith q put (0 ∷ 1 ∷ []) (put_types c r) (put_block c r ∷ []) → (g : Ghost) (h : List (Option Block)) (own : Value → ℕ) (a n kind : ℕ) (fields items : List Value) → slot_at g.blocks a ≡ S (suc n) kind fields items → IsField q c kind r → OnceIn r (c.held kind) → ((m : ℕ) → c.items kind ≡ Some m → c.number_at kind ≢ r.at) → (w : Value) → Shown c h g.blocks → IsCounted q c g own → 0 < own (Ptr a) → LeadsTo q g r.to w → HasRoom g w → (core : Core) (f b : ℕ) (ex : LlExit) (frames : List Frame) (x y : COperand) (at : ℕ) (ops : List LlOp) (vars : List Value) → operand vars x ≡ Ptr a → operand vars y ≡ w → Done q args c (written g a (S (suc n) kind (slice_set fields r.at w) items)) own (At (op.Call None put (x ∷ y ∷ []) ∷ ops) ex frames (here core f b at vars h (memory g))) (λ h2 s2. At ops ex frames (here core f b (at + 1) vars h2 s2)) }
{}

/// An operation that stays in its block, where it is ready, is followed in the counted program: the
/// same output, ending and steps; the same block made, with two cells more; memory that is that of the
/// program but for the counts; and counts that are right for what is live then, and for what is owned
/// besides.
pub fn operations_are_followed()
    ensures { (p : LlProgram) → IsWellTyped p → leads_to_roots p ≡ true → (args : List (List ℕ)) (types : List LlType) (own : Value → ℕ) (ops rest : List LlOp) (e ex : LlExit) (frames : List Frame) (b at : ℕ) (core qcore : Core) (g : Ghost) (h : List (Option Block)) → NoBlocksIn core.statics → (o : LlOp) → operation_ok p types o ≡ true → Ready p types own core o → Before p types own o ops e core qcore g h → IsFollowed p args types own o ops rest e ex frames b at core qcore g h }
{}

/// A call is followed up to where its graph is called: who is called owns each operand that is a
/// reference, and who waits what the call reads and what is live behind it.
pub fn calls_are_followed()
    ensures graph { (p : LlProgram) → IsWellTyped p → leads_to_roots p ≡ true → (args : List (List ℕ)) (types : List LlType) (own : Value → ℕ) (ops rest : List LlOp) (e ex : LlExit) (frames waits : List Frame) (b at : ℕ) (core qcore : Core) (g : Ghost) (h : List (Option Block)) (into : Option ℕ) (f : ℕ) (xs : List COperand) → OperandsPoint p types core xs → Roomy g (length xs) → Before p types own (op.Call into f xs) ops e core qcore g h → CallFollows p args types own (op.Call into f xs) f xs into ops rest e ex frames waits b at core qcore g h }
    ensures value { (p : LlProgram) → IsWellTyped p → leads_to_roots p ≡ true → (args : List (List ℕ)) (types : List LlType) (own : Value → ℕ) (ops rest : List LlOp) (e ex : LlExit) (frames waits : List Frame) (b at : ℕ) (core qcore : Core) (g : Ghost) (h : List (Option Block)) (into : Option ℕ) (result : LlType) (params : List LlType) (v f : ℕ) (xs : List COperand) → OperandsPoint p types core xs → Roomy g (length xs) → fun_of (read core.vars v) ≡ Some f → Before p types own (op.CallFn into result params v xs) ops e core qcore g h → CallFollows p args types own (op.CallFn into result params v xs) f xs into ops rest e ex frames waits b at core qcore g h }
{}

/// The operations that set and clear the exception slots are followed: what the slots held is dropped,
/// and what they hold then is owned.
pub fn slots_are_followed()
    ensures clear { (p : LlProgram) → IsWellTyped p → leads_to_roots p ≡ true → (args : List (List ℕ)) (types : List LlType) (own : Value → ℕ) (ops rest : List LlOp) (e ex : LlExit) (frames : List Frame) (b at : ℕ) (core qcore : Core) (g : Ghost) (h : List (Option Block)) → SlotLeads p core (plan_of p).slots.kind core.exc_type → SlotLeads p core (plan_of p).slots.value core.exc_value → Before p types (λ r. slot_hits (plan_of p) core.exc_type core.exc_value r + own r) op.ExcClear ops e core qcore g h → IsFollowed p args types own op.ExcClear ops rest e ex frames b at core qcore g h }
    ensures set { (p : LlProgram) → IsWellTyped p → leads_to_roots p ≡ true → (args : List (List ℕ)) (types : List LlType) (own : Value → ℕ) (ops rest : List LlOp) (e ex : LlExit) (frames : List Frame) (b at : ℕ) (core qcore : Core) (g : Ghost) (h : List (Option Block)) (x y : ℕ) → var_referred (around_of (plan_of p) types) x ≡ (plan_of p).slots.kind → var_referred (around_of (plan_of p) types) y ≡ (plan_of p).slots.value → SlotLeads p core (plan_of p).slots.kind core.exc_type → SlotLeads p core (plan_of p).slots.value core.exc_value → Roomy g 2 → Before p types (λ r. slot_hits (plan_of p) core.exc_type core.exc_value r + own r) (op.ExcSet x y) ops e core qcore g h → IsFollowed p args types (λ r. slot_hits (plan_of p) (read core.vars x) (read core.vars y) r + own r) (op.ExcSet x y) ops rest e ex frames b at core qcore g h }
{}

/// A step of a program is followed in the counted one, where the one state stands for the other and is
/// ready: operations, calls, graphs that are entered, returns, exits and endings. The counted program
/// comes, some steps on, to a state that stands for the next one, with the same output, the same block
/// made with two cells more, and counts that are right for what is owned then.
pub fn steps_are_followed()
    ensures { (p : LlProgram) → IsWellTyped p → leads_to_roots p ≡ true → ReadsInputs p → (args : List (List ℕ)) (calls : List Call) (others : List Frame) (s t : State) (g : Ghost) (h : List (Option Block)) → StandsFor p calls others s t g h → ReadyFor p calls s g → NextStands p args t (step p args s) }
{}

/// So is a run, for as many steps as each state is ready: the counted program comes to the same ending,
/// with the same output and steps left, or to a state that stands for the one that the program comes
/// to; the same blocks are made.
pub fn runs_are_followed()
    ensures { (p : LlProgram) → IsWellTyped p → leads_to_roots p ≡ true → ReadsInputs p → (args : List (List ℕ)) (k : ℕ) (calls : List Call) (others : List Frame) (s t : State) (g : Ghost) (h : List (Option Block)) (text : List ℕ) (events told : List Event) → StandsFor p calls others s t g h → ReadyAlong p args k s → made_in events ≡ map wider (made_in told) → RunStands p args k t text events (run p args k s text told) }
{}

/// A counted program means what its program does, for arguments and a number of steps with which each
/// state of the run is ready and the run ends: it ends the same way, with the same output and steps
/// paid, and makes the same blocks, each two cells larger; with no bound on the steps of the machine
/// does it end otherwise, so it is not stuck there. Where each state of the run is ready, the counted
/// program ends only where the program does, and runs on where that runs on. Where it starts, counts are
/// right: each static that is counted has a count of one, and there are no blocks.
pub fn counted_programs_mean_the_same()
    ensures starts { (p : LlProgram) → IsWellTyped p → (steps : ℕ) → Starts p steps }
    ensures means { (p : LlProgram) → IsWellTyped p → leads_to_roots p ≡ true → ReadsInputs p → (args : List (List ℕ)) (steps k : ℕ) (m : Meant) → ReadyAlong p args k (start p steps) → within p args steps k ≡ Some m → comes m.ending → SameMeaning p args steps m }
    ensures back { (p : LlProgram) → IsWellTyped p → leads_to_roots p ≡ true → ReadsInputs p → (args : List (List ℕ)) (steps : ℕ) → ((k : ℕ) → ReadyAlong p args k (start p steps)) → ((m : Meant) → LMeans p args steps m → comes m.ending) → (last : Meant) → LMeans (counted p) args steps last → (m : Meant) × LMeans p args steps m × SameMeaning p args steps m }
    ensures on { (p : LlProgram) → IsWellTyped p → leads_to_roots p ≡ true → ReadsInputs p → (args : List (List ℕ)) (steps : ℕ) → ((k : ℕ) → ReadyAlong p args k (start p steps)) → ((k : ℕ) → RunsOn k p args steps) → (k : ℕ) → RunsOn k (counted p) args steps }
{}

/// Each block that is there in a state of the counted program which stands for one of the program is
/// held there: it is reached from a value that is still used, or from a cycle.
pub fn what_is_there_is_held()
    ensures { (p : LlProgram) (calls : List Call) (others : List Frame) (s t : State) (g : Ghost) (h : List (Option Block)) → StandsFor p calls others s t g h → (b : ℕ) → 0 < count g.blocks b → IsHeld (core_of s).blocks (used_values calls s) b }
{}

/// Where a program returns a word out of its first graph, its exception slots are clear and no block
/// lies on a cycle, no block is there any more in the counted program.
pub fn nothing_is_left()
    ensures { (p : LlProgram) (value : Value) (core : Core) (s : State) (g : Ghost) (h : List (Option Block)) → BothReturning p [] [] value [] core s g h → (z : ℤ) → value ≡ Word z → core.exc_type ≡ Null → core.exc_value ≡ Null → ((b : ℕ) → Reaches core.blocks b b → ⊥) → (b : ℕ) → block_in h b ≡ None }
{}
