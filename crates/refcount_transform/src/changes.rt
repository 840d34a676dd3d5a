// The operations of a block with their changes of counts.
ghost use Rattle.std.specs.Prelude.{◌≡◌, ◌∷◌, [], ◌++◌, None, IfOk, OnOk};
ghost use Rattle.refcount_transform.specs.Changes as c;
ghost use Rattle.refcount_transform.specs.Made as made;
ghost use Rattle.refcount_transform.specs.Seen.{the_plan, the_graph};

use crate::copies::{copy_operands, copy_types};
use crate::plan::{
    Held, Plan, add, counts_at, field_number, field_referred, held_of, is_counted, items_referred,
    put_of, reference_given, referred, root_of, shifted,
};
use crate::slots::{Slots, own_some};
use csub_tree::{CConst, COperand};
use ll_code::{LlExit, LlOp, LlType, VarId};
use ll_live::{among, among_operands, is_live, push_reads, set_by};
use rpy_base::{NoMem, Seq};
use std::alloc::Global;

/// The plan, and the types of the variables of a graph.
#[derive(Clone, Copy)]
pub struct Around<'a> {
    pub plan: Plan<'a>,
    pub types: &'a [LlType],
}

fn var_referred(around: Around<'_>, v: VarId) -> Option<u64>
    ensures { result ≡ c.var_referred (the_graph around.entry) v }
{
    match around.types.get(v as usize) {
        None => None,
        Some(kind) => reference_given(around.plan.counted, Some(*kind)),
    }
}

// What an operand refers to. NULL refers to nothing.
fn operand_referred(around: Around<'_>, x: COperand) -> Option<u64>
    ensures { result ≡ c.operand_referred (the_graph around.entry) x }
{
    match x {
        COperand::Var(v) => var_referred(around, v),
        COperand::Const(CConst::Static(n, _)) => referred(around.plan, LlType::Ptr(n)),
        COperand::Const(_) => None,
    }
}

fn push_call(alloc: Global, graph: u64, xs: &[COperand], into: &mut Seq<LlOp>) -> Result<(), NoMem>
    ensures { OnOk result (into.new ≡ into.old ++ made.call graph xs.now ∷ []) }
{
    into.push(LlOp::Call(None, graph, copy_operands(alloc, xs)?))
}

/// One more reference, where the operand is one.
pub fn push_up(
    alloc: Global,
    around: Around<'_>,
    x: COperand,
    into: &mut Seq<LlOp>,
) -> Result<(), NoMem>
    ensures { OnOk result (into.new ≡ into.old ++ c.up (the_graph around.entry) x []) }
{
    match operand_referred(around, x) {
        None => Ok(()),
        Some(n) => push_call(alloc, counts_at(around.plan, n).up, &[x], into),
    }
}

/// One reference less, where the variable is one.
pub fn push_down(
    alloc: Global,
    around: Around<'_>,
    v: VarId,
    into: &mut Seq<LlOp>,
) -> Result<(), NoMem>
    ensures { OnOk result (into.new ≡ into.old ++ c.down (the_graph around.entry) v []) }
{
    match var_referred(around, v) {
        None => Ok(()),
        Some(n) => push_call(
            alloc,
            counts_at(around.plan, n).down,
            &[COperand::Var(v)],
            into,
        ),
    }
}

#[tactic(auto, using(crate::proofs::Emitted::up_first))]
fn push_ups(
    alloc: Global,
    around: Around<'_>,
    xs: &[COperand],
    into: &mut Seq<LlOp>,
) -> Result<(), NoMem>
    ensures { OnOk result (into.new ≡ into.old ++ c.ups (the_graph around.entry) xs.now []) }
{
    for x in xs {
        push_up(alloc, around, *x, into)?;
    }
    Ok(())
}

// ---- new blocks

// The fields that are references are NULL.
fn push_nulls(v: VarId, held: &[Held], into: &mut Seq<LlOp>) -> Result<(), NoMem>
    ensures { OnOk result (into.new ≡ into.old ++ c.nulls v held.now []) }
{
    for field in held {
        let null = COperand::Const(CConst::Null);
        into.push(LlOp::SetField(field.owner, v, field.number, null))?;
    }
    Ok(())
}

// A new block has one reference, is released by the graph of its struct, and refers to nothing.
fn push_header(
    alloc: Global,
    plan: Plan<'_>,
    v: VarId,
    n: u64,
    into: &mut Seq<LlOp>,
) -> Result<(), NoMem>
    ensures { OnOk result (into.new ≡ into.old ++ c.header (the_plan plan.entry) v n []) }
{
    if !is_counted(plan, n) {
        return Ok(());
    }
    let first = root_of(plan, n);
    let release = CConst::Fun(counts_at(plan, n).release);
    into.push(LlOp::SetField(first, v, 0, COperand::Const(CConst::Word(1))))?;
    into.push(LlOp::SetField(first, v, 1, COperand::Const(release)))?;
    let held = held_of(alloc, plan, n)?;
    push_nulls(v, held.as_slice(), into)
}

// Where the items are references, their number stands in its field, as their release reads it, and they are
// NULL.
fn push_cleared(
    alloc: Global,
    plan: Plan<'_>,
    v: VarId,
    n: u64,
    count: COperand,
    into: &mut Seq<LlOp>,
) -> Result<(), NoMem>
    ensures { OnOk result (into.new ≡ into.old ++ c.cleared (the_plan plan.entry) v n count []) }
{
    match items_referred(plan, n) {
        None => Ok(()),
        Some(_) => {
            let number = field_number(plan, n, 0)?;
            into.push(LlOp::SetField(n, v, number, count))?;
            let clear = add(counts_at(plan, n).items, 1)?;
            push_call(alloc, clear, &[COperand::Var(v), count], into)
        }
    }
}

// ---- operations

fn set_field(
    alloc: Global,
    plan: Plan<'_>,
    n: u64,
    b: VarId,
    k: u64,
    x: COperand,
) -> Result<LlOp, NoMem>
    ensures { IfOk result (λ op. op ≡ c.set_field (the_plan plan.entry) n b k x) }
{
    match field_referred(plan, n, k) {
        None => Ok(LlOp::SetField(n, b, shifted(plan, n, k)?, x)),
        Some(_) => {
            let xs = copy_operands(alloc, &[COperand::Var(b), x])?;
            Ok(LlOp::Call(None, put_of(plan, n, k)?, xs))
        }
    }
}

fn set_item(
    alloc: Global,
    plan: Plan<'_>,
    n: u64,
    b: VarId,
    i: COperand,
    x: COperand,
) -> Result<LlOp, NoMem>
    ensures { IfOk result (λ op. op ≡ c.set_item (the_plan plan.entry) n b i x) }
{
    match items_referred(plan, n) {
        None => Ok(LlOp::SetItem(n, b, i, x)),
        Some(_) => {
            let xs = copy_operands(alloc, &[COperand::Var(b), i, x])?;
            Ok(LlOp::Call(None, counts_at(plan, n).items, xs))
        }
    }
}

// What is read out of a block is one reference more.
fn push_taken(
    alloc: Global,
    around: Around<'_>,
    a: VarId,
    op: LlOp,
    into: &mut Seq<LlOp>,
) -> Result<(), NoMem>
    ensures { OnOk result (into.new ≡ into.old ++ op ∷ c.up (the_graph around.entry) (COperand.Var a) []) }
{
    into.push(op)?;
    push_up(alloc, around, COperand::Var(a), into)
}

#[tactic(auto, using(crate::proofs::Emitted::up_first))]
fn push_assigned(
    alloc: Global,
    around: Around<'_>,
    a: VarId,
    x: COperand,
    into: &mut Seq<LlOp>,
) -> Result<(), NoMem>
    ensures { OnOk result (into.new ≡ into.old ++ c.changed (the_graph around.entry) (LlOp.Set a x) []) }
{
    push_up(alloc, around, x, into)?;
    into.push(LlOp::Set(a, x))
}

// A call is given references of its own.
fn push_call_with(
    alloc: Global,
    around: Around<'_>,
    xs: &[COperand],
    call: LlOp,
    into: &mut Seq<LlOp>,
) -> Result<(), NoMem>
    ensures { OnOk result (into.new ≡ into.old ++ c.ups (the_graph around.entry) xs.now (call ∷ [])) }
{
    push_ups(alloc, around, xs, into)?;
    into.push(call)?;
    Ok(())
}

fn push_call_of(
    alloc: Global,
    around: Around<'_>,
    to: Option<VarId>,
    graph: u64,
    xs: &[COperand],
    into: &mut Seq<LlOp>,
) -> Result<(), NoMem>
    ensures { OnOk result (into.new ≡ into.old ++ c.ups (the_graph around.entry) xs.now (LlOp.Call to graph xs.now ∷ [])) }
{
    let call = LlOp::Call(to, graph, copy_operands(alloc, xs)?);
    push_call_with(alloc, around, xs, call, into)
}

fn push_call_fn(
    alloc: Global,
    around: Around<'_>,
    to: Option<VarId>,
    gives: LlType,
    params: &[LlType],
    b: VarId,
    xs: &[COperand],
    into: &mut Seq<LlOp>,
) -> Result<(), NoMem>
    ensures { OnOk result (into.new ≡ into.old ++ c.ups (the_graph around.entry) xs.now (LlOp.CallFn to gives params.now b xs.now ∷ [])) }
{
    let params = copy_types(alloc, params)?;
    let call = LlOp::CallFn(to, gives, params, b, copy_operands(alloc, xs)?);
    push_call_with(alloc, around, xs, call, into)
}

fn push_new(
    alloc: Global,
    around: Around<'_>,
    a: VarId,
    m: u64,
    n: u64,
    into: &mut Seq<LlOp>,
) -> Result<(), NoMem>
    ensures { OnOk result (into.new ≡ into.old ++ c.changed (the_graph around.entry) (LlOp.New a m n) []) }
{
    into.push(LlOp::New(a, m, n))?;
    push_header(alloc, around.plan, a, n, into)
}

fn push_array_header(
    alloc: Global,
    plan: Plan<'_>,
    a: VarId,
    n: u64,
    x: COperand,
    into: &mut Seq<LlOp>,
) -> Result<(), NoMem>
    ensures { OnOk result (into.new ≡ into.old ++ c.header (the_plan plan.entry) a n (c.cleared (the_plan plan.entry) a n x [])) }
{
    push_header(alloc, plan, a, n, into)?;
    push_cleared(alloc, plan, a, n, x, into)?;
    Ok(())
}

fn push_new_array(
    alloc: Global,
    around: Around<'_>,
    a: VarId,
    m: u64,
    n: u64,
    x: COperand,
    into: &mut Seq<LlOp>,
) -> Result<(), NoMem>
    ensures { OnOk result (into.new ≡ into.old ++ c.changed (the_graph around.entry) (LlOp.NewArray a m n x) []) }
{
    into.push(LlOp::NewArray(a, m, n, x))?;
    push_array_header(alloc, around.plan, a, n, x, into)
}

// ---- exception slots

// What the slots hold is dropped.
fn exc_clear(alloc: Global, slots: Slots) -> LlOp
    ensures { result ≡ c.exc_clear slots }
{
    if own_some(slots) {
        LlOp::Call(None, slots.clear, Seq::new(alloc))
    } else {
        LlOp::ExcClear
    }
}

fn push_emptied(alloc: Global, slots: Slots, into: &mut Seq<LlOp>) -> Result<(), NoMem>
    ensures { OnOk result (into.new ≡ into.old ++ c.emptied slots []) }
{
    if own_some(slots) {
        into.push(LlOp::Call(None, slots.clear, Seq::new(alloc)))?;
    }
    Ok(())
}

// The slots take a reference each, and drop those that they held.
#[tactic(auto, using(crate::proofs::Emitted::up_first, crate::proofs::Emitted::emptied_first))]
fn push_exc_set(
    alloc: Global,
    around: Around<'_>,
    a: VarId,
    b: VarId,
    into: &mut Seq<LlOp>,
) -> Result<(), NoMem>
    ensures { OnOk result (into.new ≡ into.old ++ c.changed (the_graph around.entry) (LlOp.ExcSet a b) []) }
{
    push_up(alloc, around, COperand::Var(a), into)?;
    push_up(alloc, around, COperand::Var(b), into)?;
    push_emptied(alloc, around.plan.slots, into)?;
    into.push(LlOp::ExcSet(a, b))
}

// ---- all operations

// An operation that changes no count; the others push nothing.
fn push_plain(op: &LlOp, into: &mut Seq<LlOp>) -> Result<(), NoMem>
    ensures { OnOk result (into.new ≡ into.old ++ c.plain op.now) }
{
    match op {
        LlOp::Unary(a, o, x) => into.push(LlOp::Unary(*a, *o, *x)),
        LlOp::Binary(a, o, x, y) => into.push(LlOp::Binary(*a, *o, *x, *y)),
        LlOp::Free(a) => into.push(LlOp::Free(*a)),
        LlOp::Step(x) => into.push(LlOp::Step(*x)),
        LlOp::Argc(a) => into.push(LlOp::Argc(*a)),
        LlOp::ArgLen(a, x) => into.push(LlOp::ArgLen(*a, *x)),
        LlOp::Arg(a, x, y) => into.push(LlOp::Arg(*a, *x, *y)),
        LlOp::Put(x) => into.push(LlOp::Put(*x)),
        LlOp::Raise(a) => into.push(LlOp::Raise(*a)),
        _ => Ok(()),
    }
}

// What an operation becomes.
fn push_changed(
    alloc: Global,
    around: Around<'_>,
    op: &LlOp,
    into: &mut Seq<LlOp>,
) -> Result<(), NoMem>
    ensures { OnOk result (into.new ≡ into.old ++ c.changed (the_graph around.entry) op.now []) }
{
    let plan = around.plan;
    match op {
        LlOp::Set(a, x) => push_assigned(alloc, around, *a, *x, into),
        LlOp::GetField(a, n, b, k) => {
            let op = LlOp::GetField(*a, *n, *b, shifted(plan, *n, *k)?);
            push_taken(alloc, around, *a, op, into)
        }
        LlOp::GetItem(a, n, b, i) => {
            push_taken(alloc, around, *a, LlOp::GetItem(*a, *n, *b, *i), into)
        }
        LlOp::SetField(n, b, k, x) => into.push(set_field(alloc, plan, *n, *b, *k, *x)?),
        LlOp::SetItem(n, b, i, x) => into.push(set_item(alloc, plan, *n, *b, *i, *x)?),
        LlOp::New(a, m, n) => push_new(alloc, around, *a, *m, *n, into),
        LlOp::NewArray(a, m, n, x) => push_new_array(alloc, around, *a, *m, *n, *x, into),
        LlOp::Call(to, graph, xs) => {
            push_call_of(alloc, around, *to, *graph, xs.as_slice(), into)
        }
        LlOp::CallFn(to, gives, params, b, xs) => {
            let (params, xs) = (params.as_slice(), xs.as_slice());
            push_call_fn(alloc, around, *to, *gives, params, *b, xs, into)
        }
        LlOp::ExcType(a, n) => push_taken(alloc, around, *a, LlOp::ExcType(*a, *n), into),
        LlOp::ExcValue(a, n) => push_taken(alloc, around, *a, LlOp::ExcValue(*a, *n), into),
        LlOp::ExcSet(a, b) => push_exc_set(alloc, around, *a, *b, into),
        LlOp::ExcClear => into.push(exc_clear(alloc, plan.slots)),
        _ => push_plain(op, into),
    }
}

// ---- what is dropped

/// Drops each of these variables once that is not live in the rest of the block.
#[tactic(auto, using(crate::proofs::Emitted::down_first))]
pub fn push_dead(
    alloc: Global,
    around: Around<'_>,
    variables: &[VarId],
    ops: &[LlOp],
    exit: &LlExit,
    into: &mut Seq<LlOp>,
) -> Result<(), NoMem>
    ensures { OnOk result (into.new ≡ into.old ++ c.dead (the_graph around.entry) variables.now ops.now exit.now []) }
{
    let mut rest = variables;
    while let [v, others @ ..] = rest {
        if !among(*v, others) && !is_live(*v, ops, exit) {
            push_down(alloc, around, *v, into)?;
        }
        rest = others;
    }
    Ok(())
}

// The variables that an operation reads, and the one that it sets.
fn touched(alloc: Global, op: &LlOp) -> Result<Seq<VarId>, NoMem>
    ensures { IfOk result (λ variables. variables ≡ c.touched op.now) }
{
    let mut variables = Seq::new(alloc);
    push_reads(op, &mut variables)?;
    if let Some(a) = set_by(op) {
        variables.push(a)?;
    }
    Ok(variables)
}

// One operation, and the rest of its block.
fn push_op(
    alloc: Global,
    around: Around<'_>,
    op: &LlOp,
    rest: &[LlOp],
    exit: &LlExit,
    into: &mut Seq<LlOp>,
) -> Result<(), NoMem>
    ensures { OnOk result (into.new ++ c.ops_of (the_graph around.entry) rest.now exit.now ≡ into.old ++ c.ops_of (the_graph around.entry) (op.now ∷ rest.now) exit.now) }
{
    push_changed(alloc, around, op, into)?;
    let variables = touched(alloc, op)?;
    push_dead(alloc, around, variables.as_slice(), rest, exit, into)?;
    Ok(())
}

// ---- what an exit gives on

fn is_given_later(x: COperand, others: &[COperand]) -> bool
    ensures { result ≡ c.is_given_later x others.now }
{
    match x {
        COperand::Var(v) => among_operands(v, others),
        COperand::Const(_) => true,
    }
}

/// One more reference for each operand but the last occurrence of a variable.
#[tactic(auto, using(crate::proofs::Emitted::up_first))]
pub fn push_given(
    alloc: Global,
    around: Around<'_>,
    xs: &[COperand],
    into: &mut Seq<LlOp>,
) -> Result<(), NoMem>
    ensures { OnOk result (into.new ≡ into.old ++ c.given (the_graph around.entry) xs.now []) }
{
    let mut rest = xs;
    while let [x, others @ ..] = rest {
        if is_given_later(*x, others) {
            push_up(alloc, around, *x, into)?;
        }
        rest = others;
    }
    Ok(())
}

// Before an exit that is no test.
fn push_leaving(
    alloc: Global,
    around: Around<'_>,
    exit: &LlExit,
    into: &mut Seq<LlOp>,
) -> Result<(), NoMem>
    ensures { OnOk result (into.new ≡ into.old ++ c.leaving (the_graph around.entry) exit.now) }
{
    match exit {
        LlExit::Goto(link) | LlExit::OnRaise(_, _, link) => {
            push_given(alloc, around, link.args.as_slice(), into)
        }
        LlExit::Return(Some(x)) => push_given(alloc, around, &[*x], into),
        _ => Ok(()),
    }
}

/// The operations of a block.
pub fn push_ops(
    alloc: Global,
    around: Around<'_>,
    ops: &[LlOp],
    exit: &LlExit,
    into: &mut Seq<LlOp>,
) -> Result<(), NoMem>
    ensures { OnOk result (into.new ≡ into.old ++ c.ops_of (the_graph around.entry) ops.now exit.now) }
{
    let mut rest = ops;
    while let [op, others @ ..] = rest {
        push_op(alloc, around, op, others, exit, into)?;
        rest = others;
    }
    push_leaving(alloc, around, exit, into)
}
