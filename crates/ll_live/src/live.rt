// What operations and exits read and set, one occurrence after the other, and what is live in the rest of a block.
ghost use Rattle.std.specs.Prelude.{◌≡◌, [], ◌∷◌, ◌++◌, OnOk};
ghost use Rattle.ll_live.specs.Live as spec;

use csub_tree::COperand;
use ll_code::{LlExit, LlLink, LlOp, VarId};
use rpy_base::{NoMem, Seq};

/// Whether the variable is among these.
pub fn among(v: VarId, variables: &[VarId]) -> bool
    ensures { result ≡ spec.among v variables.now }
{
    for w in variables {
        if *w == v {
            return true;
        }
    }
    false
}

// ---- what is read

fn push_operand(x: COperand, into: &mut Seq<VarId>) -> Result<(), NoMem>
    ensures { OnOk result (into.new ≡ into.old ++ spec.variables_of x) }
{
    match x {
        COperand::Var(v) => into.push(v),
        COperand::Const(_) => Ok(()),
    }
}

/// The variables among these operands.
pub fn push_operands(xs: &[COperand], into: &mut Seq<VarId>) -> Result<(), NoMem>
    ensures { OnOk result (into.new ≡ into.old ++ spec.variables_in xs.now) }
{
    for x in xs {
        push_operand(*x, into)?;
    }
    Ok(())
}

fn push_two(x: COperand, y: COperand, into: &mut Seq<VarId>) -> Result<(), NoMem>
    ensures { OnOk result (into.new ≡ into.old ++ spec.variables_of x ++ spec.variables_of y) }
{
    push_operand(x, into)?;
    push_operand(y, into)
}

/// The variables that an operation reads.
pub fn push_reads(op: &LlOp, into: &mut Seq<VarId>) -> Result<(), NoMem>
    ensures { OnOk result (into.new ≡ into.old ++ spec.reads op.now) }
{
    match op {
        LlOp::Set(_, x)
        | LlOp::Unary(_, _, x)
        | LlOp::NewArray(_, _, _, x)
        | LlOp::Step(x)
        | LlOp::ArgLen(_, x)
        | LlOp::Put(x) => push_operand(*x, into),
        LlOp::Binary(_, _, x, y) | LlOp::Arg(_, x, y) => push_two(*x, *y, into),
        LlOp::GetField(_, _, b, _) | LlOp::Free(b) | LlOp::Raise(b) => into.push(*b),
        LlOp::SetField(_, b, _, x) | LlOp::GetItem(_, _, b, x) => {
            push_two(COperand::Var(*b), *x, into)
        }
        LlOp::SetItem(_, b, i, x) => {
            into.push(*b)?;
            push_two(*i, *x, into)
        }
        LlOp::Call(_, _, xs) => push_operands(xs.as_slice(), into),
        LlOp::CallFn(_, _, _, b, xs) => {
            into.push(*b)?;
            push_operands(xs.as_slice(), into)
        }
        LlOp::ExcSet(a, b) => push_two(COperand::Var(*a), COperand::Var(*b), into),
        LlOp::New(_, _, _)
        | LlOp::ExcType(_, _)
        | LlOp::ExcValue(_, _)
        | LlOp::ExcClear
        | LlOp::Argc(_) => Ok(()),
    }
}

/// The variable that an operation sets.
pub fn set_by(op: &LlOp) -> Option<VarId>
    ensures { result ≡ spec.set_by op.now }
{
    match op {
        LlOp::Set(a, _)
        | LlOp::Unary(a, _, _)
        | LlOp::Binary(a, _, _, _)
        | LlOp::GetField(a, _, _, _)
        | LlOp::GetItem(a, _, _, _)
        | LlOp::New(a, _, _)
        | LlOp::NewArray(a, _, _, _)
        | LlOp::ExcType(a, _)
        | LlOp::ExcValue(a, _)
        | LlOp::Argc(a)
        | LlOp::ArgLen(a, _)
        | LlOp::Arg(a, _, _) => Some(*a),
        LlOp::Call(into, _, _) | LlOp::CallFn(into, _, _, _, _) => *into,
        LlOp::SetField(_, _, _, _)
        | LlOp::SetItem(_, _, _, _)
        | LlOp::Free(_)
        | LlOp::Step(_)
        | LlOp::ExcSet(_, _)
        | LlOp::ExcClear
        | LlOp::Put(_)
        | LlOp::Raise(_) => None,
    }
}

/// The variables that an exit reads where no exception is caught.
pub fn push_exit_reads(exit: &LlExit, into: &mut Seq<VarId>) -> Result<(), NoMem>
    ensures { OnOk result (into.new ≡ into.old ++ spec.exit_variables exit.now) }
{
    match exit {
        LlExit::Goto(link) | LlExit::OnRaise(_, _, link) => {
            push_operands(link.args.as_slice(), into)
        }
        LlExit::If(w, there, elsewhere) => {
            into.push(*w)?;
            push_operands(there.args.as_slice(), into)?;
            push_operands(elsewhere.args.as_slice(), into)
        }
        LlExit::Return(Some(x)) => push_operand(*x, into),
        LlExit::Return(None) | LlExit::Fail(_) => Ok(()),
        LlExit::Raise(w) | LlExit::Raised(w) => into.push(*w),
    }
}

// ---- tests

fn is_var(v: VarId, x: COperand) -> bool
    ensures { result ≡ spec.among v (spec.variables_of x) }
{
    match x {
        COperand::Var(w) => w == v,
        COperand::Const(_) => false,
    }
}

/// Whether the variable is among these operands.
pub fn among_operands(v: VarId, xs: &[COperand]) -> bool
    ensures { result ≡ spec.among v (spec.variables_in xs.now) }
{
    for x in xs {
        if is_var(v, *x) {
            return true;
        }
    }
    false
}

fn op_reads(v: VarId, op: &LlOp) -> bool
    ensures { result ≡ spec.among v (spec.reads op.now) }
{
    match op {
        LlOp::Set(_, x)
        | LlOp::Unary(_, _, x)
        | LlOp::NewArray(_, _, _, x)
        | LlOp::Step(x)
        | LlOp::ArgLen(_, x)
        | LlOp::Put(x) => is_var(v, *x),
        LlOp::Binary(_, _, x, y) | LlOp::Arg(_, x, y) => is_var(v, *x) || is_var(v, *y),
        LlOp::GetField(_, _, b, _) | LlOp::Free(b) | LlOp::Raise(b) => *b == v,
        LlOp::SetField(_, b, _, x) | LlOp::GetItem(_, _, b, x) => *b == v || is_var(v, *x),
        LlOp::SetItem(_, b, i, x) => *b == v || is_var(v, *i) || is_var(v, *x),
        LlOp::Call(_, _, xs) => among_operands(v, xs.as_slice()),
        LlOp::CallFn(_, _, _, b, xs) => *b == v || among_operands(v, xs.as_slice()),
        LlOp::ExcSet(a, b) => *a == v || *b == v,
        LlOp::New(_, _, _)
        | LlOp::ExcType(_, _)
        | LlOp::ExcValue(_, _)
        | LlOp::ExcClear
        | LlOp::Argc(_) => false,
    }
}

fn link_reads(v: VarId, link: &LlLink) -> bool
    ensures { result ≡ spec.among v (spec.variables_in link.now.args) }
{
    among_operands(v, link.args.as_slice())
}

#[tactic(auto, using(crate::proofs::Appended::among_append))]
fn left_reads(v: VarId, exit: &LlExit) -> bool
    ensures { result ≡ spec.among v (spec.exit_variables exit.now) }
{
    match exit {
        LlExit::Goto(link) | LlExit::OnRaise(_, _, link) => link_reads(v, link),
        LlExit::If(w, there, elsewhere) => {
            *w == v || link_reads(v, there) || link_reads(v, elsewhere)
        }
        LlExit::Return(Some(x)) => is_var(v, *x),
        LlExit::Return(None) | LlExit::Fail(_) => false,
        LlExit::Raise(w) | LlExit::Raised(w) => *w == v,
    }
}

fn handler_reads(v: VarId, exit: &LlExit) -> bool
    ensures { result ≡ spec.handler_variable exit.now v }
{
    match exit {
        LlExit::OnRaise(a, Some(by), _) => *a != v && link_reads(v, by),
        _ => false,
    }
}

/// Whether an exit reads a variable, also where an exception is caught.
pub fn exit_reads(v: VarId, exit: &LlExit) -> bool
    ensures { result ≡ spec.exit_reads exit.now v }
{
    left_reads(v, exit) || handler_reads(v, exit)
}

// ---- what is live

fn op_sets(v: VarId, op: &LlOp) -> bool
    ensures { result ≡ spec.sets (spec.set_by op.now) v }
{
    match set_by(op) {
        None => false,
        Some(a) => a == v,
    }
}

/// Whether these operations and the exit behind them read a variable before they set it.
pub fn is_live(v: VarId, ops: &[LlOp], exit: &LlExit) -> bool
    ensures { result ≡ spec.live ops.now exit.now v }
{
    for op in ops {
        if op_reads(v, op) {
            return true;
        }
        if op_sets(v, op) {
            return false;
        }
    }
    exit_reads(v, exit)
}
