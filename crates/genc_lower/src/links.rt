// Links. The inputs of a block take their values all at once. Where one takes the value of another
// that changes, each value waits in a variable of its own.
ghost use Rattle.std.specs.Prelude.{◌≡◌, ◌+◌, ◌++◌, IfOk, OnOk};
ghost use Rattle.genc_lower.specs.Lower as spec;

use crate::order::{Order, operand};
use csub_tree::{COperand, CStmt};
use ll_code::{LlBlock, LlExit, LlGraph, LlLink, VarId};
use rpy_base::{NoMem, Seq};

fn moves(v: VarId, x: COperand) -> bool
    ensures { result ≡ spec.moves v x }
{
    match x {
        COperand::Var(w) => v != w,
        COperand::Const(_) => true,
    }
}

fn is_changed(w: VarId, v: VarId, x: COperand) -> bool
    ensures { result ≡ spec.is_changed w v x }
{
    w == v && moves(v, x)
}

// Whether the variable is an input that takes another value.
fn changes(w: VarId, inputs: &[VarId], xs: &[COperand]) -> bool
    ensures { result ≡ spec.changes w inputs.now xs.now }
{
    for i in 0..inputs.len() {
        if i >= xs.len() {
            return false;
        }
        if is_changed(w, inputs[i], xs[i]) {
            return true;
        }
    }
    false
}

#[tactic(auto, unfolding(crate::specs::Lower::is_new))]
fn is_new(inputs: &[VarId], xs: &[COperand], v: VarId) -> bool
    ensures { result ≡ spec.is_new inputs.now xs.now v }
{
    changes(v, inputs, xs)
}

fn reads_changed(inputs: &[VarId], xs: &[COperand], x: COperand) -> bool
    ensures { result ≡ spec.reads_changed inputs.now xs.now x }
{
    match x {
        COperand::Var(w) => changes(w, inputs, xs),
        COperand::Const(_) => false,
    }
}

// Whether an input that takes another value takes that of one that does.
fn crosses(inputs: &[VarId], xs: &[COperand]) -> bool
    ensures { result ≡ spec.crosses inputs.now xs.now }
{
    for i in 0..inputs.len() {
        if i >= xs.len() {
            return false;
        }
        if is_new(inputs, xs, inputs[i]) && reads_changed(inputs, xs, xs[i]) {
            return true;
        }
    }
    false
}

// A variable whose number is no u64 is none of the program.
fn above_it(above: u64, v: VarId) -> Result<u64, NoMem>
    ensures { IfOk result (λ w. w ≡ above + v) }
{
    match above.checked_add(v) {
        None => Err(NoMem),
        Some(w) => Ok(w),
    }
}

// Each input that takes another value, or the variable above it, takes it.
fn push_assigns(
    order: Order,
    above: u64,
    inputs: &[VarId],
    xs: &[COperand],
    into: &mut Seq<CStmt>,
) -> Result<(), NoMem>
    ensures { OnOk result (into.new ≡ into.old ++ spec.assigns order above inputs.now xs.now inputs.now xs.now) }
{
    for i in 0..inputs.len() {
        if i >= xs.len() {
            return Ok(());
        }
        if is_new(inputs, xs, inputs[i]) {
            into.push(CStmt::Set(above_it(above, inputs[i])?, operand(order, xs[i])))?;
        }
    }
    Ok(())
}

// Each of them takes the value that waits for it.
fn push_takes(
    above: u64,
    inputs: &[VarId],
    xs: &[COperand],
    into: &mut Seq<CStmt>,
) -> Result<(), NoMem>
    ensures { OnOk result (into.new ≡ into.old ++ spec.takes above inputs.now xs.now inputs.now xs.now) }
{
    for i in 0..inputs.len() {
        if i >= xs.len() {
            return Ok(());
        }
        if is_new(inputs, xs, inputs[i]) {
            into.push(CStmt::Set(inputs[i], COperand::Var(above_it(above, inputs[i])?)))?;
        }
    }
    Ok(())
}

fn push_moved(
    order: Order,
    above: u64,
    inputs: &[VarId],
    xs: &[COperand],
    into: &mut Seq<CStmt>,
) -> Result<(), NoMem>
    ensures { OnOk result (into.new ≡ into.old ++ spec.moved order above inputs.now xs.now) }
{
    if crosses(inputs, xs) {
        push_assigns(order, above, inputs, xs, into)?;
        push_takes(above, inputs, xs, into)
    } else {
        push_assigns(order, 0, inputs, xs, into)
    }
}

fn inputs_at(graph: &LlGraph, n: u64) -> &[VarId]
    ensures { result.now ≡ spec.inputs_at graph.now n }
{
    match graph.blocks.get(n as usize) {
        None => &[],
        Some(block) => block.inputs.as_slice(),
    }
}

/// The inputs of the block take their values, and the block follows.
pub fn push_link(
    order: Order,
    graph: &LlGraph,
    link: &LlLink,
    into: &mut Seq<CStmt>,
) -> Result<(), NoMem>
    ensures { OnOk result (into.new ≡ into.old ++ spec.link_code order graph.now link.now) }
{
    let inputs = inputs_at(graph, link.to);
    push_moved(
        order,
        graph.types.len() as u64,
        inputs,
        link.args.as_slice(),
        into,
    )?;
    into.push(CStmt::Goto(link.to))
}

fn link_crosses(graph: &LlGraph, link: &LlLink) -> bool
    ensures { result ≡ spec.link_crosses graph.now link.now }
{
    crosses(inputs_at(graph, link.to), link.args.as_slice())
}

fn exit_crosses(graph: &LlGraph, exit: &LlExit) -> bool
    ensures { result ≡ spec.exit_crosses graph.now exit.now }
{
    match exit {
        LlExit::Goto(link) => link_crosses(graph, link),
        LlExit::If(_, there, elsewhere) => {
            link_crosses(graph, there) || link_crosses(graph, elsewhere)
        }
        LlExit::OnRaise(_, _, without) => link_crosses(graph, without),
        LlExit::Return(_) | LlExit::Raise(_) | LlExit::Fail(_) | LlExit::Raised(_) => false,
    }
}

/// Whether values wait on some link from these blocks.
pub fn any_crosses(graph: &LlGraph, blocks: &[LlBlock]) -> bool
    ensures { result ≡ spec.any_crosses graph.now blocks.now }
{
    for block in blocks {
        if exit_crosses(graph, &block.exit) {
            return true;
        }
    }
    false
}
