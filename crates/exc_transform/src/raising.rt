// Which graphs may raise an exception: those in which an operation or an exit does that is not caught in
// its own block, calls of such graphs among them.
ghost use Rattle.std.specs.Prelude.{◌≡◌, map, IfOk};
ghost use Rattle.exc_transform.specs.Explicit as spec;
ghost use Rattle.exc_transform.specs.Raising as raises;

use ll_code::{LlBlock, LlExit, LlGraph, LlOp};
use rpy_base::{NoMem, Seq};
use std::alloc::Global;

/// For each graph whether it may raise; and whether some does, since a function value may be that of
/// any graph.
#[derive(Clone, Copy)]
pub struct Raising<'a> {
    pub graphs: &'a [bool],
    pub any: bool,
}

/// Whether a graph is marked.
pub fn is_marked(marks: &[bool], n: u64) -> bool
    ensures { result ≡ spec.is_marked marks.now n }
{
    match marks.get(n as usize) {
        None => false,
        Some(marked) => *marked,
    }
}

/// Whether an operation is a call that may raise.
pub fn is_tested(raising: Raising<'_>, op: &LlOp) -> bool
    ensures { result ≡ spec.is_tested raising.entry.graphs.now raising.entry.any op.now }
{
    match op {
        LlOp::Call(_, graph, _) => is_marked(raising.graphs, *graph),
        LlOp::CallFn(_, _, _, _, _) => raising.any,
        _ => false,
    }
}

pub fn may_raise(raising: Raising<'_>, op: &LlOp) -> bool
    ensures { result ≡ raises.may_raise raising.entry.graphs.now raising.entry.any op.now }
{
    match op {
        LlOp::Raise(_) => true,
        _ => is_tested(raising, op),
    }
}

// Whether the exit catches what the last operation before it raises.
fn catches(exit: &LlExit) -> bool
    ensures { result ≡ raises.catches exit.now }
{
    match exit {
        LlExit::OnRaise(_, Some(_), _) => true,
        _ => false,
    }
}

// ---- graphs

fn ops_leave(raising: Raising<'_>, ops: &[LlOp], exit: &LlExit) -> bool
    ensures { result ≡ raises.ops_leave raising.entry.graphs.now raising.entry.any ops.now exit.now }
{
    let mut rest = ops;
    while let [op, others @ ..] = rest {
        let caught = others.is_empty() && catches(exit);
        if may_raise(raising, op) && !caught {
            return true;
        }
        rest = others;
    }
    false
}

fn exit_leaves(exit: &LlExit) -> bool
    ensures { result ≡ raises.exit_leaves exit.now }
{
    match exit {
        LlExit::Raise(_) => true,
        LlExit::OnRaise(_, _, _)
        | LlExit::Goto(_)
        | LlExit::If(_, _, _)
        | LlExit::Return(_)
        | LlExit::Fail(_)
        | LlExit::Raised(_) => false,
    }
}

fn blocks_leave(raising: Raising<'_>, blocks: &[LlBlock]) -> bool
    ensures { result ≡ raises.blocks_leave raising.entry.graphs.now raising.entry.any blocks.now }
{
    for block in blocks {
        if exit_leaves(&block.exit) || ops_leave(raising, block.ops.as_slice(), &block.exit) {
            return true;
        }
    }
    false
}

fn some_raises(raising: Raising<'_>, ops: &[LlOp]) -> bool
    ensures { result ≡ raises.some_raises raising.entry.graphs.now raising.entry.any ops.now }
{
    for op in ops {
        if may_raise(raising, op) {
            return true;
        }
    }
    false
}

/// Whether some block raises, caught or not.
pub fn raises_within(raising: Raising<'_>, blocks: &[LlBlock]) -> bool
    ensures { result ≡ raises.raises_within raising.entry.graphs.now raising.entry.any blocks.now }
{
    for block in blocks {
        if exit_leaves(&block.exit) || some_raises(raising, block.ops.as_slice()) {
            return true;
        }
    }
    false
}

// ---- all of them

pub fn any_marked(marks: &[bool]) -> bool
    ensures { result ≡ raises.any_marked marks.now }
{
    for marked in marks {
        if *marked {
            return true;
        }
    }
    false
}

fn all_as(alloc: Global, graphs: &[LlGraph], mark: bool) -> Result<Seq<bool>, NoMem>
    ensures { IfOk result (λ made. made ≡ map (λ graph. mark) graphs.now) }
{
    let mut marks = Seq::new(alloc);
    for _ in graphs {
        marks.push(mark)?;
    }
    Ok(marks)
}

// The graphs that may raise, where these do.
fn marked_by(alloc: Global, graphs: &[LlGraph], marks: &[bool]) -> Result<Seq<bool>, NoMem>
    ensures { IfOk result (λ made. made ≡ raises.marked_by graphs.now marks.now) }
{
    let raising = Raising {
        graphs: marks,
        any: any_marked(marks),
    };
    let mut more = Seq::new(alloc);
    for graph in graphs {
        more.push(blocks_leave(raising, graph.blocks.as_slice()))?;
    }
    Ok(more)
}

fn same_marks(marks: &[bool], others: &[bool]) -> bool
    ensures { result ≡ raises.same_marks marks.now others.now }
{
    let mut left = marks;
    let mut right = others;
    while let [a, more @ ..] = left {
        match right {
            [b, rest @ ..] if *a == *b => {
                left = more;
                right = rest;
            }
            _ => return false,
        }
    }
    right.is_empty()
}

/// For each graph whether it may raise. Each round but the last marks one more, so that one of as many
/// rounds as there are graphs is the last.
pub fn raising_graphs(alloc: Global, graphs: &[LlGraph]) -> Result<Seq<bool>, NoMem>
    ensures { IfOk result (λ made. made ≡ raises.raising_graphs graphs.now) }
{
    let mut marks = all_as(alloc, graphs, false)?;
    for _ in graphs {
        let more = marked_by(alloc, graphs, marks.as_slice())?;
        if same_marks(more.as_slice(), marks.as_slice()) {
            return Ok(more);
        }
        marks = more;
    }
    all_as(alloc, graphs, true)
}
