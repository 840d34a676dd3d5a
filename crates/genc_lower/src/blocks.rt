// Blocks.
ghost use Rattle.std.specs.Prelude.{◌≡◌, ◌+◌, ◌++◌, ◌∷◌, [], IfOk, OnOk, length, option_map};
ghost use Rattle.genc_lower.specs.Lower as spec;

use crate::links::push_link;
use crate::operations::push_operations;
use crate::order::{Order, operand};
use csub_tree::{COperand, CStmt};
use ll_code::{LlBlock, LlExit, LlGraph, LlLink, VarId};
use rpy_base::{NoMem, Seq};
use std::alloc::Global;

// A block whose number is no u64 does not fit in memory.
fn add(n: u64, more: u64) -> Result<u64, NoMem>
    ensures { IfOk result (λ sum. sum ≡ n + more) }
{
    match n.checked_add(more) {
        None => Err(NoMem),
        Some(sum) => Ok(sum),
    }
}

fn given_back(order: Order, x: Option<COperand>) -> Option<COperand>
    ensures { result ≡ option_map (spec.operand order) x }
{
    match x {
        None => None,
        Some(x) => Some(operand(order, x)),
    }
}

fn branch(a: VarId, next: u64) -> Result<CStmt, NoMem>
    ensures { IfOk result (λ made. made ≡ CStmt.If a next (next + 1)) }
{
    Ok(CStmt::If(a, next, add(next, 1)?))
}

fn push_exit(
    order: Order,
    graph: &LlGraph,
    next: u64,
    exit: &LlExit,
    into: &mut Seq<CStmt>,
) -> Result<(), NoMem>
    ensures { OnOk result (into.new ≡ into.old ++ spec.exit_code order graph.now next exit.now) }
{
    match exit {
        LlExit::Goto(link) => push_link(order, graph, link, into),
        LlExit::If(a, _, _) => into.push(branch(*a, next)?),
        LlExit::OnRaise(_, _, without) => push_link(order, graph, without, into),
        LlExit::Return(x) => into.push(CStmt::Return(given_back(order, *x))),
        LlExit::Raise(_) => into.push(CStmt::Goto(0)),
        LlExit::Fail(n) => into.push(CStmt::Fail(*n)),
        LlExit::Raised(a) => into.push(CStmt::Raised(*a)),
    }
}

fn body(
    alloc: Global,
    order: Order,
    graph: &LlGraph,
    next: u64,
    block: &LlBlock,
) -> Result<Seq<CStmt>, NoMem>
    ensures { IfOk result (λ made. made ≡ spec.body order graph.now next block.now) }
{
    let mut made = Seq::new(alloc);
    push_operations(alloc, order, block.ops.as_slice(), &mut made)?;
    push_exit(order, graph, next, &block.exit, &mut made)?;
    Ok(made)
}

fn after(next: u64, exit: &LlExit) -> Result<u64, NoMem>
    ensures { IfOk result (λ n. n ≡ spec.after next exit.now) }
{
    match exit {
        LlExit::If(_, _, _) => add(next, 2),
        LlExit::Goto(_)
        | LlExit::OnRaise(_, _, _)
        | LlExit::Return(_)
        | LlExit::Raise(_)
        | LlExit::Fail(_)
        | LlExit::Raised(_) => Ok(next),
    }
}

fn push_bodies(
    alloc: Global,
    order: Order,
    graph: &LlGraph,
    first: u64,
    blocks: &[LlBlock],
    into: &mut Seq<Seq<CStmt>>,
) -> Result<(), NoMem>
    ensures { OnOk result (into.new ≡ into.old ++ spec.bodies order graph.now first blocks.now) }
{
    let mut next = first;
    for block in blocks {
        into.push(body(alloc, order, graph, next, block)?)?;
        next = after(next, &block.exit)?;
    }
    Ok(())
}

fn way(alloc: Global, order: Order, graph: &LlGraph, link: &LlLink) -> Result<Seq<CStmt>, NoMem>
    ensures { IfOk result (λ made. made ≡ spec.link_code order graph.now link.now) }
{
    let mut made = Seq::new(alloc);
    push_link(order, graph, link, &mut made)?;
    Ok(made)
}

fn push_ways_of(
    alloc: Global,
    order: Order,
    graph: &LlGraph,
    exit: &LlExit,
    into: &mut Seq<Seq<CStmt>>,
) -> Result<(), NoMem>
    ensures { OnOk result (into.new ≡ into.old ++ spec.ways_of order graph.now exit.now) }
{
    match exit {
        LlExit::If(_, there, elsewhere) => {
            into.push(way(alloc, order, graph, there)?)?;
            into.push(way(alloc, order, graph, elsewhere)?)
        }
        LlExit::Goto(_)
        | LlExit::OnRaise(_, _, _)
        | LlExit::Return(_)
        | LlExit::Raise(_)
        | LlExit::Fail(_)
        | LlExit::Raised(_) => Ok(()),
    }
}

fn push_ways(
    alloc: Global,
    order: Order,
    graph: &LlGraph,
    blocks: &[LlBlock],
    into: &mut Seq<Seq<CStmt>>,
) -> Result<(), NoMem>
    ensures { OnOk result (into.new ≡ into.old ++ spec.ways order graph.now blocks.now) }
{
    for block in blocks {
        push_ways_of(alloc, order, graph, &block.exit, into)?;
    }
    Ok(())
}

/// The blocks of the function of a graph.
pub fn blocks_of(alloc: Global, order: Order, graph: &LlGraph) -> Result<Seq<Seq<CStmt>>, NoMem>
    ensures { IfOk result (λ made. made ≡ spec.blocks_code order graph.now) }
{
    let mut made = Seq::new(alloc);
    let blocks = graph.blocks.as_slice();
    push_bodies(alloc, order, graph, blocks.len() as u64, blocks, &mut made)?;
    push_ways(alloc, order, graph, blocks, &mut made)?;
    Ok(made)
}
