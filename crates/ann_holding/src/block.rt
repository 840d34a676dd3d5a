// Whether what blocks ask holds.
ghost use Rattle.std.specs.Prelude.{◌≡◌, map, IfOk};
ghost use Rattle.ann_needs.specs.View.{assignment, need_of, whole};
ghost use Rattle.ann_holding.specs.Holds as spec;

use crate::link::{exception_asks, exit_asks};
use ann_closed::is_met;
use ann_needs::{Ask, Asks, Plan, State, goes_on, op_asks};
use flow_graph::{Block, Exit, Graph, Op};
use rpy_base::NoMem;
use std::alloc::Global;

/// Whether all that is asked holds.
pub fn all_met(p: &Plan, s: &State, asks: &[Ask]) -> bool
    ensures { result ≡ spec.all_met (whole p.now) (assignment s.now) (map need_of asks.now) }
{
    for ask in asks {
        if !is_met(&p.classes, s, ask) {
            return false;
        }
    }
    true
}

fn op_holds(alloc: Global, p: &Plan, s: &State, g: usize, op: &Op) -> Result<bool, NoMem>
    ensures { IfOk result (λ holds. holds ≡ spec.op_holds (whole p.now) (assignment s.now) g op.now) }
{
    let mut asks = Asks::new(alloc);
    op_asks(alloc, p, s, &mut asks, g, op)?;
    Ok(all_met(p, s, asks.items.as_slice()))
}

fn exceptions_hold(
    alloc: Global,
    p: &Plan,
    s: &State,
    g: usize,
    graph: &Graph,
    exit: &Exit,
) -> Result<bool, NoMem>
    ensures { IfOk result (λ holds. holds ≡ spec.exceptions_hold (whole p.now) (assignment s.now) g graph.now exit.now) }
{
    let mut asks = Asks::new(alloc);
    exception_asks(alloc, p, s, &mut asks, g, graph, exit)?;
    Ok(all_met(p, s, asks.items.as_slice()))
}

fn exit_holds(
    alloc: Global,
    p: &Plan,
    s: &State,
    g: usize,
    graph: &Graph,
    exit: &Exit,
) -> Result<bool, NoMem>
    ensures { IfOk result (λ holds. holds ≡ spec.exit_holds (whole p.now) (assignment s.now) g graph.now exit.now) }
{
    let mut asks = Asks::new(alloc);
    exit_asks(alloc, p, s, &mut asks, g, graph, exit)?;
    Ok(all_met(p, s, asks.items.as_slice()))
}

// The operations up to one that gives no value, and the exit behind them.
fn ops_hold(
    alloc: Global,
    p: &Plan,
    s: &State,
    g: usize,
    graph: &Graph,
    ops: &[Op],
    exit: &Exit,
) -> Result<bool, NoMem>
    ensures { IfOk result (λ holds. holds ≡ spec.ops_hold (whole p.now) (assignment s.now) g graph.now ops.now exit.now) }
{
    for op in ops {
        if !op_holds(alloc, p, s, g, op)? {
            return Ok(false);
        }
        if !goes_on(alloc, p, s, g, op)? {
            return Ok(true);
        }
    }
    exit_holds(alloc, p, s, g, graph, exit)
}

fn block_holds(
    alloc: Global,
    p: &Plan,
    s: &State,
    g: usize,
    graph: &Graph,
    block: &Block,
) -> Result<bool, NoMem>
    ensures { IfOk result (λ holds. holds ≡ spec.block_holds (whole p.now) (assignment s.now) g graph.now block.now) }
{
    if !exceptions_hold(alloc, p, s, g, graph, &block.exit)? {
        return Ok(false);
    }
    ops_hold(alloc, p, s, g, graph, block.ops.as_slice(), &block.exit)
}

fn reached_holds(
    alloc: Global,
    p: &Plan,
    s: &State,
    g: usize,
    graph: &Graph,
    number: usize,
    block: &Block,
) -> Result<bool, NoMem>
    ensures { IfOk result (λ holds. holds ≡ spec.reached_holds (whole p.now) (assignment s.now) g graph.now number block.now) }
{
    if !s.is_marked(p.block(g, number as u64)) {
        return Ok(true);
    }
    block_holds(alloc, p, s, g, graph, block)
}

/// Whether all that the reached blocks of a graph ask holds.
pub fn blocks_hold(
    alloc: Global,
    p: &Plan,
    s: &State,
    g: usize,
    graph: &Graph,
    blocks: &[Block],
) -> Result<bool, NoMem>
    ensures { IfOk result (λ holds. holds ≡ spec.blocks_hold (whole p.now) (assignment s.now) g graph.now 0 blocks.now) }
{
    for (number, block) in blocks.iter().enumerate() {
        if !reached_holds(alloc, p, s, g, graph, number, block)? {
            return Ok(false);
        }
    }
    Ok(true)
}
