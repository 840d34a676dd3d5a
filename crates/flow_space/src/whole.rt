// The graphs of a program.
ghost use Rattle.std.specs.Prelude.{◌≡◌, ◌+◌, false, length, IfOk, OnOk};
ghost use Rattle.flow_graph.specs.Whole.{CountFrom, Covers as CoversAll};
ghost use Rattle.flow_stands.specs.Places.{Go, Plain, first as on_first, first_and as on_first_and};
ghost use Rattle.rpy_meaning.specs.declared.row.RowOp.TheVariants as row;
ghost use Rattle.flow_space.specs.Placed.{Part, ShapeAt, MarkedAt, GraphAt, GraphsAt, NodesAt, FlowAt, StandFor, jump_of};

use crate::code::{Aim, Code, Scope, jump_and, jump_first, no_covers, op_at};
use crate::places::narrow;
use crate::statement::{Ways, put_block};
use crate::{NEVER, RETURN};
use flow_graph::{Graph, Graphs};
use rpy_base::{NoMem, Seq};
use rpy_meaning::RowOp;
use rpy_resolved::{Function, Resolved};
use rpy_resolver::resolved;
use rpy_tree::{FunId, Program};
use std::alloc::Global;

// The end of the body gives None.
fn put_end(alloc: Global, code: &mut Code, function: &Function, m: usize) -> Result<u64, NoMem>
    ensures at { IfOk result (λ b. b ≡ length code.old.blocks) }
    ensures put { IfOk result (λ b. Part code.old.blocks code.new.blocks (MarkedAt b m function.now.node false (Plain row.None (on_first_and 1 0 m)))) }
{
    let of = op_at(function.node, false, RowOp::None);
    let jump = jump_and(alloc, RETURN, 0, m)?;
    code.put_plain(alloc, of, m, jump)
}

// Nothing goes on from here.
fn put_never(alloc: Global, code: &mut Code) -> Result<u64, NoMem>
    ensures at { IfOk result (λ b. b ≡ length code.old.blocks) }
    ensures count { OnOk result (length code.new.blocks ≡ length code.old.blocks + 1) }
    ensures put { IfOk result (λ b. Part code.old.blocks code.new.blocks (ShapeAt b 0 (Go (on_first 3 0)))) }
{
    let jump = jump_first(alloc, NEVER, 0)?;
    code.put_jump(alloc, 0, jump)
}

// The graph of a function: its head, and the blocks that leave it, stand first.
fn graph_of(
    alloc: Global,
    program: &Resolved,
    number: FunId,
    function: &Function,
) -> Result<Graph, NoMem>
    ensures number { IfOk result (λ graph. graph.function ≡ number) }
    ensures stands { IfOk result (λ graph. GraphAt program.now function.now graph) }
{
    let locals = function.locals as usize;
    if locals < function.defaults.len() {
        return Err(NoMem);
    }
    let mut code = Code::new(alloc);
    let head = code.put_head(alloc, locals)?;
    let returning = code.put_return(alloc)?;
    let raising = code.put_raise(alloc)?;
    let _never = put_never(alloc, &mut code)?;
    let end = put_end(alloc, &mut code, function, locals)?;
    let outside = Aim {
        to: end,
        keep: locals,
    };
    let ways = Ways {
        norm: end,
        brk: outside,
        cont: outside,
        ret: Aim {
            to: returning,
            keep: 0,
        },
    };
    let scope = Scope {
        locals,
        hands: Seq::new(alloc),
        default: Aim {
            to: raising,
            keep: 0,
        },
        covers: no_covers(),
        tried: false,
    };
    let begin = put_block(
        alloc,
        &mut code,
        program,
        &scope,
        function.body.as_slice(),
        locals,
        ways,
    )?;
    code.aim(alloc, head, begin)?;
    let Code { blocks, next: _ } = code;
    Ok(Graph {
        function: number,
        blocks,
    })
}

// The graph of the next function, with its number.
fn next_graph(
    alloc: Global,
    program: &Resolved,
    graphs: &Seq<Graph>,
    function: &Function,
) -> Result<Graph, NoMem>
    ensures number { IfOk result (λ graph. graph.function ≡ length graphs.now) }
    ensures stands { IfOk result (λ graph. GraphAt program.now function.now graph) }
{
    let number = narrow(graphs.len())?;
    graph_of(alloc, program, number, function)
}

fn graphs_of(alloc: Global, resolved: &Resolved) -> Result<Seq<Graph>, NoMem>
    ensures graphs { IfOk result (λ graphs. CountFrom 0 graphs) }
    ensures all { IfOk result (λ graphs. length graphs ≡ length resolved.now.functions) }
    ensures stand { IfOk result (λ graphs. GraphsAt resolved.now resolved.now.functions graphs) }
{
    let mut graphs = Seq::new(alloc);
    for function in resolved.functions.as_slice() {
        let graph = next_graph(alloc, resolved, &graphs, function)?;
        graphs.push(graph)?;
    }
    Ok(graphs)
}

/// The flow graphs of a program with bound names: they stand for it, with its nodes.
pub fn flow_of(alloc: Global, resolved: &Resolved) -> Result<Graphs, NoMem>
    ensures graphs { IfOk result (λ graphs. CountFrom 0 graphs.graphs) }
    ensures all { IfOk result (λ graphs. length graphs.graphs ≡ length resolved.now.functions) }
    ensures nodes { IfOk result (λ graphs. NodesAt resolved.now graphs) }
    ensures stand { IfOk result (λ graphs. FlowAt resolved.now graphs) }
{
    let graphs = graphs_of(alloc, resolved)?;
    Ok(Graphs { graphs })
}

/// The flow graphs of a program's functions, one for each in their order.
pub fn flow(alloc: Global, program: &Program) -> Result<Graphs, NoMem>
    ensures covers { IfOk result (λ graphs. CoversAll program.now graphs) }
    ensures stand { IfOk result (λ graphs. StandFor program.now graphs) }
{
    let resolved = resolved(alloc, program)?;
    flow_of(alloc, &resolved)
}
