// Which exceptions leave a graph.
ghost use Rattle.std.specs.Prelude.{◌≡◌};
ghost use Rattle.rtyper_program.specs.Raises as spec;

use flow_graph::{Exit, Graph, Link, Op};
use rpy_tree::ClassId;

// A block that does nothing but raise.
fn only_raises(exit: &Exit, ops: &[Op]) -> bool
    ensures { result ≡ spec.only_raises exit.now ops.now }
{
    match exit {
        Exit::Raise(_) => ops.is_empty(),
        Exit::Goto(_) | Exit::If(_, _, _) | Exit::OnRaise(_, _, _, _) | Exit::Return(_) => false,
    }
}

// Whether exceptions leave the graph from where they are raised.
fn is_uncaught(graph: &Graph, by: &Option<Link>) -> bool
    ensures { result ≡ spec.is_uncaught graph.now by.now }
{
    match by {
        None => true,
        Some(link) => match graph.blocks.get(link.to as usize) {
            None => false,
            Some(block) => only_raises(&block.exit, block.ops.as_slice()),
        },
    }
}

/// Whether a graph does something about the exceptions of an exit: each graph has a block from which
/// exceptions leave it, and exits to that.
pub fn catches(graph: &Graph, hands: &[(ClassId, Link)], by: &Option<Link>) -> bool
    ensures { result ≡ spec.catches graph.now hands.now by.now }
{
    match hands {
        [] => !is_uncaught(graph, by),
        [_, ..] => true,
    }
}
