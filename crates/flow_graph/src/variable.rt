// The variables that hold the values of a node.
ghost use Rattle.std.specs.Prelude.{◌≡◌};
ghost use Rattle.flow_graph.specs.Values as spec;

use crate::graph::{Block, Graph, Graphs, Op, VarId};
use rpy_tree::NodeId;

/// How many operations with the value of the node are to be passed over, or the variable that was
/// found.
#[derive(Clone, Copy, Debug, PartialEq, Eq)]
enum Search {
    Left(u32),
    Found(VarId),
}

fn in_op(op: &Op, node: NodeId, search: Search) -> Search
    ensures { result ≡ spec.sought search (spec.value_of node op.now) }
{
    match search {
        Search::Found(variable) => Search::Found(variable),
        Search::Left(left) => {
            if op.node != node || !op.value {
                Search::Left(left)
            } else if left == 0 {
                Search::Found(op.result)
            } else {
                Search::Left(left - 1)
            }
        }
    }
}

fn in_block(block: &Block, node: NodeId, search: Search) -> Search
    ensures { result ≡ spec.sought search (spec.values_of node block.now) }
{
    let mut search = search;
    for op in block.ops.as_slice() {
        search = in_op(op, node, search);
    }
    search
}

fn in_graph(graph: &Graph, node: NodeId, search: Search) -> Search
    ensures { result ≡ spec.sought search (spec.values_in node graph.now) }
{
    let mut search = search;
    for block in graph.blocks.as_slice() {
        search = in_block(block, node, search);
    }
    search
}

impl Graphs {
    /// The result of operation number i, from 0, among those whose result is the value of the node,
    /// in the order of graphs, blocks and operations. There are several where the text of a
    /// `finally` body stands in the graph once for each kind of exit.
    pub fn variable_of(&self, node: NodeId, i: u32) -> Option<VarId>
        ensures { result ≡ spec.item (spec.values node self.now) i }
    {
        let mut search = Search::Left(i);
        for graph in self.graphs.as_slice() {
            search = in_graph(graph, node, search);
        }
        match search {
            Search::Found(variable) => Some(variable),
            Search::Left(_) => None,
        }
    }
}
