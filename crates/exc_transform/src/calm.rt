// Programs in which nothing raises an exception and nothing catches one.
ghost use Rattle.std.specs.Prelude.{◌≡◌, ◌↔◌, IsTrue};
ghost use Rattle.exc_transform.specs.Explicit as spec;

use ll_code::{LlBlock, LlExit, LlGraph, LlOp, LlProgram};

fn are_calm(operations: &[LlOp]) -> bool
    ensures { result ≡ spec.are_calm operations.now }
{
    for operation in operations {
        if let LlOp::Raise(_) = operation {
            return false;
        }
    }
    true
}

fn leaves_calmly(exit: &LlExit) -> bool
    ensures { result ≡ spec.leaves_calmly exit.now }
{
    match exit {
        LlExit::OnRaise(_, _, _) => false,
        LlExit::Raise(_) => false,
        LlExit::Goto(_)
        | LlExit::If(_, _, _)
        | LlExit::Return(_)
        | LlExit::Fail(_)
        | LlExit::Raised(_) => true,
    }
}

fn block_calm(block: &LlBlock) -> bool
    ensures { result ≡ spec.block_calm block.now }
{
    are_calm(block.ops.as_slice()) && leaves_calmly(&block.exit)
}

fn blocks_calm(blocks: &[LlBlock]) -> bool
    ensures { result ≡ spec.blocks_calm blocks.now }
{
    for block in blocks {
        if !block_calm(block) {
            return false;
        }
    }
    true
}

/// Whether nothing in the graphs raises an exception and nothing catches one.
pub fn graphs_calm(graphs: &[LlGraph]) -> bool
    ensures { result ≡ spec.graphs_calm graphs.now }
{
    for graph in graphs {
        if !blocks_calm(graph.blocks.as_slice()) {
            return false;
        }
    }
    true
}

/// Whether nothing in a program raises an exception and nothing catches one.
pub fn is_without_exceptions(program: &LlProgram) -> bool
    ensures { IsTrue result ↔ spec.IsWithoutExceptions program.now }
{
    graphs_calm(program.graphs.as_slice())
}
