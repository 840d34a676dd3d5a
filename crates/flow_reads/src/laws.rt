// Laws of what the blocks of graphs read.
ghost use Rattle.std.specs.Prelude.{◌≡◌, ℕ, List, Some, slice_get};
ghost use Rattle.rpy_meaning.specs.Tree.{Program};
ghost use Rattle.flow_graph.specs.declared.graph.Block.{Block};
ghost use Rattle.flow_graph.specs.declared.graph.Graphs.{Graphs};
ghost use Rattle.flow_meaning.specs.Machine.{block_in};
ghost use Rattle.flow_trees.specs.Tree.{Function};
ghost use Rattle.flow_trees.specs.Marks.{Stand};
ghost use Rattle.flow_reads.specs.Reads.{ReadsOwn};

/// In graphs that stand for the functions of a program each block reads its own variables alone: its
/// inputs, and the result of its operation.
pub fn blocks_read_their_own_variables()
    ensures { (program : Program) (gs : Graphs) (functions : List Function) → Stand program gs functions → (f : ℕ) (function : Function) → slice_get functions f ≡ Some function → (b : ℕ) (code : Block) → block_in (slice_get gs.graphs f) b ≡ Some code → ReadsOwn code }
{}
