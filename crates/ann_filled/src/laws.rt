// Laws of assignments that are made of what stands at the blocks of graphs.
ghost use Rattle.std.specs.Prelude.{◌≡◌, ◌≤◌, ℕ, length, Some, slice_get};
ghost use Rattle.rpy_tree.specs.declared.program.Program.{Program};
ghost use Rattle.flow_graph.specs.declared.graph.Graph.{Graph};
ghost use Rattle.flow_graph.specs.declared.graph.Graphs.{Graphs};
ghost use Rattle.flow_graph.specs.Owners.{HaveOwnVariables};
ghost use Rattle.class_desc.specs.Tables.{Tables};
ghost use Rattle.ann_lattice.specs.Assign.{at};
ghost use Rattle.ann_lattice.specs.Laws.{IsFormed};
ghost use Rattle.ann_needs.specs.View.{nowhere, whole};
ghost use Rattle.ann_layout.specs.Layout.{plan, planned};
ghost use Rattle.ann_tree.specs.Annotation.{Annotation};
ghost use Rattle.ann_lift.specs.Spots.{Spots};
ghost use Rattle.ann_lift.specs.Lift.{IsLift};
ghost use Rattle.ann_filled.specs.Filled.{filled};

/// Where no two blocks of a graph have a variable in common, and what does not exist has neither a cell
/// nor a mark, the parts of an annotation and what stands at the blocks make one assignment, in which the
/// parts stand as in the annotation, and the variables and blocks as what stands at the blocks.
pub fn plans_can_be_filled()
    ensures { (p : Program) (gs : Graphs) (t : Tables) → ((f : ℕ) (graph : Graph) → slice_get gs.graphs f ≡ Some graph → HaveOwnVariables graph.blocks) → (planned p gs t).cells ≤ nowhere → (planned p gs t).marks ≤ nowhere → (a : Annotation) → length a.parts.cells ≡ (planned p gs t).cells → length a.parts.marks ≡ (planned p gs t).marks → ((c : ℕ) → IsFormed (at a.parts c)) → (at_blocks : ℕ → Spots) → ((f b j : ℕ) → IsFormed ((at_blocks f b).element j)) → IsLift (whole (plan p gs t)) a at_blocks (filled p gs t a at_blocks) }
{}
