// Laws of the checks of a program and of the annotations of its trees.
ghost use Rattle.std.specs.Prelude.{ℕ};
ghost use Rattle.rpy_tree.specs.declared.program.Program.{Program};
ghost use Rattle.flow_graph.specs.declared.graph.Graphs.{Graphs};
ghost use Rattle.ann_element.specs.declared.annotation.Annotation as element;
ghost use Rattle.ann_tree.specs.Annotation.{Annotation};
ghost use Rattle.rpy_checked.specs.declared.fault.CheckFault.{CheckFault};
ghost use Rattle.rpy_checked.specs.declared.fault.CheckFault.TheVariants.{Typing};
ghost use Rattle.rpy_checked.specs.declared.fault.TypeKind.{TypeKind};
ghost use Rattle.rpy_checked.specs.Settles.{HasTypes, HasConflict, HasFault};
ghost use Rattle.check_laws.specs.Trees.{HasTrees, HasElements, ShowsNoFault, ShowsLeastFault, IsOfTrees, IsLeastOfTrees};

use typing_laws::the_least_fault_is_that_of_trees;

/// Where the checks find that a program has types, the annotation which they settled, read at the nodes of
/// the trees with bound names, is the least annotation of these trees.
pub fn types_are_of_the_least_annotation_of_the_trees()
    ensures { (p : Program) (gs : Graphs) (n : element.Annotation) (types : HasTypes p gs n) → HasTrees p gs → IsLeastOfTrees p gs types.stand types.state }
{}

/// The elements of nodes that are answered are its elements.
pub fn nodes_have_the_elements_of_the_trees()
    ensures { (p : Program) (gs : Graphs) (n : element.Annotation) (types : HasTypes p gs n) → HasTrees p gs → HasElements p gs n types.state }
{}

/// That annotation shows no fault of types.
pub fn types_leave_trees_without_fault()
    ensures { (p : Program) (gs : Graphs) (n : element.Annotation) (types : HasTypes p gs n) → HasTrees p gs → ShowsNoFault p gs types.state }
{
    the_least_fault_is_that_of_trees();
}

/// Where they find a fault of types, it is one of the least annotation of the trees.
pub fn faults_are_of_the_least_annotation_of_the_trees()
    ensures { (p : Program) (e : CheckFault) (fault : HasFault p e) → HasTrees p fault.graphs → IsLeastOfTrees p fault.graphs fault.stand fault.state }
{}

/// It is the least that this annotation shows: none has a smaller node, or a smaller number at its node.
/// It is told by the file and the line of its node, and its kind.
pub fn the_least_fault_of_the_trees_is_told()
    ensures { (p : Program) (file line : ℕ) (k : TypeKind) (fault : HasFault p (Typing file line k)) → HasTrees p fault.graphs → ShowsLeastFault p fault.graphs fault.state file line k }
{
    the_least_fault_is_that_of_trees();
}

/// Where they find a conflict, the trees have no annotation.
pub fn conflicts_leave_trees_without_annotation()
    ensures { (p : Program) (e : CheckFault) (conflict : HasConflict p e) → HasTrees p conflict.graphs → (a : Annotation) → IsOfTrees p conflict.graphs conflict.stand a → ⊥ }
{}
