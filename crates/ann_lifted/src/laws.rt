// Laws of annotations of trees that are lifted to the graphs that stand for them.
ghost use Rattle.std.specs.Prelude.{ℕ, List, Option};
ghost use Rattle.rpy_tree.specs.Value.{Object};
ghost use Rattle.rpy_meaning.specs.Tree.{Program};
ghost use Rattle.flow_graph.specs.declared.graph.Graphs.{Graphs};
ghost use Rattle.flow_trees.specs.Tree.{Function};
ghost use Rattle.ann_lattice.specs.Assign.{Assignment, at};
ghost use Rattle.ann_lattice.specs.Laws.{IsTree, IsFormed};
ghost use Rattle.ann_rules.specs.Program.{Whole};
ghost use Rattle.ann_tree.specs.Annotation.{Annotation};
ghost use Rattle.ann_tree.specs.Closed.{IsClosed};
ghost use Rattle.ann_read.specs.Reading.{HasGraphs, HasOps};
ghost use Rattle.ann_lift.specs.Lift.{IsLift};
ghost use Rattle.ann_lift.specs.Spots.{Spots};
ghost use Rattle.ann_lifted.specs.Lifted.{ReadOwn, HasNoOthers, IsLifted};

/// Where graphs stand for the functions of a program and their blocks read their own variables alone, and
/// an annotation is closed under all that its trees ask, free of conflict and well-formed in its parts,
/// there are well-formed elements at the blocks of the graphs so that each assignment in which parts
/// stand as in the annotation, and variables and blocks as these elements, is closed under all that the
/// graphs ask; results of operations are in no conflict there, and below the elements of their nodes.
pub fn closed_trees_can_be_lifted()
    ensures { (p : Whole) (sites : List (Option Object)) (a : Annotation) (gs : Graphs) (program : Program) (functions : List Function) → IsTree p.tables.classes → HasGraphs program gs p functions → HasOps p functions → ReadOwn p → IsClosed p sites a functions → ((c : ℕ) → IsFormed (at a.parts c)) → (at_blocks : ℕ → Spots) × ((f b j : ℕ) → IsFormed ((at_blocks f b).element j)) × ((w : Assignment) → IsLift p a at_blocks w → HasNoOthers p w → IsLifted p a w) }
{}
