// Laws of the least annotation of a program.
ghost use Rattle.std.specs.Prelude.{◌≤◌};
ghost use Rattle.rpy_tree.specs.declared.program.Program.{Program};
ghost use Rattle.rpy_resolved.specs.declared.tree.Resolved.{Resolved};
ghost use Rattle.resolved_meaning.specs.Trees.{program_of};
ghost use Rattle.flow_graph.specs.declared.graph.Graphs.{Graphs};
ghost use Rattle.flow_graph.specs.Whole.{CountFrom};
ghost use Rattle.flow_space.specs.Placed.{NodesAt};
ghost use Rattle.flow_space.specs.Trees.{functions_of};
ghost use Rattle.class_desc.specs.Tables.{tables};
ghost use Rattle.ann_lattice.specs.Assign.{Assignment, Closed, Free, Fits, IsLeast as IsLeastIn};
ghost use Rattle.ann_laws.specs.Rows.{HasClasses};
ghost use Rattle.ann_rules.specs.Rules.{rules};
ghost use Rattle.ann_needs.specs.View.{nowhere, whole};
ghost use Rattle.ann_layout.specs.Layout.{plan, planned};
ghost use Rattle.ann_places.specs.Spots.{spots, start};
ghost use Rattle.ann_grown.specs.Partial.{NoneFree};
ghost use Rattle.ann_tree.specs.Annotation.{Annotation};
ghost use Rattle.ann_read.specs.Reading.{reading};
ghost use Rattle.ann_read.specs.Sound.{AreSound};
ghost use Rattle.ann_least.specs.Least.{IsAnnotation, IsLeast};

/// Of graphs that `flow_space` makes of a program with bound names, the least assignment that is closed
/// under all that they ask and free of conflict, read at the nodes of the program's trees, is the least
/// annotation of these trees.
pub fn the_least_of_graphs_is_that_of_trees()
    ensures { (p : Program) (gs : Graphs) (r : Resolved) → NodesAt r gs → CountFrom 0 gs.graphs → AreSound (whole (plan p gs (tables p))) (functions_of r) → HasClasses (tables p) → (planned p gs (tables p)).cells ≤ nowhere → (planned p gs (tables p)).marks ≤ nowhere → (w : Assignment) → Fits (tables p).classes (start (planned p gs (tables p))) w → Closed (tables p).classes (rules (whole (plan p gs (tables p)))) w → Free (spots (plan p gs (tables p))) w → IsLeastIn (tables p).classes (rules (whole (plan p gs (tables p)))) (spots (plan p gs (tables p))) (start (planned p gs (tables p))) w → IsLeast (whole (plan p gs (tables p))) (program_of r).sites (functions_of r) (start (planned p gs (tables p))) (reading (whole (plan p gs (tables p))) w) }
{}

/// Where no assignment to these graphs is closed and free, the trees have no annotation.
pub fn trees_have_none_where_graphs_have_none()
    ensures { (p : Program) (gs : Graphs) (r : Resolved) → NodesAt r gs → CountFrom 0 gs.graphs → AreSound (whole (plan p gs (tables p))) (functions_of r) → HasClasses (tables p) → (planned p gs (tables p)).cells ≤ nowhere → (planned p gs (tables p)).marks ≤ nowhere → NoneFree (whole (plan p gs (tables p))) (spots (plan p gs (tables p))) (start (planned p gs (tables p))) → (a : Annotation) → IsAnnotation (whole (plan p gs (tables p))) (program_of r).sites (functions_of r) (start (planned p gs (tables p))) a → ⊥ }
{}
