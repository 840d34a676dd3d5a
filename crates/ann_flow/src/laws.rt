// A law of annotations of the graphs that are made of a program.
ghost use Rattle.rpy_tree.specs.declared.program.Program.{Program};
ghost use Rattle.rpy_resolved.specs.declared.tree.Resolved.{Resolved};
ghost use Rattle.resolved_meaning.specs.Trees.{program_of};
ghost use Rattle.flow_graph.specs.declared.graph.Graphs.{Graphs};
ghost use Rattle.flow_graph.specs.Whole.{CountFrom};
ghost use Rattle.flow_space.specs.Placed.{NodesAt};
ghost use Rattle.flow_space.specs.Trees.{functions_of};
ghost use Rattle.class_desc.specs.Tables.{Tables};
ghost use Rattle.ann_lattice.specs.Assign.{Assignment, Closed, Free, Fits};
ghost use Rattle.ann_laws.specs.Rows.{HasClasses};
ghost use Rattle.ann_rules.specs.Rules.{rules};
ghost use Rattle.ann_needs.specs.View.{whole};
ghost use Rattle.ann_layout.specs.Layout.{plan, planned};
ghost use Rattle.ann_places.specs.Spots.{spots, start};
ghost use Rattle.ann_tree.specs.Closed.{IsClosed};
ghost use Rattle.ann_read.specs.Reading.{reading};
ghost use Rattle.ann_read.specs.Sound.{AreSound};

/// Of graphs that `flow_space` makes of a program with bound names, each assignment that is closed under
/// all that they ask and free of conflict, read at the nodes of the program's trees, is closed under all
/// that the trees ask, and free of conflict.
pub fn closed_flow_graphs_give_closed_trees()
    ensures { (p : Program) (gs : Graphs) (t : Tables) (r : Resolved) → NodesAt r gs → CountFrom 0 gs.graphs → AreSound (whole (plan p gs t)) (functions_of r) → HasClasses t → (w : Assignment) → Fits t.classes (start (planned p gs t)) w → Closed t.classes (rules (whole (plan p gs t))) w → Free (spots (plan p gs t)) w → IsClosed (whole (plan p gs t)) (program_of r).sites (reading (whole (plan p gs t)) w) (functions_of r) }
{}
