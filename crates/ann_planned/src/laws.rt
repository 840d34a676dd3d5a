// Laws of annotations of trees that are read where the parts of a program stand.
ghost use Rattle.std.specs.Prelude.{◌≡◌, List, length};
ghost use Rattle.rpy_tree.specs.declared.program.Program.{Program};
ghost use Rattle.rpy_meaning.specs.Tree as tree;
ghost use Rattle.flow_graph.specs.declared.graph.Graphs.{Graphs};
ghost use Rattle.flow_trees.specs.Tree.{Function};
ghost use Rattle.class_desc.specs.Tables.{Tables};
ghost use Rattle.ann_lattice.specs.Assign.{Assignment, Closed, Free, Fits};
ghost use Rattle.ann_laws.specs.Rows.{HasClasses};
ghost use Rattle.ann_rules.specs.Rules.{rules};
ghost use Rattle.ann_needs.specs.View.{whole};
ghost use Rattle.ann_layout.specs.Layout.{plan, planned};
ghost use Rattle.ann_places.specs.Spots.{spots, start};
ghost use Rattle.ann_tree.specs.Annotation.{Annotation};
ghost use Rattle.ann_tree.specs.Closed.{IsClosed};
ghost use Rattle.ann_read.specs.Reading.{IsReading, HasGraphs, HasCells, HasSpots};

/// Blocks have their marks, and variables their cells and marks.
pub fn planned_parts_have_cells()
    ensures { (p : Program) (gs : Graphs) (t : Tables) (w : Assignment) → length w.cells ≡ (planned p gs t).cells → length w.marks ≡ (planned p gs t).marks → HasCells (whole (plan p gs t)) w }
{}

/// No conflict may stand in parameters, results and attributes.
pub fn planned_parts_may_not_conflict()
    ensures { (p : Program) (gs : Graphs) (t : Tables) → HasSpots (whole (plan p gs t)) (spots (plan p gs t)) }
{}

/// Where graphs stand for the functions of a program, and an assignment to the places of its parts is
/// closed under all that the graphs ask and free of conflict, each annotation that is read from it is
/// closed under all that the trees ask, and free of conflict.
pub fn closed_plans_give_closed_trees()
    ensures { (p : Program) (gs : Graphs) (t : Tables) (program : tree.Program) (functions : List Function) → HasGraphs program gs (whole (plan p gs t)) functions → HasClasses t → (a : Annotation) → Fits t.classes (start (planned p gs t)) a.parts → Closed t.classes (rules (whole (plan p gs t))) a.parts → Free (spots (plan p gs t)) a.parts → IsReading (whole (plan p gs t)) a → IsClosed (whole (plan p gs t)) program.sites a functions }
{}
