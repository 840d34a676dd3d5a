// Laws of annotations of trees that are read from the graphs that stand for them.
ghost use Rattle.std.specs.Prelude.{ℕ, Bool, List};
ghost use Rattle.rpy_meaning.specs.Tree.{Program};
ghost use Rattle.flow_graph.specs.declared.graph.Graphs.{Graphs};
ghost use Rattle.flow_trees.specs.Tree.{Function};
ghost use Rattle.ann_lattice.specs.Assign.{Assignment, Closed, Free, Fits};
ghost use Rattle.ann_laws.specs.Rows.{HasClasses};
ghost use Rattle.ann_rules.specs.Program.{Whole};
ghost use Rattle.ann_rules.specs.Rules.{rules};
ghost use Rattle.ann_rules.specs.Hold.{IsPlaced};
ghost use Rattle.ann_tree.specs.Annotation.{Annotation};
ghost use Rattle.ann_tree.specs.Closed.{HasPlaces, IsClosed};
ghost use Rattle.ann_read.specs.Reading.{HasOps, HaveOwnNodes, IsReading, HasGraphs, HasCells, HasSpots, AreApart, reading};

/// Where graphs stand for the functions of a program, and an assignment is closed under all that the
/// graphs ask and free of conflict, each annotation that is read from it is closed under all that the
/// trees ask, and free of conflict.
pub fn closed_graphs_give_closed_trees()
    ensures { (program : Program) (gs : Graphs) (p : Whole) (functions : List Function) → HasGraphs program gs p functions → HasClasses p.tables → (spots : ℕ → Bool) (start : Assignment) → IsPlaced p spots start → HasSpots p spots → (a : Annotation) → HasCells p a.parts → HasPlaces p program.sites a functions → Fits p.tables.classes start a.parts → Closed p.tables.classes (rules p) a.parts → Free spots a.parts → IsReading p a → IsClosed p program.sites a functions }
{}

/// Where no node has its value from two graphs, an assignment is read by the first operation which gives
/// the value of each node.
pub fn assignments_can_be_read()
    ensures { (p : Whole) (w : Assignment) → AreApart p → IsReading p (reading p w) }
{}

/// Where no node has its value in two functions, and the graph of each has no other operations than its
/// tree, no node has its value from two graphs.
pub fn nodes_of_functions_are_apart()
    ensures { (p : Whole) (functions : List Function) → HasOps p functions → HaveOwnNodes functions → AreApart p }
{}
