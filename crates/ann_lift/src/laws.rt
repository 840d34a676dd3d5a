// Laws of annotations of trees at the graphs that stand for them.
ghost use Rattle.std.specs.Prelude.{◌≡◌, ℕ, List, Option, Some, slice_get};
ghost use Rattle.rpy_tree.specs.Value.{Object};
ghost use Rattle.rpy_meaning.specs.Tree.{Program};
ghost use Rattle.rpy_meaning.specs.declared.row.RowOp.{RowOp};
ghost use Rattle.flow_graph.specs.declared.graph.Graphs.{Graphs};
ghost use Rattle.flow_trees.specs.Tree.{Function};
ghost use Rattle.flow_trees.specs.Marks.{Stand};
ghost use Rattle.ann_lattice.specs.Assign.{Assignment, at};
ghost use Rattle.ann_lattice.specs.Laws.{IsTree, IsFormed};
ghost use Rattle.ann_lattice.specs.Shape.{Shape};
ghost use Rattle.ann_rules.specs.Asks.{asks};
ghost use Rattle.ann_rules.specs.Program.{Whole};
ghost use Rattle.ann_rules.specs.Rules.{asked};
ghost use Rattle.ann_tree.specs.Annotation.{Annotation};
ghost use Rattle.ann_tree.specs.Closed.{IsClosed};
ghost use Rattle.ann_lift.specs.Alike.{AreAlike};
ghost use Rattle.ann_lift.specs.Spots.{Shown};

/// Where graphs stand for the functions of a program, and an annotation is closed under all that its
/// trees ask, free of conflict and well-formed in its parts, there are elements of the variables of each function's graph that meet,
/// block by block, what the graph asks: of the parts of the program, of the links, and of the values of
/// nodes.
pub fn closed_trees_show_what_stands_at_blocks()
    ensures { (p : Whole) (sites : List (Option Object)) (a : Annotation) (gs : Graphs) (program : Program) (functions : List Function) → IsTree p.tables.classes → Stand program gs functions → IsClosed p sites a functions → ((c : ℕ) → IsFormed (at a.parts c)) → (f : ℕ) (function : Function) → slice_get functions f ≡ Some function → Shown p a f sites gs function }
{}

/// What an operation asks of its result and of the parts of a program, it asks by these parts alone: an
/// assignment that differs in variables and blocks only asks the same.
pub fn operations_ask_by_parts_alone()
    ensures { (p : Whole) (a b : Assignment) → AreAlike p a b → (f : ℕ) (o : RowOp) (xs : List Shape) (node : ℕ) → (asked p a f o xs node ≡ asked p b f o xs node) × (asks p a o xs ≡ asks p b o xs) }
{}
