// Laws of the graphs that are made of a program.
ghost use Rattle.std.specs.Prelude.{◌≡◌, ◌+◌, ◌^◌, ◌<◌, ◌≤◌, ℕ, true, List, length, Some};
ghost use Rattle.rpy_tree.specs.declared.program.Program.{Program};
ghost use Rattle.rpy_tree.specs.declared.syntax.CmpOp.{CmpOp};
ghost use Rattle.rpy_tree.specs.Value.{Value};
ghost use Rattle.rpy_meaning.specs.declared.row.Covers.{Covers};
ghost use Rattle.rpy_meaning.specs.declared.row.RowOp.{RowOp};
ghost use Rattle.rpy_meaning.specs.declared.row.RowOp.TheVariants as row;
ghost use Rattle.rpy_meaning.specs.Tree.{Program as Tree};
ghost use Rattle.rpy_meaning.specs.World.{World};
ghost use Rattle.rpy_meaning.specs.Operations.{op};
ghost use Rattle.rpy_meaning.specs.Meaning.{Run, mean};
ghost use Rattle.rpy_meaning.specs.Moments.{held_by, references_of, moment, is_slight, Few};
ghost use Rattle.rpy_resolved.specs.Count.{function_count};
ghost use Rattle.resolved_laws.specs.Meant.{meant_by};
ghost use Rattle.resolver_laws.specs.Listing.{HasNoInnerClasses};
ghost use Rattle.flow_graph.specs.declared.graph.Graphs.{Graphs};
ghost use Rattle.flow_graph.specs.Values.{item, values};
ghost use Rattle.flow_laws.specs.Giving.{Gives};
ghost use Rattle.flow_laws.specs.Slight.{Leaves, Tells};
ghost use Rattle.flow_meaning.specs.Meaning.{GMeans};
ghost use Rattle.flow_meaning.specs.Moments.{IsMoment};
ghost use Rattle.flow_stands.specs.Follows.{HasBuiltins, EndsLike, UsesNoMore};
ghost use Rattle.flow_space.specs.Placed.{StandFor};

/// The graphs that `flow` makes of a program have an ending, for each list of arguments and each bound on
/// steps: that of the program which the meaning makes of the modules, with the same objects, output and
/// steps left. In the program no class stands within a class, it has a function for each that its modules
/// define, and the builtin exception classes stand below `Exception`.
pub fn flow_graphs_have_an_ending()
    ensures { (p : Program) (gs : Graphs) → StandFor p gs → HasNoInnerClasses p.modules → function_count p.modules ≤ length p.functions → HasBuiltins (meant_by p) → (args : List (List ℕ)) (n : ℕ) → (q : Run) × GMeans (meant_by p) gs args n q × EndsLike q (mean (meant_by p) args n) }
{}

/// They have no other ending.
pub fn flow_graphs_end_as_their_program()
    ensures { (p : Program) (gs : Graphs) → StandFor p gs → HasNoInnerClasses p.modules → function_count p.modules ≤ length p.functions → HasBuiltins (meant_by p) → (args : List (List ℕ)) (n : ℕ) (q : Run) → GMeans (meant_by p) gs args n q → EndsLike q (mean (meant_by p) args n) }
{}

/// Where steps run out, what the graphs still use holds no more than what the program holds there.
pub fn flow_graphs_use_no_more()
    ensures { (p : Program) (gs : Graphs) → StandFor p gs → HasNoInnerClasses p.modules → function_count p.modules ≤ length p.functions → HasBuiltins (meant_by p) → (args : List (List ℕ)) (n : ℕ) (q : Run) → GMeans (meant_by p) gs args n q → UsesNoMore (meant_by p) q (mean (meant_by p) args n) }
{}

/// At each moment of the program's run, by its number, the run of the graphs stands, and is as the
/// program's then.
pub fn flow_graphs_have_moments()
    ensures { (p : Program) (gs : Graphs) → StandFor p gs → HasNoInnerClasses p.modules → function_count p.modules ≤ length p.functions → HasBuiltins (meant_by p) → (args : List (List ℕ)) (n m : ℕ) → (q : Run) × IsMoment (meant_by p) gs args n m q × EndsLike q (moment (meant_by p) args n m) }
{}

/// At each moment of the run of the graphs it stands as the program's does at the moment with that
/// number.
pub fn flow_graphs_stand_as_their_program()
    ensures { (p : Program) (gs : Graphs) → StandFor p gs → HasNoInnerClasses p.modules → function_count p.modules ≤ length p.functions → HasBuiltins (meant_by p) → (args : List (List ℕ)) (n m : ℕ) (q : Run) → IsMoment (meant_by p) gs args n m q → EndsLike q (moment (meant_by p) args n m) }
{}

/// What it then still uses holds no more than what the program holds there.
pub fn flow_graphs_use_no_more_on_the_way()
    ensures { (p : Program) (gs : Graphs) → StandFor p gs → HasNoInnerClasses p.modules → function_count p.modules ≤ length p.functions → HasBuiltins (meant_by p) → (args : List (List ℕ)) (n m : ℕ) (q : Run) → IsMoment (meant_by p) gs args n m q → UsesNoMore (meant_by p) q (moment (meant_by p) args n m) }
{}

/// So where the program holds few values and references at each of its moments, the graphs do so at
/// each of theirs.
pub fn flow_graphs_hold_few()
    ensures { (p : Program) (gs : Graphs) → StandFor p gs → HasNoInnerClasses p.modules → function_count p.modules ≤ length p.functions → HasBuiltins (meant_by p) → (args : List (List ℕ)) (n m : ℕ) (q : Run) → Few (meant_by p) args n → IsMoment (meant_by p) gs args n m q → held_by (meant_by p) q + references_of (meant_by p) q < 2 ^ 58 }
{}

/// What `Graphs::variable_of` answers for a node is the result of an operation of a function's graph that
/// gives the value of the node, and a part with this node in the tree of that function does the operation.
pub fn variables_are_those_of_their_nodes()
    ensures { (p : Program) (gs : Graphs) (stand : StandFor p gs) (node i v : ℕ) → item (values node gs) i ≡ Some v → Gives stand.resolved gs node v }
{}

/// Operations that are no moments leave the world as it is, pay nothing and call nothing. Comparisons, behind which is
/// no moment, do so too, and give a truth value.
pub fn slight_operations_change_nothing()
    ensures slight { (p : Tree) (c : Covers) (o : RowOp) (vs : List Value) (w : World) → is_slight o ≡ true → Leaves w (op p c o vs w) }
    ensures compared { (p : Tree) (c : Covers) (f : CmpOp) (vs : List Value) (w : World) → Tells w (op p c (row.Compare f) vs w) }
{}
