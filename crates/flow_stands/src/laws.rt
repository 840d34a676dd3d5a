// Laws of flow graphs that stand for the functions of a program.
ghost use Rattle.std.specs.Prelude.{◌≡◌, ℕ, ◌+◌, ◌^◌, ◌<◌, List};
ghost use Rattle.rpy_meaning.specs.Tree.{Program};
ghost use Rattle.rpy_meaning.specs.Meaning.{Run, mean};
ghost use Rattle.rpy_meaning.specs.Moments.{held_by, references_of, moment, Few};
ghost use Rattle.flow_graph.specs.declared.graph.Graphs.{Graphs};
ghost use Rattle.flow_meaning.specs.Meaning.{GMeans};
ghost use Rattle.flow_meaning.specs.Moments.{IsMoment};
ghost use Rattle.flow_stands.specs.Stands.{Stand};
ghost use Rattle.flow_stands.specs.Follows.{HasBuiltins, EndsLike, UsesNoMore};

/// Graphs that stand for the functions of a program have, for each list of arguments and each bound
/// on steps, an ending: that of the program, with the same objects, output and steps left.
pub fn graphs_have_an_ending()
    ensures { (p : Program) (gs : Graphs) → HasBuiltins p → Stand p gs → (args : List (List ℕ)) (n : ℕ) → (q : Run) × GMeans p gs args n q × EndsLike q (mean p args n) }
{}

/// They have no other ending.
pub fn graphs_end_like_their_program()
    ensures { (p : Program) (gs : Graphs) → HasBuiltins p → Stand p gs → (args : List (List ℕ)) (n : ℕ) (q : Run) → GMeans p gs args n q → EndsLike q (mean p args n) }
{}

/// Where steps run out, what the graphs still use holds no more than what the program holds there.
pub fn graphs_use_no_more()
    ensures { (p : Program) (gs : Graphs) → HasBuiltins p → Stand p gs → (args : List (List ℕ)) (n : ℕ) (q : Run) → GMeans p gs args n q → UsesNoMore p q (mean p args n) }
{}

/// At each moment of the program's run, by its number, the run of the graphs stands: it is as the
/// program's then, with the same objects, output and steps left.
pub fn graphs_have_moments()
    ensures { (p : Program) (gs : Graphs) → HasBuiltins p → Stand p gs → (args : List (List ℕ)) (n m : ℕ) → (q : Run) × IsMoment p gs args n m q × EndsLike q (moment p args n m) }
{}

/// At each moment of the run of the graphs it stands as the program's does at the moment with that
/// number.
pub fn graphs_stand_as_their_program()
    ensures { (p : Program) (gs : Graphs) → HasBuiltins p → Stand p gs → (args : List (List ℕ)) (n m : ℕ) (q : Run) → IsMoment p gs args n m q → EndsLike q (moment p args n m) }
{}

/// What it then still uses holds no more than what the program holds there.
pub fn graphs_use_no_more_on_the_way()
    ensures { (p : Program) (gs : Graphs) → HasBuiltins p → Stand p gs → (args : List (List ℕ)) (n m : ℕ) (q : Run) → IsMoment p gs args n m q → UsesNoMore p q (moment p args n m) }
{}

/// So where the program holds few values and references at each of its moments, the graphs do so at
/// each of theirs.
pub fn graphs_hold_few()
    ensures { (p : Program) (gs : Graphs) → HasBuiltins p → Stand p gs → (args : List (List ℕ)) (n m : ℕ) (q : Run) → Few p args n → IsMoment p gs args n m q → held_by p q + references_of p q < 2 ^ 58 }
{}
