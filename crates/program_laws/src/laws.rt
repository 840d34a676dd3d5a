// Laws of the graphs that are made of the program that texts are.
ghost use Rattle.std.specs.Prelude.{◌≡◌, ◌+◌, ◌^◌, ◌<◌, ℕ, List, Some};
ghost use Rattle.rpy_tree.specs.declared.program.Program.{Program};
ghost use Rattle.rpy_meaning.specs.Meaning.{Run, mean};
ghost use Rattle.rpy_meaning.specs.Moments.{held_by, references_of, moment, Few};
ghost use Rattle.rpy_nodes.specs.declared.listing.Named.{Named};
ghost use Rattle.rpy_names.specs.Resolve.{prog};
ghost use Rattle.rpy_front.specs.Modules.{AreModules};
ghost use Rattle.resolved_laws.specs.Meant.{meant_by};
ghost use Rattle.flow_graph.specs.declared.graph.Graphs.{Graphs};
ghost use Rattle.flow_meaning.specs.Meaning.{GMeans};
ghost use Rattle.flow_meaning.specs.Moments.{IsMoment};
ghost use Rattle.flow_stands.specs.Follows.{EndsLike, UsesNoMore};
ghost use Rattle.flow_space.specs.Placed.{StandFor};

use flow_laws::{
    flow_graphs_end_as_their_program, flow_graphs_have_an_ending, flow_graphs_have_moments,
    flow_graphs_hold_few, flow_graphs_stand_as_their_program, flow_graphs_use_no_more,
    flow_graphs_use_no_more_on_the_way,
};
use front_laws::modules_have_no_inner_classes;
use names_forest::{builtins_stand_below_exception, programs_have_their_functions};

/// Texts are modules, these make a program, and graphs stand for it: that is all that is asked, and what
/// `rpyc` ensures of the graphs that it writes. (Of `Answer.Draws` the first is `make.are`, the second
/// `make.is`, the third `draws.types.stand`.) For each list of arguments and each bound on steps the graphs
/// have an ending: that of the program which the meaning makes of the modules, with the same objects,
/// output and steps left.
pub fn graphs_of_texts_have_an_ending()
    ensures { (sources names : List (List ℕ)) (modules : List Named) (p : Program) (gs : Graphs) → AreModules sources names modules → prog modules ≡ Some p → StandFor p gs → (args : List (List ℕ)) (n : ℕ) → (q : Run) × GMeans (meant_by p) gs args n q × EndsLike q (mean (meant_by p) args n) }
{
    modules_have_no_inner_classes();
    programs_have_their_functions();
    builtins_stand_below_exception();
    flow_graphs_have_an_ending();
}

/// They have no other ending.
pub fn graphs_of_texts_end_as_their_program()
    ensures { (sources names : List (List ℕ)) (modules : List Named) (p : Program) (gs : Graphs) → AreModules sources names modules → prog modules ≡ Some p → StandFor p gs → (args : List (List ℕ)) (n : ℕ) (q : Run) → GMeans (meant_by p) gs args n q → EndsLike q (mean (meant_by p) args n) }
{
    modules_have_no_inner_classes();
    programs_have_their_functions();
    builtins_stand_below_exception();
    flow_graphs_end_as_their_program();
}

/// Where steps run out, what the graphs still use holds no more than what the program holds there.
pub fn graphs_of_texts_use_no_more()
    ensures { (sources names : List (List ℕ)) (modules : List Named) (p : Program) (gs : Graphs) → AreModules sources names modules → prog modules ≡ Some p → StandFor p gs → (args : List (List ℕ)) (n : ℕ) (q : Run) → GMeans (meant_by p) gs args n q → UsesNoMore (meant_by p) q (mean (meant_by p) args n) }
{
    modules_have_no_inner_classes();
    programs_have_their_functions();
    builtins_stand_below_exception();
    flow_graphs_use_no_more();
}

/// At each moment of the program's run, by its number, the run of the graphs stands, and is as the
/// program's then.
pub fn graphs_of_texts_have_moments()
    ensures { (sources names : List (List ℕ)) (modules : List Named) (p : Program) (gs : Graphs) → AreModules sources names modules → prog modules ≡ Some p → StandFor p gs → (args : List (List ℕ)) (n m : ℕ) → (q : Run) × IsMoment (meant_by p) gs args n m q × EndsLike q (moment (meant_by p) args n m) }
{
    modules_have_no_inner_classes();
    programs_have_their_functions();
    builtins_stand_below_exception();
    flow_graphs_have_moments();
}

/// At each moment of the run of the graphs it stands as the program's does at the moment with that
/// number.
pub fn graphs_of_texts_stand_as_their_program()
    ensures { (sources names : List (List ℕ)) (modules : List Named) (p : Program) (gs : Graphs) → AreModules sources names modules → prog modules ≡ Some p → StandFor p gs → (args : List (List ℕ)) (n m : ℕ) (q : Run) → IsMoment (meant_by p) gs args n m q → EndsLike q (moment (meant_by p) args n m) }
{
    modules_have_no_inner_classes();
    programs_have_their_functions();
    builtins_stand_below_exception();
    flow_graphs_stand_as_their_program();
}

/// What it then still uses holds no more than what the program holds there.
pub fn graphs_of_texts_use_no_more_on_the_way()
    ensures { (sources names : List (List ℕ)) (modules : List Named) (p : Program) (gs : Graphs) → AreModules sources names modules → prog modules ≡ Some p → StandFor p gs → (args : List (List ℕ)) (n m : ℕ) (q : Run) → IsMoment (meant_by p) gs args n m q → UsesNoMore (meant_by p) q (moment (meant_by p) args n m) }
{
    modules_have_no_inner_classes();
    programs_have_their_functions();
    builtins_stand_below_exception();
    flow_graphs_use_no_more_on_the_way();
}

/// So where the program holds few values and references at each of its moments, the graphs do so at
/// each of theirs.
pub fn graphs_of_texts_hold_few()
    ensures { (sources names : List (List ℕ)) (modules : List Named) (p : Program) (gs : Graphs) → AreModules sources names modules → prog modules ≡ Some p → StandFor p gs → (args : List (List ℕ)) (n m : ℕ) (q : Run) → Few (meant_by p) args n → IsMoment (meant_by p) gs args n m q → held_by (meant_by p) q + references_of (meant_by p) q < 2 ^ 58 }
{
    modules_have_no_inner_classes();
    programs_have_their_functions();
    builtins_stand_below_exception();
    flow_graphs_hold_few();
}
