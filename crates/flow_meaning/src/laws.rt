// Laws of what flow graphs mean.
ghost use Rattle.std.specs.Prelude.{◌≡◌, ℕ, List};
ghost use Rattle.rpy_meaning.specs.Tree.{Program};
ghost use Rattle.rpy_meaning.specs.Meaning.{Run};
ghost use Rattle.flow_graph.specs.declared.graph.Graphs.{Graphs};
ghost use Rattle.flow_meaning.specs.Meaning.{GMeans};

/// Flow graphs have at most one meaning, for each list of arguments and each bound on steps: how the
/// run ends, what it holds, and the world then.
#[tactic(auto, using(crate::proofs::One::one_meaning))]
pub fn graphs_have_one_meaning()
    ensures { (p : Program) (gs : Graphs) (args : List (List ℕ)) (n : ℕ) (r q : Run) → GMeans p gs args n r → GMeans p gs args n q → r ≡ q }
{}
