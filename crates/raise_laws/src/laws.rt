// Laws of graphs that raise.
ghost use Rattle.raise_laws.specs.Helpers.{RaisingHelpersFollow};
ghost use Rattle.raise_laws.specs.Raising.{CallsReturn, CallsRaise, CallsLack};

/// A call of a graph that raises what is covered comes back, or lacks steps, where the graph that fails does, and else it raises the
/// exception of the failure, over memory as it was, or fails.
pub fn raising_graphs_follow()
    ensures returns { CallsReturn }
    ensures raises { CallsRaise }
    ensures lacks { CallsLack }
{}

/// Where a helper that fails does what an operation answers, in every program that has it, the one that raises what is covered
/// does so too, but throws the exceptions of these failures.
pub fn raising_helpers_follow()
    ensures { RaisingHelpersFollow }
{}
