// Laws of what is told of graphs.
ghost use Rattle.told_laws.specs.Tests.{GraphsGiveValues, QuietGraphsNeverThrow};

/// Where each block of the graphs that are told not to raise raises nothing, and calls only such graphs, no exception comes out of a
/// call of them.
pub fn quiet_graphs_never_throw()
    ensures { QuietGraphsNeverThrow }
{}

/// Where no graph with a result has a block that gives nothing back, what is given back by them is set.
pub fn graphs_give_values()
    ensures { GraphsGiveValues }
{}
