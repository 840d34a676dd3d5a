// Laws of the parts of programs that are lowered.
ghost use Rattle.graph_parts.specs.Done.{GraphsBegin, LinksAreDone, OperationsAreDone, ParametersAreTaken};

/// Of a block of a program's graph that catches nothing the operations are done where each is written as what it does: its result is
/// a variable that is new, and what it throws leaves the graph.
pub fn operations_are_done()
    ensures { OperationsAreDone }
{}

/// A link of such a block is done where the block that it leads to is reached, and what it passes on is converted.
pub fn links_are_done()
    ensures { LinksAreDone }
{}

/// The first block of a graph has the parameters in its first variables.
pub fn parameters_are_taken()
    ensures { ParametersAreTaken }
{}

/// A graph has the number of its function, and a first block.
pub fn graphs_begin()
    ensures { GraphsBegin }
{}
