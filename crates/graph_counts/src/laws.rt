// Laws of the variables of flow graphs and of the parameters of functions.
ghost use Rattle.graph_counts.specs.Counts.{BlocksAreApart, ParametersAreThere, VariablesAreThere};

/// In the annotation that is read for the flow graphs of a program, a graph has as many variables as its blocks need, and all that
/// its blocks take, set, read and pass on are among them.
pub fn variables_are_there()
    ensures { VariablesAreThere }
{}

/// Each variable of a graph belongs to one of its blocks.
pub fn blocks_are_apart()
    ensures { BlocksAreApart }
{}

/// In that annotation a function has an element for each of its parameters.
pub fn parameters_are_there()
    ensures { ParametersAreThere }
{}
