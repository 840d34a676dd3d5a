// Laws of the blocks of flow graphs.
ghost use Rattle.graph_shapes.specs.Beginnings.{FunctionsBegin, GraphsAreOwn, ParametersAreCounted};
ghost use Rattle.graph_shapes.specs.Raising.{ExceptionsPass, NothingIsCaught};
ghost use Rattle.graph_shapes.specs.Shapes.{BlocksHaveShapes};

/// In the flow graphs of a program with bound names each block has consecutive inputs, and at most one operation, of these, with a
/// result that is new. What it passes on has been set; each of its links leads to a block that is there, behind the first one, and
/// passes on as many as that has inputs. An exception goes on with inputs alone.
pub fn blocks_have_shapes()
    ensures { BlocksHaveShapes }
{}

/// Behind an exit that catches nothing, what is thrown leaves the graph: where any exception has a way, it goes on alone to a block
/// that does nothing but raise it.
pub fn exceptions_pass()
    ensures { ExceptionsPass }
{}

/// An exit catches nothing where it has no handler, and any exception goes on to the block by which exceptions leave a function.
pub fn nothing_is_caught()
    ensures { NothingIsCaught }
{}

/// Graphs that are counted are those of the functions with their numbers.
pub fn graphs_are_own()
    ensures { GraphsAreOwn }
{}

/// The first block of a function's graph takes its locals, at least as many as it has parameters.
pub fn functions_begin()
    ensures { FunctionsBegin }
{}

/// The inputs of the first block of a graph are 0, 1, 2 and so on.
pub fn parameters_are_counted()
    ensures { ParametersAreCounted }
{}
