// Laws of the list of arguments.
ghost use Rattle.argument_laws.specs.Arguments.{ArgumentsAreGivenAtStart, ArgumentsAreListed};
ghost use Rattle.argument_laws.specs.Programs.{ProgramsAreGivenArguments, ProgramsHaveArguments, ProgramsRunWithArguments};

/// A call of the graph that the lowering writes for the list of arguments gives a new list of them, as strings, and costs
/// nothing, over any memory that represents a heap.
pub fn arguments_are_listed()
    ensures { ArgumentsAreListed }
{}

/// So it is at the start of a run, where static memory represents the objects that are there before, and the entry point
/// takes one list of strings.
pub fn arguments_are_given()
    ensures { ArgumentsAreGivenAtStart }
{}

/// Every program that is made of flow graphs has the graph, and is given its arguments so; of what is there before, builtin
/// exceptions alone are seen.
pub fn programs_are_given_arguments()
    ensures have { ProgramsHaveArguments }
    ensures given { ProgramsAreGivenArguments }
{}

/// So the whole run of such a program ends as that of its flow graphs does, where that ends and the parts of the program are
/// done.
pub fn programs_run_with_arguments()
    ensures { ProgramsRunWithArguments }
{}
