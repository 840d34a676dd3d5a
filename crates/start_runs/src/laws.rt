// Laws of whole runs.
ghost use Rattle.start_runs.specs.Programs.{ProgramsAreGivenArguments, ProgramsRunFromTheStart};

/// At the start of a run of every program that is made of flow graphs the entry point is given the list of arguments, over
/// memory that represents the first objects, the lists and dicts of modules among them.
pub fn programs_are_given_arguments()
    ensures { ProgramsAreGivenArguments }
{}

/// So the whole run of such a program ends as that of its flow graphs does, where that ends and the parts of the program are
/// done.
pub fn programs_run_from_the_start()
    ensures { ProgramsRunFromTheStart }
{}
