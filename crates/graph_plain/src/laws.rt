// Laws of the narrowings of the flow graphs of programs.
ghost use Rattle.graph_plain.specs.Made.{MadeTreesArePlain, ProgramsTellTheTruth};

/// No operation of the trees that are made of a program narrows: what tests tell stands in flow graphs alone.
pub fn made_trees_are_plain()
    ensures { MadeTreesArePlain }
{}

/// Of the flow graphs of a program, wherever a run of it from the start stands before an operation that narrows a local by what a test
/// found, that is true of the local.
pub fn programs_tell_the_truth()
    ensures { ProgramsTellTheTruth }
{}
