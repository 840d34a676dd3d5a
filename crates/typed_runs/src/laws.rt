// Laws of runs of programs that have types.
ghost use Rattle.typed_runs.specs.Graphs.{GraphsAreDone, WhatIsAskedForStands};
ghost use Rattle.typed_runs.specs.Programs.{CatchingProgramsRun, TypedProgramsRun};

/// What conversions and tests ask for stands in each program that has types.
pub fn what_is_asked_for_stands()
    ensures { WhatIsAskedForStands }
{}

/// The graph of each function that is reached is done, where its blocks that catch are, its parameters stand in its first variables, and operations that have types are
/// written as what they do.
pub fn graphs_are_done()
    ensures { GraphsAreDone }
{}

/// The whole run of a program whose parts are done, exits that catch among them, ends from its start as that of its flow graphs does, where that ends.
pub fn catching_programs_run()
    ensures { CatchingProgramsRun }
{}

/// So does that of a program that passed its checks.
pub fn typed_programs_run()
    ensures { TypedProgramsRun }
{}
