// Laws of what is told of the graphs of a program.
ghost use Rattle.told_graphs.specs.Suffices.{LandingsSuffice, PartsSuffice, WaysSuffice};
ghost use Rattle.told_graphs.specs.Told.{BlocksAreFew, GraphsAlwaysGive, HandlersAreTested, ProgramsAreTold, QuietStaysQuiet, SilentGraphsAreClosed, TestsStand};

/// The graphs that are told not to raise raise nothing, and call by their numbers only such graphs, those that helpers call among them.
pub fn silent_graphs_are_closed()
    ensures { SilentGraphsAreClosed }
{}

/// What is told at any moment of the lowering not to raise is told so in the end.
pub fn quiet_stays_quiet()
    ensures { QuietStaysQuiet }
{}

/// No graph with a result has a block that gives nothing back.
pub fn graphs_always_give()
    ensures { GraphsAlwaysGive }
{}

/// At each moment of the lowering the graphs that are told not to raise never throw, and graphs with a result give something.
pub fn programs_are_told()
    ensures { ProgramsAreTold }
{}

/// The graph that tells whether an exception is below the class of a handler stands where it is asked for.
pub fn tests_stand()
    ensures { TestsStand }
{}

/// So the tests of all handlers of an exit stand, where its operation may raise.
pub fn handlers_are_tested()
    ensures { HandlersAreTested }
{}

/// Each graph of a program has fewer than 2^64 blocks, if those of functions have.
pub fn blocks_are_few()
    ensures { BlocksAreFew }
{}

/// What is told need not be asked of the parts of a program that catches exceptions.
pub fn parts_suffice()
    ensures { PartsSuffice }
{}

/// Nor need the tests of handlers, where they stand.
pub fn landings_suffice()
    ensures { LandingsSuffice }
{}

/// So the ways of an operation whose exit catches are done where its links are.
pub fn ways_suffice()
    ensures { WaysSuffice }
{}
