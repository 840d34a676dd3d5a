// Laws of the entry graph.
ghost use Rattle.entry_laws.specs.Begins.{EntryPointsAreCalled, WholeRunsAreFollowed};
ghost use Rattle.entry_laws.specs.Classes.{ExceptionsAreLaid, NamesAreWritten, ProgramsHaveTheirNames};
ghost use Rattle.entry_laws.specs.Ends.{EntryPointsAreEntries, EntryPointsEnd};
ghost use Rattle.entry_laws.specs.Programs.{EntriesStand, ProgramsHaveEntries, ProgramsRun};

/// What the entry point gives ends the run, as its result; and an exception that leaves it ends the run as raised, with the name of its class.
/// So it is as runs ask of what waits for the entry point.
pub fn entry_points_end()
    ensures ends { EntryPointsEnd }
    ensures entries { EntryPointsAreEntries }
{}

/// Where the list of arguments is made, the entry point is called with it, as flow graphs begin with that call. So where each block does
/// what that of its flow graph does, a whole run of the low-level program ends as that of the flow graphs does, where that ends.
pub fn entry_points_are_called()
    ensures called { EntryPointsAreCalled }
    ensures runs { WholeRunsAreFollowed }
{}

/// What is asked of classes for it holds of the lowering: `Exception` has structs where a class below it has, and a vtable has the
/// name of its class.
pub fn names_are_known()
    ensures laid { ExceptionsAreLaid }
    ensures names { NamesAreWritten }
    ensures meant { ProgramsHaveTheirNames }
{}

/// Every program of the lowering begins at the graph that calls its entry point, behind all others, and has what is asked of it for that.
pub fn programs_have_entries()
    ensures stand { EntriesStand }
    ensures programs { ProgramsHaveEntries }
{}

/// So where the parts of such a program are done, and the list of arguments is made, its whole run ends as that of its flow graphs does,
/// where that ends.
pub fn programs_run()
    ensures { ProgramsRun }
{}
