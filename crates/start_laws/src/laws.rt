// Laws of the start of a run.
ghost use Rattle.start_laws.specs.Begins.{MemoryBeginsWithSites};
ghost use Rattle.start_laws.specs.Given.{ConstantsAreGivenWithSites, ConstantsOfProgramsAreGiven, ProgramsKnowSites};
ghost use Rattle.start_laws.specs.Made.{SitesAreMade};

/// At the start of a run of every program that is made of flow graphs, its static memory represents the objects that its meaning
/// begins with: builtin exceptions, and the lists and dicts of modules, each at its static.
pub fn memory_begins_with_sites()
    ensures { MemoryBeginsWithSites }
{}

/// Each list and dict of a module that has a struct is made in the end, with those that stand in it, where they nest.
pub fn sites_are_made()
    ensures { SitesAreMade }
{}

/// A constant that is a list or dict of a module, alone or in a tuple, gives its value: each stands at its static.
pub fn constants_are_given_with_sites()
    ensures { ConstantsAreGivenWithSites }
{}

/// In programs that are made of flow graphs such constants are given at each moment behind the one at which lists and dicts of modules
/// were made, since these stand where they are known to.
pub fn constants_of_programs_are_given()
    ensures know { ProgramsKnowSites }
    ensures given { ConstantsOfProgramsAreGiven }
{}
