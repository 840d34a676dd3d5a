// Laws of the programs that are made of flow graphs.
ghost use Rattle.rtyped_laws.specs.Having.{HelpersHaveTheirs, ValuesHaveTheirs};
ghost use Rattle.rtyped_laws.specs.Objects.{ClassAsksHaveTheirs, ClassesHaveTheirs, DictAsksHaveTheirs, DictsHaveTheirs, ListAsksHaveTheirs, ListsHaveTheirs};
ghost use Rattle.rtyped_laws.specs.Programs.{ClassesAreLaidByPrograms, LayoutsAreHadByPrograms, MemoryBeginsInPrograms, StaticsAreHadByPrograms, VtablesAreHadByPrograms, WorldsAreOfPrograms};

/// A small graph of values that is asked for stands at its number, and what it raises is raised.
pub fn values_have_theirs()
    ensures { ValuesHaveTheirs }
{}

/// A helper that is asked for stands at its number, and raises those of its failures that are covered where
/// it is asked for.
pub fn helpers_have_theirs()
    ensures { HelpersHaveTheirs }
{}

/// A graph of lists that is asked for stands at its number, with the graphs that it asks for itself, but that
/// which looks for a string among the items; and so does all that an operation on lists asks for in turn, where
/// the helpers that raise nothing stand at theirs.
pub fn lists_have_theirs()
    ensures graphs { ListsHaveTheirs }
    ensures asks { ListAsksHaveTheirs }
{}

/// The same of graphs of classes.
pub fn classes_have_theirs()
    ensures graphs { ClassesHaveTheirs }
    ensures asks { ClassAsksHaveTheirs }
{}

/// The same of graphs of dicts, without those that they ask for themselves.
pub fn dicts_have_theirs()
    ensures graphs { DictsHaveTheirs }
    ensures asks { DictAsksHaveTheirs }
{}

/// What the operations of a program were lowered in is the world of its layout, and the program has the structs
/// and the statics of that as the laws of operations take them.
pub fn programs_have_their_layouts()
    ensures worlds { WorldsAreOfPrograms }
    ensures structs { LayoutsAreHadByPrograms }
    ensures statics { StaticsAreHadByPrograms }
{}

/// The classes of a program are laid out as the laws of instances take them, and their vtables hold what is known of
/// them.
pub fn programs_have_their_classes()
    ensures layouts { ClassesAreLaidByPrograms }
    ensures vtables { VtablesAreHadByPrograms }
{}

/// Before anything is made, the memory of a program represents the builtin exceptions.
pub fn memory_of_programs_begins()
    ensures { MemoryBeginsInPrograms }
{}
