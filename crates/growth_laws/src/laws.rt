// Laws of what is asked for while a program is written.
ghost use Rattle.growth_laws.specs.Asking.{ClassGraphsOnlyAsk, ClassesOnlyAsk, DictGraphsOnlyAsk, DictsOnlyAsk, ListsOnlyAsk, OperationsOnlyAsk, RaisingOnlyAsks};
ghost use Rattle.growth_laws.specs.Growing.{GrowthIsOne, HelpersGrow, SmallsGrow, StaticsGrow};

/// What asks for a helper, a small graph or a static takes nothing back of what was asked for, and neither
/// does what asks for several.
pub fn asking_only_grows()
    ensures helpers { HelpersGrow }
    ensures smalls { SmallsGrow }
    ensures statics { StaticsGrow }
    ensures several { GrowthIsOne }
{}

/// What an operation is lowered to asks for helpers, small graphs and statics, and takes back none that was asked for.
pub fn operations_only_ask()
    ensures { OperationsOnlyAsk }
{}

/// The same of operations on lists, and of those that no list is in.
pub fn lists_only_ask()
    ensures { ListsOnlyAsk }
{}

/// The same of operations on dicts.
pub fn dicts_only_ask()
    ensures { DictsOnlyAsk }
{}

/// The same of operations on instances and function values, and of all others but those on dicts.
pub fn classes_only_ask()
    ensures { ClassesOnlyAsk }
{}

/// The graphs that are made for dicts, and those for classes, lists and other values, take back nothing that was asked for.
pub fn graphs_only_ask()
    ensures dicts { DictGraphsOnlyAsk }
    ensures classes { ClassGraphsOnlyAsk }
{}

/// A helper whose failures raise exceptions asks for the graphs that raise them, and takes back nothing that was asked for.
pub fn raising_only_asks()
    ensures { RaisingOnlyAsks }
{}
