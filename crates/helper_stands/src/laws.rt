// Laws of helpers in programs that are made of flow graphs.
ghost use Rattle.helper_stands.specs.Asks.{ClassAsksStand, DictAsksStand, ListAsksStand, TextAsksStand};
ghost use Rattle.helper_stands.specs.Standing.{HelpersStandWhole, PlainHelpersStand, RaisingHelpersStand};

/// A helper that is asked for stands at its number, and raises what is covered; and the graphs that it calls stand at theirs, and
/// raise nothing.
pub fn helpers_stand_whole()
    ensures { HelpersStandWhole }
{}

/// So it stands over all memory that represents a heap, where the static strings are known to stay; and where none of its failures is covered
/// it is the helper that fails.
pub fn helpers_stand_over_memory()
    ensures raising { RaisingHelpersStand }
    ensures plain { PlainHelpersStand }
{}

/// So does all that operations ask for: of strings, of lists, but for the graph that looks for a string among the items, of classes, and of
/// dicts, without what graphs of dicts ask for themselves.
pub fn asks_stand()
    ensures texts { TextAsksStand }
    ensures lists { ListAsksStand }
    ensures classes { ClassAsksStand }
    ensures dicts { DictAsksStand }
{}
