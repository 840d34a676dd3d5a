// Laws of strings that are split.
ghost use Rattle.split_laws.specs.Splitting.{StringsAreSplit};

/// A string, or a byte, is split at a byte: a list of its parts is made, at its cost. `None` fails, or raises. What is split
/// has fewer bytes than a word counts, and is a string where it is not known that it may be `None`.
pub fn strings_are_split()
    ensures { StringsAreSplit }
{}
