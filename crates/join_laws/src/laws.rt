// Laws of strings that are joined.
ghost use Rattle.join_laws.specs.Joining.{StringsAreJoined};

/// A string, or a byte, between the items of a list, which are strings or bytes, gives a string, at its cost. What stands
/// between them is not `None`.
pub fn strings_are_joined()
    ensures { StringsAreJoined }
{}
