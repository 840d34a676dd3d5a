// Laws of tuples whose items are converted.
ghost use Rattle.tuple_conversion_laws.specs.Tuples.{ItemsAreRead, ItemsAreUnpacked, TuplesAreMade};

/// A tuple of operands that are converted to its items, at its cost.
pub fn tuples_are_made()
    ensures { TuplesAreMade }
{}

/// An item of a tuple, for a target or by an index that is known, which is converted on the way to its place.
pub fn items_are_taken()
    ensures unpacked { ItemsAreUnpacked }
    ensures index { ItemsAreRead }
{}
