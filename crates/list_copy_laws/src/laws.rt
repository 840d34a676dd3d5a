// Laws of operations that insert items, put lists together, cut them and look in them, as they are lowered.
ghost use Rattle.rpy_tree.specs.declared.syntax.CmpOp.TheVariants as compared;
ghost use Rattle.list_copy_laws.specs.Among.{ValuesAreAmong};
ghost use Rattle.list_copy_laws.specs.Extended.{ListsAreAddedTo, ListsAreExtended};
ghost use Rattle.list_copy_laws.specs.Inserted.{ItemsAreInserted};
ghost use Rattle.list_copy_laws.specs.Joined.{LastItemsAreLeftOut, ListsAreJoined, ListsAreRepeated, ListsAreSliced};

/// An item that is inserted before a place, at its cost: the later ones move up, once there is room.
pub fn items_are_inserted()
    ensures { ItemsAreInserted }
{}

/// The items of a list, put behind those of another, or of the same one, at their cost; `+=` gives the list.
pub fn lists_are_extended()
    ensures method { ListsAreExtended }
    ensures sum { ListsAreAddedTo }
{}

/// The sum of two lists, at its cost.
pub fn lists_are_joined()
    ensures { ListsAreJoined }
{}

/// A list so many times, at its cost; below zero that is none.
pub fn lists_are_repeated()
    ensures { ListsAreRepeated }
{}

/// A slice of a list, at its cost, by bounds that may be absent, and all items but the last.
pub fn lists_are_sliced()
    ensures between { ListsAreSliced }
    ensures but_last { LastItemsAreLeftOut }
{}

/// Whether a word, a truth value, a byte or a string is among the items of a list of such, and whether it is not.
pub fn values_are_among()
    ensures within { ValuesAreAmong compared.Within }
    ensures not_within { ValuesAreAmong compared.NotWithin }
{}
