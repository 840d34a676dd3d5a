// Laws of items that come into lists and tuples, in programs that have types.
ghost use Rattle.rpy_tree.specs.declared.syntax.CmpOp.TheVariants as compared;
ghost use Rattle.item_rows.specs.Rows.{AppendsAreWritten, DisplaysAreWritten, GathersAreWritten, InsertsAreWritten, MembershipsAreWritten, TargetsAreWritten, TuplesAreWritten};

/// What appends an item to a list, or inserts one, does what it does, wherever it stands in a program that has types; the item is converted to what is known of the items of the list.
pub fn items_are_added()
    ensures append { AppendsAreWritten }
    ensures gather { GathersAreWritten }
    ensures insert { InsertsAreWritten }
{}

/// So does a display of a list, whose items are converted.
pub fn displays_are_written()
    ensures { DisplaysAreWritten }
{}

/// So does a tuple, whose items are converted, and an item of one for a target.
pub fn tuples_are_written()
    ensures made { TuplesAreWritten }
    ensures target { TargetsAreWritten }
{}

/// So does the search for a value among the items of a list, where both are words, truth values, bytes or strings of one type.
pub fn memberships_are_written()
    ensures within { MembershipsAreWritten compared.Within }
    ensures not_within { MembershipsAreWritten compared.NotWithin }
{}
