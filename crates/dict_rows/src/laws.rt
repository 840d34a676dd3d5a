// Laws of operations on dicts in programs that have types.
ghost use Rattle.rpy_tree.specs.declared.syntax.CmpOp.TheVariants as compared;
ghost use Rattle.dict_rows.specs.Rows.{DeletionsAreWritten, DisplaysAreWritten, GetsAreWritten, GetsOrNoneAreWritten, IndicesAreWritten, LengthsAreWritten, SearchesAreWritten, StoresAreWritten};

/// The number of entries of a dict does what it does, wherever it stands in a program that has types.
pub fn lengths_are_written()
    ensures { LengthsAreWritten }
{}

/// So does a display of a dict, which begins with no entries.
pub fn displays_are_written()
    ensures { DisplaysAreWritten }
{}

/// So does the search for a key in a dict, where it stays what it is as a key of the dict.
pub fn keys_are_searched()
    ensures within { SearchesAreWritten compared.Within }
    ensures not_within { SearchesAreWritten compared.NotWithin }
{}

/// So does the value of a key, where both stay what they are.
pub fn values_are_written()
    ensures { IndicesAreWritten }
{}

/// So do a value that is stored by its key, and an entry that is deleted, where key and value stay what they are.
pub fn entries_are_changed()
    ensures stored { StoresAreWritten }
    ensures deleted { DeletionsAreWritten }
{}

/// So does `get`, which gives the value of a key or another one, where these stay what they are.
pub fn values_are_got()
    ensures other { GetsAreWritten }
    ensures none { GetsOrNoneAreWritten }
{}
