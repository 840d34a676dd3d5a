// Laws of operations on lists and tuples in programs that have types.
ghost use Rattle.list_rows.specs.Rows.{AdditionsAreWritten, ComprehensionsAreWritten, DeletionsAreWritten, ExtensionsAreWritten, IndicesAreWritten, ItemsAreWritten, LengthsAreWritten, PopsAreWritten, ProductsAreWritten, ReversalsAreWritten, ShorteningsAreWritten, SlicesAreWritten, StoresAreWritten, SumsAreWritten, TurnsAreWritten, WalksAreWritten};

/// The length of a list does what it does, wherever it stands in a program that has types.
pub fn lengths_are_written()
    ensures { LengthsAreWritten }
{}

/// So does the item at an index, where an item stays what it is; an item that is stored, where it stays what it is; and one that is deleted.
pub fn items_are_written()
    ensures read { IndicesAreWritten }
    ensures stored { StoresAreWritten }
    ensures deleted { DeletionsAreWritten }
{}

/// So does a walk over a list: what is walked, whether the walk goes on, and the item that it has come to, where an item stays what it is.
pub fn walks_are_written()
    ensures begin { WalksAreWritten }
    ensures on { TurnsAreWritten }
    ensures item { ItemsAreWritten }
{}

/// So does what a comprehension begins with.
pub fn comprehensions_are_written()
    ensures { ComprehensionsAreWritten }
{}

/// So do methods of lists: a list that is turned around, one that is extended by another, and an item that is taken out, where items stay what they are.
pub fn methods_are_written()
    ensures reverse { ReversalsAreWritten }
    ensures extend { ExtensionsAreWritten }
    ensures pop { PopsAreWritten }
{}

/// So do the sum of two lists, a list so many times, and `+=` of a list that is there, where items stay what they are.
pub fn sums_are_written()
    ensures sum { SumsAreWritten }
    ensures product { ProductsAreWritten }
    ensures addition { AdditionsAreWritten }
{}

/// So do slices of lists, where items stay what they are.
pub fn slices_are_written()
    ensures between { SlicesAreWritten }
    ensures but_last { ShorteningsAreWritten }
{}
