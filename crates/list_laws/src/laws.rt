// Laws of operations on lists as they are lowered.
ghost use Rattle.std.specs.Prelude.{ℕ, Option, codes};
ghost use Rattle.rpy_tree.specs.declared.syntax.CmpOp.TheVariants as compared;
ghost use Rattle.rpy_meaning.specs.declared.row.RowOp.TheVariants as row;
ghost use Rattle.list_laws.specs.Presence.{ListsAreApart, ListsAreBesideNone, ListsAreCompared, ListsAreMissing, ListsAreThere, ListsCountAsTrue};
ghost use Rattle.list_laws.specs.Taken.{ItemsAreDeleted, ItemsArePopped, LastItemsArePopped};
ghost use Rattle.list_laws.specs.Turned.{ListsAreReversed};
ghost use Rattle.list_laws.specs.Lists.{EmptyListsAreMade, ItemsAreAppended, ItemsAreRead, ItemsAreStored, LengthsAreRead, ListsAreMade, WalksBegin, WalksGive, WalksGoOn};

/// The length of a list; where the list may be missing, `None` fails, or raises.
pub fn lengths_are_read()
    ensures { LengthsAreRead }
{}

/// The item at an index, which counts from the end where it is below zero; outside it fails, or raises.
pub fn items_are_read()
    ensures { ItemsAreRead }
{}

/// A list without items, by a display of none, and what a comprehension begins with.
pub fn empty_lists_are_made()
    ensures display { (site : ℕ) → EmptyListsAreMade (row.List site) }
    ensures comprehension { (site : ℕ) → EmptyListsAreMade (row.Comprehension site) }
{}

/// An item that is stored at an index, in every list that the blocks represent: no other list changes.
pub fn items_are_stored()
    ensures { ItemsAreStored }
{}

/// An item that is appended, by the method and by a comprehension, at its cost: where the array is full, the items go
/// into another one first.
pub fn items_are_appended()
    ensures method { (site : Option ℕ) → ItemsAreAppended (row.Method (codes "append") site) }
    ensures comprehension { ItemsAreAppended row.AddItem }
{}

/// What is walked of a list, whether the walk goes on, as the list is then, and the item that it has come to.
pub fn walks_are_done()
    ensures begin { WalksBegin }
    ensures on { WalksGoOn }
    ensures item { WalksGive }
{}

/// A list of so many items, by a display, at its cost.
pub fn lists_are_made()
    ensures { ListsAreMade }
{}

/// A list that has items counts as true, and one that has none or is missing as false.
pub fn lists_count_as_true()
    ensures truth { ListsCountAsTrue row.Truth }
    ensures opposite { ListsCountAsTrue row.Not }
{}

/// Whether two lists are the same, and whether one is `None`.
pub fn lists_are_compared()
    ensures is { ListsAreCompared compared.Is }
    ensures is_not { ListsAreCompared compared.IsNot }
    ensures none { ListsAreBesideNone compared.Is }
    ensures not_none { ListsAreBesideNone compared.IsNot }
    ensures apart { ListsAreApart compared.Is }
    ensures not_apart { ListsAreApart compared.IsNot }
{}

/// Of a list that is there, and of one that is `None`, it is known that it is.
pub fn lists_are_narrowed()
    ensures there { ListsAreThere }
    ensures only_none { ListsAreMissing row.OnlyNone }
    ensures false_none { ListsAreMissing row.FalseNone }
{}

/// An item that is deleted, by its index; the later ones move down, and outside it fails, or raises.
pub fn items_are_deleted()
    ensures { ItemsAreDeleted }
{}

/// The last item, or that at an index, is given, and taken out.
pub fn items_are_popped()
    ensures last { LastItemsArePopped }
    ensures at { ItemsArePopped }
{}

/// A list is turned around.
pub fn lists_are_reversed()
    ensures { ListsAreReversed }
{}
