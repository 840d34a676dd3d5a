// Laws of operations on lists whose items are converted.
ghost use Rattle.std.specs.Prelude.{Option, ℕ, codes};
ghost use Rattle.rpy_meaning.specs.declared.row.RowOp.TheVariants as row;
ghost use Rattle.list_conversion_laws.specs.Lists.{ItemsAreAppended, ItemsAreInserted, ListsAreMade};

/// An item that is converted and appended, by the method and by a comprehension.
pub fn items_are_appended()
    ensures method { (site : Option ℕ) → ItemsAreAppended (row.Method (codes "append") site) }
    ensures comprehension { ItemsAreAppended row.AddItem }
{}

/// An item that is converted and inserted before a place.
pub fn items_are_inserted()
    ensures { ItemsAreInserted }
{}

/// A list of operands that are converted to its items, by a display.
pub fn lists_are_made()
    ensures { ListsAreMade }
{}
