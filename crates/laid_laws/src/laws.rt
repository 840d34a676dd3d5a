// Laws of what the layout of an annotation has.
ghost use Rattle.laid_laws.specs.Laid.{ElementsAreLaid};

/// The layout of an annotation has the structs of each element that stands in it: of its tuples at any depth, and of the classes of sites.
pub fn elements_are_laid()
    ensures { ElementsAreLaid }
{}
