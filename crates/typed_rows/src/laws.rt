// Laws of elements.
ghost use Rattle.typed_rows.specs.Going.{ElementsPass};

/// What is of an element that has its structs is, once it is converted, of each above it.
pub fn elements_pass()
    ensures { ElementsPass }
{}
