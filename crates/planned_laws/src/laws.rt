// Laws of the annotation of a program that has types.
ghost use Rattle.planned_laws.specs.Planned.{ElementsArePlanned};
ghost use Rattle.planned_laws.specs.Parts.{PartsAreFree, PartsArePlanned};

/// What stands in the annotation of a program that has types is as a layout asks: the sites in it, at any depth, are written by the least one of their class.
/// So its structs are those of the layout.
pub fn elements_are_planned()
    ensures { ElementsArePlanned }
{}

/// The element of a parameter, a result, an attribute, or of items or keys is in no conflict.
pub fn parts_are_free()
    ensures { PartsAreFree }
{}

/// So it is as a layout asks where its classes have structs.
pub fn parts_are_planned()
    ensures { PartsArePlanned }
{}
