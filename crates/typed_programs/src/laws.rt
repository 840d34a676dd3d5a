// Laws of programs that passed their checks.
ghost use Rattle.typed_programs.specs.Operations.{OperationsHaveTypes};
ghost use Rattle.typed_programs.specs.Parts.{PartsAreThere};
ghost use Rattle.typed_programs.specs.Seeing.{ElementsAreSeen};

/// What the rules of a program's graphs read in cells and marks is what its annotation says of variables, parameters, results, attributes,
/// items and keys, of functions that are reached and of classes that are made.
pub fn elements_are_seen()
    ensures { ElementsAreSeen }
{}

/// Functions that are reached have their parameters and a result, sites their items and keys, and none of these, and no attribute,
/// is in conflict.
pub fn parts_are_there()
    ensures { PartsAreThere }
{}

/// Operands and results of the operations of blocks that are reached have elements that fit their rows, in no conflict, and with
/// their structs.
pub fn operations_have_types()
    ensures { OperationsHaveTypes }
{}
