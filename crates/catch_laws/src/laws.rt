// Laws of exceptions that are caught.
ghost use Rattle.catch_laws.specs.Caught.{CaughtOperationsAreFollowed};
ghost use Rattle.catch_laws.specs.Exits.{ExitsCatch};
ghost use Rattle.catch_laws.specs.Handlers.{HandlersAreFound};

/// The link by which an exception is caught leads to the first handler whose class that of the exception is below, or to the block for
/// any other, or out of the graph; what its link passes on is converted.
pub fn handlers_are_found()
    ensures { HandlersAreFound }
{}

/// Where what is written for an operation does what the operation does, what its link passes on is converted, and the link that an
/// exception takes leads to its handler, the first of the pieces into which all this is cut does what the operation and the exit do.
pub fn caught_operations_are_followed()
    ensures { CaughtOperationsAreFollowed }
{}

/// What is written for an exit by exceptions behind the operation of its block does what the operation and the exit do, where what the
/// operation is written as does what it does, and what is passed on is converted.
pub fn exits_catch()
    ensures { ExitsCatch }
{}
