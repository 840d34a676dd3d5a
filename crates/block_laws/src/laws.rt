// Laws of blocks.
ghost use Rattle.block_laws.specs.Escaping.{ExceptionsEscape};
ghost use Rattle.block_laws.specs.Exits.{BranchesAreTaken, ExceptionsLeave, FlagsAreTests, ResultsAreGiven};
ghost use Rattle.block_laws.specs.Links.{ElementsAreConverted, LinksArePassed};
ghost use Rattle.block_laws.specs.Operations.{OperationsAreFollowed};

/// Where the low-level operations of an operation do what it does, and so does what stands behind them, so do both together: what the
/// operation throws leaves the graph.
pub fn operations_are_followed()
    ensures { OperationsAreFollowed }
{}

/// What is thrown leaves the graph where no handler is, and what any exception leads to raises it again.
pub fn exceptions_escape()
    ensures { ExceptionsEscape }
{}

/// What is written for a link converts what it passes on, and goes to the block that the link leads to, whose inputs then stand.
pub fn links_are_passed()
    ensures { LinksArePassed }
{}

/// A value of the one element is converted to one of the other where it goes there.
pub fn elements_are_converted()
    ensures { ElementsAreConverted }
{}

/// What is written for a return converts what is given back to the type of the result.
pub fn results_are_given()
    ensures { ResultsAreGiven }
{}

/// What is written for the end of a graph by an exception raises it.
pub fn exceptions_leave()
    ensures { ExceptionsLeave }
{}

/// What is written for a test takes the link that the truth of the variable says, where the test has that truth; and a truth value
/// is such a test.
pub fn branches_are_taken()
    ensures taken { BranchesAreTaken }
    ensures flags { FlagsAreTests }
{}
