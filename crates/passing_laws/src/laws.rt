// Laws of operands and results that are converted.
ghost use Rattle.passing_laws.specs.Given.{ResultsAreGiven};
ghost use Rattle.passing_laws.specs.Passed.{OperandsArePassed};

/// Operands that are converted one after the other have the values that they had, of which something else is known then.
pub fn operands_are_passed()
    ensures { OperandsArePassed }
{}

/// A result that is converted on the way to its place is there what it was.
pub fn results_are_given()
    ensures { ResultsAreGiven }
{}
