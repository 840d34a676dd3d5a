// Laws of tests.
ghost use Rattle.tested_rows.specs.Tests.{TestsAreAnswered};

/// What is written for a test at the end of a block answers it.
pub fn tests_are_answered()
    ensures { TestsAreAnswered }
{}
