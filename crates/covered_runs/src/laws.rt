// Laws of the operations of blocks.
ghost use Rattle.rtyped_runs.specs.Laws.{of_classes, of_conversions, of_dicts, of_lists, of_lookups, of_values};
ghost use Rattle.covered_runs.specs.Writing.{OperationsAreWrittenWhile, of_texts};

/// Where a law says of an operation that it is done, what it is written as in a block does what it does, if what it asks for stands while so
/// many steps are left as memory represents.
pub fn operations_are_written_while()
    ensures texts { OperationsAreWrittenWhile of_texts }
    ensures values { OperationsAreWrittenWhile of_values }
    ensures lists { OperationsAreWrittenWhile of_lists }
    ensures dicts { OperationsAreWrittenWhile of_dicts }
    ensures lookups { OperationsAreWrittenWhile of_lookups }
    ensures conversions { OperationsAreWrittenWhile of_conversions }
    ensures classes { OperationsAreWrittenWhile of_classes }
{}
