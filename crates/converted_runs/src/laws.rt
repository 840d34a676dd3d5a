// Laws of the operations of blocks.
ghost use Rattle.std.specs.Prelude.{ℕ, List};
ghost use Rattle.object_laws.specs.Done.{Any};
ghost use Rattle.object_laws.specs.Known.{Known};
ghost use Rattle.rtyper_layout.specs.declared.kind.Kind.{Kind};
ghost use Rattle.call_laws.specs.Calls.{HasMethod};
ghost use Rattle.split_laws.specs.Splitting.{CanSplit};
ghost use Rattle.converted_runs.specs.Writing.{BehindOperationsAreWritten, CalledOperationsAreWritten, DictOperationsAreWritten, JoinedOperationsAreWritten, SplitOperationsAreWritten, of_classes, of_lists, of_tuples};

/// Where a law says of an operation that it is done behind conversions, calls with them, looks into a dict with them, splits or
/// joins, what it is written as in a block does what it does, if what it asks for stands.
pub fn converted_operations_are_written()
    ensures tuples { BehindOperationsAreWritten of_tuples Any }
    ensures lists { BehindOperationsAreWritten of_lists Any }
    ensures classes { BehindOperationsAreWritten of_classes Any }
    ensures called { CalledOperationsAreWritten (λ p. Any) }
    ensures methods { (known : Known) (name : List ℕ) (f : ℕ) → CalledOperationsAreWritten (λ p. HasMethod known name f) }
    ensures dicts { DictOperationsAreWritten Any }
    ensures split { (k : Kind) → SplitOperationsAreWritten (CanSplit k) }
    ensures joined { JoinedOperationsAreWritten }
{}
