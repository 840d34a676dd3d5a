// Laws of the operations of programs that have types.
ghost use Rattle.std.specs.Prelude.{◌≡◌, ℤ, pos, true, Some, int_lt};
ghost use Rattle.rpy_base.specs.Word.{Fits};
ghost use Rattle.rtyper_data.specs.Numbers.{rises};
ghost use Rattle.lower_laws.specs.Helped.{IsLong};
ghost use Rattle.rpy_meaning.specs.declared.row.RowOp.TheVariants as row;
ghost use Rattle.rpy_tree.specs.declared.syntax.CmpOp.TheVariants as cmp;
ghost use Rattle.typed_rows.specs.Rows.{FirstIs, RowIsWritten, RowIsWrittenWhere};
ghost use Rattle.value_rows.specs.Kinds.{ResultIs};
ghost use Rattle.compared_rows.specs.Comparing.{AreWhole, has_truth, is_byte};

/// Whether a word, a byte or a string is less than another, at most, greater or at least.
pub fn orders_are_written()
    ensures less { RowIsWritten (row.Compare cmp.Lt) }
    ensures at_most { RowIsWritten (row.Compare cmp.Le) }
    ensures greater { RowIsWritten (row.Compare cmp.Gt) }
    ensures at_least { RowIsWritten (row.Compare cmp.Ge) }
{}

/// Whether values are equal, tuples item by item, where no item is one that never is.
pub fn equalities_are_written()
    ensures equal { RowIsWrittenWhere AreWhole (row.Compare cmp.Eq) }
    ensures unequal { RowIsWrittenWhere AreWhole (row.Compare cmp.Ne) }
{}

/// The truth of a value, and its opposite, but of a function value that may be missing.
pub fn truths_are_written()
    ensures truth { RowIsWrittenWhere (FirstIs has_truth) row.Truth }
    ensures opposite { RowIsWrittenWhere (FirstIs has_truth) row.Not }
{}

/// `int` of a word, a truth value, a byte or a string; `str` of these; and `chr`, where a byte stands at the result.
pub fn conversions_are_written()
    ensures numbers { RowIsWritten row.ToInt }
    ensures strings { RowIsWritten row.ToStr }
    ensures bytes { RowIsWrittenWhere (ResultIs is_byte) row.Chr }
{}

/// Whether the end of a range is still to come, and the number that is reached.
pub fn ranges_are_written()
    ensures left { (step : ℤ) → RowIsWritten (row.HasItem (Some step)) }
    ensures item { (step : ℤ) → RowIsWritten (row.Item (Some step)) }
{}

/// The next number of a range whose step is neither one nor minus one.
pub fn ranges_are_advanced()
    ensures rising { (step : ℤ) → Fits step → IsLong step → rises step ≡ true → RowIsWritten (row.Advance (Some step)) }
    ensures falling { (step : ℤ) → Fits step → IsLong step → int_lt step (pos 0) ≡ true → RowIsWritten (row.Advance (Some step)) }
{}
