// Laws of operations on dicts as they are lowered.
ghost use Rattle.rpy_tree.specs.declared.syntax.CmpOp.TheVariants as compared;
ghost use Rattle.rpy_meaning.specs.declared.row.RowOp.TheVariants as row;
ghost use Rattle.dict_op_laws.specs.Dicts.{DictsAreBesideNone, DictsAreCompared, DictsCountAsTrue, DictsHaveLengths, EmptyDictsAreMade};

/// The number of entries; where the dict may be missing, `None` fails, or raises.
pub fn dicts_have_lengths()
    ensures { DictsHaveLengths }
{}

/// A dict without entries, by a display.
pub fn empty_dicts_are_made()
    ensures { EmptyDictsAreMade }
{}

/// A dict that has entries counts as true, and one that has none or is missing as false.
pub fn dicts_count_as_true()
    ensures truth { DictsCountAsTrue row.Truth }
    ensures opposite { DictsCountAsTrue row.Not }
{}

/// Whether two dicts are the same, and whether one is `None`.
pub fn dicts_are_compared()
    ensures is { DictsAreCompared compared.Is }
    ensures is_not { DictsAreCompared compared.IsNot }
    ensures none { DictsAreBesideNone compared.Is }
    ensures not_none { DictsAreBesideNone compared.IsNot }
{}
