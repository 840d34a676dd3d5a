// Laws of the operations of programs that have types.
ghost use Rattle.std.specs.Prelude.{ℕ, ℤ, Bool, List, Option};
ghost use Rattle.rpy_meaning.specs.declared.row.RowOp.TheVariants as row;
ghost use Rattle.rpy_tree.specs.declared.program.Const.{Const};
ghost use Rattle.rpy_tree.specs.declared.syntax.BinOp.{BinOp};
ghost use Rattle.rpy_tree.specs.declared.syntax.BinOp.TheVariants as bin;
ghost use Rattle.rpy_tree.specs.declared.syntax.UnOp.{UnOp};
ghost use Rattle.typed_rows.specs.Rows.{FirstIs, RowIsWritten, RowIsWrittenWhere};
ghost use Rattle.value_rows.specs.Conversions.{ConversionsStand, ElementsConvert};
ghost use Rattle.value_rows.specs.Kinds.{FalseIsNone, ResultIs, is_none, is_word};
ghost use Rattle.value_rows.specs.Literals.{ConstantFits, Stay, StringFits, WordFits};

/// What conversions and comparisons ask for stands, so that what is of an element is converted to each above it.
pub fn conversions_stand()
    ensures stand { ConversionsStand }
    ensures convert { ElementsConvert }
{}

/// Operations on two words alone, whose failures are raised where they are covered.
pub fn word_operations_are_written()
    ensures differences { (site : Option ℕ) → RowIsWritten (row.Binary bin.Sub site) }
    ensures quotients { (site : Option ℕ) → RowIsWritten (row.Binary bin.Div site) }
    ensures floors { (site : Option ℕ) → RowIsWritten (row.Binary bin.FloorDiv site) }
    ensures rests { (site : Option ℕ) → RowIsWritten (row.Binary bin.Mod site) }
    ensures left_shifts { (site : Option ℕ) → RowIsWritten (row.Binary bin.Shl site) }
    ensures right_shifts { (site : Option ℕ) → RowIsWritten (row.Binary bin.Shr site) }
    ensures conjunctions { (site : Option ℕ) → RowIsWritten (row.Binary bin.BitAnd site) }
    ensures disjunctions { (site : Option ℕ) → RowIsWritten (row.Binary bin.BitOr site) }
    ensures exclusions { (site : Option ℕ) → RowIsWritten (row.Binary bin.BitXor site) }
    ensures smallest { RowIsWritten row.Min }
    ensures largest { RowIsWritten row.Max }
{}

/// Sums and products, where the first operand is a word.
pub fn sums_are_written()
    ensures sums { (site : Option ℕ) → RowIsWrittenWhere (FirstIs is_word) (row.Binary bin.Add site) }
    ensures products { (site : Option ℕ) → RowIsWrittenWhere (FirstIs is_word) (row.Binary bin.Mul site) }
    ensures added { RowIsWrittenWhere (FirstIs is_word) row.AddTo }
{}

/// Results that have to fit, and raise where they do not.
pub fn checked_operations_are_written()
    ensures checks { (o : BinOp) → RowIsWritten (row.Checked o) }
    ensures opposites { RowIsWritten row.CheckedNeg }
{}

/// Operations on one word, and the number of a byte.
pub fn single_operations_are_written()
    ensures unaries { (o : UnOp) → RowIsWritten (row.Unary o) }
    ensures masks { RowIsWritten row.Intmask }
    ensures bytes { RowIsWritten row.Ord }
{}

/// Copies, which may be converted on the way, and words that are known not to be below zero.
pub fn copies_are_written()
    ensures copies { RowIsWritten row.Copy }
    ensures non_negative { RowIsWritten row.NonNegative }
{}

/// What is known not to be `None`; and what is known to be, where nothing else stands at the result.
pub fn narrowings_are_written()
    ensures there { RowIsWritten row.DropNone }
    ensures missing { RowIsWrittenWhere (ResultIs is_none) row.OnlyNone }
    ensures untrue { RowIsWrittenWhere FalseIsNone row.FalseNone }
{}

/// Literals and constants, where the statics that were asked for stay; words have to fit, and strings have to have bytes.
pub fn literals_are_written()
    ensures words { (z : ℤ) → RowIsWrittenWhere (WordFits z) (row.Word z) }
    ensures flags { (b : Bool) → RowIsWrittenWhere Stay (row.Bool b) }
    ensures strings { (bytes : List ℕ) → RowIsWrittenWhere (StringFits bytes) (row.Str bytes) }
    ensures nones { RowIsWrittenWhere Stay row.None }
    ensures constants { (c : Const) → RowIsWrittenWhere (ConstantFits c) (row.Constant c) }
{}

/// A turn of a loop, where nothing but `None` stands at its result.
pub fn turns_are_written()
    ensures { RowIsWrittenWhere (ResultIs is_none) row.Turn }
{}
