// Laws of operations as they are lowered.
ghost use Rattle.std.specs.Prelude.{◌≡◌, ◌⊎◌, ℕ, ℤ, pos, true, false, Option, Some, None, codes, int_lt};
ghost use Rattle.rpy_base.specs.Word.{Fits};
ghost use Rattle.rtyper_data.specs.Numbers.{rises};
ghost use Rattle.rpy_tree.specs.declared.syntax.BinOp.TheVariants as bin;
ghost use Rattle.rpy_tree.specs.declared.syntax.CmpOp.TheVariants as compared;
ghost use Rattle.rpy_tree.specs.declared.syntax.UnOp.TheVariants as un;
ghost use Rattle.rpy_meaning.specs.declared.row.RowOp.TheVariants as row;
ghost use Rattle.ll_code.specs.declared.program.LlType.TheVariants as type;
ghost use Rattle.rtyper_layout.specs.Kinds.{kind_seen};
ghost use Rattle.rtyper_layout.specs.declared.kind.Kind.TheVariants as kind;
ghost use Rattle.rtyper_data.specs.Seen.{Around, Operand, Place, kind_of, type_at};
ghost use Rattle.ll_build.specs.declared.needs.Helper.TheVariants as helper;
ghost use Rattle.lower_laws.specs.Follows.{IsByte, IsFlag, IsWord, OnByte, OnWords, OnWord, OnFlag};
ghost use Rattle.lower_laws.specs.Helped.{IsString, IsLong, IsText, OnOne, OnTwo, OnThree};

/// Sums, differences and products of two words, the opposite and the truth of one, what stays as it is, and the number
/// of a byte.
pub fn words_are_followed()
    ensures sum { (site : Option ℕ) → OnWords (row.Binary bin.Add site) type.Signed }
    ensures added { OnWords row.AddTo type.Signed }
    ensures difference { (site : Option ℕ) → OnWords (row.Binary bin.Sub site) type.Signed }
    ensures product { (site : Option ℕ) → OnWords (row.Binary bin.Mul site) type.Signed }
    ensures opposite { OnWord (row.Unary un.Neg) type.Signed }
    ensures plus { OnWord (row.Unary un.Pos) type.Signed }
    ensures masked { OnWord row.Intmask type.Signed }
    ensures number { OnWord row.ToInt type.Signed }
    ensures copy { OnWord row.Copy type.Signed }
    ensures truth { OnWord row.Truth type.Bool }
    ensures untrue { OnWord row.Not type.Bool }
    ensures ord { OnByte row.Ord type.Signed }
{}

/// What is done with the bits of words.
pub fn bits_are_followed()
    ensures and { (site : Option ℕ) → OnWords (row.Binary bin.BitAnd site) type.Signed }
    ensures or { (site : Option ℕ) → OnWords (row.Binary bin.BitOr site) type.Signed }
    ensures xor { (site : Option ℕ) → OnWords (row.Binary bin.BitXor site) type.Signed }
    ensures not { OnWord (row.Unary un.Invert) type.Signed }
{}

/// Whether a word is less than another, at most, greater, at least, equal, or not, and whether a range goes on.
pub fn comparisons_are_followed()
    ensures less { OnWords (row.Compare compared.Lt) type.Bool }
    ensures at_most { OnWords (row.Compare compared.Le) type.Bool }
    ensures greater { OnWords (row.Compare compared.Gt) type.Bool }
    ensures at_least { OnWords (row.Compare compared.Ge) type.Bool }
    ensures equal { OnWords (row.Compare compared.Eq) type.Bool }
    ensures unequal { OnWords (row.Compare compared.Ne) type.Bool }
    ensures range { (step : ℤ) → OnWords (row.HasItem (Some step)) type.Bool }
{}

/// The truth of a truth value, its opposite, its number, and the value as it is.
pub fn flags_are_followed()
    ensures truth { OnFlag row.Truth type.Bool }
    ensures opposite { OnFlag row.Not type.Bool }
    ensures copy { OnFlag row.Copy type.Bool }
    ensures number { OnFlag row.ToInt type.Signed }
{}

/// Quotients and rests, shifts, the smaller and the greater of two words, the byte and the text of one, and the next
/// number of a range whose step is neither one nor its opposite.
pub fn numbers_are_helped()
    ensures div { (site : Option ℕ) → OnTwo IsWord IsWord helper.WordDiv (row.Binary bin.Div site) type.Signed }
    ensures floor_div { (site : Option ℕ) → OnTwo IsWord IsWord helper.WordDiv (row.Binary bin.FloorDiv site) type.Signed }
    ensures rest { (site : Option ℕ) → OnTwo IsWord IsWord helper.WordMod (row.Binary bin.Mod site) type.Signed }
    ensures shl { (site : Option ℕ) → OnTwo IsWord IsWord helper.WordShl (row.Binary bin.Shl site) type.Signed }
    ensures shr { (site : Option ℕ) → OnTwo IsWord IsWord helper.WordShr (row.Binary bin.Shr site) type.Signed }
    ensures least { OnTwo IsWord IsWord helper.WordMin row.Min type.Signed }
    ensures greatest { OnTwo IsWord IsWord helper.WordMax row.Max type.Signed }
    ensures chr { OnOne IsWord helper.WordChr row.Chr type.Char }
    ensures word_text { OnOne IsWord helper.StrOfWord row.ToStr (type.Ptr 0) }
    ensures flag_text { OnOne IsFlag helper.StrOfBool row.ToStr (type.Ptr 0) }
    ensures rising { (step : ℤ) → Fits step → IsLong step → rises step ≡ true → OnTwo IsWord IsWord helper.RangeUp (row.Advance (Some step)) type.Signed }
    ensures falling { (step : ℤ) → Fits step → IsLong step → int_lt step (pos 0) ≡ true → OnTwo IsWord IsWord helper.RangeDown (row.Advance (Some step)) type.Signed }
{}

/// What is asked of a string, which may be `None`, what is made of strings, and `os.write`.
pub fn strings_are_helped()
    ensures len { OnOne IsText helper.StrLen row.Len type.Signed }
    ensures index { (literal : Option ℤ) → OnTwo IsText IsWord helper.StrIndex (row.Index literal) type.Char }
    ensures walk { (site : ℕ) → OnOne IsText helper.StrWalk (row.Walk site) (type.Ptr 0) }
    ensures has_item { OnTwo IsText IsWord helper.StrHasItem (row.HasItem None) type.Bool }
    ensures item { OnTwo IsText IsWord helper.StrItem (row.Item None) type.Char }
    ensures add { (site : Option ℕ) → OnTwo IsText IsText helper.StrAdd (row.Binary bin.Add site) (type.Ptr 0) }
    ensures write { OnTwo IsWord IsString helper.StrWrite row.Write type.Signed }
    ensures mul { (site : Option ℕ) → OnTwo IsText IsWord helper.StrMul (row.Binary bin.Mul site) (type.Ptr 0) }
    ensures slice { (site : ℕ) → OnThree IsText IsWord IsWord helper.StrSlice (row.Slice site true true) (type.Ptr 0) }
    ensures up_to { (site : ℕ) → OnTwo IsText IsWord helper.StrSlice (row.Slice site false true) (type.Ptr 0) }
    ensures from { (site : ℕ) → OnTwo IsText IsWord helper.StrSlice (row.Slice site true false) (type.Ptr 0) }
    ensures whole { (site : ℕ) → OnOne IsText helper.StrSlice (row.Slice site false false) (type.Ptr 0) }
    ensures but_last { (site : ℕ) → OnOne IsText helper.StrButLast (row.AllButLast site) (type.Ptr 0) }
{}

/// Methods of strings, and of bytes.
pub fn methods_are_helped()
    ensures digit { (site : Option ℕ) → OnOne IsByte helper.IsDigit (row.Method (codes "isdigit") site) type.Bool }
    ensures alpha { (site : Option ℕ) → OnOne IsByte helper.IsAlpha (row.Method (codes "isalpha") site) type.Bool }
    ensures space { (site : Option ℕ) → OnOne IsByte helper.IsSpace (row.Method (codes "isspace") site) type.Bool }
    ensures strip { (site : Option ℕ) → OnOne IsText helper.StrStrip (row.Method (codes "strip") site) (type.Ptr 0) }
    ensures starts { (site : Option ℕ) → OnTwo IsText IsString helper.StrStartsWith (row.Method (codes "startswith") site) type.Bool }
    ensures ends { (site : Option ℕ) → OnTwo IsText IsString helper.StrEndsWith (row.Method (codes "endswith") site) type.Bool }
    ensures find { (site : Option ℕ) → OnTwo IsText IsString helper.StrFind (row.Method (codes "find") site) type.Signed }
{}

/// Comparisons of strings, whether one is a part of another, and the truth of one.
pub fn comparisons_are_helped()
    ensures equal { OnTwo IsText IsText helper.StrEqual (row.Compare compared.Eq) type.Bool }
    ensures unequal { OnTwo IsText IsText helper.StrEqual (row.Compare compared.Ne) type.Bool }
    ensures less { OnTwo IsString IsString helper.StrLess (row.Compare compared.Lt) type.Bool }
    ensures at_most { OnTwo IsString IsString helper.StrLess (row.Compare compared.Le) type.Bool }
    ensures greater { OnTwo IsString IsString helper.StrLess (row.Compare compared.Gt) type.Bool }
    ensures at_least { OnTwo IsString IsString helper.StrLess (row.Compare compared.Ge) type.Bool }
    ensures within { OnTwo IsString IsText helper.StrContains (row.Compare compared.Within) type.Bool }
    ensures outside { OnTwo IsString IsText helper.StrContains (row.Compare compared.NotWithin) type.Bool }
    ensures truth { OnOne IsText helper.StrTruth row.Truth type.Bool }
    ensures untrue { OnOne IsText helper.StrTruth row.Not type.Bool }
{}

/// Operands have the types of their kinds, and so have places: what the laws ask follows from the annotation.
pub fn kinds_have_types()
    ensures words { (around : Around) (a : Operand) → kind_of a ≡ kind.Word → IsWord around a }
    ensures flags { (around : Around) (a : Operand) → kind_of a ≡ kind.Flag → IsFlag around a }
    ensures bytes { (around : Around) (a : Operand) → kind_of a ≡ kind.Byte → IsByte around a }
    ensures strings { (around : Around) (a : Operand) → kind_of a ≡ kind.Text → IsString around a }
    ensures texts { (around : Around) (a : Operand) → (kind_of a ≡ kind.Text) ⊎ (kind_of a ≡ kind.MaybeText) → IsText around a }
    ensures words_go { (around : Around) (place : Place) → kind_seen place.element ≡ kind.Word → type_at around place ≡ type.Signed }
    ensures flags_go { (around : Around) (place : Place) → kind_seen place.element ≡ kind.Flag → type_at around place ≡ type.Bool }
    ensures bytes_go { (around : Around) (place : Place) → kind_seen place.element ≡ kind.Byte → type_at around place ≡ type.Char }
    ensures strings_go { (around : Around) (place : Place) → kind_seen place.element ≡ kind.Text → type_at around place ≡ type.Ptr 0 }
{}
