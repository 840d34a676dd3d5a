// Laws of helpers, over all programs in which they stand.
ghost use Rattle.std.specs.Prelude.{ℕ, ℤ, true, false, List, Option, Some, None, pos, ◌≡◌, codes, length, [], ◌∷◌, ◌++◌, ◌<◌, ◌^◌, slice_get};
ghost use Rattle.rpy_tree.specs.declared.syntax.BinOp.TheVariants as bin;
ghost use Rattle.rpy_tree.specs.declared.syntax.CmpOp.TheVariants as cmp;
ghost use Rattle.rpy_meaning.specs.declared.row.RowOp.TheVariants as row;
ghost use Rattle.ll_code.specs.declared.program.LlType.TheVariants as type;
ghost use Rattle.ll_build.specs.declared.needs.Helper.TheVariants as helper;
ghost use Rattle.csub_tree.specs.State.{Core};
ghost use Rattle.csub_tree.specs.declared.tree.CStatic.{CStatic};
ghost use Rattle.ll_code.specs.Machine.{start};
ghost use Rattle.ll_code.specs.declared.program.LlStruct.{LlStruct};
ghost use Rattle.ll_held.specs.Roots.{core_of};
ghost use Rattle.ll_helpers.specs.Statics.{texts};
ghost use Rattle.ll_code.specs.declared.program.LlGraph.{LlGraph};
ghost use Rattle.ll_code.specs.declared.program.LlProgram.{LlProgram};
ghost use Rattle.ll_helpers.specs.Helpers.{helper_graphs, table_struct};
ghost use Rattle.ll_build.specs.Needs.{all_shared, names_texts, numbers_of};
ghost use Rattle.ll_build.specs.declared.needs.Need.{Need};
ghost use Rattle.ll_texts.specs.Texts.{HasText, HasStatics};
ghost use Rattle.rpy_tree.specs.Value.{Word};
ghost use Rattle.rpy_meaning.specs.Classes.{no_covers};
ghost use Rattle.rpy_meaning.specs.Operations.{op};
ghost use Rattle.ll_strings.specs.Laws.{CatchesNothing, HasHelper, ReadsInputsAlone, Is, IsTwo, IsThree, Does, DoesThree, Shows, SlicesAll, SlicesFrom, SlicesUpTo, falling, rising};
ghost use Rattle.ll_strings.specs.Small.{WeighsLittle};

/// Quotients and rests, shifts, the smaller and the greater of two words, and the next number of a range. A zero
/// divisor and a count outside 0 to 63 fail.
pub fn helpers_of_words()
    ensures div { (site : Option ℕ) → IsTwo helper.WordDiv type.Signed type.Signed type.Signed (row.Binary bin.Div site) }
    ensures floor_div { (site : Option ℕ) → IsTwo helper.WordDiv type.Signed type.Signed type.Signed (row.Binary bin.FloorDiv site) }
    ensures rest { (site : Option ℕ) → IsTwo helper.WordMod type.Signed type.Signed type.Signed (row.Binary bin.Mod site) }
    ensures shl { (site : Option ℕ) → IsTwo helper.WordShl type.Signed type.Signed type.Signed (row.Binary bin.Shl site) }
    ensures shr { (site : Option ℕ) → IsTwo helper.WordShr type.Signed type.Signed type.Signed (row.Binary bin.Shr site) }
    ensures least { IsTwo helper.WordMin type.Signed type.Signed type.Signed row.Min }
    ensures greatest { IsTwo helper.WordMax type.Signed type.Signed type.Signed row.Max }
    ensures rising { DoesThree helper.RangeUp type.Signed type.Signed type.Signed type.Signed rising }
    ensures falling { DoesThree helper.RangeDown type.Signed type.Signed type.Signed type.Signed falling }
{}

/// The byte of a number, what kind of byte one is, and the string of a byte and of a truth value, which are never
/// made.
pub fn helpers_of_bytes()
    ensures chr { Is helper.WordChr type.Signed type.Char row.Chr }
    ensures digit { (site : Option ℕ) → Is helper.IsDigit type.Char type.Bool (row.Method (codes "isdigit") site) }
    ensures alpha { (site : Option ℕ) → Is helper.IsAlpha type.Char type.Bool (row.Method (codes "isalpha") site) }
    ensures of_char { Is helper.StrOfChar type.Char (type.Ptr 0) row.Copy }
    ensures of_bool { Is helper.StrOfBool type.Bool (type.Ptr 0) row.ToStr }
    ensures space { (site : Option ℕ) → Is helper.IsSpace type.Char type.Bool (row.Method (codes "isspace") site) }
{}

/// What is asked of one string: its length, its truth, its byte at any place, which may count from the end, and
/// what a walk asks.
pub fn helpers_that_ask()
    ensures len { Is helper.StrLen (type.Ptr 0) type.Signed row.Len }
    ensures truth { Is helper.StrTruth (type.Ptr 0) type.Bool row.Truth }
    ensures index { (literal : Option ℤ) → IsTwo helper.StrIndex (type.Ptr 0) type.Signed type.Char (row.Index literal) }
    ensures walk { (site : ℕ) → Is helper.StrWalk (type.Ptr 0) (type.Ptr 0) (row.Walk site) }
    ensures has_item { IsTwo helper.StrHasItem (type.Ptr 0) type.Signed type.Bool (row.HasItem None) }
    ensures item { IsTwo helper.StrItem (type.Ptr 0) type.Signed type.Char (row.Item None) }
{}

/// Whether two strings are equal, or both missing, and whether one is less.
pub fn helpers_that_compare()
    ensures equal { IsTwo helper.StrEqual (type.Ptr 0) (type.Ptr 0) type.Bool (row.Compare cmp.Eq) }
    ensures less { IsTwo helper.StrLess (type.Ptr 0) (type.Ptr 0) type.Bool (row.Compare cmp.Lt) }
{}

/// Strings that are made of others, where the steps suffice.
pub fn helpers_that_make()
    ensures add { (site : Option ℕ) → IsTwo helper.StrAdd (type.Ptr 0) (type.Ptr 0) (type.Ptr 0) (row.Binary bin.Add site) }
    ensures but_last { (site : ℕ) → Is helper.StrButLast (type.Ptr 0) (type.Ptr 0) (row.AllButLast site) }
    ensures slice { (site : ℕ) → IsThree helper.StrSlice (type.Ptr 0) type.Signed type.Signed (type.Ptr 0) (row.Slice site true true) }
    ensures up_to { (site : ℕ) → SlicesUpTo (row.Slice site false true) }
    ensures from { (site : ℕ) → SlicesFrom (row.Slice site true false) }
    ensures whole { (site : ℕ) → SlicesAll (row.Slice site false false) }
    ensures mul { (site : Option ℕ) → IsTwo helper.StrMul (type.Ptr 0) type.Signed (type.Ptr 0) (row.Binary bin.Mul site) }
    ensures strip { (site : Option ℕ) → Is helper.StrStrip (type.Ptr 0) (type.Ptr 0) (row.Method (codes "strip") site) }
    ensures of_word { Is helper.StrOfWord type.Signed (type.Ptr 0) row.ToStr }
{}

/// Whether a string begins or ends with another, or has it as a part, and the first place from which it does.
pub fn helpers_that_find()
    ensures starts { (site : Option ℕ) → IsTwo helper.StrStartsWith (type.Ptr 0) (type.Ptr 0) type.Bool (row.Method (codes "startswith") site) }
    ensures ends { (site : Option ℕ) → IsTwo helper.StrEndsWith (type.Ptr 0) (type.Ptr 0) type.Bool (row.Method (codes "endswith") site) }
    ensures find { (site : Option ℕ) → IsTwo helper.StrFind (type.Ptr 0) (type.Ptr 0) type.Signed (row.Method (codes "find") site) }
    ensures contains { IsTwo helper.StrContains (type.Ptr 0) (type.Ptr 0) type.Bool (row.Compare cmp.Within) }
{}

/// What `print` writes of a word, a string and a truth value, and `os.write`, which gives the count of bytes.
pub fn helpers_that_print()
    ensures text { Shows helper.PrintStr (type.Ptr 0) }
    ensures flag { Shows helper.PrintBool type.Bool }
    ensures write { Does helper.StrWrite (type.Ptr 0) type.Signed (λ program v. op program no_covers row.Write (Word (pos 1) ∷ v ∷ [])) }
    ensures word { Shows helper.PrintWord type.Signed }
{}

/// A program whose first graphs are those that are given for these needs has the helper of each need at the number
/// of the need, and the graphs that it calls at theirs.
pub fn helpers_stand_at_their_needs()
    ensures { (p : LlProgram) (needs : List Need) (table : ℕ) (more : List LlGraph) → p.graphs ≡ helper_graphs needs table ++ more → (i : ℕ) (need : Need) → slice_get needs i ≡ Some need → (core : Core) → HasText p → (names_texts need.helper ≡ true → HasStatics p table core.statics) → core.steps < 2 ^ 62 → HasHelper p (numbers_of needs all_shared table) need.helper i core }
{}

/// Each block of a helper, and of the graphs that helpers call, reads its inputs alone, and what it sets itself.
pub fn helpers_read_inputs_alone()
    ensures { (needs : List Need) (table f : ℕ) (graph : LlGraph) → slice_get (helper_graphs needs table) f ≡ Some graph → ReadsInputsAlone graph }
{}

/// No block of a helper, nor of the graphs that helpers call, catches an exception.
pub fn helpers_catch_nothing()
    ensures { (needs : List Need) (table f : ℕ) (graph : LlGraph) → slice_get (helper_graphs needs table) f ≡ Some graph → CatchesNothing graph }
{}

/// At the start of a run of a program that begins with the static strings, and has the struct of their table, they
/// stand; and where its first struct has no base and one field, struct 0 is that of strings.
pub fn strings_stand_at_the_start()
    ensures statics { (p : LlProgram) (structs others : List LlStruct) (more : List CStatic) → p.structs ≡ structs ++ table_struct ∷ others → p.statics ≡ texts (length structs) ++ more → HasText p → (steps : ℕ) → HasStatics p (length structs) (core_of (start p steps)).statics }
    ensures text { (p : LlProgram) (struct : LlStruct) (others : List LlStruct) → p.structs ≡ struct ∷ others → struct.base ≡ None → length struct.fields ≡ 1 → HasText p }
{}

/// The graph of a helper, with those that it calls, one at a time, has no more than 64 variables; the one that prints a
/// word is left out, for it calls itself.
pub fn helpers_weigh_little()
    ensures { WeighsLittle }
{}
