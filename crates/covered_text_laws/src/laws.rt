// Laws of operations on strings whose failures are covered.
ghost use Rattle.std.specs.Prelude.{ℕ, ℤ, true, false, Option, codes};
ghost use Rattle.rpy_tree.specs.declared.syntax.BinOp.TheVariants as bin;
ghost use Rattle.rpy_meaning.specs.declared.row.RowOp.TheVariants as row;
ghost use Rattle.ll_code.specs.declared.program.LlType.TheVariants as type;
ghost use Rattle.ll_build.specs.declared.needs.Helper.TheVariants as helper;
ghost use Rattle.covered_text_laws.specs.Done.{CoveredIsDone};
ghost use Rattle.covered_text_laws.specs.Texts.{IsMethod, IsMethodOfTwo, OnString, OnStringAndWord, OnStringAndWords, OnText, OnTextAndWord, OnTexts, OnWord};

/// What helpers do with strings, which may be missing, and with bytes, of which strings are made first. A failure that is
/// covered throws its exception, and any other fails.
pub fn covered_texts_are_done()
    ensures len { OnText helper.StrLen row.Len type.Signed }
    ensures but_last { (site : ℕ) → OnText helper.StrButLast (row.AllButLast site) (type.Ptr 0) }
    ensures add { (site : Option ℕ) → OnTexts helper.StrAdd (row.Binary bin.Add site) (type.Ptr 0) }
    ensures mul { (site : Option ℕ) → OnTextAndWord helper.StrMul (row.Binary bin.Mul site) (type.Ptr 0) }
    ensures index { (literal : Option ℤ) → OnTextAndWord helper.StrIndex (row.Index literal) type.Char }
{}

/// The same of methods of strings.
pub fn covered_methods_are_done()
    ensures strip { (site : Option ℕ) → IsMethod helper.StrStrip (row.Method (codes "strip") site) (type.Ptr 0) }
    ensures starts { (site : Option ℕ) → IsMethodOfTwo helper.StrStartsWith (row.Method (codes "startswith") site) type.Bool }
    ensures ends { (site : Option ℕ) → IsMethodOfTwo helper.StrEndsWith (row.Method (codes "endswith") site) type.Bool }
    ensures find { (site : Option ℕ) → IsMethodOfTwo helper.StrFind (row.Method (codes "find") site) type.Signed }
{}

/// The same of what is walked, of slices of strings, and of the byte of a word.
pub fn covered_strings_are_done()
    ensures walk { (site : ℕ) → OnString helper.StrWalk (row.Walk site) (type.Ptr 0) }
    ensures slice { (site : ℕ) → OnStringAndWords helper.StrSlice (row.Slice site true true) (type.Ptr 0) }
    ensures up_to { (site : ℕ) → OnStringAndWord helper.StrSlice (row.Slice site false true) (type.Ptr 0) }
    ensures from { (site : ℕ) → OnStringAndWord helper.StrSlice (row.Slice site true false) (type.Ptr 0) }
    ensures whole { (site : ℕ) → OnString helper.StrSlice (row.Slice site false false) (type.Ptr 0) }
    ensures chr { OnWord helper.WordChr row.Chr type.Char }
{}

/// All this is done over the relation of objects, whatever heap memory represents.
pub fn covered_operations_are_done()
    ensures { CoveredIsDone }
{}
