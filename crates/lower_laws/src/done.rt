// Laws of operations that may ask for several helpers or for a small graph, of `None` and of tuples.
ghost use Rattle.std.specs.Prelude.{◌≡◌, true, ℕ, ℤ, pos, negsuc, List, Option, None, codes};
ghost use Rattle.ann_element.specs.declared.element.Element.{Element};
ghost use Rattle.csub_tree.specs.State.{Value, Block};
ghost use Rattle.rpy_tree.specs.declared.syntax.BinOp.TheVariants as bin;
ghost use Rattle.rpy_tree.specs.declared.syntax.CmpOp.TheVariants as compared;
ghost use Rattle.rpy_tree.specs.Value.{Value as Meant};
ghost use Rattle.rpy_meaning.specs.declared.row.RowOp.TheVariants as row;
ghost use Rattle.ll_code.specs.declared.program.LlType.TheVariants as type;
ghost use Rattle.ll_build.specs.declared.needs.Helper.TheVariants as helper;
ghost use Rattle.rtyper_layout.specs.declared.layout.Layout.{Layout};
ghost use Rattle.rtyper_layout.specs.Kinds.{kind_seen};
ghost use Rattle.rtyper_layout.specs.Types.{type_seen};
ghost use Rattle.ll_texts.specs.Stands.{Stands};
ghost use Rattle.lower_laws.specs.Bridged.{FollowedIsDone, HelpedIsDone};
ghost use Rattle.lower_laws.specs.Checked.{IsChecked, NegIsChecked};
ghost use Rattle.lower_laws.specs.Copied.{IsCopied, IsReached, IsNext};
ghost use Rattle.lower_laws.specs.Identity.{BesideNone, TupleBesideNone};
ghost use Rattle.lower_laws.specs.Printed.{IsPrinted};
ghost use Rattle.lower_laws.specs.Raised.{IsRaised};
ghost use Rattle.lower_laws.specs.Texted.{IsNumbered, OnText, OnTexts, OnTextAndWord, IsMethod, IsMethodOfTwo, AreTold};
ghost use Rattle.lower_laws.specs.Tuples.{TuplesAreMade, ItemsAreTaken, IndicesAreTaken, LengthsAreKnown};
ghost use Rattle.lower_laws.specs.Values.{is_plain, Holds};

/// Of words, truth values, bytes and strings, what stands for one by its type is what is known of it, and the other way
/// round.
pub fn values_are_held()
    ensures held { (layout : Layout) (blocks : List (Option Block)) (statics : List Block) (seen : Option Element) (x : Value) (v : Meant) → is_plain (kind_seen seen) ≡ true → Stands blocks statics (type_seen layout seen) x v → Holds layout blocks statics seen x v }
    ensures stands { (layout : Layout) (blocks : List (Option Block)) (statics : List Block) (seen : Option Element) (x : Value) (v : Meant) → is_plain (kind_seen seen) ≡ true → Holds layout blocks statics seen x v → Stands blocks statics (type_seen layout seen) x v }
{}

/// What the machine does itself, and what one helper does, is done in the sense of all laws here.
pub fn first_laws_are_laws()
    ensures followed { FollowedIsDone }
    ensures helped { HelpedIsDone }
{}

/// `print` puts the texts of words, truth values, bytes and strings, with spaces between and a newline.
pub fn prints_are_done()
    ensures { IsPrinted }
{}

/// Whether a value is `None`: a word, a truth value, a byte, a string or a tuple, or what is known to be.
pub fn identity_is_done()
    ensures is { BesideNone compared.Is }
    ensures is_not { BesideNone compared.IsNot }
    ensures tuple_is { TupleBesideNone compared.Is }
    ensures tuple_is_not { TupleBesideNone compared.IsNot }
{}

/// A tuple is made, at its cost, as one block; its items are taken, and its length is known.
pub fn tuples_are_done()
    ensures made { TuplesAreMade }
    ensures item { ItemsAreTaken }
    ensures index { IndicesAreTaken }
    ensures length { LengthsAreKnown }
{}

/// Operations on words whose results have to fit: what does not raises `OverflowError`, and the failures of the
/// operation are raised where they are covered.
pub fn checked_words_are_done()
    ensures sum { IsChecked bin.Add }
    ensures difference { IsChecked bin.Sub }
    ensures product { IsChecked bin.Mul }
    ensures div { IsChecked bin.Div }
    ensures floor_div { IsChecked bin.FloorDiv }
    ensures rest { IsChecked bin.Mod }
    ensures shl { IsChecked bin.Shl }
    ensures opposite { NegIsChecked }
{}

/// Values that stay what they are; of a range the number that is reached, and, of one by one or by its opposite, the
/// next.
pub fn copies_are_done()
    ensures copy { IsCopied row.Copy }
    ensures there { IsCopied row.DropNone }
    ensures missing { IsCopied row.OnlyNone }
    ensures untrue { IsCopied row.FalseNone }
    ensures reached { (step : ℤ) → IsReached step }
    ensures up { IsNext (pos 1) }
    ensures down { IsNext (negsuc 0) }
{}

/// What helpers do with strings, which may be missing, and with bytes, of which strings are made first.
pub fn texts_are_done()
    ensures len { OnText helper.StrLen row.Len type.Signed }
    ensures but_last { (site : ℕ) → OnText helper.StrButLast (row.AllButLast site) (type.Ptr 0) }
    ensures add { (site : Option ℕ) → OnTexts helper.StrAdd (row.Binary bin.Add site) (type.Ptr 0) }
    ensures mul { (site : Option ℕ) → OnTextAndWord helper.StrMul (row.Binary bin.Mul site) (type.Ptr 0) }
    ensures index { (literal : Option ℤ) → OnTextAndWord helper.StrIndex (row.Index literal) type.Char }
    ensures has_item { OnTextAndWord helper.StrHasItem (row.HasItem None) type.Bool }
    ensures item { OnTextAndWord helper.StrItem (row.Item None) type.Char }
    ensures strip { (site : Option ℕ) → IsMethod helper.StrStrip (row.Method (codes "strip") site) (type.Ptr 0) }
    ensures starts { (site : Option ℕ) → IsMethodOfTwo helper.StrStartsWith (row.Method (codes "startswith") site) type.Bool }
    ensures ends { (site : Option ℕ) → IsMethodOfTwo helper.StrEndsWith (row.Method (codes "endswith") site) type.Bool }
    ensures find { (site : Option ℕ) → IsMethodOfTwo helper.StrFind (row.Method (codes "find") site) type.Signed }
{}

/// Comparisons of a string and a byte, and whether the one is a part of the other.
pub fn mixed_texts_are_done()
    ensures equal { AreTold helper.StrEqual (row.Compare compared.Eq) }
    ensures unequal { AreTold helper.StrEqual (row.Compare compared.Ne) }
    ensures less { AreTold helper.StrLess (row.Compare compared.Lt) }
    ensures at_most { AreTold helper.StrLess (row.Compare compared.Le) }
    ensures greater { AreTold helper.StrLess (row.Compare compared.Gt) }
    ensures at_least { AreTold helper.StrLess (row.Compare compared.Ge) }
    ensures within { AreTold helper.StrContains (row.Compare compared.Within) }
    ensures outside { AreTold helper.StrContains (row.Compare compared.NotWithin) }
{}

/// `int` of a string, or of a byte: blanks at both ends, perhaps a sign, and digits whose number is a word. Any other
/// text raises `ValueError`.
pub fn numbers_of_texts_are_done()
    ensures { IsNumbered }
{}

/// Quotients, rests and shifts of words, whose failures are raised where they are covered.
pub fn covered_words_are_done()
    ensures div { (site : Option ℕ) → IsRaised helper.WordDiv (row.Binary bin.Div site) }
    ensures floor_div { (site : Option ℕ) → IsRaised helper.WordDiv (row.Binary bin.FloorDiv site) }
    ensures rest { (site : Option ℕ) → IsRaised helper.WordMod (row.Binary bin.Mod site) }
    ensures shl { (site : Option ℕ) → IsRaised helper.WordShl (row.Binary bin.Shl site) }
    ensures shr { (site : Option ℕ) → IsRaised helper.WordShr (row.Binary bin.Shr site) }
{}
