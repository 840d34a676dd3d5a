// Which graphs and statics the needs of a program use.
ghost use Rattle.std.specs.Prelude.{◌≡◌, IfOk};
ghost use Rattle.ll_build.specs.Needs as spec;

use ll_code::LlType;
use rpy_base::{NoMem, Seq};
use std::alloc::Global;

/// An operation of a program that is a graph.
#[derive(Clone, Copy, Debug, PartialEq, Eq)]
pub enum Helper {
    PrintWord,
    PrintBool,
    /// The floor of a quotient; a zero divisor fails.
    WordDiv,
    /// What is left of it; a zero divisor fails.
    WordMod,
    /// A shift to the left; a count outside 0 to 63 fails.
    WordShl,
    /// A shift to the right; a count outside 0 to 63 fails.
    WordShr,
    /// The byte of a number; one outside 0 to 255 fails.
    WordChr,
    /// The smaller of two words.
    WordMin,
    /// The greater of two words.
    WordMax,
    /// Of a range that rises: its end, a number and the step; the next number, or the end where that comes first.
    RangeUp,
    /// The same of a range that falls.
    RangeDown,
    /// Whether a byte is a digit.
    IsDigit,
    /// Whether a byte is a letter. Those of two cases differ by 32.
    IsAlpha,
    /// Whether a byte is a space or one of 9 to 13.
    IsSpace,
    /// Prints the bytes of a string.
    PrintStr,
    /// Writes the bytes of a string, and gives their number.
    StrWrite,
    /// The string of a byte.
    StrOfChar,
    /// The decimal of a word.
    StrOfWord,
    /// `True` or `False`.
    StrOfBool,
    /// Two strings, one behind the other.
    StrAdd,
    /// A string so many times; below zero counts as none.
    StrMul,
    /// The byte at a place; one below zero counts from the end, and one outside fails.
    StrIndex,
    /// The bytes from a place up to another, cut at the end; a bound below zero fails.
    StrSlice,
    /// All bytes but the last.
    StrButLast,
    /// The length.
    StrLen,
    /// Whether a string is there and has a byte.
    StrTruth,
    /// Whether two strings are equal, or both missing.
    StrEqual,
    /// Whether the first of two strings is less.
    StrLess,
    /// Whether the first string is a part of the second.
    StrContains,
    /// The first place from which the first string begins with the second, or -1.
    StrFind,
    /// Whether the first string begins with the second.
    StrStartsWith,
    /// Whether the first string ends with the second.
    StrEndsWith,
    /// A string without blanks at its ends.
    StrStrip,
    /// What is walked: the string itself.
    StrWalk,
    /// Whether a place is below the length.
    StrHasItem,
    /// The byte at a place that is there.
    StrItem,
}

/// A helper that is needed, for items and keys of these types where it speaks of any.
#[derive(Clone, Copy, Debug, PartialEq, Eq)]
pub struct Need {
    pub helper: Helper,
    pub item: LlType,
    pub key: LlType,
}

/// A graph that helpers call. In this order those that are used follow the graphs of the needs.
#[derive(Clone, Copy)]
pub enum Shared {
    PrintDigits,
    PutBytes,
    CopyBytes,
    StringPart,
    RepeatBytes,
    AlikeBytes,
    FindBytes,
    LessBytes,
    CountDigits,
    WriteDigits,
    IsSpace,
    SkipForwards,
    SkipBackwards,
}

/// The struct of the table of strings, and the numbers of the graphs that helpers call.
#[derive(Clone, Copy)]
pub struct Numbers {
    pub table: u64,
    pub print_digits: u64,
    pub put_bytes: u64,
    pub copy_bytes: u64,
    pub string_part: u64,
    pub repeat_bytes: u64,
    pub alike_bytes: u64,
    pub find_bytes: u64,
    pub less_bytes: u64,
    pub count_digits: u64,
    pub write_digits: u64,
    pub is_space: u64,
    pub skip_forwards: u64,
    pub skip_backwards: u64,
}

// Whether the digits of a word are printed.
fn prints_digits(helper: Helper) -> bool
    ensures { result ≡ spec.prints_digits helper }
{
    match helper {
        Helper::PrintWord => true,
        _ => false,
    }
}

// Whether the bytes of a string are printed.
fn puts_bytes(helper: Helper) -> bool
    ensures { result ≡ spec.puts_bytes helper }
{
    match helper {
        Helper::PrintStr | Helper::StrWrite => true,
        _ => false,
    }
}

// Whether bytes are copied.
fn copies_bytes(helper: Helper) -> bool
    ensures { result ≡ spec.copies_bytes helper }
{
    match helper {
        Helper::StrAdd
        | Helper::StrMul
        | Helper::StrSlice
        | Helper::StrButLast
        | Helper::StrStrip => true,
        _ => false,
    }
}

// Whether the part of a string is made.
fn takes_parts(helper: Helper) -> bool
    ensures { result ≡ spec.takes_parts helper }
{
    match helper {
        Helper::StrAdd
        | Helper::StrMul
        | Helper::StrSlice
        | Helper::StrButLast
        | Helper::StrStrip => true,
        _ => false,
    }
}

// Whether a string is repeated.
fn repeats_bytes(helper: Helper) -> bool
    ensures { result ≡ spec.repeats_bytes helper }
{
    match helper {
        Helper::StrMul => true,
        _ => false,
    }
}

// Whether stretches are compared.
fn compares_bytes(helper: Helper) -> bool
    ensures { result ≡ spec.compares_bytes helper }
{
    match helper {
        Helper::StrEqual
        | Helper::StrContains
        | Helper::StrFind
        | Helper::StrStartsWith
        | Helper::StrEndsWith => true,
        _ => false,
    }
}

// Whether a part is looked for.
fn finds_bytes(helper: Helper) -> bool
    ensures { result ≡ spec.finds_bytes helper }
{
    match helper {
        Helper::StrContains | Helper::StrFind => true,
        _ => false,
    }
}

// Whether strings are ordered.
fn orders_bytes(helper: Helper) -> bool
    ensures { result ≡ spec.orders_bytes helper }
{
    match helper {
        Helper::StrLess => true,
        _ => false,
    }
}

// Whether digits are counted.
fn counts_digits(helper: Helper) -> bool
    ensures { result ≡ spec.counts_digits helper }
{
    match helper {
        Helper::StrOfWord => true,
        _ => false,
    }
}

// Whether digits are written.
fn writes_digits(helper: Helper) -> bool
    ensures { result ≡ spec.writes_digits helper }
{
    match helper {
        Helper::StrOfWord => true,
        _ => false,
    }
}

// Whether blanks are asked for.
fn asks_blanks(helper: Helper) -> bool
    ensures { result ≡ spec.asks_blanks helper }
{
    match helper {
        Helper::StrStrip => true,
        _ => false,
    }
}

// Whether blanks are skipped.
fn skips_forwards(helper: Helper) -> bool
    ensures { result ≡ spec.skips_forwards helper }
{
    match helper {
        Helper::StrStrip => true,
        _ => false,
    }
}

// Whether blanks are skipped from the end.
fn skips_backwards(helper: Helper) -> bool
    ensures { result ≡ spec.skips_backwards helper }
{
    match helper {
        Helper::StrStrip => true,
        _ => false,
    }
}

fn uses(graph: Shared, helper: Helper) -> bool
    ensures { result ≡ spec.uses graph helper }
{
    match graph {
        Shared::PrintDigits => prints_digits(helper),
        Shared::PutBytes => puts_bytes(helper),
        Shared::CopyBytes => copies_bytes(helper),
        Shared::StringPart => takes_parts(helper),
        Shared::RepeatBytes => repeats_bytes(helper),
        Shared::AlikeBytes => compares_bytes(helper),
        Shared::FindBytes => finds_bytes(helper),
        Shared::LessBytes => orders_bytes(helper),
        Shared::CountDigits => counts_digits(helper),
        Shared::WriteDigits => writes_digits(helper),
        Shared::IsSpace => asks_blanks(helper),
        Shared::SkipForwards => skips_forwards(helper),
        Shared::SkipBackwards => skips_backwards(helper),
    }
}

/// Whether a need uses this graph.
pub fn is_used(needs: &[Need], graph: Shared) -> bool
    ensures { result ≡ spec.is_used needs.now graph }
{
    for need in needs {
        if uses(graph, need.helper) {
            return true;
        }
    }
    false
}

// Whether the static strings are named.
fn names_texts(helper: Helper) -> bool
    ensures { result ≡ spec.names_texts helper }
{
    match helper {
        Helper::StrOfChar
        | Helper::StrOfWord
        | Helper::StrOfBool
        | Helper::StrAdd
        | Helper::StrMul
        | Helper::StrSlice
        | Helper::StrButLast
        | Helper::StrStrip => true,
        _ => false,
    }
}

/// Whether a need uses the static strings and their table.
pub fn uses_texts(needs: &[Need]) -> bool
    ensures { result ≡ spec.uses_texts needs.now }
{
    for need in needs {
        if names_texts(need.helper) {
            return true;
        }
    }
    false
}

/// The graphs that helpers call, in their order.
pub fn all_shared(alloc: Global) -> Result<Seq<Shared>, NoMem>
    ensures { IfOk result (λ list. list ≡ spec.all_shared) }
{
    let items = Vec::from_array(
        alloc,
        [
            Shared::PrintDigits,
            Shared::PutBytes,
            Shared::CopyBytes,
            Shared::StringPart,
            Shared::RepeatBytes,
            Shared::AlikeBytes,
            Shared::FindBytes,
            Shared::LessBytes,
            Shared::CountDigits,
            Shared::WriteDigits,
            Shared::IsSpace,
            Shared::SkipForwards,
            Shared::SkipBackwards,
        ],
    )?;
    Ok(Seq::from_vec(items))
}

fn rank(graph: Shared) -> u64
    ensures { result ≡ spec.rank graph }
{
    match graph {
        Shared::PrintDigits => 0,
        Shared::PutBytes => 1,
        Shared::CopyBytes => 2,
        Shared::StringPart => 3,
        Shared::RepeatBytes => 4,
        Shared::AlikeBytes => 5,
        Shared::FindBytes => 6,
        Shared::LessBytes => 7,
        Shared::CountDigits => 8,
        Shared::WriteDigits => 9,
        Shared::IsSpace => 10,
        Shared::SkipForwards => 11,
        Shared::SkipBackwards => 12,
    }
}

fn stands_before(needs: &[Need], other: Shared, graph: Shared) -> bool
    ensures { result ≡ spec.stands_before needs.now other graph }
{
    rank(other) < rank(graph) && is_used(needs, other)
}

// One more. A program with more graphs than a u64 counts does not fit in memory.
fn one_more(n: u64, test: bool) -> Result<u64, NoMem>
    ensures { IfOk result (λ sum. sum ≡ spec.one_more n test) }
{
    if !test {
        return Ok(n);
    }
    match n.checked_add(1) {
        None => Err(NoMem),
        Some(sum) => Ok(sum),
    }
}

// The number of a graph: those that are used and stand before it come first.
fn number(needs: &[Need], order: &[Shared], graph: Shared) -> Result<u64, NoMem>
    ensures { IfOk result (λ n. n ≡ spec.number needs.now order.now graph) }
{
    let mut n = needs.len() as u64;
    for other in order {
        n = one_more(n, stands_before(needs, *other, graph))?;
    }
    Ok(n)
}

/// The numbers of the graphs behind those of the needs.
pub fn numbers_of(needs: &[Need], order: &[Shared], table: u64) -> Result<Numbers, NoMem>
    ensures { IfOk result (λ made. made ≡ spec.numbers_of needs.now order.now table) }
{
    Ok(Numbers {
        table,
        print_digits: number(needs, order, Shared::PrintDigits)?,
        put_bytes: number(needs, order, Shared::PutBytes)?,
        copy_bytes: number(needs, order, Shared::CopyBytes)?,
        string_part: number(needs, order, Shared::StringPart)?,
        repeat_bytes: number(needs, order, Shared::RepeatBytes)?,
        alike_bytes: number(needs, order, Shared::AlikeBytes)?,
        find_bytes: number(needs, order, Shared::FindBytes)?,
        less_bytes: number(needs, order, Shared::LessBytes)?,
        count_digits: number(needs, order, Shared::CountDigits)?,
        write_digits: number(needs, order, Shared::WriteDigits)?,
        is_space: number(needs, order, Shared::IsSpace)?,
        skip_forwards: number(needs, order, Shared::SkipForwards)?,
        skip_backwards: number(needs, order, Shared::SkipBackwards)?,
    })
}
