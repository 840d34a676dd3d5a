// Decimal texts of words.
ghost use Rattle.std.specs.Prelude.{◌≡◌, IfOk};
ghost use Rattle.std.specs.Fmt.{signed_decimal, decimal as udecimal};
ghost use Rattle.std.specs.Option.{SomeIff};
ghost use Rattle.rpy_base.specs.Number.{blank, without_leading_blanks, without_trailing_blanks, trimmed, IsWordText, word_text_value};

use crate::{NoMem, Text};
use itoa::Buffer;
use std::alloc::Global;

/// The decimal text of a word.
pub fn decimal(alloc: Global, n: i64) -> Result<Text, NoMem>
    ensures { IfOk result (λ text. text ≡ signed_decimal n) }
{
    let mut buffer = Buffer::new();
    Text::from_bytes(alloc, buffer.format(n).as_bytes())
}

/// The decimal text of an unsigned number.
pub fn udecimal(alloc: Global, n: u64) -> Result<Text, NoMem>
    ensures { IfOk result (λ text. text ≡ udecimal n) }
{
    let mut buffer = Buffer::new();
    Text::from_bytes(alloc, buffer.format(n).as_bytes())
}

fn is_blank(byte: u8) -> bool
    ensures { result ≡ blank byte }
{
    byte == b' ' || (9 <= byte && byte <= 13)
}

fn trim_front(bytes: &[u8]) -> &[u8]
    ensures { result.now ≡ without_leading_blanks bytes.now }
{
    let mut rest = bytes;
    while let [first, after @ ..] = rest {
        if !is_blank(*first) {
            break;
        }
        rest = after;
    }
    rest
}

fn trim_back(bytes: &[u8]) -> &[u8]
    ensures { result.now ≡ without_trailing_blanks bytes.now }
{
    let mut rest = bytes;
    while let [before @ .., last] = rest {
        if !is_blank(*last) {
            break;
        }
        rest = before;
    }
    rest
}

/// The word that a text is: blanks at both ends aside, perhaps a sign, then one or more decimal
/// digits, with a value that fits. `None` exactly where it has none. (Python 2's `int(s)`, where a
/// value past a word would be a long.)
pub fn parse_word(bytes: &[u8]) -> Option<i64>
    ensures { SomeIff result (IsWordText (trimmed bytes.now)) (word_text_value (trimmed bytes.now)) }
{
    match str::from_utf8(trim_back(trim_front(bytes))) {
        Ok(text) => text.parse::<i64>().ok(),
        Err(_) => None,
    }
}
