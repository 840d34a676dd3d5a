// Integer literals.
ghost use Rattle.std.specs.Prelude.{◌≡◌, ◌≤◌, ◌<◌, ◌+◌, ◌*◌, ◌^◌, length, Ok};
ghost use Rattle.std.specs.Option.{SomeIff};
ghost use Rattle.rpy_token.specs.Number as spec;
ghost use Rattle.rpy_token.specs.Fault.{Gives};

use crate::TokenFault;
use crate::bytes::is_name_byte;
use crate::place::place;

/// The value of a digit, and 16 for any other byte.
pub fn digit(b: u8) -> u64
    ensures { result ≡ spec.digit b }
{
    match b {
        b'0'..=b'9' => (b - b'0') as u64,
        b'a'..=b'f' => (b - b'a') as u64 + 10,
        b'A'..=b'F' => (b - b'A') as u64 + 10,
        _ => 16,
    }
}

#[tactic(auto, unfolding(crate::specs::Number::digit_len))]
pub fn digit_len(base: u64, bytes: &[u8]) -> usize
    ensures value { result ≡ spec.digit_len base bytes.now }
    ensures within { result ≤ length bytes.now }
{
    let mut n = 0;
    for b in bytes {
        if digit(*b) >= base {
            return n;
        }
        n += 1;
    }
    n
}

/// The value with one more digit, where it is below 2^64.
fn with_digit(base: u64, value: u64, b: u8) -> Option<u64>
    ensures { SomeIff result (value * base + spec.digit b < 2 ^ 64) (value * base + spec.digit b) }
{
    value.checked_mul(base)?.checked_add(digit(b))
}

/// The value of digits, where it is below 2^64.
#[tactic(auto, using(crate::proofs::NumberLemmas::value_past, crate::proofs::NumberLemmas::value_whole), unfolding(crate::specs::Number::value_from))]
pub fn value(base: u64, digits: &[u8]) -> Option<u64>
    requires { 0 < base }
    ensures { SomeIff result (spec.value_from base 0 digits.now < 2 ^ 64)
        (spec.value_from base 0 digits.now) }
{
    let mut value: u64 = 0;
    for b in digits {
        let Some(more) = with_digit(base, value, *b) else {
            return None;
        };
        value = more;
    }
    Some(value)
}

/// The value of digits, where it is a word.
fn word(base: u64, digits: &[u8]) -> Option<i64>
    requires { 0 < base }
    ensures { result ≡ spec.word base digits.now }
{
    i64::try_from(value(base, digits)?).ok()
}

/// The base of a number, and its digits.
fn radix(bytes: &[u8]) -> (u64, &[u8])
    ensures { spec.radix bytes.entry.now ≡ (result.0, result.1.now) }
{
    match bytes {
        [b'0', b'x' | b'X', rest @ ..] => (16, rest),
        [b'0', b'o' | b'O', rest @ ..] => (8, rest),
        [b'0', ..] => (8, bytes),
        _ => (10, bytes),
    }
}

/// May these bytes not follow a number?
fn goes_on(bytes: &[u8]) -> bool
    ensures { result ≡ spec.goes_on bytes.now }
{
    match bytes {
        [] => false,
        [b, ..] => is_name_byte(*b) || *b == b'.',
    }
}

fn digits_at(at: u32, base: u64, bytes: &[u8]) -> Result<(i64, &[u8]), TokenFault>
    requires { 0 < base }
    ensures { Gives (λ x. (x.0, x.1.now)) result (spec.digits_at at base bytes.entry.now) }
{
    let (digits, rest) = bytes.split_at(digit_len(base, bytes));
    if digits.is_empty() || goes_on(rest) {
        return Err(TokenFault::BadNumber(at));
    }
    match word(base, digits) {
        Some(value) => Ok((value, rest)),
        None => Err(TokenFault::BadNumber(at)),
    }
}

/// A number, and what follows it.
#[tactic(auto, unfolding(crate::specs::Number::number))]
pub fn number(size: u32, bytes: &[u8]) -> Result<(i64, &[u8]), TokenFault>
    ensures { Gives (λ x. (x.0, x.1.now)) result (spec.number size bytes.entry.now) }
{
    let (base, digits) = radix(bytes);
    digits_at(place(size, bytes), base, digits)
}
