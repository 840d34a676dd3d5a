// String literals.
ghost use Rattle.std.specs.Prelude.{◌≡◌, [], ◌++◌, ◌+◌, ◌*◌, ◌<◌, ◌^◌, Ok, Some, IfOk, OnOk, take, IsTrue, ◌↔◌};
ghost use Rattle.rpy_token.specs.Quoted as spec;
ghost use Rattle.rpy_token.specs.Fault.{Gives, Same};

use crate::TokenFault;
use crate::bytes::{after_newline, is_text_byte};
use crate::number::{digit, digit_len, value};
use crate::place::place;
use rpy_base::{NoMem, Text};
use std::alloc::Global;

/// How a string is written: by which quote, by three of it, and without escapes.
#[derive(Clone, Copy, Debug, PartialEq, Eq)]
pub struct Form {
    pub quote: u8,
    pub triple: bool,
    pub raw: bool,
}

/// A part of a string: the quotes at its end, or the bytes that it stands for.
#[derive(Clone, Copy, Debug, PartialEq, Eq)]
pub enum Part {
    Close,
    Nothing,
    One(u8),
    Two(u8, u8),
}

fn after_one(quote: u8, bytes: &[u8]) -> Option<&[u8]>
    ensures { Same (λ rest. rest.now) result (spec.after_one quote bytes.entry.now) }
{
    match bytes {
        [b, rest @ ..] if *b == quote => Some(rest),
        _ => None,
    }
}

pub fn after_three(quote: u8, bytes: &[u8]) -> Option<&[u8]>
    ensures { Same (λ rest. rest.now) result (spec.after_three quote bytes.entry.now) }
{
    after_one(quote, after_one(quote, after_one(quote, bytes)?)?)
}

#[tactic(auto, unfolding(crate::specs::Quoted::after_close))]
fn after_close(form: Form, bytes: &[u8]) -> Option<&[u8]>
    ensures { Same (λ rest. rest.now) result (spec.after_close form bytes.entry.now) }
{
    if form.triple {
        after_three(form.quote, bytes)
    } else {
        after_one(form.quote, bytes)
    }
}

fn simple_escape(c: u8) -> Option<u8>
    ensures { result ≡ spec.simple_escape c }
{
    match c {
        b'\\' => Some(b'\\'),
        b'\'' => Some(b'\''),
        b'"' => Some(b'"'),
        b'a' => Some(7),
        b'b' => Some(8),
        b'f' => Some(12),
        b'n' => Some(10),
        b'r' => Some(13),
        b't' => Some(9),
        b'v' => Some(11),
        _ => None,
    }
}

#[tactic(auto, unfolding(crate::specs::Quoted::hex_escape))]
fn hex_escape(at: u32, bytes: &[u8]) -> Result<(Part, &[u8]), TokenFault>
    ensures { Gives (λ x. (x.0, x.1.now)) result (spec.hex_escape at bytes.entry.now) }
{
    match bytes {
        [a, b, rest @ ..] if digit(*a) < 16 && digit(*b) < 16 => {
            Ok((Part::One((16 * digit(*a) + digit(*b)) as u8), rest))
        }
        _ => Err(TokenFault::BadNumber(at)),
    }
}

#[tactic(auto, unfolding(crate::specs::Quoted::octal_escape))]
fn octal_escape(at: u32, bytes: &[u8]) -> Result<(Part, &[u8]), TokenFault>
    ensures { Gives (λ x. (x.0, x.1.now)) result (spec.octal_escape at bytes.entry.now) }
{
    let first = &bytes[..bytes.len().min(3)];
    let (digits, rest) = bytes.split_at(digit_len(8, first));
    match value(8, digits) {
        Some(n) if n < 256 => Ok((Part::One(n as u8), rest)),
        _ => Err(TokenFault::BadNumber(at)),
    }
}

/// What the bytes after a backslash at a place stand for.
#[tactic(auto, unfolding(crate::specs::Quoted::escape))]
fn escape(at: u32, bytes: &[u8]) -> Result<(Part, &[u8]), TokenFault>
    ensures { Gives (λ x. (x.0, x.1.now)) result (spec.escape at bytes.entry.now) }
{
    if let Some(rest) = after_newline(bytes) {
        return Ok((Part::Nothing, rest));
    }
    let Some((c, rest)) = bytes.split_first() else {
        return Ok((Part::One(b'\\'), bytes));
    };
    if let Some(b) = simple_escape(*c) {
        Ok((Part::One(b), rest))
    } else if *c == b'x' {
        hex_escape(at, rest)
    } else if digit(*c) < 8 {
        octal_escape(at, bytes)
    } else {
        Ok((Part::One(b'\\'), bytes))
    }
}

fn raw_backslash(quote: u8, bytes: &[u8]) -> (Part, &[u8])
    ensures { spec.raw_backslash quote bytes.entry.now ≡ (result.0, result.1.now) }
{
    match bytes {
        [c, rest @ ..] if *c == b'\\' || *c == quote => (Part::Two(b'\\', *c), rest),
        _ => (Part::One(b'\\'), bytes),
    }
}

#[tactic(auto, unfolding(crate::specs::Quoted::part_of_line))]
fn part_of_line(
    form: Form,
    size: u32,
    start: u32,
    bytes: &[u8],
) -> Result<(Part, &[u8]), TokenFault>
    ensures { Gives (λ x. (x.0, x.1.now)) result (spec.part_of_line form size start bytes.entry.now) }
{
    let Some((b, rest)) = bytes.split_first() else {
        return Err(TokenFault::OpenString(start));
    };
    if !is_text_byte(*b) {
        return Err(TokenFault::BadByte(place(size, bytes)));
    }
    if let Some(after) = after_close(form, bytes) {
        return Ok((Part::Close, after));
    }
    if *b != b'\\' {
        Ok((Part::One(*b), rest))
    } else if form.raw {
        Ok(raw_backslash(form.quote, rest))
    } else {
        escape(place(size, bytes), rest)
    }
}

/// The next part of a string that begins at `start`.
#[tactic(auto, unfolding(crate::specs::Quoted::next_part))]
fn next_part(form: Form, size: u32, start: u32, bytes: &[u8]) -> Result<(Part, &[u8]), TokenFault>
    ensures { Gives (λ x. (x.0, x.1.now)) result (spec.next_part form size start bytes.entry.now) }
{
    match after_newline(bytes) {
        Some(rest) if form.triple => Ok((Part::One(b'\n'), rest)),
        Some(_) => Err(TokenFault::OpenString(start)),
        None => part_of_line(form, size, start, bytes),
    }
}

fn push_part(found: &mut Text, part: Part) -> Result<(), NoMem>
    ensures { OnOk result (found.new ≡ found.old ++ spec.bytes_of part) }
{
    match part {
        Part::Close | Part::Nothing => Ok(()),
        Part::One(a) => found.push(a),
        Part::Two(a, b) => found.append(&[a, b]),
    }
}

fn is_close(part: Part) -> bool
    ensures { result ≡ spec.closes part }
{
    matches!(part, Part::Close)
}

/// The bytes of a string that begins at `start`, from what follows its first quotes, and what
/// follows the string.
#[tactic(auto, using(crate::proofs::QuotedLemmas::body_close, crate::proofs::QuotedLemmas::body_goes_on, crate::proofs::QuotedLemmas::body_fails), unfolding(crate::specs::Quoted::body))]
fn body(
    alloc: Global,
    form: Form,
    size: u32,
    start: u32,
    bytes: &[u8],
) -> Result<(Text, &[u8]), TokenFault>
    ensures { Gives (λ x. (x.0, x.1.now)) result (spec.body form size start bytes.entry.now) }
{
    let mut found = Text::new(alloc);
    let mut rest = bytes;
    for _turn in 0..bytes.len() {
        let (next, after) = next_part(form, size, start, rest)?;
        if is_close(next) {
            return Ok((found, after));
        }
        push_part(&mut found, next)?;
        rest = after;
    }
    Err(TokenFault::OpenString(start))
}

/// The bytes of a string, from its first quote on, and what follows it. `start` is where its prefix
/// begins.
#[tactic(auto, unfolding(crate::specs::Quoted::quoted))]
pub fn quoted(
    alloc: Global,
    raw: bool,
    size: u32,
    start: u32,
    bytes: &[u8],
) -> Result<(Text, &[u8]), TokenFault>
    ensures { Gives (λ x. (x.0, x.1.now)) result (spec.quoted raw size start bytes.entry.now) }
{
    let Some((quote, rest)) = bytes.split_first() else {
        return Err(TokenFault::OpenString(start));
    };
    let quote = *quote;
    match after_three(quote, bytes) {
        Some(after) => {
            let triple = true;
            body(alloc, Form { quote, triple, raw }, size, start, after)
        }
        None => {
            let triple = false;
            body(alloc, Form { quote, triple, raw }, size, start, rest)
        }
    }
}
