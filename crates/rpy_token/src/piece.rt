// The pieces of a logical line.
ghost use Rattle.std.specs.Prelude.{◌≡◌, Ok};
ghost use Rattle.rpy_token.specs.Piece as spec;
ghost use Rattle.rpy_token.specs.Fault.{Gives};

use crate::bytes::{
    after_newline, is_blank, is_digit, is_letter, is_quote, is_text_byte, name_len,
};
use crate::number::number;
use crate::place::place;
use crate::quoted::quoted;
use crate::words::{keyword, longest_sign};
use crate::{TokenFault, TokenKind};
use rpy_base::Text;
use std::alloc::Global;

/// What stands next in a logical line: what gives no token, the end of a line, or a token.
#[derive(Drop)]
pub enum Piece {
    Blank,
    LineEnd,
    Lexeme(TokenKind),
}

/// What follows a comment, which runs to the end of its line.
#[tactic(auto, unfolding(crate::specs::Piece::after_comment))]
pub fn after_comment(size: u32, bytes: &[u8]) -> Result<&[u8], TokenFault>
    ensures { Gives (λ x. x.now) result (spec.after_comment size bytes.entry.now) }
{
    let mut rest = bytes;
    while let [b, after @ ..] = rest {
        if after_newline(rest).is_some() {
            return Ok(rest);
        }
        if !is_text_byte(*b) {
            return Err(TokenFault::BadByte(place(size, rest)));
        }
        rest = after;
    }
    Ok(rest)
}

fn is_raw_prefix(b: u8) -> bool
    ensures { result ≡ spec.is_raw_prefix b }
{
    b == b'r' || b == b'R'
}

fn is_prefix(b: u8) -> bool
    ensures { result ≡ spec.is_prefix b }
{
    b == b'r' || b == b'R' || b == b'b' || b == b'B'
}

/// Do a prefix and a quote stand at the front?
fn begins_string(bytes: &[u8]) -> bool
    ensures { result ≡ spec.begins_string bytes.now }
{
    match bytes {
        [a, b, ..] => is_prefix(*a) && is_quote(*b),
        _ => false,
    }
}

#[tactic(auto, unfolding(crate::specs::Piece::name))]
fn name(alloc: Global, bytes: &[u8]) -> Result<(Piece, &[u8]), TokenFault>
    ensures { Gives (λ x. (x.0, x.1.now)) result (Ok (spec.name bytes.entry.now)) }
{
    let (word, rest) = bytes.split_at(name_len(bytes));
    let kind = match keyword(word) {
        Some(keyword) => TokenKind::Word(keyword),
        None => TokenKind::Name(Text::from_bytes(alloc, word)?),
    };
    Ok((Piece::Lexeme(kind), rest))
}

fn string(
    alloc: Global,
    raw: bool,
    size: u32,
    start: u32,
    bytes: &[u8],
) -> Result<(Piece, &[u8]), TokenFault>
    ensures { Gives (λ x. (x.0, x.1.now)) result (spec.string_at raw size start bytes.entry.now) }
{
    let (text, rest) = quoted(alloc, raw, size, start, bytes)?;
    Ok((Piece::Lexeme(TokenKind::Str(text)), rest))
}

fn sign(at: u32, bytes: &[u8]) -> Result<(Piece, &[u8]), TokenFault>
    ensures { Gives (λ x. (x.0, x.1.now)) result (spec.sign_at at bytes.entry.now) }
{
    match longest_sign(bytes) {
        Some((sign, rest)) => Ok((Piece::Lexeme(TokenKind::Sign(sign)), rest)),
        None => Err(TokenFault::BadByte(at)),
    }
}

fn integer(size: u32, bytes: &[u8]) -> Result<(Piece, &[u8]), TokenFault>
    ensures { Gives (λ x. (x.0, x.1.now)) result (spec.integer_at size bytes.entry.now) }
{
    let (value, rest) = number(size, bytes)?;
    Ok((Piece::Lexeme(TokenKind::Int(value)), rest))
}

#[tactic(auto, unfolding(crate::specs::Piece::lexeme))]
fn lexeme(alloc: Global, size: u32, bytes: &[u8]) -> Result<(Piece, &[u8]), TokenFault>
    ensures { Gives (λ x. (x.0, x.1.now)) result (spec.lexeme size bytes.entry.now) }
{
    let start = place(size, bytes);
    let Some((b, rest)) = bytes.split_first() else {
        return Err(TokenFault::BadByte(start));
    };
    if begins_string(bytes) {
        string(alloc, is_raw_prefix(*b), size, start, rest)
    } else if is_letter(*b) {
        name(alloc, bytes)
    } else if is_digit(*b) {
        integer(size, bytes)
    } else if is_quote(*b) {
        string(alloc, false, size, start, bytes)
    } else {
        sign(start, bytes)
    }
}

fn comment(size: u32, bytes: &[u8]) -> Result<(Piece, &[u8]), TokenFault>
    ensures { Gives (λ x. (x.0, x.1.now)) result (spec.comment_at size bytes.entry.now) }
{
    let rest = after_comment(size, bytes)?;
    Ok((Piece::Blank, rest))
}

fn joined(at: u32, bytes: &[u8]) -> Result<(Piece, &[u8]), TokenFault>
    ensures { Gives (λ x. (x.0, x.1.now)) result (spec.joined_at at bytes.entry.now) }
{
    match after_newline(bytes) {
        Some(rest) => Ok((Piece::Blank, rest)),
        None => Err(TokenFault::BadByte(at)),
    }
}

/// The piece at the front of what is left of a source of this size, and what follows it.
#[tactic(auto, unfolding(crate::specs::Piece::next_piece))]
pub fn next_piece(alloc: Global, size: u32, bytes: &[u8]) -> Result<(Piece, &[u8]), TokenFault>
    ensures { Gives (λ x. (x.0, x.1.now)) result (spec.next_piece size bytes.entry.now) }
{
    if let Some(rest) = after_newline(bytes) {
        return Ok((Piece::LineEnd, rest));
    }
    let Some((b, rest)) = bytes.split_first() else {
        return Err(TokenFault::BadByte(size));
    };
    if is_blank(*b) {
        Ok((Piece::Blank, rest))
    } else if *b == b'#' {
        comment(size, rest)
    } else if *b == b'\\' {
        joined(place(size, bytes), rest)
    } else {
        lexeme(alloc, size, bytes)
    }
}
