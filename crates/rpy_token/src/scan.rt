// The tokens of a source, from left to right.
ghost use Rattle.std.specs.Prelude.{◌≡◌, ◌≤◌, ◌⊎◌, ℕ, List, length, Ok, IfOk, IfErr, OnOk, MatchResult};
ghost use Rattle.rpy_token.specs.Indents as line_start;
ghost use Rattle.rpy_token.specs.Lines as spots;
ghost use Rattle.rpy_token.specs.Lines.{rest_at};
ghost use Rattle.rpy_token.specs.declared.fault.TokenFault.{TokenFault};
ghost use Rattle.rpy_token.specs.declared.token.Token.{Token};
ghost use Rattle.rpy_token.specs.Order.{InOrder};
ghost use Rattle.rpy_token.specs.Relation.{IsTokens, HasFault, IsCause};
ghost use Rattle.rpy_token.specs.Scan as spec;
ghost use Rattle.rpy_token.specs.Fault.{Gives, Moves, seen};

use crate::bytes::{after_newline, blank_len};
use crate::levels::{Levels, count, role_of};
use crate::lines::Place;
use crate::piece::{Piece, after_comment, next_piece};
use crate::stack::Stack;
use crate::{LimitKind, Token, TokenFault, TokenKind, Tokens};
use rpy_base::{NoMem, Seq, Text};
use std::alloc::Global;

/// How many indentations may be open at one place.
const MAX_INDENTS: usize = 32;

/// What was read so far: whether a logical line begins here, the open indentations with the
/// innermost first, the brackets, and the tokens.
#[derive(Drop)]
pub struct Scan {
    pub fresh: bool,
    pub indents: Stack,
    pub levels: Levels,
    pub found: Seq<Token>,
}

/// A token of so many bytes.
fn put(place: &Place<'_>, scan: &mut Scan, kind: TokenKind, n: usize) -> Result<(), NoMem>
    requires { n ≤ length (rest_at place.now) }
    ensures { OnOk result (scan.new ≡ spec.put kind n place.now scan.old) }
{
    let start = place.at();
    let end = start + n as u32;
    let line = place.line();
    scan.found.push(Token {
        kind,
        start,
        end,
        line,
    })
}

/// What follows a comment line's text, past its newline.
fn past_newline(bytes: &[u8]) -> &[u8]
    ensures { result.now ≡ line_start.past_newline bytes.entry.now }
{
    after_newline(bytes).unwrap_or(bytes)
}

/// What follows a line of nothing but spaces, tabs and a comment, if that is what stands here.
#[tactic(auto, unfolding(crate::specs::Indents::blank_line))]
fn blank_line(size: u32, bytes: &[u8]) -> Result<Option<&[u8]>, TokenFault>
    ensures { Gives (seen (λ x. x.now)) result (line_start.blank_line size bytes.entry.now) }
{
    let (_, text) = bytes.split_at(blank_len(bytes));
    let Some((b, rest)) = text.split_first() else {
        return Ok(Some(text));
    };
    if *b != b'#' {
        return Ok(after_newline(text));
    }
    let end = after_comment(size, rest)?;
    Ok(Some(past_newline(end)))
}

#[tactic(auto, unfolding(crate::specs::Indents::has_tab))]
fn has_tab(bytes: &[u8]) -> bool
    ensures { result ≡ line_start.has_tab bytes.now }
{
    for b in bytes {
        if *b == b'\t' {
            return true;
        }
    }
    false
}

/// The innermost open indentation; where none is open, the margin.
fn innermost(indents: &Stack) -> u32
    ensures { result ≡ line_start.innermost indents.now }
{
    indents.top().unwrap_or(0)
}

fn is_wider(indents: &Stack, width: u32) -> bool
    ensures { result ≡ spec.has_wider width indents.now }
{
    match indents.top() {
        Some(open) => width < open,
        None => false,
    }
}

/// One Dedent for each open indentation that is wider.

fn close_indents(width: u32, place: &Place<'_>, scan: &mut Scan) -> Result<(), NoMem>
    ensures { OnOk result (scan.new ≡ spec.close_indents width place.now scan.old) }
{
    while is_wider(&scan.indents, width) {
        put(place, scan, TokenKind::Dedent, 0)?;
        scan.indents.pop();
    }
    Ok(())
}

/// One Dedent for each open indentation.
#[tactic(auto, using(crate::proofs::ScanLemmas::one_closed))]
fn close_all(place: &Place<'_>, scan: &mut Scan) -> Result<(), NoMem>
    ensures { OnOk result (scan.new.found
        ≡ spots.with_dedents (length scan.old.indents) place.now scan.old.found) }
{
    for _turn in 0..scan.indents.len() {
        put(place, scan, TokenKind::Dedent, 0)?;
    }
    Ok(())
}

fn open_indent(width: u32, place: &Place<'_>, scan: &mut Scan) -> Result<(), TokenFault>
    ensures { Moves (spec.open_indent width place.now scan.old) result (place.now, scan.new) }
{
    if scan.indents.len() >= MAX_INDENTS {
        return Err(TokenFault::Limit(LimitKind::Blocks, place.at()));
    }
    scan.indents.push(width)?;
    put(place, scan, TokenKind::Indent, 0)?;
    Ok(())
}

/// The text of a line that begins at `start` has this indentation.
#[tactic(auto, unfolding(crate::specs::Scan::set_indent))]
fn set_indent(start: u32, width: u32, place: &Place<'_>, scan: &mut Scan) -> Result<(), TokenFault>
    ensures { Moves (spec.set_indent start width place.now scan.old) result (place.now, scan.new) }
{
    if innermost(&scan.indents) < width {
        return open_indent(width, place, scan);
    }
    close_indents(width, place, scan)?;
    if innermost(&scan.indents) == width {
        Ok(())
    } else {
        Err(TokenFault::BadIndent(start))
    }
}

#[tactic(auto, unfolding(crate::specs::Scan::indent))]
fn indent(place: &mut Place<'_>, scan: &mut Scan) -> Result<(), TokenFault>
    ensures { Moves (spec.indent place.old scan.old) result (place.new, scan.new) }
{
    let start = place.at();
    let rest = place.rest();
    let width = blank_len(rest);
    if has_tab(&rest[..width]) {
        return Err(TokenFault::BadIndent(start));
    }
    place.skip(width);
    set_indent(start, width as u32, place, scan)
}

fn take_token(
    n: usize,
    kind: TokenKind,
    place: &mut Place<'_>,
    scan: &mut Scan,
) -> Result<(), TokenFault>
    requires { n ≤ length (rest_at place.old) }
    ensures { Moves (spec.take_token n kind place.old scan.old) result (place.new, scan.new) }
{
    count(place.at(), role_of(&kind), &mut scan.levels)?;
    put(place, scan, kind, n)?;
    place.skip(n);
    Ok(())
}

#[tactic(auto, unfolding(crate::specs::Scan::take_piece))]
fn take_piece(
    n: usize,
    piece: Piece,
    place: &mut Place<'_>,
    scan: &mut Scan,
) -> Result<(), TokenFault>
    requires { n ≤ length (rest_at place.old) }
    ensures { Moves (spec.take_piece n place.old scan.old piece) result (place.new, scan.new) }
{
    match piece {
        Piece::Blank => {
            place.skip(n);
            Ok(())
        }
        Piece::Lexeme(kind) => take_token(n, kind, place, scan),
        Piece::LineEnd => {
            if scan.levels.outer.len() > 0 {
                place.skip(n);
                return Ok(());
            }
            scan.fresh = true;
            take_token(n, TokenKind::Newline, place, scan)
        }
    }
}

/// How many bytes there are before a rest.
fn used(bytes: &[u8], rest: &[u8]) -> usize
    ensures value { result ≡ spots.used bytes.now rest.now }
    ensures within { result ≤ length bytes.now }
{
    bytes.len().saturating_sub(rest.len())
}

#[tactic(auto, unfolding(crate::specs::Scan::inside))]
fn inside(alloc: Global, place: &mut Place<'_>, scan: &mut Scan) -> Result<(), TokenFault>
    ensures { Moves (spec.inside place.old scan.old) result (place.new, scan.new) }
{
    let bytes = place.rest();
    let (piece, rest) = next_piece(alloc, place.size(), bytes)?;
    take_piece(used(bytes, rest), piece, place, scan)
}

#[tactic(auto, unfolding(crate::specs::Scan::begin))]
fn begin(alloc: Global, place: &mut Place<'_>, scan: &mut Scan) -> Result<(), TokenFault>
    ensures { Moves (spec.begin place.old scan.old) result (place.new, scan.new) }
{
    let bytes = place.rest();
    match blank_line(place.size(), bytes)? {
        Some(rest) => {
            place.skip(used(bytes, rest));
            Ok(())
        }
        None => {
            indent(place, scan)?;
            scan.fresh = false;
            inside(alloc, place, scan)
        }
    }
}

fn turn(alloc: Global, place: &mut Place<'_>, scan: &mut Scan) -> Result<(), TokenFault>
    ensures { Moves (spec.turn place.old scan.old) result (place.new, scan.new) }
{
    if scan.fresh {
        begin(alloc, place, scan)
    } else {
        inside(alloc, place, scan)
    }
}

#[tactic(auto, unfolding(crate::specs::Scan::finish))]
fn finish(place: &Place<'_>, mut scan: Scan) -> Result<Seq<Token>, TokenFault>
    ensures { Gives (λ x. x) result (Ok (spec.finish place.now scan)) }
{
    if !scan.fresh {
        put(place, &mut scan, TokenKind::Newline, 0)?;
    }
    close_all(place, &mut scan)?;
    put(place, &mut scan, TokenKind::End, 0)?;
    Ok(scan.found)
}

#[tactic(auto, using(crate::proofs::ScanLemmas::run_more, crate::proofs::ScanLemmas::run_done, crate::proofs::ScanLemmas::run_fails), unfolding(crate::specs::Scan::token_list))]
fn token_list(alloc: Global, source: &[u8]) -> Result<Seq<Token>, TokenFault>
    requires { length source.now ≤ 1048576 }
    ensures { Gives (λ x. x) result (spec.token_list source.now) }
{
    let mut place = Place::new(source);
    let levels = Levels {
        operators: 0,
        outer: Stack::new(alloc),
    };
    let mut scan = Scan {
        fresh: true,
        indents: Stack::new(alloc),
        levels,
        found: Seq::new(alloc),
    };
    for _turn in 0..source.len() {
        if place.rest().is_empty() {
            return finish(&place, scan);
        }
        turn(alloc, &mut place, &mut scan)?;
    }
    finish(&place, scan)
}

#[tactic(auto, using(crate::proofs::Sizes::few_tokens))]
fn read(alloc: Global, source: &[u8]) -> Result<Tokens, TokenFault>
    requires { length source.now ≤ 1048576 }
    ensures { Gives (λ x. x) result (spec.token_list source.now) }
{
    Ok(Tokens::from_seq(token_list(alloc, source)?))
}

/// The tokens of a source of at most 1 MiB, or its first fault, whose number is its place in bytes.
/// The time is linear in the length of the source.
#[tactic(auto, using(crate::proofs::Whole::tokens_found, crate::proofs::Whole::tokens_only, crate::proofs::Whole::tokens_ordered, crate::proofs::Whole::no_fault, crate::proofs::Whole::fault_cause, crate::proofs::Whole::only_memory, crate::proofs::Whole::only_fault))]
pub fn tokens(alloc: Global, source: &Text) -> Result<Tokens, TokenFault>
    requires { length source.now ≤ 1048576 }
    // What is given is what the source has.
    ensures found { IfOk result (λ list. IsTokens source.now list) }
    ensures order { IfOk result (λ list. InOrder source.now 0 list) }
    ensures cause { IfErr result (λ fault. IsCause source.now fault) }

    // What the source has is given, unless memory runs out.
    ensures tokens { (list : List Token) → IsTokens source.now list
        → MatchResult result (λ got. got ≡ list) (λ fault. fault ≡ TokenFault.NoMem) }
    ensures fault { (want : TokenFault) → HasFault source.now want
        → MatchResult result (λ _. ⊥)
        (λ fault. (fault ≡ want) ⊎ (fault ≡ TokenFault.NoMem)) }
{
    read(alloc, source.bytes())
}

/// A source has tokens or a fault, never both, and only one list or one fault.
pub fn one_reading()
    ensures some { (source : List ℕ)
        → ((list : List Token) × IsTokens source list)
        ⊎ ((fault : TokenFault) × HasFault source fault) }
    ensures never_both { (source : List ℕ) (list : List Token) (fault : TokenFault)
        → IsTokens source list → HasFault source fault → ⊥ }
    ensures no_mem { (source : List ℕ) → HasFault source TokenFault.NoMem → ⊥ }
    ensures one_list { (source : List ℕ) (a b : List Token)
        → IsTokens source a → IsTokens source b → a ≡ b }
    ensures one_fault { (source : List ℕ) (a b : TokenFault)
        → HasFault source a → HasFault source b → a ≡ b }
{}
