// The block under `if __name__ == '__main__'`, which is in no tree.
ghost use Rattle.std.specs.Prelude.{◌≡◌, ◌<◌, ◌≤◌, length, drop, cond, IfOk, MatchResult, Ok, Some, None};
ghost use Rattle.std.specs.Option.{option_copied};
ghost use Rattle.rpy_parse.specs.Build as spec;
ghost use Rattle.rpy_parse.specs.Input.{first, here};
ghost use Rattle.rpy_parse.specs.Skips as skips;
ghost use Rattle.rpy_parse.specs.Rule.{Reads, Refused, Fails, eat_such};
ghost use Rattle.rpy_parse.specs.Rows.{reading};
ghost use Rattle.rpy_parse.specs.Shapes as part;

use crate::cursor::Cursor;
use crate::fault::Stop;
use rpy_base::Text;
use rpy_token::{Keyword, Sign, TokenKind};
use std::alloc::Global;

fn sees_string(kind: Option<&TokenKind>) -> bool
    ensures { result ≡ skips.sees_string (option_copied kind.entry) }
{
    match kind {
        Some(TokenKind::Str(_)) => true,
        _ => false,
    }
}

/// Whether a token is skipped in a block of one line.
fn skipped_in_line(kind: Option<&TokenKind>) -> bool
    ensures { result ≡ skips.in_line (option_copied kind.entry) }
{
    match kind {
        None => false,
        Some(TokenKind::Newline) => false,
        Some(TokenKind::End) => false,
        _ => true,
    }
}

/// Whether a token is skipped in an indented block.
fn skipped_in_block(kind: Option<&TokenKind>) -> bool
    ensures { result ≡ skips.in_block (option_copied kind.entry) }
{
    match kind {
        None => false,
        Some(TokenKind::Indent) => false,
        Some(TokenKind::Dedent) => false,
        Some(TokenKind::End) => false,
        _ => true,
    }
}

fn same_text(a: &[u8], b: &[u8]) -> bool
    ensures { result ≡ skips.same a.now b.now }
{
    match a {
        [] => b.is_empty(),
        [x, xs @ ..] => match b {
            [] => false,
            [y, ys @ ..] => *x == *y && same_text(xs, ys),
        },
    }
}

/// What is left of a text behind a piece that it begins with.
fn behind<'a>(piece: &[u8], text: &'a [u8]) -> Option<&'a [u8]>
    ensures { option_copied result ≡ cond (spec.begins_with piece.now text.now) (Some (drop (length piece.now) text.now)) None }
{
    match piece {
        [] => Some(text),
        [x, xs @ ..] => match text {
            [] => None,
            [y, ys @ ..] => { if *x == *y { behind(xs, ys) } else { None } }
        },
    }
}

#[tactic(auto, using(crate::proofs::UnrollRest::main_reads, crate::proofs::UnrollRest::main_is))]
pub fn main(alloc: Global, tokens: &mut Cursor<'_>) -> Result<(), Stop>
    ensures reads { Reads (reading part.Main tt tokens.old) result tokens.new }
    ensures shrinks { IfOk result (λ _. length tokens.new < length tokens.old) }
{
    tokens.expect_word(Keyword::If)?;
    main_name(tokens)?;
    tokens.expect(Sign::EqualEqual)?;
    let text = Text::from_bytes(alloc, b"__main__")?;
    let left = main_piece(alloc, tokens, text)?;
    main_rest(alloc, tokens, left)?;
    tokens.expect(Sign::Colon)?;
    skipped(tokens)
}

/// Reads `__name__`.
#[tactic(auto, using(crate::proofs::UnrollSkips::main_name_is, crate::proofs::OneToken::name_shorter))]
fn main_name(tokens: &mut Cursor<'_>) -> Result<(), Stop>
    ensures reads { MatchResult result (λ _. eat_such 0 spec.is_main_name (first tokens.old) tokens.old ≡ Ok (here tokens.old, tokens.new)) (λ e. Fails e (eat_such 0 spec.is_main_name (first tokens.old) tokens.old)) }
    ensures shrinks { IfOk result (λ _. length tokens.new < length tokens.old) }
{
    match tokens.kind() {
        Some(TokenKind::Name(name)) => {
            if same_text(name.bytes(), b"__name__") {
                tokens.advance();
                Ok(())
            } else {
                Err(tokens.refuse())
            }
        }
        _ => Err(tokens.refuse()),
    }
}

/// Reads a piece of `__main__`, and gives what is left of it.
#[tactic(auto, using(crate::proofs::UnrollSkips::main_piece_reads, crate::proofs::UnrollSkips::main_piece_is, crate::proofs::OneToken::string_shorter))]
fn main_piece(alloc: Global, tokens: &mut Cursor<'_>, left: Text) -> Result<Text, Stop>
    ensures reads { Reads (reading part.MainPiece left tokens.old) result tokens.new }
    ensures shrinks { IfOk result (λ _. length tokens.new < length tokens.old) }
{
    let Some(TokenKind::Str(piece)) = tokens.kind() else {
        return Err(tokens.refuse());
    };
    let Some(rest) = behind(piece.bytes(), left.bytes()) else {
        return Err(tokens.refuse());
    };
    tokens.advance();
    Ok(Text::from_bytes(alloc, rest)?)
}

#[tactic(auto, using(crate::proofs::UnrollSkips::main_rest_is, crate::proofs::UnrollSkips::nil_text, crate::proofs::UnrollSkips::some_text))]
fn main_rest(alloc: Global, tokens: &mut Cursor<'_>, left: Text) -> Result<(), Stop>
    ensures reads { Reads (reading part.MainRest left tokens.old) result tokens.new }
    ensures shrinks { IfOk result (λ _. length tokens.new ≤ length tokens.old) }
{
    let mut left = left;
    while sees_string(tokens.kind()) {
        left = main_piece(alloc, tokens, left)?;
    }
    if left.bytes().len() > 0 {
        return Err(tokens.refuse());
    }
    Ok(())
}

#[tactic(auto, using(crate::proofs::UnrollSkips::skipped_reads, crate::proofs::UnrollSkips::skipped_is, crate::proofs::UnrollSkips::line_shorter))]
fn skipped(tokens: &mut Cursor<'_>) -> Result<(), Stop>
    ensures reads { Reads (reading part.Skipped tt tokens.old) result tokens.new }
    ensures shrinks { IfOk result (λ _. length tokens.new < length tokens.old) }
{
    if tokens.eat_newline() {
        tokens.expect_indent()?;
        return skip_block(tokens);
    }
    if !skipped_in_line(tokens.kind()) {
        return Err(tokens.refuse());
    }
    tokens.advance();
    skip_line(tokens)
}

#[tactic(auto, using(crate::proofs::UnrollSkips::skip_line_is, crate::proofs::UnrollSkips::line_shorter))]
fn skip_line(tokens: &mut Cursor<'_>) -> Result<(), Stop>
    ensures reads { Reads (reading part.SkipLine tt tokens.old) result tokens.new }
    ensures shrinks { IfOk result (λ _. length tokens.new < length tokens.old) }
{
    while !tokens.eat_newline() {
        if !skipped_in_line(tokens.kind()) {
            return Err(tokens.refuse());
        }
        tokens.advance();
    }
    Ok(())
}

/// Blocks are nested no deeper than the tokens allow.
#[tactic(auto, using(crate::proofs::UnrollSkips::skip_block_is, crate::proofs::UnrollSkips::block_shorter))]
fn skip_block(tokens: &mut Cursor<'_>) -> Result<(), Stop>
    ensures reads { Reads (reading part.SkipBlock tt tokens.old) result tokens.new }
    ensures shrinks { IfOk result (λ _. length tokens.new < length tokens.old) }
{
    while !tokens.eat_dedent() {
        if tokens.eat_indent() {
            skip_block(tokens)?;
        } else {
            if !skipped_in_block(tokens.kind()) {
                return Err(tokens.refuse());
            }
            tokens.advance();
        }
    }
    Ok(())
}
