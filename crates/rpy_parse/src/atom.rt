// Atoms, and what stands behind them: attributes, arguments and subscripts.
ghost use Rattle.std.specs.Prelude.{◌<◌, ◌≤◌, IfOk, length};
ghost use Rattle.rpy_parse.specs.Rule.{Reads};
ghost use Rattle.rpy_parse.specs.Rows.{reading};
ghost use Rattle.rpy_parse.specs.Shapes as part;

use crate::cursor::Cursor;
use crate::display::{braces, brackets};
use crate::expression::{expression, expressions, items};
use crate::fault::Stop;
use crate::found::{Got, Sliced};
use crate::node::{
    attribute, bracketed, call, empty_tuple, index, indexed, int, name, no_items, slice,
    slice_open, sliced, sliced_from, string,
};
use rpy_base::{Seq, Text};
use rpy_token::{Sign, TokenKind};
use rpy_tree::Expr;
use std::alloc::Global;

#[cycle(rules)]
#[tactic(auto, using(crate::proofs::Unroll::primary_reads))]
pub fn primary(alloc: Global, tokens: &mut Cursor<'_>, lines: Seq<u32>) -> Result<Got, Stop>
    ensures reads { Reads (reading part.Primary lines tokens.old) result tokens.new }
    ensures shrinks { IfOk result (λ _. length tokens.new < length tokens.old) }
{
    let a = atom(alloc, tokens, lines)?;
    trailers(alloc, tokens, a)
}

#[cycle(rules)]
#[tactic(auto, using(crate::proofs::Unroll::trailers_reads))]
fn trailers(alloc: Global, tokens: &mut Cursor<'_>, a: Got) -> Result<Got, Stop>
    ensures reads { Reads (reading part.Trailers a tokens.old) result tokens.new }
    ensures shrinks { IfOk result (λ _. length tokens.new ≤ length tokens.old) }
{
    if tokens.eat(Sign::Dot) {
        let b = attribute_of(alloc, tokens, a)?;
        return trailers(alloc, tokens, b);
    }
    if tokens.eat(Sign::OpenParen) {
        let b = arguments(alloc, tokens, a)?;
        return trailers(alloc, tokens, b);
    }
    if tokens.eat(Sign::OpenBracket) {
        let b = subscript(alloc, tokens, a)?;
        return trailers(alloc, tokens, b);
    }
    Ok(a)
}

/// The attribute behind a dot.
#[tactic(auto, using(crate::proofs::Unroll::attribute_reads))]
pub fn attribute_of(alloc: Global, tokens: &mut Cursor<'_>, a: Got) -> Result<Got, Stop>
    ensures reads { Reads (reading part.Attribute a tokens.old) result tokens.new }
    ensures shrinks { IfOk result (λ _. length tokens.new < length tokens.old) }
{
    let name = tokens.expect_name()?;
    attribute(alloc, a, name)
}

/// The arguments of a call, behind its bracket.
#[cycle(rules)]
#[tactic(auto, using(crate::proofs::Unroll::arguments_reads))]
pub fn arguments(alloc: Global, tokens: &mut Cursor<'_>, a: Got) -> Result<Got, Stop>
    ensures reads { Reads (reading part.Arguments a tokens.old) result tokens.new }
    ensures shrinks { IfOk result (λ _. length tokens.new < length tokens.old) }
{
    let Got {
        tree,
        lines,
        line,
        ..
    } = a;
    let none = no_items(alloc, lines, line);
    let given = items(alloc, tokens, none)?;
    tokens.expect(Sign::CloseParen)?;
    call(alloc, tree, given)
}

#[cycle(rules)]
#[tactic(auto, using(crate::proofs::Unroll::subscript_reads))]
fn subscript(alloc: Global, tokens: &mut Cursor<'_>, a: Got) -> Result<Got, Stop>
    ensures reads { Reads (reading part.Subscript a tokens.old) result tokens.new }
    ensures shrinks { IfOk result (λ _. length tokens.new < length tokens.old) }
{
    let Got {
        tree,
        lines,
        line,
        ..
    } = a;
    if tokens.eat(Sign::Colon) {
        let x = sliced(alloc, tree, lines, line)?;
        return slice_end(alloc, tokens, x);
    }
    let i = expression(alloc, tokens, lines)?;
    subscript_rest(alloc, tokens, tree, line, i)
}

#[cycle(rules)]
#[tactic(auto, using(crate::proofs::Unroll::subscript_rest_reads))]
fn subscript_rest(
    alloc: Global,
    tokens: &mut Cursor<'_>,
    of: Expr,
    line: u32,
    i: Got,
) -> Result<Got, Stop>
    ensures reads { Reads (reading part.SubscriptRest (of, line, i) tokens.old) result tokens.new }
    ensures shrinks { IfOk result (λ _. length tokens.new < length tokens.old) }
{
    if tokens.eat(Sign::CloseBracket) {
        return index(alloc, indexed(of, line, i));
    }
    tokens.expect(Sign::Colon)?;
    let x = sliced_from(alloc, of, line, i)?;
    slice_end(alloc, tokens, x)
}

/// The end of a slice, behind its colon.
#[cycle(rules)]
#[tactic(auto, using(crate::proofs::Unroll::slice_end_reads))]
pub fn slice_end(alloc: Global, tokens: &mut Cursor<'_>, x: Sliced) -> Result<Got, Stop>
    ensures reads { Reads (reading part.SliceEnd x tokens.old) result tokens.new }
    ensures shrinks { IfOk result (λ _. length tokens.new < length tokens.old) }
{
    if tokens.eat(Sign::CloseBracket) {
        return slice_open(x);
    }
    let Sliced {
        of,
        from,
        lines,
        line,
    } = x;
    let b = expression(alloc, tokens, lines)?;
    tokens.expect(Sign::CloseBracket)?;
    slice(alloc, of, from, line, b)
}

/// A name, a literal, or what stands in brackets.
#[cycle(rules)]
#[tactic(auto, using(crate::proofs::Unroll::atom_reads, crate::proofs::Unroll::atom_is, crate::proofs::Shorter::kind_shorter))]
pub fn atom(alloc: Global, tokens: &mut Cursor<'_>, lines: Seq<u32>) -> Result<Got, Stop>
    ensures reads { Reads (reading part.Atom lines tokens.old) result tokens.new }
    ensures shrinks { IfOk result (λ _. length tokens.new < length tokens.old) }
{
    let line = tokens.line();
    match tokens.kind() {
        Some(TokenKind::Name(text)) => {
            tokens.advance();
            name(alloc, lines, line, text)
        }
        _ => other_atom(alloc, tokens, lines),
    }
}

#[cycle(rules)]
#[tactic(auto, using(crate::proofs::Unroll::other_atom_reads, crate::proofs::Unroll::other_atom_is, crate::proofs::Shorter::kind_shorter))]
pub fn other_atom(alloc: Global, tokens: &mut Cursor<'_>, lines: Seq<u32>) -> Result<Got, Stop>
    ensures reads { Reads (reading part.OtherAtom lines tokens.old) result tokens.new }
    ensures shrinks { IfOk result (λ _. length tokens.new < length tokens.old) }
{
    let line = tokens.line();
    match tokens.kind() {
        Some(TokenKind::Int(number)) => {
            tokens.advance();
            int(lines, line, *number)
        }
        Some(TokenKind::Str(text)) => {
            tokens.advance();
            let text = text.copy(alloc)?;
            let joined = strings(tokens, text)?;
            string(lines, line, joined)
        }
        Some(TokenKind::Sign(Sign::OpenParen)) => {
            tokens.advance();
            paren(alloc, tokens, lines, line)
        }
        Some(TokenKind::Sign(Sign::OpenBracket)) => {
            tokens.advance();
            brackets(alloc, tokens, lines, line)
        }
        Some(TokenKind::Sign(Sign::OpenBrace)) => {
            tokens.advance();
            braces(alloc, tokens, lines, line)
        }
        _ => Err(tokens.refuse()),
    }
}

/// Strings that stand side by side are one.
#[tactic(auto, using(crate::proofs::Unroll::strings_reads, crate::proofs::Unroll::strings_is, crate::proofs::Shorter::kind_shorter))]
pub fn strings(tokens: &mut Cursor<'_>, text: Text) -> Result<Text, Stop>
    ensures reads { Reads (reading part.Strings text tokens.old) result tokens.new }
    ensures shrinks { IfOk result (λ _. length tokens.new ≤ length tokens.old) }
{
    let mut text = text;
    while let Some(TokenKind::Str(more)) = tokens.kind() {
        text.append(more.bytes())?;
        tokens.advance();
    }
    Ok(text)
}

#[cycle(rules)]
#[tactic(auto, using(crate::proofs::Unroll::paren_reads))]
fn paren(alloc: Global, tokens: &mut Cursor<'_>, lines: Seq<u32>, line: u32) -> Result<Got, Stop>
    ensures reads { Reads (reading part.Paren (lines, line) tokens.old) result tokens.new }
    ensures shrinks { IfOk result (λ _. length tokens.new < length tokens.old) }
{
    if tokens.eat(Sign::CloseParen) {
        return empty_tuple(alloc, lines, line);
    }
    let a = expressions(alloc, tokens, lines)?;
    tokens.expect(Sign::CloseParen)?;
    Ok(bracketed(a, line))
}
