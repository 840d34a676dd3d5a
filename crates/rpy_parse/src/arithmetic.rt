// Expressions of the operators on bits, shifts, sums, terms and signs.
ghost use Rattle.std.specs.Prelude.{◌<◌, ◌≤◌, IfOk, length};
ghost use Rattle.rpy_parse.specs.Rule.{Reads};
ghost use Rattle.rpy_parse.specs.Rows.{reading};
ghost use Rattle.rpy_parse.specs.Shapes as part;

use crate::atom::primary;
use crate::cursor::Cursor;
use crate::fault::Stop;
use crate::found::Got;
use crate::node::{binary, longer, unary};
use crate::operator::{shift_op, sign_op, sum_op, term_op};
use rpy_base::Seq;
use rpy_token::Sign;
use rpy_tree::BinOp;
use std::alloc::Global;

#[cycle(rules)]
#[tactic(auto, using(crate::proofs::Unroll::bit_or_reads))]
pub fn bit_or(alloc: Global, tokens: &mut Cursor<'_>, lines: Seq<u32>) -> Result<Got, Stop>
    ensures reads { Reads (reading part.BitOr lines tokens.old) result tokens.new }
    ensures shrinks { IfOk result (λ _. length tokens.new < length tokens.old) }
{
    let a = bit_xor(alloc, tokens, lines)?;
    bit_or_rest(alloc, tokens, a)
}

#[cycle(rules)]
#[tactic(auto, using(crate::proofs::Unroll::bit_or_rest_reads))]
fn bit_or_rest(alloc: Global, tokens: &mut Cursor<'_>, a: Got) -> Result<Got, Stop>
    ensures reads { Reads (reading part.BitOrRest a tokens.old) result tokens.new }
    ensures shrinks { IfOk result (λ _. length tokens.new ≤ length tokens.old) }
{
    if !tokens.eat(Sign::Bar) {
        return Ok(a);
    }
    let Got {
        tree,
        lines,
        line,
        ..
    } = a;
    let b = bit_xor(alloc, tokens, lines)?;
    let longer = binary(alloc, BinOp::BitOr, tree, line, b)?;
    bit_or_rest(alloc, tokens, longer)
}

#[cycle(rules)]
#[tactic(auto, using(crate::proofs::Unroll::bit_xor_reads))]
fn bit_xor(alloc: Global, tokens: &mut Cursor<'_>, lines: Seq<u32>) -> Result<Got, Stop>
    ensures reads { Reads (reading part.BitXor lines tokens.old) result tokens.new }
    ensures shrinks { IfOk result (λ _. length tokens.new < length tokens.old) }
{
    let a = bit_and(alloc, tokens, lines)?;
    bit_xor_rest(alloc, tokens, a)
}

#[cycle(rules)]
#[tactic(auto, using(crate::proofs::Unroll::bit_xor_rest_reads))]
fn bit_xor_rest(alloc: Global, tokens: &mut Cursor<'_>, a: Got) -> Result<Got, Stop>
    ensures reads { Reads (reading part.BitXorRest a tokens.old) result tokens.new }
    ensures shrinks { IfOk result (λ _. length tokens.new ≤ length tokens.old) }
{
    if !tokens.eat(Sign::Caret) {
        return Ok(a);
    }
    let Got {
        tree,
        lines,
        line,
        ..
    } = a;
    let b = bit_and(alloc, tokens, lines)?;
    let longer = binary(alloc, BinOp::BitXor, tree, line, b)?;
    bit_xor_rest(alloc, tokens, longer)
}

#[cycle(rules)]
#[tactic(auto, using(crate::proofs::Unroll::bit_and_reads))]
fn bit_and(alloc: Global, tokens: &mut Cursor<'_>, lines: Seq<u32>) -> Result<Got, Stop>
    ensures reads { Reads (reading part.BitAnd lines tokens.old) result tokens.new }
    ensures shrinks { IfOk result (λ _. length tokens.new < length tokens.old) }
{
    let a = shift(alloc, tokens, lines)?;
    bit_and_rest(alloc, tokens, a)
}

#[cycle(rules)]
#[tactic(auto, using(crate::proofs::Unroll::bit_and_rest_reads))]
fn bit_and_rest(alloc: Global, tokens: &mut Cursor<'_>, a: Got) -> Result<Got, Stop>
    ensures reads { Reads (reading part.BitAndRest a tokens.old) result tokens.new }
    ensures shrinks { IfOk result (λ _. length tokens.new ≤ length tokens.old) }
{
    if !tokens.eat(Sign::Ampersand) {
        return Ok(a);
    }
    let Got {
        tree,
        lines,
        line,
        ..
    } = a;
    let b = shift(alloc, tokens, lines)?;
    let longer = binary(alloc, BinOp::BitAnd, tree, line, b)?;
    bit_and_rest(alloc, tokens, longer)
}

#[cycle(rules)]
#[tactic(auto, using(crate::proofs::Unroll::shift_reads))]
fn shift(alloc: Global, tokens: &mut Cursor<'_>, lines: Seq<u32>) -> Result<Got, Stop>
    ensures reads { Reads (reading part.Shift lines tokens.old) result tokens.new }
    ensures shrinks { IfOk result (λ _. length tokens.new < length tokens.old) }
{
    let a = sum(alloc, tokens, lines)?;
    shift_rest(alloc, tokens, a)
}

#[cycle(rules)]
#[tactic(auto, using(crate::proofs::Unroll::shift_rest_reads, crate::proofs::Unroll::shift_rest_is, crate::proofs::Shorter::shift_shorter))]
fn shift_rest(alloc: Global, tokens: &mut Cursor<'_>, a: Got) -> Result<Got, Stop>
    ensures reads { Reads (reading part.ShiftRest a tokens.old) result tokens.new }
    ensures shrinks { IfOk result (λ _. length tokens.new ≤ length tokens.old) }
{
    let Some(op) = shift_op(tokens.kind()) else {
        return Ok(a);
    };
    tokens.advance();
    let Got {
        tree,
        lines,
        line,
        ..
    } = a;
    let b = sum(alloc, tokens, lines)?;
    let longer = binary(alloc, op, tree, line, b)?;
    shift_rest(alloc, tokens, longer)
}

#[cycle(rules)]
#[tactic(auto, using(crate::proofs::Unroll::sum_reads))]
fn sum(alloc: Global, tokens: &mut Cursor<'_>, lines: Seq<u32>) -> Result<Got, Stop>
    ensures reads { Reads (reading part.Sum lines tokens.old) result tokens.new }
    ensures shrinks { IfOk result (λ _. length tokens.new < length tokens.old) }
{
    let a = term(alloc, tokens, lines)?;
    sum_rest(alloc, tokens, a)
}

#[cycle(rules)]
#[tactic(auto, using(crate::proofs::Unroll::sum_rest_reads, crate::proofs::Unroll::sum_rest_is, crate::proofs::Shorter::sum_shorter))]
fn sum_rest(alloc: Global, tokens: &mut Cursor<'_>, a: Got) -> Result<Got, Stop>
    ensures reads { Reads (reading part.SumRest a tokens.old) result tokens.new }
    ensures shrinks { IfOk result (λ _. length tokens.new ≤ length tokens.old) }
{
    let Some(op) = sum_op(tokens.kind()) else {
        return Ok(a);
    };
    tokens.advance();
    let Got {
        tree,
        lines,
        line,
        ..
    } = a;
    let b = term(alloc, tokens, lines)?;
    let longer = binary(alloc, op, tree, line, b)?;
    sum_rest(alloc, tokens, longer)
}

#[cycle(rules)]
#[tactic(auto, using(crate::proofs::Unroll::term_reads))]
fn term(alloc: Global, tokens: &mut Cursor<'_>, lines: Seq<u32>) -> Result<Got, Stop>
    ensures reads { Reads (reading part.Term lines tokens.old) result tokens.new }
    ensures shrinks { IfOk result (λ _. length tokens.new < length tokens.old) }
{
    let a = signed(alloc, tokens, lines)?;
    term_rest(alloc, tokens, a)
}

#[cycle(rules)]
#[tactic(auto, using(crate::proofs::Unroll::term_rest_reads, crate::proofs::Unroll::term_rest_is, crate::proofs::Shorter::term_shorter))]
fn term_rest(alloc: Global, tokens: &mut Cursor<'_>, a: Got) -> Result<Got, Stop>
    ensures reads { Reads (reading part.TermRest a tokens.old) result tokens.new }
    ensures shrinks { IfOk result (λ _. length tokens.new ≤ length tokens.old) }
{
    let Some(op) = term_op(tokens.kind()) else {
        return Ok(a);
    };
    tokens.advance();
    let Got {
        tree,
        lines,
        line,
        ..
    } = a;
    let b = signed(alloc, tokens, lines)?;
    let longer = binary(alloc, op, tree, line, b)?;
    term_rest(alloc, tokens, longer)
}

#[cycle(rules)]
#[tactic(auto, using(crate::proofs::Unroll::signed_reads, crate::proofs::Unroll::signed_is, crate::proofs::Shorter::sign_shorter))]
fn signed(alloc: Global, tokens: &mut Cursor<'_>, lines: Seq<u32>) -> Result<Got, Stop>
    ensures reads { Reads (reading part.Signed lines tokens.old) result tokens.new }
    ensures shrinks { IfOk result (λ _. length tokens.new < length tokens.old) }
{
    let line = tokens.line();
    let Some(op) = sign_op(tokens.kind()) else {
        return primary(alloc, tokens, lines);
    };
    tokens.advance();
    let a = signed(alloc, tokens, lines)?;
    unary(alloc, op, line, a)
}
