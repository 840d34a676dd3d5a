// Expressions and lists of them: `or`, `and`, `not` and comparisons.
ghost use Rattle.std.specs.Prelude.{◌<◌, ◌≤◌, IfOk, length};
ghost use Rattle.rpy_parse.specs.Rule.{Reads};
ghost use Rattle.rpy_parse.specs.Rows.{reading};
ghost use Rattle.rpy_parse.specs.Shapes as part;

use crate::arithmetic::bit_or;
use crate::cursor::Cursor;
use crate::fault::Stop;
use crate::found::{Got, Listed};
use crate::node::{compare, listed, logic, longer, negated, tuple};
use crate::operator::{begins_expression, comparison_op};
use rpy_base::Seq;
use rpy_token::{Keyword, Sign, TokenKind};
use rpy_tree::CmpOp;
use std::alloc::Global;

/// An expression, with the lines of the nodes before it.
#[cycle(rules)]
#[tactic(auto, using(crate::proofs::Unroll::or_reads))]
pub fn expression(alloc: Global, tokens: &mut Cursor<'_>, lines: Seq<u32>) -> Result<Got, Stop>
    ensures reads { Reads (reading part.Or lines tokens.old) result tokens.new }
    ensures shrinks { IfOk result (λ _. length tokens.new < length tokens.old) }
{
    let a = conjunction(alloc, tokens, lines)?;
    or_rest(alloc, tokens, a)
}

#[cycle(rules)]
#[tactic(auto, using(crate::proofs::Unroll::or_rest_reads))]
fn or_rest(alloc: Global, tokens: &mut Cursor<'_>, a: Got) -> Result<Got, Stop>
    ensures reads { Reads (reading part.OrRest a tokens.old) result tokens.new }
    ensures shrinks { IfOk result (λ _. length tokens.new ≤ length tokens.old) }
{
    if !tokens.eat_word(Keyword::Or) {
        return Ok(a);
    }
    let Got {
        tree,
        lines,
        line,
        ..
    } = a;
    let b = conjunction(alloc, tokens, lines)?;
    let longer = logic(alloc, false, tree, line, b)?;
    or_rest(alloc, tokens, longer)
}

#[cycle(rules)]
#[tactic(auto, using(crate::proofs::Unroll::and_reads))]
fn conjunction(alloc: Global, tokens: &mut Cursor<'_>, lines: Seq<u32>) -> Result<Got, Stop>
    ensures reads { Reads (reading part.And lines tokens.old) result tokens.new }
    ensures shrinks { IfOk result (λ _. length tokens.new < length tokens.old) }
{
    let a = negation(alloc, tokens, lines)?;
    and_rest(alloc, tokens, a)
}

#[cycle(rules)]
#[tactic(auto, using(crate::proofs::Unroll::and_rest_reads))]
fn and_rest(alloc: Global, tokens: &mut Cursor<'_>, a: Got) -> Result<Got, Stop>
    ensures reads { Reads (reading part.AndRest a tokens.old) result tokens.new }
    ensures shrinks { IfOk result (λ _. length tokens.new ≤ length tokens.old) }
{
    if !tokens.eat_word(Keyword::And) {
        return Ok(a);
    }
    let Got {
        tree,
        lines,
        line,
        ..
    } = a;
    let b = negation(alloc, tokens, lines)?;
    let longer = logic(alloc, true, tree, line, b)?;
    and_rest(alloc, tokens, longer)
}

#[cycle(rules)]
#[tactic(auto, using(crate::proofs::Unroll::not_reads))]
fn negation(alloc: Global, tokens: &mut Cursor<'_>, lines: Seq<u32>) -> Result<Got, Stop>
    ensures reads { Reads (reading part.Not lines tokens.old) result tokens.new }
    ensures shrinks { IfOk result (λ _. length tokens.new < length tokens.old) }
{
    let line = tokens.line();
    if tokens.eat_word(Keyword::Not) {
        let a = negation(alloc, tokens, lines)?;
        return negated(alloc, line, a);
    }
    comparison(alloc, tokens, lines)
}

#[cycle(rules)]
#[tactic(auto, using(crate::proofs::Unroll::comparison_reads))]
fn comparison(alloc: Global, tokens: &mut Cursor<'_>, lines: Seq<u32>) -> Result<Got, Stop>
    ensures reads { Reads (reading part.Comparison lines tokens.old) result tokens.new }
    ensures shrinks { IfOk result (λ _. length tokens.new < length tokens.old) }
{
    let a = bit_or(alloc, tokens, lines)?;
    comparison_rest(alloc, tokens, a)
}

#[cycle(rules)]
#[tactic(auto, using(crate::proofs::Unroll::comparison_rest_reads, crate::proofs::Unroll::comparison_rest_is, crate::proofs::Shorter::kind_shorter, crate::proofs::Shorter::comparison_shorter))]
fn comparison_rest(alloc: Global, tokens: &mut Cursor<'_>, a: Got) -> Result<Got, Stop>
    ensures reads { Reads (reading part.ComparisonRest a tokens.old) result tokens.new }
    ensures shrinks { IfOk result (λ _. length tokens.new ≤ length tokens.old) }
{
    match tokens.kind() {
        Some(TokenKind::Word(Keyword::Not)) => {
            tokens.advance();
            tokens.expect_word(Keyword::In)?;
            compared(alloc, tokens, CmpOp::NotWithin, a)
        }
        Some(TokenKind::Word(Keyword::Is)) => {
            tokens.advance();
            is_rest(alloc, tokens, a)
        }
        kind => {
            let Some(op) = comparison_op(kind) else {
                return Ok(a);
            };
            tokens.advance();
            compared(alloc, tokens, op, a)
        }
    }
}

#[cycle(rules)]
#[tactic(auto, using(crate::proofs::Unroll::is_rest_reads))]
fn is_rest(alloc: Global, tokens: &mut Cursor<'_>, a: Got) -> Result<Got, Stop>
    ensures reads { Reads (reading part.IsRest a tokens.old) result tokens.new }
    ensures shrinks { IfOk result (λ _. length tokens.new < length tokens.old) }
{
    if tokens.eat_word(Keyword::Not) {
        return compared(alloc, tokens, CmpOp::IsNot, a);
    }
    compared(alloc, tokens, CmpOp::Is, a)
}

#[cycle(rules)]
#[tactic(auto, using(crate::proofs::Unroll::compared_reads))]
fn compared(alloc: Global, tokens: &mut Cursor<'_>, op: CmpOp, a: Got) -> Result<Got, Stop>
    ensures reads { Reads (reading part.Compared (op, a) tokens.old) result tokens.new }
    ensures shrinks { IfOk result (λ _. length tokens.new < length tokens.old) }
{
    let Got {
        tree,
        lines,
        line,
        ..
    } = a;
    let b = bit_or(alloc, tokens, lines)?;
    compare(alloc, op, tree, line, b)
}

/// Expressions with commas between them, which are a tuple, or one alone.
#[cycle(rules)]
#[tactic(auto, using(crate::proofs::Unroll::exprs_reads))]
pub fn expressions(alloc: Global, tokens: &mut Cursor<'_>, lines: Seq<u32>) -> Result<Got, Stop>
    ensures reads { Reads (reading part.Exprs lines tokens.old) result tokens.new }
    ensures shrinks { IfOk result (λ _. length tokens.new < length tokens.old) }
{
    let a = expression(alloc, tokens, lines)?;
    expressions_rest(alloc, tokens, a)
}

#[cycle(rules)]
#[tactic(auto, using(crate::proofs::Unroll::exprs_rest_reads))]
fn expressions_rest(alloc: Global, tokens: &mut Cursor<'_>, a: Got) -> Result<Got, Stop>
    ensures reads { Reads (reading part.ExprsRest a tokens.old) result tokens.new }
    ensures shrinks { IfOk result (λ _. length tokens.new ≤ length tokens.old) }
{
    if !tokens.eat(Sign::Comma) {
        return Ok(a);
    }
    let line = a.line;
    let first = listed(alloc, a, line)?;
    let all = items(alloc, tokens, first)?;
    tuple(all)
}

#[cycle(rules)]
#[tactic(auto, using(crate::proofs::Unroll::items_reads, crate::proofs::Unroll::items_is, crate::proofs::Unroll::items_rest_is))]
pub fn items(alloc: Global, tokens: &mut Cursor<'_>, x: Listed) -> Result<Listed, Stop>
    ensures reads { Reads (reading part.Items x tokens.old) result tokens.new }
    ensures shrinks { IfOk result (λ _. length tokens.new ≤ length tokens.old) }
{
    let mut x = x;
    'more: while begins_expression(tokens.kind()) {
        x = item(alloc, tokens, x)?;
        if !tokens.eat(Sign::Comma) {
            return Ok(x);
        }
    }
    Ok(x)
}

#[cycle(rules)]
#[tactic(auto, using(crate::proofs::Unroll::items_rest_reads))]
pub fn items_rest(alloc: Global, tokens: &mut Cursor<'_>, x: Listed) -> Result<Listed, Stop>
    ensures reads { Reads (reading part.ItemsRest x tokens.old) result tokens.new }
    ensures shrinks { IfOk result (λ _. length tokens.new ≤ length tokens.old) }
{
    if !tokens.eat(Sign::Comma) {
        return Ok(x);
    }
    items(alloc, tokens, x)
}

/// One more expression of a list.
#[cycle(rules)]
#[tactic(auto, using(crate::proofs::Unroll::item_reads))]
pub fn item(alloc: Global, tokens: &mut Cursor<'_>, items: Listed) -> Result<Listed, Stop>
    ensures reads { Reads (reading part.Item items tokens.old) result tokens.new }
    ensures shrinks { IfOk result (λ _. length tokens.new < length tokens.old) }
{
    let Listed {
        trees,
        lines,
        line,
        goal,
    } = items;
    let a = expression(alloc, tokens, lines)?;
    longer(trees, line, goal, a)
}
