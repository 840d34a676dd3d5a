// Displays of lists and of dicts, and comprehensions.
ghost use Rattle.std.specs.Prelude.{◌<◌, ◌≤◌, IfOk, length};
ghost use Rattle.rpy_parse.specs.Rule.{Reads};
ghost use Rattle.rpy_parse.specs.Rows.{reading};
ghost use Rattle.rpy_parse.specs.Shapes as part;

use crate::cursor::Cursor;
use crate::expression::{expression, items_rest};
use crate::fault::Stop;
use crate::found::{Aimed, Got, Pairs, Walk, Walking};
use crate::goal::goal;
use crate::node::{
    dict, list, listed, more_pairs, no_items, no_pairs, walk, walk_all, walk_some, walking,
};
use crate::operator::begins_expression;
use rpy_base::{Own, Seq};
use rpy_token::{Keyword, Sign};
use rpy_tree::Expr;
use std::alloc::Global;

#[cycle(rules)]
#[tactic(auto, using(crate::proofs::Unroll::brackets_reads))]
pub fn brackets(
    alloc: Global,
    tokens: &mut Cursor<'_>,
    lines: Seq<u32>,
    line: u32,
) -> Result<Got, Stop>
    ensures reads { Reads (reading part.Brackets (lines, line) tokens.old) result tokens.new }
    ensures shrinks { IfOk result (λ _. length tokens.new < length tokens.old) }
{
    if tokens.eat(Sign::CloseBracket) {
        return list(no_items(alloc, lines, line));
    }
    let a = expression(alloc, tokens, lines)?;
    brackets_rest(alloc, tokens, a, line)
}

#[cycle(rules)]
#[tactic(auto, using(crate::proofs::Unroll::brackets_rest_reads))]
fn brackets_rest(alloc: Global, tokens: &mut Cursor<'_>, a: Got, line: u32) -> Result<Got, Stop>
    ensures reads { Reads (reading part.BracketsRest (a, line) tokens.old) result tokens.new }
    ensures shrinks { IfOk result (λ _. length tokens.new < length tokens.old) }
{
    if tokens.eat_word(Keyword::For) {
        return comprehension(alloc, tokens, a, line);
    }
    let first = listed(alloc, a, line)?;
    let all = items_rest(alloc, tokens, first)?;
    tokens.expect(Sign::CloseBracket)?;
    list(all)
}

#[cycle(rules)]
#[tactic(auto, using(crate::proofs::Unroll::comp_rest_reads))]
fn comprehension(alloc: Global, tokens: &mut Cursor<'_>, a: Got, line: u32) -> Result<Got, Stop>
    ensures reads { Reads (reading part.CompRest (a, line) tokens.old) result tokens.new }
    ensures shrinks { IfOk result (λ _. length tokens.new < length tokens.old) }
{
    let Got { tree, lines, .. } = a;
    let item = Own::new(alloc, tree)?;
    let aim = goal(alloc, tokens, lines)?;
    comprehension_in(alloc, tokens, item, line, aim)
}

#[cycle(rules)]
#[tactic(auto, using(crate::proofs::Unroll::comp_in_reads))]
fn comprehension_in(
    alloc: Global,
    tokens: &mut Cursor<'_>,
    item: Own<Expr>,
    line: u32,
    aim: Aimed,
) -> Result<Got, Stop>
    ensures reads { Reads (reading part.CompIn (item, line, aim) tokens.old) result tokens.new }
    ensures shrinks { IfOk result (λ _. length tokens.new < length tokens.old) }
{
    tokens.expect_word(Keyword::In)?;
    let x = walking(alloc, item, line, aim)?;
    comprehension_over(alloc, tokens, x)
}

#[cycle(rules)]
#[tactic(auto, using(crate::proofs::Unroll::comp_over_reads))]
fn comprehension_over(alloc: Global, tokens: &mut Cursor<'_>, x: Walking) -> Result<Got, Stop>
    ensures reads { Reads (reading part.CompOver x tokens.old) result tokens.new }
    ensures shrinks { IfOk result (λ _. length tokens.new < length tokens.old) }
{
    let Walking {
        item,
        target,
        lines,
        line,
    } = x;
    let b = expression(alloc, tokens, lines)?;
    let y = walk(alloc, item, target, line, b)?;
    comprehension_end(alloc, tokens, y)
}

#[cycle(rules)]
#[tactic(auto, using(crate::proofs::Unroll::comp_end_reads))]
fn comprehension_end(alloc: Global, tokens: &mut Cursor<'_>, x: Walk) -> Result<Got, Stop>
    ensures reads { Reads (reading part.CompEnd x tokens.old) result tokens.new }
    ensures shrinks { IfOk result (λ _. length tokens.new < length tokens.old) }
{
    if tokens.eat(Sign::CloseBracket) {
        return walk_all(x);
    }
    tokens.expect_word(Keyword::If)?;
    let Walk {
        item,
        target,
        subject,
        lines,
        line,
    } = x;
    let c = expression(alloc, tokens, lines)?;
    tokens.expect(Sign::CloseBracket)?;
    walk_some(alloc, item, target, subject, line, c)
}

#[cycle(rules)]
#[tactic(auto, using(crate::proofs::Unroll::braces_reads))]
pub fn braces(
    alloc: Global,
    tokens: &mut Cursor<'_>,
    lines: Seq<u32>,
    line: u32,
) -> Result<Got, Stop>
    ensures reads { Reads (reading part.Braces (lines, line) tokens.old) result tokens.new }
    ensures shrinks { IfOk result (λ _. length tokens.new < length tokens.old) }
{
    let all = pairs(alloc, tokens, no_pairs(alloc, lines, line))?;
    tokens.expect(Sign::CloseBrace)?;
    dict(all)
}

#[cycle(rules)]
#[tactic(auto, using(crate::proofs::Unroll::pair_list_reads, crate::proofs::Unroll::pair_list_is, crate::proofs::Unroll::pair_list_rest_is))]
fn pairs(alloc: Global, tokens: &mut Cursor<'_>, x: Pairs) -> Result<Pairs, Stop>
    ensures reads { Reads (reading part.PairList x tokens.old) result tokens.new }
    ensures shrinks { IfOk result (λ _. length tokens.new ≤ length tokens.old) }
{
    let mut x = x;
    'more: while begins_expression(tokens.kind()) {
        x = pair(alloc, tokens, x)?;
        if !tokens.eat(Sign::Comma) {
            return Ok(x);
        }
    }
    Ok(x)
}

#[cycle(rules)]
#[tactic(auto, using(crate::proofs::Unroll::pair_reads))]
fn pair(alloc: Global, tokens: &mut Cursor<'_>, x: Pairs) -> Result<Pairs, Stop>
    ensures reads { Reads (reading part.Pair x tokens.old) result tokens.new }
    ensures shrinks { IfOk result (λ _. length tokens.new < length tokens.old) }
{
    let Pairs { pairs, lines, line } = x;
    let key = expression(alloc, tokens, lines)?;
    pair_rest(alloc, tokens, pairs, line, key)
}

#[cycle(rules)]
#[tactic(auto, using(crate::proofs::Unroll::pair_rest_reads))]
fn pair_rest(
    alloc: Global,
    tokens: &mut Cursor<'_>,
    pairs: Seq<(Expr, Expr)>,
    line: u32,
    key: Got,
) -> Result<Pairs, Stop>
    ensures reads { Reads (reading part.PairRest (pairs, line, key) tokens.old) result tokens.new }
    ensures shrinks { IfOk result (λ _. length tokens.new < length tokens.old) }
{
    tokens.expect(Sign::Colon)?;
    let Got { tree, lines, .. } = key;
    let value = expression(alloc, tokens, lines)?;
    more_pairs(pairs, line, tree, value)
}
