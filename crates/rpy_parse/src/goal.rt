// Targets, as they begin: expressions behind which a place may stand.
ghost use Rattle.std.specs.Prelude.{◌<◌, ◌≤◌, IfOk, length};
ghost use Rattle.rpy_parse.specs.Rule.{Reads};
ghost use Rattle.rpy_parse.specs.Rows.{reading};
ghost use Rattle.rpy_parse.specs.Shapes as part;

use crate::atom::{arguments, attribute_of, other_atom, slice_end};
use crate::cursor::Cursor;
use crate::expression::expression;
use crate::fault::Stop;
use crate::found::{Aimed, Aims, Got};
use crate::node::{aims, index, indexed, more_aims, name, sliced, sliced_from, tuple_of_targets};
use crate::operator::begins_atom;
use crate::target::aimed;
use rpy_base::Seq;
use rpy_token::{Sign, TokenKind};
use rpy_tree::Expr;
use std::alloc::Global;

/// Targets with commas between them, which are a tuple, or one alone.
#[cycle(rules)]
#[tactic(auto, using(crate::proofs::Unroll::goal_reads))]
pub fn goal(alloc: Global, tokens: &mut Cursor<'_>, lines: Seq<u32>) -> Result<Aimed, Stop>
    ensures reads { Reads (reading part.Goal lines tokens.old) result tokens.new }
    ensures shrinks { IfOk result (λ _. length tokens.new < length tokens.old) }
{
    let a = goal_part(alloc, tokens, lines)?;
    goal_rest(alloc, tokens, a)
}

#[cycle(rules)]
#[tactic(auto, using(crate::proofs::Unroll::goal_rest_reads))]
fn goal_rest(alloc: Global, tokens: &mut Cursor<'_>, a: Aimed) -> Result<Aimed, Stop>
    ensures reads { Reads (reading part.GoalRest a tokens.old) result tokens.new }
    ensures shrinks { IfOk result (λ _. length tokens.new ≤ length tokens.old) }
{
    if !tokens.eat(Sign::Comma) {
        return Ok(a);
    }
    let first = aims(alloc, a)?;
    let all = goals(alloc, tokens, first)?;
    tuple_of_targets(all)
}

#[cycle(rules)]
#[tactic(auto, using(crate::proofs::Unroll::goal_list_reads, crate::proofs::Unroll::goal_list_is, crate::proofs::Unroll::goal_list_rest_is))]
fn goals(alloc: Global, tokens: &mut Cursor<'_>, x: Aims) -> Result<Aims, Stop>
    ensures reads { Reads (reading part.GoalList x tokens.old) result tokens.new }
    ensures shrinks { IfOk result (λ _. length tokens.new ≤ length tokens.old) }
{
    let mut x = x;
    'more: while begins_atom(tokens.kind()) {
        x = one_goal(alloc, tokens, x)?;
        if !tokens.eat(Sign::Comma) {
            return Ok(x);
        }
    }
    Ok(x)
}

#[cycle(rules)]
#[tactic(auto, using(crate::proofs::Unroll::one_goal_reads))]
fn one_goal(alloc: Global, tokens: &mut Cursor<'_>, x: Aims) -> Result<Aims, Stop>
    ensures reads { Reads (reading part.OneGoal x tokens.old) result tokens.new }
    ensures shrinks { IfOk result (λ _. length tokens.new < length tokens.old) }
{
    let Aims {
        targets,
        lines,
        line,
    } = x;
    let a = goal_part(alloc, tokens, lines)?;
    more_aims(targets, line, a)
}

#[cycle(rules)]
#[tactic(auto, using(crate::proofs::Unroll::goal_part_reads, crate::proofs::Unroll::goal_part_is, crate::proofs::Shorter::kind_shorter))]
fn goal_part(alloc: Global, tokens: &mut Cursor<'_>, lines: Seq<u32>) -> Result<Aimed, Stop>
    ensures reads { Reads (reading part.GoalPart lines tokens.old) result tokens.new }
    ensures shrinks { IfOk result (λ _. length tokens.new < length tokens.old) }
{
    let line = tokens.line();
    match tokens.kind() {
        Some(TokenKind::Name(text)) => {
            tokens.advance();
            let a = name(alloc, lines, line, text)?;
            place_rest(alloc, tokens, a)
        }
        _ => {
            let a = other_atom(alloc, tokens, lines)?;
            other_rest(alloc, tokens, a)
        }
    }
}

#[cycle(rules)]
#[tactic(auto, using(crate::proofs::Unroll::place_rest_reads))]
fn place_rest(alloc: Global, tokens: &mut Cursor<'_>, a: Got) -> Result<Aimed, Stop>
    ensures reads { Reads (reading part.PlaceRest a tokens.old) result tokens.new }
    ensures shrinks { IfOk result (λ _. length tokens.new ≤ length tokens.old) }
{
    if tokens.eat(Sign::Dot) {
        let b = attribute_of(alloc, tokens, a)?;
        return place_rest(alloc, tokens, b);
    }
    if tokens.eat(Sign::OpenParen) {
        let b = arguments(alloc, tokens, a)?;
        return other_rest(alloc, tokens, b);
    }
    if tokens.eat(Sign::OpenBracket) {
        return place_subscript(alloc, tokens, a);
    }
    aimed(alloc, a)
}

#[cycle(rules)]
#[tactic(auto, using(crate::proofs::Unroll::other_rest_reads))]
fn other_rest(alloc: Global, tokens: &mut Cursor<'_>, a: Got) -> Result<Aimed, Stop>
    ensures reads { Reads (reading part.OtherRest a tokens.old) result tokens.new }
    ensures shrinks { IfOk result (λ _. length tokens.new ≤ length tokens.old) }
{
    if tokens.eat(Sign::Dot) {
        let b = attribute_of(alloc, tokens, a)?;
        return place_rest(alloc, tokens, b);
    }
    if tokens.eat(Sign::OpenParen) {
        let b = arguments(alloc, tokens, a)?;
        return other_rest(alloc, tokens, b);
    }
    if tokens.eat(Sign::OpenBracket) {
        return place_subscript(alloc, tokens, a);
    }
    if !a.goal {
        return Err(tokens.refuse());
    }
    aimed(alloc, a)
}

#[cycle(rules)]
#[tactic(auto, using(crate::proofs::Unroll::place_subscript_reads))]
fn place_subscript(alloc: Global, tokens: &mut Cursor<'_>, a: Got) -> Result<Aimed, Stop>
    ensures reads { Reads (reading part.PlaceSubscript a tokens.old) result tokens.new }
    ensures shrinks { IfOk result (λ _. length tokens.new < length tokens.old) }
{
    let Got {
        tree,
        lines,
        line,
        ..
    } = a;
    if tokens.eat(Sign::Colon) {
        let x = sliced(alloc, tree, lines, line)?;
        let b = slice_end(alloc, tokens, x)?;
        return other_rest(alloc, tokens, b);
    }
    let i = expression(alloc, tokens, lines)?;
    place_subscript_rest(alloc, tokens, tree, line, i)
}

#[cycle(rules)]
#[tactic(auto, using(crate::proofs::Unroll::place_subscript_rest_reads))]
fn place_subscript_rest(
    alloc: Global,
    tokens: &mut Cursor<'_>,
    of: Expr,
    line: u32,
    i: Got,
) -> Result<Aimed, Stop>
    ensures reads { Reads (reading part.PlaceSubscriptRest (of, line, i) tokens.old) result tokens.new }
    ensures shrinks { IfOk result (λ _. length tokens.new < length tokens.old) }
{
    if tokens.eat(Sign::CloseBracket) {
        let b = index(alloc, indexed(of, line, i))?;
        return place_rest(alloc, tokens, b);
    }
    tokens.expect(Sign::Colon)?;
    let x = sliced_from(alloc, of, line, i)?;
    let b = slice_end(alloc, tokens, x)?;
    other_rest(alloc, tokens, b)
}
