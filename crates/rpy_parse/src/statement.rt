// Statements with blocks.
ghost use Rattle.std.specs.Prelude.{◌≡◌, ◌<◌, ◌≤◌, [], length, cond, IfOk, Ok};
ghost use Rattle.rpy_token.specs.declared.token.Keyword.TheVariants as word;
ghost use Rattle.rpy_parse.specs.Kind.{word_kind};
ghost use Rattle.rpy_parse.specs.Input.{sees};
ghost use Rattle.rpy_parse.specs.Build as spec;
ghost use Rattle.rpy_parse.specs.Rule.{Reads, and_then, eat};
ghost use Rattle.rpy_parse.specs.Rows.{reading};
ghost use Rattle.rpy_parse.specs.Shapes as part;

use crate::ahead::begins_compound;
use crate::cursor::Cursor;
use crate::expression::expression;
use crate::fault::Stop;
use crate::found::{Aimed, Arm, Arms, Body, Got, Handled, Head, Headed, Made, Place, Tried};
use crate::goal::goal;
use crate::made;
use crate::names::clause_head;
use crate::node::numbered;
use crate::simple::simples;
use rpy_base::{Own, Seq};
use rpy_token::{Keyword, Sign, TokenKind};
use rpy_tree::{NodeId, Stmt, Target};
use std::alloc::Global;

#[cycle(block)]
#[tactic(auto, using(crate::proofs::UnrollRest::block_reads))]
pub fn block(
    alloc: Global,
    tokens: &mut Cursor<'_>,
    place: Place,
    lines: Seq<u32>,
) -> Result<Body, Stop>
    ensures reads { Reads (reading part.Block (place, lines) tokens.old) result tokens.new }
    ensures shrinks { IfOk result (λ _. length tokens.new < length tokens.old) }
{
    let body = Body {
        stmts: Seq::new(alloc),
        lines,
    };
    if tokens.eat_newline() {
        tokens.expect_indent()?;
        let first = statement(alloc, tokens, place, body)?;
        return statements(alloc, tokens, place, first);
    }
    simples(alloc, tokens, place, body)
}

/// The rest of a block.
#[cycle(block)]
#[tactic(auto, using(crate::proofs::UnrollRest::statements_is))]
fn statements(
    alloc: Global,
    tokens: &mut Cursor<'_>,
    place: Place,
    body: Body,
) -> Result<Body, Stop>
    ensures reads { Reads (reading part.Statements (place, body) tokens.old) result tokens.new }
    ensures shrinks { IfOk result (λ _. length tokens.new < length tokens.old) }
{
    let mut body = body;
    while !tokens.eat_dedent() {
        body = statement(alloc, tokens, place, body)?;
    }
    Ok(body)
}

#[cycle(block)]
#[tactic(auto, using(crate::proofs::UnrollRest::statement_reads, crate::proofs::UnrollRest::statement_is))]
fn statement(alloc: Global, tokens: &mut Cursor<'_>, place: Place, body: Body) -> Result<Body, Stop>
    ensures reads { Reads (reading part.Statement (place, body) tokens.old) result tokens.new }
    ensures shrinks { IfOk result (λ _. length tokens.new < length tokens.old) }
{
    if !begins_compound(tokens.kind()) {
        return simples(alloc, tokens, place, body);
    }
    let next = compound(alloc, tokens, place, body.lines)?;
    made::pushed(body.stmts, next)
}

#[cycle(block)]
#[tactic(auto, using(crate::proofs::UnrollRest::compound_reads, crate::proofs::UnrollRest::compound_is))]
fn compound(
    alloc: Global,
    tokens: &mut Cursor<'_>,
    place: Place,
    lines: Seq<u32>,
) -> Result<Made, Stop>
    ensures reads { Reads (reading part.Compound (place, lines) tokens.old) result tokens.new }
    ensures shrinks { IfOk result (λ _. length tokens.new < length tokens.old) }
{
    match tokens.kind() {
        Some(TokenKind::Word(Keyword::If)) => if_word(alloc, tokens, place, lines),
        Some(TokenKind::Word(Keyword::While)) => while_word(alloc, tokens, place, lines),
        Some(TokenKind::Word(Keyword::For)) => for_word(alloc, tokens, place, lines),
        _ => try_word(alloc, tokens, place, lines),
    }
}

#[cycle(block)]
#[tactic(auto, using(crate::proofs::UnrollRest::if_reads))]
fn if_word(
    alloc: Global,
    tokens: &mut Cursor<'_>,
    place: Place,
    lines: Seq<u32>,
) -> Result<Made, Stop>
    ensures reads { Reads (reading part.If (place, lines) tokens.old) result tokens.new }
    ensures shrinks { IfOk result (λ _. length tokens.new < length tokens.old) }
{
    let line = tokens.line();
    tokens.expect_word(Keyword::If)?;
    let test = expression(alloc, tokens, lines)?;
    if_then(alloc, tokens, place, line, test)
}

#[cycle(block)]
#[tactic(auto, using(crate::proofs::UnrollRest::if_then_reads))]
fn if_then(
    alloc: Global,
    tokens: &mut Cursor<'_>,
    place: Place,
    line: u32,
    test: Got,
) -> Result<Made, Stop>
    ensures reads { Reads (reading part.IfThen (place, line, test) tokens.old) result tokens.new }
    ensures shrinks { IfOk result (λ _. length tokens.new < length tokens.old) }
{
    tokens.expect(Sign::Colon)?;
    let head = made::headed(test, line)?;
    let arms = first_arm(alloc, tokens, place, head)?;
    elifs(alloc, tokens, place, arms)
}

#[cycle(block)]
#[tactic(auto, using(crate::proofs::UnrollRest::first_arm_reads))]
fn first_arm(
    alloc: Global,
    tokens: &mut Cursor<'_>,
    place: Place,
    head: Headed,
) -> Result<Arms, Stop>
    ensures reads { Reads (reading part.FirstArm (place, head) tokens.old) result tokens.new }
    ensures shrinks { IfOk result (λ _. length tokens.new < length tokens.old) }
{
    let test = Own::new(alloc, head.tree)?;
    let body = block(alloc, tokens, place, head.lines)?;
    made::more_arms(
        head.node,
        Seq::new(alloc),
        made::arm(test.into_inner(), body),
    )
}

#[cycle(block)]
#[tactic(auto, using(crate::proofs::UnrollRest::elifs_is))]
fn elifs(alloc: Global, tokens: &mut Cursor<'_>, place: Place, arms: Arms) -> Result<Made, Stop>
    ensures reads { Reads (reading part.Elifs (place, arms) tokens.old) result tokens.new }
    ensures shrinks { IfOk result (λ _. length tokens.new ≤ length tokens.old) }
{
    let mut arms = arms;
    while tokens.eat_word(Keyword::Elif) {
        arms = elif(alloc, tokens, place, arms)?;
    }
    otherwise(alloc, tokens, place, arms)
}

/// The end of an `if`, with its `else` if it has one.
#[cycle(block)]
fn otherwise(alloc: Global, tokens: &mut Cursor<'_>, place: Place, arms: Arms) -> Result<Made, Stop>
    ensures reads { Reads (cond (sees (word_kind word.Else) tokens.old) (and_then (eat (word_kind word.Else) tokens.old) (λ _ j. and_then (reading part.ElseBody (place, arms.lines) j) (λ b k. Ok (spec.chosen (spec.with_lines arms.node arms.arms b.lines) b.stmts, k)))) (Ok (spec.chosen arms [], tokens.old))) result tokens.new }
    ensures shrinks { IfOk result (λ _. length tokens.new ≤ length tokens.old) }
{
    if !tokens.eat_word(Keyword::Else) {
        return Ok(made::chosen(arms, Seq::new(alloc)));
    }
    let body = else_body(alloc, tokens, place, arms.lines)?;
    let all = made::with_lines(arms.node, arms.arms, body.lines);
    Ok(made::chosen(all, body.stmts))
}

#[cycle(block)]
#[tactic(auto, using(crate::proofs::UnrollRest::else_body_reads))]
fn else_body(
    alloc: Global,
    tokens: &mut Cursor<'_>,
    place: Place,
    lines: Seq<u32>,
) -> Result<Body, Stop>
    ensures reads { Reads (reading part.ElseBody (place, lines) tokens.old) result tokens.new }
    ensures shrinks { IfOk result (λ _. length tokens.new < length tokens.old) }
{
    tokens.expect(Sign::Colon)?;
    block(alloc, tokens, place, lines)
}

#[cycle(block)]
#[tactic(auto, using(crate::proofs::UnrollRest::elif_reads))]
fn elif(alloc: Global, tokens: &mut Cursor<'_>, place: Place, arms: Arms) -> Result<Arms, Stop>
    ensures reads { Reads (reading part.Elif (place, arms) tokens.old) result tokens.new }
    ensures shrinks { IfOk result (λ _. length tokens.new < length tokens.old) }
{
    let arm = elif_arm(alloc, tokens, place, arms.lines)?;
    made::more_arms(arms.node, arms.arms, arm)
}

#[cycle(block)]
#[tactic(auto, using(crate::proofs::UnrollRest::elif_arm_reads))]
fn elif_arm(
    alloc: Global,
    tokens: &mut Cursor<'_>,
    place: Place,
    lines: Seq<u32>,
) -> Result<Arm, Stop>
    ensures reads { Reads (reading part.ElifArm (place, lines) tokens.old) result tokens.new }
    ensures shrinks { IfOk result (λ _. length tokens.new < length tokens.old) }
{
    let test = expression(alloc, tokens, lines)?;
    elif_body(alloc, tokens, place, test)
}

#[cycle(block)]
#[tactic(auto, using(crate::proofs::UnrollRest::elif_body_reads, crate::proofs::UnrollRest::elif_body_is))]
fn elif_body(alloc: Global, tokens: &mut Cursor<'_>, place: Place, test: Got) -> Result<Arm, Stop>
    ensures reads { Reads (reading part.ElifBody (place, test) tokens.old) result tokens.new }
    ensures shrinks { IfOk result (λ _. length tokens.new < length tokens.old) }
{
    tokens.expect(Sign::Colon)?;
    let tree = Own::new(alloc, test.tree)?;
    let body = block(alloc, tokens, place, test.lines)?;
    Ok(made::arm(tree.into_inner(), body))
}

#[cycle(block)]
#[tactic(auto, using(crate::proofs::UnrollRest::while_reads))]
fn while_word(
    alloc: Global,
    tokens: &mut Cursor<'_>,
    place: Place,
    lines: Seq<u32>,
) -> Result<Made, Stop>
    ensures reads { Reads (reading part.While (place, lines) tokens.old) result tokens.new }
    ensures shrinks { IfOk result (λ _. length tokens.new < length tokens.old) }
{
    let line = tokens.line();
    tokens.expect_word(Keyword::While)?;
    let test = expression(alloc, tokens, lines)?;
    while_body(alloc, tokens, place, line, test)
}

#[cycle(block)]
#[tactic(auto, using(crate::proofs::UnrollRest::while_body_reads, crate::proofs::UnrollRest::while_body_is))]
fn while_body(
    alloc: Global,
    tokens: &mut Cursor<'_>,
    place: Place,
    line: u32,
    test: Got,
) -> Result<Made, Stop>
    ensures reads { Reads (reading part.WhileBody (place, line, test) tokens.old) result tokens.new }
    ensures shrinks { IfOk result (λ _. length tokens.new < length tokens.old) }
{
    tokens.expect(Sign::Colon)?;
    let tree = Own::new(alloc, test.tree)?;
    let new = numbered(test.lines, line)?;
    let body = block(alloc, tokens, made::in_loop(place), new.lines)?;
    Ok(made::repeated(new.node, tree.into_inner(), body))
}

#[cycle(block)]
#[tactic(auto, using(crate::proofs::UnrollRest::for_reads))]
fn for_word(
    alloc: Global,
    tokens: &mut Cursor<'_>,
    place: Place,
    lines: Seq<u32>,
) -> Result<Made, Stop>
    ensures reads { Reads (reading part.For (place, lines) tokens.old) result tokens.new }
    ensures shrinks { IfOk result (λ _. length tokens.new < length tokens.old) }
{
    let line = tokens.line();
    tokens.expect_word(Keyword::For)?;
    let aim = goal(alloc, tokens, lines)?;
    for_in(alloc, tokens, place, line, aim)
}

#[cycle(block)]
#[tactic(auto, using(crate::proofs::UnrollRest::for_in_reads))]
fn for_in(
    alloc: Global,
    tokens: &mut Cursor<'_>,
    place: Place,
    line: u32,
    aim: Aimed,
) -> Result<Made, Stop>
    ensures reads { Reads (reading part.ForIn (place, line, aim) tokens.old) result tokens.new }
    ensures shrinks { IfOk result (λ _. length tokens.new < length tokens.old) }
{
    tokens.expect_word(Keyword::In)?;
    let target = Own::new(alloc, aim.target)?;
    let subject = expression(alloc, tokens, aim.lines)?;
    for_body(alloc, tokens, place, line, target, subject)
}

#[cycle(block)]
#[tactic(auto, using(crate::proofs::UnrollRest::for_body_reads, crate::proofs::UnrollRest::for_body_is))]
fn for_body(
    alloc: Global,
    tokens: &mut Cursor<'_>,
    place: Place,
    line: u32,
    target: Own<Target>,
    subject: Got,
) -> Result<Made, Stop>
    ensures reads { Reads (reading part.ForBody (place, line, target, subject) tokens.old) result tokens.new }
    ensures shrinks { IfOk result (λ _. length tokens.new < length tokens.old) }
{
    tokens.expect(Sign::Colon)?;
    let tree = Own::new(alloc, subject.tree)?;
    let new = numbered(subject.lines, line)?;
    let body = block(alloc, tokens, made::in_loop(place), new.lines)?;
    Ok(made::walked(new.node, target.into_inner(), tree.into_inner(), body))
}

#[cycle(block)]
#[tactic(auto, using(crate::proofs::UnrollRest::try_reads))]
fn try_word(
    alloc: Global,
    tokens: &mut Cursor<'_>,
    place: Place,
    lines: Seq<u32>,
) -> Result<Made, Stop>
    ensures reads { Reads (reading part.Try (place, lines) tokens.old) result tokens.new }
    ensures shrinks { IfOk result (λ _. length tokens.new < length tokens.old) }
{
    let line = tokens.line();
    tokens.expect_word(Keyword::Try)?;
    tokens.expect(Sign::Colon)?;
    let new = numbered(lines, line)?;
    let body = block(alloc, tokens, place, new.lines)?;
    try_rest(
        alloc,
        tokens,
        place,
        made::no_clauses(alloc, new.node, body),
    )
}

#[cycle(block)]
#[tactic(auto, using(crate::proofs::UnrollRest::try_rest_reads, crate::proofs::UnrollRest::try_rest_is))]
fn try_rest(alloc: Global, tokens: &mut Cursor<'_>, place: Place, x: Tried) -> Result<Made, Stop>
    ensures reads { Reads (reading part.TryRest (place, x) tokens.old) result tokens.new }
    ensures shrinks { IfOk result (λ _. length tokens.new < length tokens.old) }
{
    if tokens.sees_word(Keyword::Except) {
        let more = next_clause(alloc, tokens, place, x)?;
        return clauses(alloc, tokens, place, more);
    }
    if place.last {
        return Err(tokens.refuse());
    }
    tokens.expect_word(Keyword::Finally)?;
    finish(alloc, tokens, x, Seq::new(alloc))
}

/// The body of a `finally`.
#[cycle(block)]
#[tactic(auto, using(crate::proofs::UnrollRest::finish_reads, crate::proofs::UnrollRest::finish_is))]
fn finish(alloc: Global, tokens: &mut Cursor<'_>, x: Tried, other: Seq<Stmt>) -> Result<Made, Stop>
    ensures reads { Reads (reading part.Finish (x, other) tokens.old) result tokens.new }
    ensures shrinks { IfOk result (λ _. length tokens.new < length tokens.old) }
{
    let body = else_body(alloc, tokens, made::in_finally(), x.lines)?;
    let all = made::tried_of(x.node, x.body, x.clauses, x.bare, body.lines);
    Ok(made::finished(all, other, Some(body.stmts)))
}

#[cycle(block)]
#[tactic(auto, using(crate::proofs::UnrollRest::clauses_is))]
fn clauses(alloc: Global, tokens: &mut Cursor<'_>, place: Place, x: Tried) -> Result<Made, Stop>
    ensures reads { Reads (reading part.Clauses (place, x) tokens.old) result tokens.new }
    ensures shrinks { IfOk result (λ _. length tokens.new ≤ length tokens.old) }
{
    let mut x = x;
    while tokens.sees_word(Keyword::Except) {
        if x.bare {
            return Err(tokens.refuse());
        }
        x = next_clause(alloc, tokens, place, x)?;
    }
    try_end(alloc, tokens, place, x)
}

#[cycle(block)]
#[tactic(auto, using(crate::proofs::UnrollRest::next_clause_reads))]
fn next_clause(
    alloc: Global,
    tokens: &mut Cursor<'_>,
    place: Place,
    x: Tried,
) -> Result<Tried, Stop>
    ensures reads { Reads (reading part.NextClause (place, x) tokens.old) result tokens.new }
    ensures shrinks { IfOk result (λ _. length tokens.new < length tokens.old) }
{
    let clause = one_clause(alloc, tokens, place, x.lines)?;
    made::more_clauses(x.node, x.body, x.clauses, clause)
}

#[cycle(block)]
#[tactic(auto, using(crate::proofs::UnrollRest::one_clause_reads))]
fn one_clause(
    alloc: Global,
    tokens: &mut Cursor<'_>,
    place: Place,
    lines: Seq<u32>,
) -> Result<Handled, Stop>
    ensures reads { Reads (reading part.OneClause (place, lines) tokens.old) result tokens.new }
    ensures shrinks { IfOk result (λ _. length tokens.new < length tokens.old) }
{
    let line = tokens.line();
    tokens.expect_word(Keyword::Except)?;
    let head = clause_head(alloc, tokens)?;
    handler(alloc, tokens, place, line, lines, head)
}

#[cycle(block)]
#[tactic(auto, using(crate::proofs::UnrollRest::handler_reads, crate::proofs::UnrollRest::handler_is))]
fn handler(
    alloc: Global,
    tokens: &mut Cursor<'_>,
    place: Place,
    line: u32,
    lines: Seq<u32>,
    head: Head,
) -> Result<Handled, Stop>
    ensures reads { Reads (reading part.Handler (place, line, lines, head) tokens.old) result tokens.new }
    ensures shrinks { IfOk result (λ _. length tokens.new < length tokens.old) }
{
    tokens.expect(Sign::Colon)?;
    let new = numbered(lines, line)?;
    let body = block(alloc, tokens, place, new.lines)?;
    Ok(made::handled(new.node, head, body))
}

#[cycle(block)]
#[tactic(auto, using(crate::proofs::UnrollRest::try_end_reads))]
fn try_end(alloc: Global, tokens: &mut Cursor<'_>, place: Place, x: Tried) -> Result<Made, Stop>
    ensures reads { Reads (reading part.TryEnd (place, x) tokens.old) result tokens.new }
    ensures shrinks { IfOk result (λ _. length tokens.new ≤ length tokens.old) }
{
    if !tokens.eat_word(Keyword::Else) {
        return try_finally(alloc, tokens, place, x, Seq::new(alloc));
    }
    let body = else_body(alloc, tokens, place, x.lines)?;
    let all = made::tried_of(x.node, x.body, x.clauses, x.bare, body.lines);
    try_finally(alloc, tokens, place, all, body.stmts)
}

#[cycle(block)]
#[tactic(auto, using(crate::proofs::UnrollRest::try_finally_reads, crate::proofs::UnrollRest::try_finally_is, crate::proofs::OneToken::ate, crate::proofs::OneToken::seen_shorter))]
fn try_finally(
    alloc: Global,
    tokens: &mut Cursor<'_>,
    place: Place,
    x: Tried,
    other: Seq<Stmt>,
) -> Result<Made, Stop>
    ensures reads { Reads (reading part.TryFinally (place, x, other) tokens.old) result tokens.new }
    ensures shrinks { IfOk result (λ _. length tokens.new ≤ length tokens.old) }
{
    if !tokens.sees_word(Keyword::Finally) {
        return Ok(made::finished(x, other, None));
    }
    if place.last {
        return Err(tokens.refuse());
    }
    tokens.advance();
    finish(alloc, tokens, x, other)
}
