// Statements without blocks.
ghost use Rattle.std.specs.Prelude.{◌≡◌, ◌<◌, ◌≤◌, length, IfOk, Ok};
ghost use Rattle.rpy_parse.specs.Rule.{Reads, and_then};
ghost use Rattle.rpy_parse.specs.Build as spec;
ghost use Rattle.rpy_parse.specs.Rows.{reading};
ghost use Rattle.rpy_parse.specs.Shapes as part;

use crate::ahead::{assign_op, begins_expression};
use crate::atom::{arguments, atom, attribute_of, slice_end, strings};
use crate::cursor::Cursor;
use crate::expression::{expression, expressions, item};
use crate::fault::Stop;
use crate::found::{Assigned, Body, Got, Indexed, Listed, Made, Place};
use crate::target::target_of;
use crate::{made, node};
use rpy_base::{Own, Seq, Text};
use rpy_token::{Keyword, Sign, TokenKind};
use rpy_tree::{BinOp, Expr};
use std::alloc::Global;

#[tactic(auto, using(crate::proofs::UnrollRest::simple_reads, crate::proofs::UnrollRest::simple_is))]
pub fn simple(
    alloc: Global,
    tokens: &mut Cursor<'_>,
    place: Place,
    lines: Seq<u32>,
) -> Result<Made, Stop>
    ensures reads { Reads (reading part.Simple (place, lines) tokens.old) result tokens.new }
    ensures shrinks { IfOk result (λ _. length tokens.new < length tokens.old) }
{
    match tokens.kind() {
        Some(TokenKind::Word(Keyword::Pass)) => pass_word(tokens, lines),
        Some(TokenKind::Word(Keyword::Break)) => {
            if place.looped {
                break_word(tokens, lines)
            } else {
                Err(tokens.refuse())
            }
        }
        Some(TokenKind::Word(Keyword::Continue)) => {
            if place.looped {
                continue_word(tokens, lines)
            } else {
                Err(tokens.refuse())
            }
        }
        Some(TokenKind::Word(Keyword::Return)) => {
            if place.last {
                Err(tokens.refuse())
            } else {
                return_word(alloc, tokens, lines)
            }
        }
        Some(TokenKind::Word(Keyword::Raise)) => raise(alloc, tokens, lines),
        Some(TokenKind::Word(Keyword::Assert)) => assert_word(alloc, tokens, lines),
        Some(TokenKind::Word(Keyword::Del)) => del(alloc, tokens, lines),
        Some(TokenKind::Word(Keyword::Print)) => print(alloc, tokens, lines),
        _ => valued(alloc, tokens, lines),
    }
}

#[tactic(auto, using(crate::proofs::UnrollRest::pass_word_reads))]
fn pass_word(tokens: &mut Cursor<'_>, lines: Seq<u32>) -> Result<Made, Stop>
    ensures reads { Reads (reading part.PassWord lines tokens.old) result tokens.new }
    ensures shrinks { IfOk result (λ _. length tokens.new < length tokens.old) }
{
    let line = tokens.line();
    tokens.expect_word(Keyword::Pass)?;
    made::passed(lines, line)
}

#[tactic(auto, using(crate::proofs::UnrollRest::break_word_reads))]
fn break_word(tokens: &mut Cursor<'_>, lines: Seq<u32>) -> Result<Made, Stop>
    ensures reads { Reads (reading part.BreakWord lines tokens.old) result tokens.new }
    ensures shrinks { IfOk result (λ _. length tokens.new < length tokens.old) }
{
    let line = tokens.line();
    tokens.expect_word(Keyword::Break)?;
    made::broken(lines, line)
}

#[tactic(auto, using(crate::proofs::UnrollRest::continue_word_reads))]
fn continue_word(tokens: &mut Cursor<'_>, lines: Seq<u32>) -> Result<Made, Stop>
    ensures reads { Reads (reading part.ContinueWord lines tokens.old) result tokens.new }
    ensures shrinks { IfOk result (λ _. length tokens.new < length tokens.old) }
{
    let line = tokens.line();
    tokens.expect_word(Keyword::Continue)?;
    made::continued(lines, line)
}

#[tactic(auto, using(crate::proofs::UnrollRest::return_reads))]
fn return_word(alloc: Global, tokens: &mut Cursor<'_>, lines: Seq<u32>) -> Result<Made, Stop>
    ensures reads { Reads (reading part.Return lines tokens.old) result tokens.new }
    ensures shrinks { IfOk result (λ _. length tokens.new < length tokens.old) }
{
    let line = tokens.line();
    tokens.expect_word(Keyword::Return)?;
    return_rest(alloc, tokens, lines, line)
}

#[tactic(auto, using(crate::proofs::UnrollRest::return_rest_reads, crate::proofs::UnrollRest::return_rest_is))]
fn return_rest(
    alloc: Global,
    tokens: &mut Cursor<'_>,
    lines: Seq<u32>,
    line: u32,
) -> Result<Made, Stop>
    ensures reads { Reads (reading part.ReturnRest (lines, line) tokens.old) result tokens.new }
    ensures shrinks { IfOk result (λ _. length tokens.new ≤ length tokens.old) }
{
    if begins_expression(tokens.kind()) {
        let a = expressions(alloc, tokens, lines)?;
        made::returned_value(line, a)
    } else {
        made::returned(lines, line)
    }
}

#[tactic(auto, using(crate::proofs::UnrollRest::raise_reads))]
fn raise(alloc: Global, tokens: &mut Cursor<'_>, lines: Seq<u32>) -> Result<Made, Stop>
    ensures reads { Reads (reading part.Raise lines tokens.old) result tokens.new }
    ensures shrinks { IfOk result (λ _. length tokens.new < length tokens.old) }
{
    let line = tokens.line();
    tokens.expect_word(Keyword::Raise)?;
    let a = expression(alloc, tokens, lines)?;
    made::raised(line, a)
}

#[tactic(auto, using(crate::proofs::UnrollRest::assert_reads))]
fn assert_word(alloc: Global, tokens: &mut Cursor<'_>, lines: Seq<u32>) -> Result<Made, Stop>
    ensures reads { Reads (reading part.Assert lines tokens.old) result tokens.new }
    ensures shrinks { IfOk result (λ _. length tokens.new < length tokens.old) }
{
    let line = tokens.line();
    tokens.expect_word(Keyword::Assert)?;
    let a = expression(alloc, tokens, lines)?;
    assert_rest(alloc, tokens, line, a)
}

/// The message of an assertion is in no tree.
#[tactic(auto, using(crate::proofs::UnrollRest::assert_rest_reads))]
fn assert_rest(alloc: Global, tokens: &mut Cursor<'_>, line: u32, a: Got) -> Result<Made, Stop>
    ensures reads { Reads (reading part.AssertRest (line, a) tokens.old) result tokens.new }
    ensures shrinks { IfOk result (λ _. length tokens.new ≤ length tokens.old) }
{
    if tokens.eat(Sign::Comma) {
        strings_alone(alloc, tokens)?;
    }
    made::asserted(line, a)
}

/// Reads string pieces that are in no tree.
#[tactic(auto, using(crate::proofs::UnrollRest::strings_alone_reads, crate::proofs::UnrollRest::strings_alone_is))]
pub fn strings_alone(alloc: Global, tokens: &mut Cursor<'_>) -> Result<(), Stop>
    ensures reads { Reads (reading part.StringsAlone tt tokens.old) result tokens.new }
    ensures shrinks { IfOk result (λ _. length tokens.new < length tokens.old) }
{
    tokens.expect_string()?;
    strings(tokens, Text::new(alloc))?;
    Ok(())
}

#[tactic(auto, using(crate::proofs::UnrollRest::del_reads))]
fn del(alloc: Global, tokens: &mut Cursor<'_>, lines: Seq<u32>) -> Result<Made, Stop>
    ensures reads { Reads (reading part.Del lines tokens.old) result tokens.new }
    ensures shrinks { IfOk result (λ _. length tokens.new < length tokens.old) }
{
    let line = tokens.line();
    tokens.expect_word(Keyword::Del)?;
    let a = atom(alloc, tokens, lines)?;
    del_other(alloc, tokens, line, a)
}

/// What is read after an expression that cannot be deleted.
#[cycle(del)]
#[tactic(auto, using(crate::proofs::UnrollRest::del_other_reads))]
fn del_other(alloc: Global, tokens: &mut Cursor<'_>, line: u32, a: Got) -> Result<Made, Stop>
    ensures reads { Reads (reading part.DelOther (line, a) tokens.old) result tokens.new }
    ensures shrinks { IfOk result (λ _. length tokens.new < length tokens.old) }
{
    if tokens.eat(Sign::Dot) {
        let b = attribute_of(alloc, tokens, a)?;
        return del_other(alloc, tokens, line, b);
    }
    if tokens.eat(Sign::OpenParen) {
        let b = arguments(alloc, tokens, a)?;
        return del_other(alloc, tokens, line, b);
    }
    tokens.expect(Sign::OpenBracket)?;
    del_subscript(alloc, tokens, line, a)
}

/// What is read after an index, which can be deleted.
#[cycle(del)]
#[tactic(auto, using(crate::proofs::UnrollRest::del_index_reads))]
fn del_index(alloc: Global, tokens: &mut Cursor<'_>, line: u32, x: Indexed) -> Result<Made, Stop>
    ensures reads { Reads (reading part.DelIndex (line, x) tokens.old) result tokens.new }
    ensures shrinks { IfOk result (λ _. length tokens.new ≤ length tokens.old) }
{
    if tokens.eat(Sign::Dot) {
        let a = attribute_of(alloc, tokens, node::index(alloc, x)?)?;
        return del_other(alloc, tokens, line, a);
    }
    if tokens.eat(Sign::OpenParen) {
        let a = arguments(alloc, tokens, node::index(alloc, x)?)?;
        return del_other(alloc, tokens, line, a);
    }
    if tokens.eat(Sign::OpenBracket) {
        return del_subscript(alloc, tokens, line, node::index(alloc, x)?);
    }
    made::deleted(line, x)
}

#[cycle(del)]
#[tactic(auto, using(crate::proofs::UnrollRest::del_subscript_reads))]
fn del_subscript(alloc: Global, tokens: &mut Cursor<'_>, line: u32, a: Got) -> Result<Made, Stop>
    ensures reads { Reads (reading part.DelSubscript (line, a) tokens.old) result tokens.new }
    ensures shrinks { IfOk result (λ _. length tokens.new < length tokens.old) }
{
    if tokens.eat(Sign::Colon) {
        let x = node::sliced(alloc, a.tree, a.lines, a.line)?;
        let b = slice_end(alloc, tokens, x)?;
        return del_other(alloc, tokens, line, b);
    }
    let of = Own::new(alloc, a.tree)?;
    let i = expression(alloc, tokens, a.lines)?;
    del_subscript_rest(alloc, tokens, line, of, a.line, i)
}

#[cycle(del)]
#[tactic(auto, using(crate::proofs::UnrollRest::del_subscript_rest_reads))]
fn del_subscript_rest(
    alloc: Global,
    tokens: &mut Cursor<'_>,
    line: u32,
    of: Own<Expr>,
    start: u32,
    i: Got,
) -> Result<Made, Stop>
    ensures reads { Reads (reading part.DelSubscriptRest (line, of, start, i) tokens.old) result tokens.new }
    ensures shrinks { IfOk result (λ _. length tokens.new < length tokens.old) }
{
    if tokens.eat(Sign::CloseBracket) {
        return del_index(
            alloc,
            tokens,
            line,
            node::indexed(of.into_inner(), start, i),
        );
    }
    tokens.expect(Sign::Colon)?;
    let x = node::sliced_from(alloc, of.into_inner(), start, i)?;
    let b = slice_end(alloc, tokens, x)?;
    del_other(alloc, tokens, line, b)
}

#[tactic(auto, using(crate::proofs::UnrollRest::print_reads))]
fn print(alloc: Global, tokens: &mut Cursor<'_>, lines: Seq<u32>) -> Result<Made, Stop>
    ensures reads { Reads (reading part.Print lines tokens.old) result tokens.new }
    ensures shrinks { IfOk result (λ _. length tokens.new < length tokens.old) }
{
    let line = tokens.line();
    tokens.expect_word(Keyword::Print)?;
    print_rest(alloc, tokens, node::no_items(alloc, lines, line))
}

#[tactic(auto, using(crate::proofs::UnrollRest::print_rest_reads, crate::proofs::UnrollRest::print_rest_is))]
fn print_rest(alloc: Global, tokens: &mut Cursor<'_>, items: Listed) -> Result<Made, Stop>
    ensures reads { Reads (reading part.PrintRest items tokens.old) result tokens.new }
    ensures shrinks { IfOk result (λ _. length tokens.new ≤ length tokens.old) }
{
    if begins_expression(tokens.kind()) {
        let first = item(alloc, tokens, items)?;
        let all = prints(alloc, tokens, first)?;
        made::printed(all)
    } else {
        made::printed(items)
    }
}

#[tactic(auto, using(crate::proofs::UnrollRest::prints_is))]
fn prints(alloc: Global, tokens: &mut Cursor<'_>, items: Listed) -> Result<Listed, Stop>
    ensures reads { Reads (reading part.Prints items tokens.old) result tokens.new }
    ensures shrinks { IfOk result (λ _. length tokens.new ≤ length tokens.old) }
{
    let mut items = items;
    while tokens.eat(Sign::Comma) {
        items = item(alloc, tokens, items)?;
    }
    Ok(items)
}

#[tactic(auto, using(crate::proofs::UnrollRest::valued_reads))]
fn valued(alloc: Global, tokens: &mut Cursor<'_>, lines: Seq<u32>) -> Result<Made, Stop>
    ensures reads { Reads (reading part.Valued lines tokens.old) result tokens.new }
    ensures shrinks { IfOk result (λ _. length tokens.new < length tokens.old) }
{
    let a = expressions(alloc, tokens, lines)?;
    valued_rest(alloc, tokens, a)
}

#[tactic(auto, using(crate::proofs::UnrollRest::valued_rest_reads, crate::proofs::UnrollRest::valued_rest_is, crate::proofs::UnrollRest::next_shorter))]
fn valued_rest(alloc: Global, tokens: &mut Cursor<'_>, a: Got) -> Result<Made, Stop>
    ensures reads { Reads (reading part.ValuedRest a tokens.old) result tokens.new }
    ensures shrinks { IfOk result (λ _. length tokens.new ≤ length tokens.old) }
{
    if tokens.sees(Sign::Equal) {
        if a.goal {
            return assign_first(alloc, tokens, a);
        }
        return Err(tokens.refuse());
    }
    let Some(op) = assign_op(tokens.kind()) else {
        return made::evaluated(a);
    };
    if !a.place {
        return Err(tokens.refuse());
    }
    tokens.advance();
    change(alloc, tokens, a, op)
}

/// The value of an assignment such as `+=`.
fn change(alloc: Global, tokens: &mut Cursor<'_>, a: Got, op: BinOp) -> Result<Made, Stop>
    ensures reads { Reads (and_then (reading part.Exprs a.lines tokens.old) (λ b j. Ok (spec.changed (spec.goal_of a.tree) a.line op b, j))) result tokens.new }
    ensures shrinks { IfOk result (λ _. length tokens.new < length tokens.old) }
{
    let target = Own::new(alloc, target_of(alloc, a.tree)?)?;
    let b = expressions(alloc, tokens, a.lines)?;
    made::changed(target.into_inner(), a.line, op, b)
}

#[tactic(auto, using(crate::proofs::UnrollRest::assign_first_reads))]
fn assign_first(alloc: Global, tokens: &mut Cursor<'_>, a: Got) -> Result<Made, Stop>
    ensures reads { Reads (reading part.AssignFirst a tokens.old) result tokens.new }
    ensures shrinks { IfOk result (λ _. length tokens.new < length tokens.old) }
{
    tokens.expect(Sign::Equal)?;
    let aims = made::assigned(alloc, a)?;
    let b = expressions(alloc, tokens, aims.lines)?;
    assigns(alloc, tokens, made::goals(aims.targets, aims.line, b))
}

#[tactic(auto, using(crate::proofs::UnrollRest::assigns_is))]
fn assigns(alloc: Global, tokens: &mut Cursor<'_>, x: Assigned) -> Result<Made, Stop>
    ensures reads { Reads (reading part.Assigns x tokens.old) result tokens.new }
    ensures shrinks { IfOk result (λ _. length tokens.new ≤ length tokens.old) }
{
    let mut x = x;
    while tokens.sees(Sign::Equal) {
        if !x.value.goal {
            return Err(tokens.refuse());
        }
        x = assign(alloc, tokens, x)?;
    }
    made::assignment(x)
}

#[tactic(auto, using(crate::proofs::UnrollRest::assign_reads, crate::proofs::UnrollRest::assign_is))]
fn assign(alloc: Global, tokens: &mut Cursor<'_>, x: Assigned) -> Result<Assigned, Stop>
    ensures reads { Reads (reading part.Assign x tokens.old) result tokens.new }
    ensures shrinks { IfOk result (λ _. length tokens.new < length tokens.old) }
{
    tokens.expect(Sign::Equal)?;
    let aims = made::assigned_too(alloc, x)?;
    let b = expressions(alloc, tokens, aims.lines)?;
    Ok(made::goals(aims.targets, aims.line, b))
}

/// Statements on one line.
#[tactic(auto, using(crate::proofs::UnrollRest::simples_reads))]
pub fn simples(
    alloc: Global,
    tokens: &mut Cursor<'_>,
    place: Place,
    body: Body,
) -> Result<Body, Stop>
    ensures reads { Reads (reading part.Simples (place, body) tokens.old) result tokens.new }
    ensures shrinks { IfOk result (λ _. length tokens.new < length tokens.old) }
{
    let first = one_simple(alloc, tokens, place, body)?;
    simples_rest(alloc, tokens, place, first)
}

#[tactic(auto, using(crate::proofs::UnrollRest::one_simple_reads))]
fn one_simple(
    alloc: Global,
    tokens: &mut Cursor<'_>,
    place: Place,
    body: Body,
) -> Result<Body, Stop>
    ensures reads { Reads (reading part.OneSimple (place, body) tokens.old) result tokens.new }
    ensures shrinks { IfOk result (λ _. length tokens.new < length tokens.old) }
{
    let a = simple(alloc, tokens, place, body.lines)?;
    made::pushed(body.stmts, a)
}

#[tactic(auto, using(crate::proofs::UnrollRest::simples_rest_is, crate::proofs::UnrollRest::simples_more_is, crate::proofs::UnrollRest::simples_is))]
fn simples_rest(
    alloc: Global,
    tokens: &mut Cursor<'_>,
    place: Place,
    body: Body,
) -> Result<Body, Stop>
    ensures reads { Reads (reading part.SimplesRest (place, body) tokens.old) result tokens.new }
    ensures shrinks { IfOk result (λ _. length tokens.new < length tokens.old) }
{
    let mut body = body;
    while tokens.eat(Sign::Semicolon) {
        if tokens.eat_newline() {
            return Ok(body);
        }
        body = one_simple(alloc, tokens, place, body)?;
    }
    tokens.expect_newline()?;
    Ok(body)
}
