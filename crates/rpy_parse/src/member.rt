// Members of modules and classes.
ghost use Rattle.std.specs.Prelude.{◌≡◌, ◌<◌, ◌≤◌, length, IfOk};
ghost use Rattle.rpy_parse.specs.Rule.{Reads};
ghost use Rattle.rpy_parse.specs.Rows.{reading};
ghost use Rattle.rpy_parse.specs.Shapes as part;

use crate::ahead::{begins_common, begins_member, begins_name};
use crate::cursor::Cursor;
use crate::expression::expression;
use crate::fault::Stop;
use crate::found::{Grown, Members, Numbered};
use crate::function::def_text;
use crate::grown::{class_of, constant_of, member_pushed, module_of, no_members};
use crate::import::{from_line, import_line};
use crate::names::dotted;
use crate::node::numbered;
use crate::simple::strings_alone;
use crate::skip::main;
use rpy_base::{Seq, Text};
use rpy_token::{Keyword, Sign, TokenKind};
use rpy_tree::Module;
use std::alloc::Global;

#[tactic(auto, using(crate::proofs::UnrollRest::whole_reads))]
pub fn whole(alloc: Global, tokens: &mut Cursor<'_>) -> Result<Module, Stop>
    ensures reads { Reads (reading part.Whole tt tokens.old) result tokens.new }
    ensures shrinks { IfOk result (λ _. length tokens.new < length tokens.old) }
{
    let none = no_members(alloc, Seq::new(alloc));
    let all = member_list(alloc, tokens, none)?;
    module_of(all)
}

#[tactic(auto, using(crate::proofs::UnrollRest::member_list_is))]
fn member_list(alloc: Global, tokens: &mut Cursor<'_>, x: Members) -> Result<Members, Stop>
    ensures reads { Reads (reading part.MemberList x tokens.old) result tokens.new }
    ensures shrinks { IfOk result (λ _. length tokens.new < length tokens.old) }
{
    let mut x = x;
    while !tokens.eat_end() {
        x = one_member(alloc, tokens, x)?;
    }
    Ok(x)
}

#[tactic(auto, using(crate::proofs::UnrollRest::one_member_reads, crate::proofs::UnrollRest::one_member_is))]
fn one_member(alloc: Global, tokens: &mut Cursor<'_>, x: Members) -> Result<Members, Stop>
    ensures reads { Reads (reading part.OneMember x tokens.old) result tokens.new }
    ensures shrinks { IfOk result (λ _. length tokens.new < length tokens.old) }
{
    if begins_member(tokens.kind()) {
        let next = module_member(alloc, tokens, x.lines)?;
        return member_pushed(x.members, next);
    }
    if tokens.sees_word(Keyword::If) {
        main(alloc, tokens)?;
        return Ok(x);
    }
    no_member(alloc, tokens, x)
}

#[tactic(auto, using(crate::proofs::UnrollRest::module_member_reads, crate::proofs::UnrollRest::module_member_is))]
fn module_member(alloc: Global, tokens: &mut Cursor<'_>, lines: Seq<u32>) -> Result<Grown, Stop>
    ensures reads { Reads (reading part.ModuleMember lines tokens.old) result tokens.new }
    ensures shrinks { IfOk result (λ _. length tokens.new < length tokens.old) }
{
    match tokens.kind() {
        Some(TokenKind::Word(Keyword::Import)) => import_line(alloc, tokens, lines),
        Some(TokenKind::Word(Keyword::From)) => from_line(alloc, tokens, lines),
        Some(TokenKind::Word(Keyword::Class)) => class_text(alloc, tokens, lines),
        _ => common_member(alloc, tokens, lines),
    }
}

#[tactic(auto, using(crate::proofs::UnrollRest::class_member_reads, crate::proofs::UnrollRest::class_member_is))]
fn class_member(alloc: Global, tokens: &mut Cursor<'_>, x: Members) -> Result<Members, Stop>
    ensures reads { Reads (reading part.ClassMember x tokens.old) result tokens.new }
    ensures shrinks { IfOk result (λ _. length tokens.new < length tokens.old) }
{
    if !begins_common(tokens.kind()) {
        return no_member(alloc, tokens, x);
    }
    let next = common_member(alloc, tokens, x.lines)?;
    member_pushed(x.members, next)
}

#[tactic(auto, using(crate::proofs::UnrollRest::common_member_reads, crate::proofs::UnrollRest::common_member_is))]
fn common_member(alloc: Global, tokens: &mut Cursor<'_>, lines: Seq<u32>) -> Result<Grown, Stop>
    ensures reads { Reads (reading part.CommonMember lines tokens.old) result tokens.new }
    ensures shrinks { IfOk result (λ _. length tokens.new < length tokens.old) }
{
    if tokens.sees_word(Keyword::Def) {
        def_text(alloc, tokens, lines)
    } else {
        constant(alloc, tokens, lines)
    }
}

/// What is in no tree: `pass`, and strings alone.
#[tactic(auto, using(crate::proofs::UnrollRest::no_member_reads, crate::proofs::UnrollRest::no_member_is))]
fn no_member(alloc: Global, tokens: &mut Cursor<'_>, x: Members) -> Result<Members, Stop>
    ensures reads { Reads (reading part.NoMember x tokens.old) result tokens.new }
    ensures shrinks { IfOk result (λ _. length tokens.new < length tokens.old) }
{
    if tokens.eat_word(Keyword::Pass) {
        tokens.expect_newline()?;
        return Ok(x);
    }
    strings_alone(alloc, tokens)?;
    tokens.expect_newline()?;
    Ok(x)
}

#[tactic(auto, using(crate::proofs::UnrollRest::constant_reads))]
fn constant(alloc: Global, tokens: &mut Cursor<'_>, lines: Seq<u32>) -> Result<Grown, Stop>
    ensures reads { Reads (reading part.Constant lines tokens.old) result tokens.new }
    ensures shrinks { IfOk result (λ _. length tokens.new < length tokens.old) }
{
    let line = tokens.line();
    let name = tokens.expect_name()?;
    tokens.expect(Sign::Equal)?;
    let value = expression(alloc, tokens, lines)?;
    tokens.expect_newline()?;
    constant_of(line, name.copy(alloc)?, value)
}

#[tactic(auto, using(crate::proofs::UnrollRest::class_text_reads))]
fn class_text(alloc: Global, tokens: &mut Cursor<'_>, lines: Seq<u32>) -> Result<Grown, Stop>
    ensures reads { Reads (reading part.ClassText lines tokens.old) result tokens.new }
    ensures shrinks { IfOk result (λ _. length tokens.new < length tokens.old) }
{
    let line = tokens.line();
    tokens.expect_word(Keyword::Class)?;
    let name = tokens.expect_name()?;
    let new = numbered(lines, line)?;
    class_rest(alloc, tokens, new, name.copy(alloc)?)
}

#[tactic(auto, using(crate::proofs::UnrollRest::class_rest_reads))]
fn class_rest(
    alloc: Global,
    tokens: &mut Cursor<'_>,
    new: Numbered,
    name: Text,
) -> Result<Grown, Stop>
    ensures reads { Reads (reading part.ClassRest (new, name) tokens.old) result tokens.new }
    ensures shrinks { IfOk result (λ _. length tokens.new < length tokens.old) }
{
    let base = base(alloc, tokens)?;
    class_body(alloc, tokens, new, name, base)
}

#[tactic(auto, using(crate::proofs::UnrollRest::class_body_reads, crate::proofs::UnrollRest::class_body_is))]
fn class_body(
    alloc: Global,
    tokens: &mut Cursor<'_>,
    new: Numbered,
    name: Text,
    base: Seq<Text>,
) -> Result<Grown, Stop>
    ensures reads { Reads (reading part.ClassBody (new, name, base) tokens.old) result tokens.new }
    ensures shrinks { IfOk result (λ _. length tokens.new < length tokens.old) }
{
    tokens.expect(Sign::Colon)?;
    let own = class_block(alloc, tokens, no_members(alloc, new.lines))?;
    Ok(class_of(new.node, name, base, own))
}

#[tactic(auto, using(crate::proofs::UnrollRest::base_reads, crate::proofs::UnrollRest::base_is))]
fn base(alloc: Global, tokens: &mut Cursor<'_>) -> Result<Seq<Text>, Stop>
    ensures reads { Reads (reading part.Base tt tokens.old) result tokens.new }
    ensures shrinks { IfOk result (λ _. length tokens.new ≤ length tokens.old) }
{
    if !tokens.eat(Sign::OpenParen) {
        return Ok(Seq::new(alloc));
    }
    let name = base_name(alloc, tokens)?;
    tokens.expect(Sign::CloseParen)?;
    Ok(name)
}

#[tactic(auto, using(crate::proofs::UnrollRest::base_name_reads, crate::proofs::UnrollRest::base_name_is))]
fn base_name(alloc: Global, tokens: &mut Cursor<'_>) -> Result<Seq<Text>, Stop>
    ensures reads { Reads (reading part.BaseName tt tokens.old) result tokens.new }
    ensures shrinks { IfOk result (λ _. length tokens.new ≤ length tokens.old) }
{
    if begins_name(tokens.kind()) {
        dotted(alloc, tokens)
    } else {
        Ok(Seq::new(alloc))
    }
}

#[tactic(auto, using(crate::proofs::UnrollRest::class_block_reads, crate::proofs::UnrollRest::class_block_is))]
fn class_block(alloc: Global, tokens: &mut Cursor<'_>, x: Members) -> Result<Members, Stop>
    ensures reads { Reads (reading part.ClassBlock x tokens.old) result tokens.new }
    ensures shrinks { IfOk result (λ _. length tokens.new < length tokens.old) }
{
    if tokens.eat_word(Keyword::Pass) {
        tokens.expect_newline()?;
        return Ok(x);
    }
    tokens.expect_newline()?;
    tokens.expect_indent()?;
    let first = class_member(alloc, tokens, x)?;
    class_members(alloc, tokens, first)
}

#[tactic(auto, using(crate::proofs::UnrollRest::class_members_is))]
fn class_members(alloc: Global, tokens: &mut Cursor<'_>, x: Members) -> Result<Members, Stop>
    ensures reads { Reads (reading part.ClassMembers x tokens.old) result tokens.new }
    ensures shrinks { IfOk result (λ _. length tokens.new < length tokens.old) }
{
    let mut x = x;
    while !tokens.eat_dedent() {
        x = class_member(alloc, tokens, x)?;
    }
    Ok(x)
}
