// Names with dots, and what `except` names.
ghost use Rattle.std.specs.Prelude.{◌≡◌, ◌<◌, ◌≤◌, [], ◌∷◌, length, IfOk};
ghost use Rattle.rpy_parse.specs.Build as spec;
ghost use Rattle.rpy_parse.specs.Rule.{Reads, and_then};
ghost use Rattle.rpy_parse.specs.Rows.{reading};
ghost use Rattle.rpy_parse.specs.Shapes as part;

use crate::ahead::begins_name;
use crate::cursor::Cursor;
use crate::fault::Stop;
use crate::found::Head;
use rpy_base::{Seq, Text};
use rpy_token::{Keyword, Sign, TokenKind};
use std::alloc::Global;

/// A name with dots in it.
#[tactic(auto, using(crate::proofs::UnrollRest::dotted_reads))]
pub fn dotted(alloc: Global, tokens: &mut Cursor<'_>) -> Result<Seq<Text>, Stop>
    ensures reads { Reads (reading part.Dotted tt tokens.old) result tokens.new }
    ensures shrinks { IfOk result (λ _. length tokens.new < length tokens.old) }
{
    let name = tokens.expect_name()?;
    let mut names = Seq::new(alloc);
    names.push(name.copy(alloc)?)?;
    dots(alloc, tokens, names)
}

#[tactic(auto, using(crate::proofs::UnrollRest::dots_is))]
fn dots(alloc: Global, tokens: &mut Cursor<'_>, names: Seq<Text>) -> Result<Seq<Text>, Stop>
    ensures reads { Reads (reading part.Dots names tokens.old) result tokens.new }
    ensures shrinks { IfOk result (λ _. length tokens.new ≤ length tokens.old) }
{
    let mut names = names;
    while tokens.eat(Sign::Dot) {
        let name = tokens.expect_name()?;
        names.push(name.copy(alloc)?)?;
    }
    Ok(names)
}

/// What stands behind `except`.
#[tactic(auto, using(crate::proofs::UnrollRest::clause_head_reads, crate::proofs::UnrollRest::clause_head_is))]
pub fn clause_head(alloc: Global, tokens: &mut Cursor<'_>) -> Result<Head, Stop>
    ensures reads { Reads (reading part.ClauseHead tt tokens.old) result tokens.new }
    ensures shrinks { IfOk result (λ _. length tokens.new ≤ length tokens.old) }
{
    match tokens.kind() {
        Some(TokenKind::Sign(Sign::OpenParen)) => bracketed_classes(alloc, tokens),
        Some(TokenKind::Name(_)) => one_class(alloc, tokens),
        _ => Ok(bare_head(alloc)),
    }
}

fn bare_head(alloc: Global) -> Head
    ensures { result ≡ spec.bare_head }
{
    Head {
        classes: Seq::new(alloc),
        bare: true,
        bind: None,
    }
}

fn one_class(alloc: Global, tokens: &mut Cursor<'_>) -> Result<Head, Stop>
    ensures reads { Reads (and_then (reading part.Dotted tt tokens.old) (λ c. reading part.Bound (c ∷ []))) result tokens.new }
    ensures shrinks { IfOk result (λ _. length tokens.new < length tokens.old) }
{
    let mut names = Seq::new(alloc);
    names.push(dotted(alloc, tokens)?)?;
    bound(alloc, tokens, names)
}

#[tactic(auto, using(crate::proofs::UnrollRest::bracketed_classes_reads))]
fn bracketed_classes(alloc: Global, tokens: &mut Cursor<'_>) -> Result<Head, Stop>
    ensures reads { Reads (reading part.BracketedClasses tt tokens.old) result tokens.new }
    ensures shrinks { IfOk result (λ _. length tokens.new < length tokens.old) }
{
    tokens.expect(Sign::OpenParen)?;
    let mut first = Seq::new(alloc);
    first.push(dotted(alloc, tokens)?)?;
    let names = classes(alloc, tokens, first)?;
    tokens.expect(Sign::CloseParen)?;
    bound(alloc, tokens, names)
}

#[tactic(auto, using(crate::proofs::UnrollRest::bound_reads, crate::proofs::UnrollRest::bound_is))]
fn bound(alloc: Global, tokens: &mut Cursor<'_>, classes: Seq<Seq<Text>>) -> Result<Head, Stop>
    ensures reads { Reads (reading part.Bound classes tokens.old) result tokens.new }
    ensures shrinks { IfOk result (λ _. length tokens.new ≤ length tokens.old) }
{
    if tokens.eat(Sign::Comma) {
        return bind(alloc, tokens, classes);
    }
    if tokens.eat_word(Keyword::As) {
        return bind(alloc, tokens, classes);
    }
    Ok(Head {
        classes,
        bare: false,
        bind: None,
    })
}

#[tactic(auto, using(crate::proofs::UnrollRest::bind_reads, crate::proofs::UnrollRest::bind_is))]
fn bind(alloc: Global, tokens: &mut Cursor<'_>, classes: Seq<Seq<Text>>) -> Result<Head, Stop>
    ensures reads { Reads (reading part.Bind classes tokens.old) result tokens.new }
    ensures shrinks { IfOk result (λ _. length tokens.new < length tokens.old) }
{
    let name = tokens.expect_name()?;
    Ok(Head {
        classes,
        bare: false,
        bind: Some(name.copy(alloc)?),
    })
}

#[tactic(auto, using(crate::proofs::UnrollRest::classes_is, crate::proofs::UnrollRest::classes_more_is))]
fn classes(
    alloc: Global,
    tokens: &mut Cursor<'_>,
    names: Seq<Seq<Text>>,
) -> Result<Seq<Seq<Text>>, Stop>
    ensures reads { Reads (reading part.Classes names tokens.old) result tokens.new }
    ensures shrinks { IfOk result (λ _. length tokens.new ≤ length tokens.old) }
{
    let mut names = names;
    while tokens.eat(Sign::Comma) {
        if !begins_name(tokens.kind()) {
            return Ok(names);
        }
        names.push(dotted(alloc, tokens)?)?;
    }
    Ok(names)
}
