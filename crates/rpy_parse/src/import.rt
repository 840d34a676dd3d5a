// Imports.
ghost use Rattle.std.specs.Prelude.{◌≡◌, ◌<◌, ◌≤◌, length, IfOk};
ghost use Rattle.rpy_parse.specs.Rule.{Reads};
ghost use Rattle.rpy_parse.specs.Rows.{reading};
ghost use Rattle.rpy_parse.specs.Shapes as part;

use crate::ahead::begins_name;
use crate::cursor::Cursor;
use crate::fault::Stop;
use crate::found::Grown;
use crate::grown::{from_of, import_of};
use crate::names::dotted;
use rpy_base::{Seq, Text};
use rpy_token::{Keyword, Sign};
use std::alloc::Global;

#[tactic(auto, using(crate::proofs::UnrollRest::import_line_reads))]
pub fn import_line(alloc: Global, tokens: &mut Cursor<'_>, lines: Seq<u32>) -> Result<Grown, Stop>
    ensures reads { Reads (reading part.ImportLine lines tokens.old) result tokens.new }
    ensures shrinks { IfOk result (λ _. length tokens.new < length tokens.old) }
{
    let line = tokens.line();
    tokens.expect_word(Keyword::Import)?;
    let imported = names(alloc, tokens)?;
    tokens.expect_newline()?;
    import_of(lines, line, imported)
}

#[tactic(auto, using(crate::proofs::UnrollRest::names_reads))]
fn names(alloc: Global, tokens: &mut Cursor<'_>) -> Result<Seq<Text>, Stop>
    ensures reads { Reads (reading part.Names tt tokens.old) result tokens.new }
    ensures shrinks { IfOk result (λ _. length tokens.new < length tokens.old) }
{
    let name = tokens.expect_name()?;
    let mut first = Seq::new(alloc);
    first.push(name.copy(alloc)?)?;
    more_names(alloc, tokens, first)
}

#[tactic(auto, using(crate::proofs::UnrollRest::more_names_is))]
fn more_names(alloc: Global, tokens: &mut Cursor<'_>, names: Seq<Text>) -> Result<Seq<Text>, Stop>
    ensures reads { Reads (reading part.MoreNames names tokens.old) result tokens.new }
    ensures shrinks { IfOk result (λ _. length tokens.new ≤ length tokens.old) }
{
    let mut names = names;
    while tokens.eat(Sign::Comma) {
        let name = tokens.expect_name()?;
        names.push(name.copy(alloc)?)?;
    }
    Ok(names)
}

#[tactic(auto, using(crate::proofs::UnrollRest::from_line_reads))]
pub fn from_line(alloc: Global, tokens: &mut Cursor<'_>, lines: Seq<u32>) -> Result<Grown, Stop>
    ensures reads { Reads (reading part.FromLine lines tokens.old) result tokens.new }
    ensures shrinks { IfOk result (λ _. length tokens.new < length tokens.old) }
{
    let line = tokens.line();
    tokens.expect_word(Keyword::From)?;
    let path = dotted(alloc, tokens)?;
    from_names(alloc, tokens, lines, line, path)
}

#[tactic(auto, using(crate::proofs::UnrollRest::from_names_reads))]
fn from_names(
    alloc: Global,
    tokens: &mut Cursor<'_>,
    lines: Seq<u32>,
    line: u32,
    path: Seq<Text>,
) -> Result<Grown, Stop>
    ensures reads { Reads (reading part.FromNames (lines, line, path) tokens.old) result tokens.new }
    ensures shrinks { IfOk result (λ _. length tokens.new < length tokens.old) }
{
    tokens.expect_word(Keyword::Import)?;
    let imported = imported(alloc, tokens)?;
    tokens.expect_newline()?;
    from_of(lines, line, path, imported)
}

#[tactic(auto, using(crate::proofs::UnrollRest::imported_reads, crate::proofs::UnrollRest::imported_is))]
fn imported(alloc: Global, tokens: &mut Cursor<'_>) -> Result<Seq<Text>, Stop>
    ensures reads { Reads (reading part.Imported tt tokens.old) result tokens.new }
    ensures shrinks { IfOk result (λ _. length tokens.new < length tokens.old) }
{
    if !tokens.eat(Sign::OpenParen) {
        return names(alloc, tokens);
    }
    let name = tokens.expect_name()?;
    let mut first = Seq::new(alloc);
    first.push(name.copy(alloc)?)?;
    let all = bracketed_names(alloc, tokens, first)?;
    tokens.expect(Sign::CloseParen)?;
    Ok(all)
}

#[tactic(auto, using(crate::proofs::UnrollRest::bracketed_names_is, crate::proofs::UnrollRest::bracketed_more_is))]
fn bracketed_names(
    alloc: Global,
    tokens: &mut Cursor<'_>,
    names: Seq<Text>,
) -> Result<Seq<Text>, Stop>
    ensures reads { Reads (reading part.BracketedNames names tokens.old) result tokens.new }
    ensures shrinks { IfOk result (λ _. length tokens.new ≤ length tokens.old) }
{
    let mut names = names;
    while tokens.eat(Sign::Comma) {
        if !begins_name(tokens.kind()) {
            return Ok(names);
        }
        let name = tokens.expect_name()?;
        names.push(name.copy(alloc)?)?;
    }
    Ok(names)
}
