// The module of a source, or why there is none.
ghost use Rattle.std.specs.Prelude.{◌≡◌, ◌≤◌, ◌++◌, length, slice_get, IfOk};
ghost use Rattle.rpy_token.specs.Relation.{IsTokens};
ghost use Rattle.rpy_first.specs.Source as spec;
ghost use Rattle.rpy_first.specs.Source.{ReadsModule};

use crate::fault::{SourceKind, TranslateFault};
use rpy_base::{NoMem, Text, udecimal};
use rpy_parse::{ParseFault, parse};
use rpy_token::{LimitKind, TokenFault, Tokens, line_of, tokens};
use rpy_tree::Module;
use std::alloc::Global;

fn words_of(kind: SourceKind) -> &'static [u8]
    ensures { result.now ≡ spec.words_of kind }
{
    match kind {
        SourceKind::BadByte => b"bad byte".as_slice(),
        SourceKind::BadIndent => b"bad indent".as_slice(),
        SourceKind::OpenString => b"open string".as_slice(),
        SourceKind::BadNumber => b"bad number".as_slice(),
        SourceKind::LimitBrackets => b"limit brackets".as_slice(),
        SourceKind::LimitBlocks => b"limit blocks".as_slice(),
        SourceKind::LimitOperators => b"limit operators".as_slice(),
        SourceKind::Syntax => b"syntax".as_slice(),
    }
}

/// A line that tells where something is wrong.
pub fn line_at(alloc: Global, file: &[u8], line: u32, words: &[u8]) -> Result<Text, NoMem>
    ensures { IfOk result (λ text. text ≡ spec.line_at file.now line words.now) }
{
    let mut text = Text::from_bytes(alloc, file)?;
    text.append(b":")?;
    text.append(udecimal(alloc, u64::from(line))?.bytes())?;
    text.append(b": ")?;
    text.append(words)?;
    text.append(b"\n")?;
    Ok(text)
}

/// What is said of a file that is refused.
pub fn refusal(alloc: Global, file: &[u8], line: u32, kind: SourceKind) -> Result<Text, NoMem>
    ensures { IfOk result (λ text. text ≡ spec.refusal file.now line kind) }
{
    line_at(alloc, file, line, words_of(kind))
}

fn limit_kind(limit: LimitKind) -> SourceKind
    ensures { result ≡ spec.limit_kind limit }
{
    match limit {
        LimitKind::Brackets => SourceKind::LimitBrackets,
        LimitKind::Blocks => SourceKind::LimitBlocks,
        LimitKind::Operators => SourceKind::LimitOperators,
    }
}

// The fault of a source that has no tokens.
fn refused(source: &Text, fault: TokenFault) -> TranslateFault
    requires { length source.now ≤ 1048576 }
    ensures { result ≡ spec.refused_at source.now (spec.cause fault) }
{
    let (kind, at) = match fault {
        TokenFault::BadByte(at) => (SourceKind::BadByte, at),
        TokenFault::BadIndent(at) => (SourceKind::BadIndent, at),
        TokenFault::OpenString(at) => (SourceKind::OpenString, at),
        TokenFault::BadNumber(at) => (SourceKind::BadNumber, at),
        TokenFault::Limit(limit, at) => (limit_kind(limit), at),
        TokenFault::NoMem => return TranslateFault::NoMem,
    };
    TranslateFault::Source(0, line_of(source, at), kind)
}

// The line of a token, or of the end of the source.
fn token_line(source: &Text, list: &Tokens, at: u32) -> u32
    requires { length source.now ≤ 1048576 }
    ensures { result ≡ spec.token_line source.now (slice_get list.now at) }
{
    match list.as_slice().get(at as usize) {
        Some(token) => token.line,
        None => line_of(source, source.bytes().len() as u32),
    }
}

/// The module that a source is.
pub fn read_module(alloc: Global, source: &Text) -> Result<Module, TranslateFault>
    requires { length source.now ≤ 1048576 }
    ensures { ReadsModule source.now result }
{
    match tokens(alloc, source) {
        Ok(list) => parse_module(alloc, source, &list),
        Err(fault) => Err(refused(source, fault)),
    }
}

fn parse_module(alloc: Global, source: &Text, list: &Tokens) -> Result<Module, TranslateFault>
    requires short { length source.now ≤ 1048576 }
    requires tokens { IsTokens source.now list.now }
    ensures { ReadsModule source.now result }
{
    match parse(alloc, list) {
        Ok(tree) => Ok(tree),
        Err(ParseFault::Syntax(at)) => {
            let line = token_line(source, list, at);
            Err(TranslateFault::Source(0, line, SourceKind::Syntax))
        }
        Err(ParseFault::NoMem) => Err(TranslateFault::NoMem),
    }
}
