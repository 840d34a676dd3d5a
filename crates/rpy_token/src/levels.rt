// Brackets, and the operators between two separators.
ghost use Rattle.std.specs.Prelude.{◌≡◌, Ok};
ghost use Rattle.rpy_token.specs.Levels as spec;
ghost use Rattle.rpy_token.specs.Fault.{Moves};

use crate::stack::Stack;
use crate::token::{Keyword, Sign};
use crate::{LimitKind, TokenFault, TokenKind};

/// How many brackets may be open at one place.
const MAX_BRACKETS: usize = 16;
/// How many operators may stand at one level between two separators.
const MAX_OPERATORS: u32 = 64;

/// What a token is to the limits.
#[derive(Clone, Copy, Debug, PartialEq, Eq)]
pub enum Role {
    Operator,
    Open,
    Close,
    Separator,
    Plain,
}

/// The operators since the last separator, in the innermost bracket and in the levels around it.
#[derive(Drop)]
pub struct Levels {
    pub operators: u32,
    pub outer: Stack,
}

fn role_of_sign(sign: Sign) -> Role
    ensures { result ≡ spec.role_of_sign sign }
{
    match sign {
        Sign::OpenParen | Sign::OpenBracket | Sign::OpenBrace => Role::Open,
        Sign::CloseParen | Sign::CloseBracket | Sign::CloseBrace => Role::Close,
        Sign::Comma | Sign::Colon | Sign::Semicolon | Sign::Equal => Role::Separator,
        Sign::AddAssign | Sign::SubAssign | Sign::MulAssign | Sign::DivAssign => Role::Separator,
        Sign::FloorDivAssign | Sign::ModAssign | Sign::AndAssign => Role::Separator,
        Sign::OrAssign | Sign::XorAssign | Sign::ShlAssign | Sign::ShrAssign => Role::Separator,
        Sign::At => Role::Plain,
        _ => Role::Operator,
    }
}

fn role_of_word(word: Keyword) -> Role
    ensures { result ≡ spec.role_of_word word }
{
    match word {
        Keyword::And | Keyword::Or | Keyword::Not | Keyword::In | Keyword::Is => Role::Operator,
        _ => Role::Plain,
    }
}

pub fn role_of(kind: &TokenKind) -> Role
    ensures { result ≡ spec.role_of kind.now }
{
    match kind {
        TokenKind::Sign(sign) => role_of_sign(*sign),
        TokenKind::Word(word) => role_of_word(*word),
        TokenKind::Newline => Role::Separator,
        _ => Role::Plain,
    }
}

fn with_operator(at: u32, levels: &mut Levels) -> Result<(), TokenFault>
    ensures { Moves (spec.with_operator at levels.old) result levels.new }
{
    if levels.operators < MAX_OPERATORS {
        levels.operators += 1;
        Ok(())
    } else {
        Err(TokenFault::Limit(LimitKind::Operators, at))
    }
}

fn open(levels: &mut Levels) -> Result<(), TokenFault>
    ensures { Moves (Ok (spec.opened levels.old)) result levels.new }
{
    levels.outer.push(levels.operators)?;
    levels.operators = 0;
    Ok(())
}

fn close(levels: &mut Levels)
    ensures { levels.new ≡ spec.closed levels.old }
{
    if let Some(operators) = levels.outer.pop() {
        levels.operators = operators;
    }
}

/// Counts a token of a role at a place.
#[tactic(auto, unfolding(crate::specs::Levels::counted))]
pub fn count(at: u32, role: Role, levels: &mut Levels) -> Result<(), TokenFault>
    ensures { Moves (spec.counted at role levels.old) result levels.new }
{
    match role {
        Role::Operator => with_operator(at, levels),
        Role::Open => {
            if levels.outer.len() >= MAX_BRACKETS {
                return Err(TokenFault::Limit(LimitKind::Brackets, at));
            }
            with_operator(at, levels)?;
            open(levels)
        }
        Role::Close => {
            close(levels);
            Ok(())
        }
        Role::Separator => {
            levels.operators = 0;
            Ok(())
        }
        Role::Plain => Ok(()),
    }
}
