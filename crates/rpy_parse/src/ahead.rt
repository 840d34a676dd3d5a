// What the next token says.
ghost use Rattle.std.specs.Prelude.{◌≡◌};
ghost use Rattle.std.specs.Option.{option_copied};
ghost use Rattle.rpy_parse.specs.Ops as ops;

use rpy_token::{Keyword, Sign, TokenKind};
use rpy_tree::BinOp;

/// The operator of an assignment such as `+=`.
pub fn assign_op(kind: Option<&TokenKind>) -> Option<BinOp>
    ensures { result ≡ ops.assign_op (option_copied kind.entry) }
{
    match kind {
        Some(TokenKind::Sign(Sign::AddAssign)) => Some(BinOp::Add),
        Some(TokenKind::Sign(Sign::SubAssign)) => Some(BinOp::Sub),
        Some(TokenKind::Sign(Sign::MulAssign)) => Some(BinOp::Mul),
        Some(TokenKind::Sign(Sign::DivAssign)) => Some(BinOp::Div),
        Some(TokenKind::Sign(Sign::FloorDivAssign)) => Some(BinOp::FloorDiv),
        Some(TokenKind::Sign(Sign::ModAssign)) => Some(BinOp::Mod),
        Some(TokenKind::Sign(Sign::ShlAssign)) => Some(BinOp::Shl),
        Some(TokenKind::Sign(Sign::ShrAssign)) => Some(BinOp::Shr),
        Some(TokenKind::Sign(Sign::AndAssign)) => Some(BinOp::BitAnd),
        Some(TokenKind::Sign(Sign::OrAssign)) => Some(BinOp::BitOr),
        Some(TokenKind::Sign(Sign::XorAssign)) => Some(BinOp::BitXor),
        _ => None,
    }
}

/// Whether an expression may begin here.
pub fn begins_expression(kind: Option<&TokenKind>) -> bool
    ensures { result ≡ ops.begins_expression (option_copied kind.entry) }
{
    match kind {
        Some(TokenKind::Name(_)) => true,
        Some(TokenKind::Int(_)) => true,
        Some(TokenKind::Str(_)) => true,
        Some(TokenKind::Word(Keyword::Not)) => true,
        Some(TokenKind::Sign(Sign::OpenParen)) => true,
        Some(TokenKind::Sign(Sign::OpenBracket)) => true,
        Some(TokenKind::Sign(Sign::OpenBrace)) => true,
        Some(TokenKind::Sign(Sign::Minus)) => true,
        Some(TokenKind::Sign(Sign::Plus)) => true,
        Some(TokenKind::Sign(Sign::Tilde)) => true,
        _ => false,
    }
}

pub fn begins_name(kind: Option<&TokenKind>) -> bool
    ensures { result ≡ ops.begins_name (option_copied kind.entry) }
{
    match kind {
        Some(TokenKind::Name(_)) => true,
        _ => false,
    }
}

/// Whether a statement with blocks begins here.
pub fn begins_compound(kind: Option<&TokenKind>) -> bool
    ensures { result ≡ ops.begins_compound (option_copied kind.entry) }
{
    match kind {
        Some(TokenKind::Word(Keyword::If)) => true,
        Some(TokenKind::Word(Keyword::While)) => true,
        Some(TokenKind::Word(Keyword::For)) => true,
        Some(TokenKind::Word(Keyword::Try)) => true,
        _ => false,
    }
}

/// Whether a member of a module begins here that is in its tree.
pub fn begins_member(kind: Option<&TokenKind>) -> bool
    ensures { result ≡ ops.begins_member (option_copied kind.entry) }
{
    match kind {
        Some(TokenKind::Word(Keyword::Import)) => true,
        Some(TokenKind::Word(Keyword::From)) => true,
        Some(TokenKind::Word(Keyword::Class)) => true,
        Some(TokenKind::Word(Keyword::Def)) => true,
        Some(TokenKind::Name(_)) => true,
        _ => false,
    }
}

/// Whether a member of a class begins here that is in its tree.
pub fn begins_common(kind: Option<&TokenKind>) -> bool
    ensures { result ≡ ops.begins_common (option_copied kind.entry) }
{
    match kind {
        Some(TokenKind::Word(Keyword::Def)) => true,
        Some(TokenKind::Name(_)) => true,
        _ => false,
    }
}
