// What the next token says to a rule of expressions.
ghost use Rattle.std.specs.Prelude.{◌≡◌};
ghost use Rattle.std.specs.Option.{option_copied};
ghost use Rattle.rpy_parse.specs.Ops as spec;

use rpy_token::{Keyword, Sign, TokenKind};
use rpy_tree::{BinOp, CmpOp, UnOp};

/// A comparison that is one token.
pub fn comparison_op(kind: Option<&TokenKind>) -> Option<CmpOp>
    ensures { result ≡ spec.comparison_op (option_copied kind.entry) }
{
    match kind {
        Some(TokenKind::Sign(Sign::Less)) => Some(CmpOp::Lt),
        Some(TokenKind::Sign(Sign::LessEqual)) => Some(CmpOp::Le),
        Some(TokenKind::Sign(Sign::Greater)) => Some(CmpOp::Gt),
        Some(TokenKind::Sign(Sign::GreaterEqual)) => Some(CmpOp::Ge),
        Some(TokenKind::Sign(Sign::EqualEqual)) => Some(CmpOp::Eq),
        Some(TokenKind::Sign(Sign::NotEqual)) => Some(CmpOp::Ne),
        Some(TokenKind::Word(Keyword::In)) => Some(CmpOp::Within),
        _ => None,
    }
}

pub fn shift_op(kind: Option<&TokenKind>) -> Option<BinOp>
    ensures { result ≡ spec.shift_op (option_copied kind.entry) }
{
    match kind {
        Some(TokenKind::Sign(Sign::ShiftLeft)) => Some(BinOp::Shl),
        Some(TokenKind::Sign(Sign::ShiftRight)) => Some(BinOp::Shr),
        _ => None,
    }
}

pub fn sum_op(kind: Option<&TokenKind>) -> Option<BinOp>
    ensures { result ≡ spec.sum_op (option_copied kind.entry) }
{
    match kind {
        Some(TokenKind::Sign(Sign::Plus)) => Some(BinOp::Add),
        Some(TokenKind::Sign(Sign::Minus)) => Some(BinOp::Sub),
        _ => None,
    }
}

pub fn term_op(kind: Option<&TokenKind>) -> Option<BinOp>
    ensures { result ≡ spec.term_op (option_copied kind.entry) }
{
    match kind {
        Some(TokenKind::Sign(Sign::Star)) => Some(BinOp::Mul),
        Some(TokenKind::Sign(Sign::Slash)) => Some(BinOp::Div),
        Some(TokenKind::Sign(Sign::FloorDiv)) => Some(BinOp::FloorDiv),
        Some(TokenKind::Sign(Sign::Percent)) => Some(BinOp::Mod),
        _ => None,
    }
}

/// An operator before its operand.
pub fn sign_op(kind: Option<&TokenKind>) -> Option<UnOp>
    ensures { result ≡ spec.sign_op (option_copied kind.entry) }
{
    match kind {
        Some(TokenKind::Sign(Sign::Minus)) => Some(UnOp::Neg),
        Some(TokenKind::Sign(Sign::Plus)) => Some(UnOp::Pos),
        Some(TokenKind::Sign(Sign::Tilde)) => Some(UnOp::Invert),
        _ => None,
    }
}

pub fn begins_expression(kind: Option<&TokenKind>) -> bool
    ensures { spec.begins_expression (option_copied kind.entry) ≡ result }
{
    match kind {
        Some(TokenKind::Name(_)) => true,
        Some(TokenKind::Int(_)) => true,
        Some(TokenKind::Str(_)) => true,
        Some(TokenKind::Word(Keyword::Not)) => true,
        Some(TokenKind::Sign(Sign::OpenParen)) => true,
        Some(TokenKind::Sign(Sign::OpenBracket)) => true,
        Some(TokenKind::Sign(Sign::OpenBrace)) => true,
        Some(TokenKind::Sign(Sign::Minus)) => true,
        Some(TokenKind::Sign(Sign::Plus)) => true,
        Some(TokenKind::Sign(Sign::Tilde)) => true,
        _ => false,
    }
}

pub fn begins_atom(kind: Option<&TokenKind>) -> bool
    ensures { spec.begins_atom (option_copied kind.entry) ≡ result }
{
    match kind {
        Some(TokenKind::Name(_)) => true,
        Some(TokenKind::Int(_)) => true,
        Some(TokenKind::Str(_)) => true,
        Some(TokenKind::Sign(Sign::OpenParen)) => true,
        Some(TokenKind::Sign(Sign::OpenBracket)) => true,
        Some(TokenKind::Sign(Sign::OpenBrace)) => true,
        _ => false,
    }
}
