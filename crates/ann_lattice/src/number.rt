// Numbers: literals, arithmetic and conversions.
ghost use Rattle.std.specs.Prelude.{◌≡◌, false};
ghost use Rattle.ann_lattice.specs.Shape.{Num, Str, One, shape};
ghost use Rattle.ann_lattice.specs.Kind as kind;
ghost use Rattle.ann_lattice.specs.Row as spec;

use crate::kind::{conflict, is_bool, is_char, is_int, is_positive, positive_if};
use ann_element::Element;
use rpy_tree::{BinOp, UnOp};

/// A word that is known.
pub fn word_row(word: i64) -> Element
    ensures { shape result ≡ spec.word word }
{
    positive_if(word >= 0)
}

/// A string of so many bytes that is known.
pub fn text_row(length: usize) -> Element
    ensures { shape result ≡ spec.text length }
{
    if length == 1 {
        Element::Char
    } else {
        Element::Str
    }
}

/// An operation on two integers.
pub fn number_row(op: BinOp, a: &Element, b: &Element) -> Element
    ensures { shape result ≡ spec.number op (shape a.now) (shape b.now) }
{
    match op {
        BinOp::Add => positive_if(is_positive(a) && is_positive(b)),
        BinOp::Mul => positive_if(is_positive(a) && is_positive(b)),
        BinOp::Div => positive_if(is_positive(a) && is_positive(b)),
        BinOp::FloorDiv => positive_if(is_positive(a) && is_positive(b)),
        BinOp::BitOr => positive_if(is_positive(a) && is_positive(b)),
        BinOp::BitXor => positive_if(is_positive(a) && is_positive(b)),
        BinOp::Mod => positive_if(is_positive(b)),
        BinOp::BitAnd => positive_if(is_positive(a) || is_positive(b)),
        BinOp::Shr => positive_if(is_positive(a)),
        BinOp::Sub => Element::Int,
        BinOp::Shl => Element::Int,
    }
}

/// Whether both are integers.
pub fn both_int(a: &Element, b: &Element) -> bool
    ensures { result ≡ spec.both_int (shape a.now) (shape b.now) }
{
    is_int(a) && is_int(b)
}

/// `-`, `~` and `+` of one integer.
pub fn unary_row(op: UnOp, a: &Element) -> Element
    ensures { shape result ≡ spec.unary op (shape a.now) }
{
    if !is_int(a) {
        return conflict();
    }
    match op {
        UnOp::Neg => Element::Int,
        UnOp::Invert => Element::Int,
        UnOp::Pos => positive_if(is_positive(a)),
    }
}

// The operations that `ovfcheck` takes.
fn can_be_checked(op: BinOp) -> bool
    ensures { result ≡ spec.can_be_checked op }
{
    match op {
        BinOp::Add => true,
        BinOp::Sub => true,
        BinOp::Mul => true,
        BinOp::Div => true,
        BinOp::FloorDiv => true,
        BinOp::Mod => true,
        BinOp::Shl => true,
        _ => false,
    }
}

/// `ovfcheck` of an operation on two integers.
pub fn checked_row(op: BinOp, a: &Element, b: &Element) -> Element
    ensures { shape result ≡ spec.checked op (shape a.now) (shape b.now) }
{
    if both_int(a, b) && can_be_checked(op) {
        number_row(op, a, b)
    } else {
        conflict()
    }
}

/// `intmask`.
pub fn intmask_row(a: &Element) -> Element
    ensures { shape result ≡ spec.intmask (shape a.now) }
{
    if is_int(a) {
        positive_if(is_positive(a))
    } else {
        conflict()
    }
}

/// `min` of two integers.
pub fn min_row(a: &Element, b: &Element) -> Element
    ensures { shape result ≡ spec.min_of (shape a.now) (shape b.now) }
{
    if both_int(a, b) {
        positive_if(is_positive(a) && is_positive(b))
    } else {
        conflict()
    }
}

/// `max` of two integers.
pub fn max_row(a: &Element, b: &Element) -> Element
    ensures { shape result ≡ spec.max_of (shape a.now) (shape b.now) }
{
    if both_int(a, b) {
        positive_if(is_positive(a) || is_positive(b))
    } else {
        conflict()
    }
}

/// `int` of an integer, a truth value or a string.
pub fn to_int_row(a: &Element) -> Element
    ensures { shape result ≡ spec.to_int (shape a.now) }
{
    match a {
        Element::IntPos => Element::IntPos,
        Element::KnownTrue => Element::IntPos,
        Element::KnownFalse => Element::IntPos,
        Element::Bool => Element::IntPos,
        Element::Int => Element::Int,
        Element::Char => Element::Int,
        Element::Str => Element::Int,
        _ => conflict(),
    }
}

/// `str` of an integer, a truth value or a string.
pub fn to_str_row(a: &Element) -> Element
    ensures { shape result ≡ spec.to_str (shape a.now) }
{
    match a {
        Element::Char => Element::Char,
        Element::Str => Element::Str,
        _ => {
            if is_int(a) || is_bool(a) {
                Element::Str
            } else {
                conflict()
            }
        }
    }
}

/// `chr`.
pub fn chr_row(a: &Element) -> Element
    ensures { shape result ≡ kind.given (kind.is_int (shape a.now)) (Str One) }
{
    if is_int(a) { Element::Char } else { conflict() }
}

/// `ord`.
pub fn ord_row(a: &Element) -> Element
    ensures { shape result ≡ kind.given (kind.is_char (shape a.now)) (Num false) }
{
    if is_char(a) {
        Element::IntPos
    } else {
        conflict()
    }
}
