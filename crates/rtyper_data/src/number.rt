// Operations on words, truth values and bytes.
ghost use Rattle.std.specs.Prelude.{◌≡◌, IfOk, OnOk};
ghost use Rattle.rtyper_data.specs.Numbers as spec;
ghost use Rattle.rtyper_data.specs.Seen.{the_around, the_operand, the_operands, the_place, writing, Leaves, Gives, Writes, Asks};

use crate::body::{Around, Body, Operand, Place};
use crate::convert::{by_small, give, give_helped, given, land, landing};
use crate::found::Found;
use crate::small::Small;
use csub_tree::{CBinary, CConst, COperand, CUnary};
use ll_build::Helper;
use ll_code::{LlOp, LlType};
use rpy_base::NoMem;
use rpy_tree::{BinOp, UnOp};
use rtyper_layout::{Kind, kind_seen};
use std::alloc::Global;

pub fn word(n: i64) -> COperand
    ensures { result ≡ spec.word n }
{
    COperand::Const(CConst::Word(n))
}

/// The place takes the result of an operation on one operand.
#[tactic(auto, unfolding(crate::specs::Numbers::give_unary))]
pub fn give_unary(
    alloc: Global,
    around: Around<'_>,
    place: Place<'_>,
    op: CUnary,
    gives: LlType,
    x: COperand,
    found: &mut Found,
    body: &mut Body,
) -> Result<(), NoMem>
    ensures { OnOk result (Leaves (spec.give_unary (the_around around.entry) (the_place place.entry) op gives x (writing found.old body.old)) found.new body.new) }
{
    let v = landing(around, place, gives, body)?;
    body.ops.push(LlOp::Unary(v, op, x))?;
    land(alloc, around, place, v, gives, found, body)
}

/// The place takes the result of an operation on two operands.
#[tactic(auto, unfolding(crate::specs::Numbers::give_binary))]
pub fn give_binary(
    alloc: Global,
    around: Around<'_>,
    place: Place<'_>,
    op: CBinary,
    gives: LlType,
    x: COperand,
    y: COperand,
    found: &mut Found,
    body: &mut Body,
) -> Result<(), NoMem>
    ensures { OnOk result (Leaves (spec.give_binary (the_around around.entry) (the_place place.entry) op gives x y (writing found.old body.old)) found.new body.new) }
{
    let v = landing(around, place, gives, body)?;
    body.ops.push(LlOp::Binary(v, op, x, y))?;
    land(alloc, around, place, v, gives, found, body)
}

/// An operation on one word.
#[tactic(auto, unfolding(crate::specs::Numbers::unary_of))]
pub fn push_unary(
    alloc: Global,
    around: Around<'_>,
    place: Place<'_>,
    op: UnOp,
    a: Operand<'_>,
    found: &mut Found,
    body: &mut Body,
) -> Result<(), NoMem>
    ensures { OnOk result (Leaves (spec.unary_of (the_around around.entry) (the_place place.entry) op (the_operand a.entry) (writing found.old body.old)) found.new body.new) }
{
    let word = LlType::Signed;
    match op {
        UnOp::Neg => give_unary(alloc, around, place, CUnary::Neg, word, a.x, found, body),
        UnOp::Pos => give(alloc, around, place, a.x, word, found, body),
        UnOp::Invert => give_unary(alloc, around, place, CUnary::Inv, word, a.x, found, body),
    }
}

// What is one operation, and what is a helper since it tests something.
fn plain(op: BinOp) -> Option<CBinary>
    ensures { result ≡ spec.plain op }
{
    match op {
        BinOp::Add => Some(CBinary::Add),
        BinOp::Sub => Some(CBinary::Sub),
        BinOp::Mul => Some(CBinary::Mul),
        BinOp::BitAnd => Some(CBinary::And),
        BinOp::BitOr => Some(CBinary::Or),
        BinOp::BitXor => Some(CBinary::Xor),
        BinOp::Div | BinOp::FloorDiv | BinOp::Mod | BinOp::Shl | BinOp::Shr => None,
    }
}

fn tested(op: BinOp) -> Helper
    ensures { result ≡ spec.tested op }
{
    match op {
        BinOp::Mod => Helper::WordMod,
        BinOp::Shl => Helper::WordShl,
        BinOp::Shr => Helper::WordShr,
        _ => Helper::WordDiv,
    }
}

/// An operation on two words.
#[tactic(auto, unfolding(crate::specs::Numbers::binary_of))]
pub fn push_binary(
    alloc: Global,
    around: Around<'_>,
    place: Place<'_>,
    op: BinOp,
    x: COperand,
    y: COperand,
    found: &mut Found,
    body: &mut Body,
) -> Result<(), NoMem>
    ensures { OnOk result (Leaves (spec.binary_of (the_around around.entry) (the_place place.entry) op x y (writing found.old body.old)) found.new body.new) }
{
    let word = LlType::Signed;
    match plain(op) {
        Some(of) => give_binary(alloc, around, place, of, word, x, y, found, body),
        None => give_helped(alloc, around, place, tested(op), word, [x, y], found, body),
    }
}

/// `int` of a word, a truth value or a string.
#[tactic(auto, unfolding(crate::specs::Numbers::to_int))]
pub fn push_to_int(
    alloc: Global,
    around: Around<'_>,
    place: Place<'_>,
    a: Operand<'_>,
    found: &mut Found,
    body: &mut Body,
) -> Result<(), NoMem>
    ensures { OnOk result (Leaves (spec.to_int (the_around around.entry) (the_place place.entry) (the_operand a.entry) (writing found.old body.old)) found.new body.new) }
{
    let word = LlType::Signed;
    match kind_seen(a.element) {
        Kind::Word => give(alloc, around, place, a.x, word, found, body),
        Kind::Flag => give_unary(alloc, around, place, CUnary::B2S, word, a.x, found, body),
        Kind::Byte | Kind::Text => {
            let x = given(alloc, around, a, LlType::Ptr(0), found, body)?;
            let number = by_small(alloc, Small::IntOfText, word, [x], found, body)?;
            give(alloc, around, place, number, word, found, body)
        }
        _ => Ok(()),
    }
}

// ---- ranges: the end, and the next number

/// Whether the next number stands before the end.
#[tactic(auto, unfolding(crate::specs::Numbers::range_has))]
pub fn push_range_has(
    alloc: Global,
    around: Around<'_>,
    place: Place<'_>,
    step: i64,
    end: COperand,
    next: COperand,
    found: &mut Found,
    body: &mut Body,
) -> Result<(), NoMem>
    ensures { OnOk result (Leaves (spec.range_has (the_around around.entry) (the_place place.entry) step end next (writing found.old body.old)) found.new body.new) }
{
    let op = if step > 0 { CBinary::Gt } else { CBinary::Lt };
    let flag = LlType::Bool;
    give_binary(alloc, around, place, op, flag, end, next, found, body)
}

/// The number after the next, or the end where that comes first.
#[tactic(auto, unfolding(crate::specs::Numbers::range_advance))]
pub fn push_range_advance(
    alloc: Global,
    around: Around<'_>,
    place: Place<'_>,
    step: i64,
    end: COperand,
    next: COperand,
    found: &mut Found,
    body: &mut Body,
) -> Result<(), NoMem>
    ensures { OnOk result (Leaves (spec.range_advance (the_around around.entry) (the_place place.entry) step end next (writing found.old body.old)) found.new body.new) }
{
    let gives = LlType::Signed;
    if step == 1 || step == -1 {
        let add = CBinary::Add;
        return give_binary(
            alloc,
            around,
            place,
            add,
            gives,
            next,
            word(step),
            found,
            body,
        );
    }
    let helper = if step > 0 {
        Helper::RangeUp
    } else {
        Helper::RangeDown
    };
    let xs = [end, next, word(step)];
    give_helped(alloc, around, place, helper, gives, xs, found, body)
}
