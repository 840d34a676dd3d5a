// Comparisons.
ghost use Rattle.std.specs.Prelude.{◌≡◌, IfOk, OnOk};
ghost use Rattle.rtyper_data.specs.Comparing as spec;
ghost use Rattle.rtyper_data.specs.Seen.{the_around, the_operand, the_operands, the_place, writing, Leaves, Gives, Writes, Asks};

use crate::body::{Around, Body, Operand};
use crate::convert::{by_small, given, helped, value_as};
use crate::found::Found;
use crate::small::Small;
use csub_tree::{CBinary, CConst, COperand, CUnary};
use ll_build::Helper;
use ll_code::{LlOp, LlType, VarId};
use rpy_base::NoMem;
use rpy_tree::CmpOp;
use rtyper_layout::{Kind, Layout, is_text, is_text_or_none, kind_seen};
use std::alloc::Global;

pub fn flag(b: bool) -> COperand
    ensures { result ≡ spec.flag b }
{
    COperand::Const(CConst::Bool(b))
}

/// The result of an operation on two operands.
pub fn binary(
    op: CBinary,
    gives: LlType,
    x: COperand,
    y: COperand,
    body: &mut Body,
) -> Result<COperand, NoMem>
    ensures { IfOk result (λ z. Writes (spec.binary_in op gives x y body.old) z body.new) }
{
    let into = body.fresh(gives)?;
    body.ops.push(LlOp::Binary(into, op, x, y))?;
    Ok(COperand::Var(into))
}

/// The result of an operation on one operand.
pub fn unary(op: CUnary, gives: LlType, x: COperand, body: &mut Body) -> Result<COperand, NoMem>
    ensures { IfOk result (λ z. Writes (spec.unary_in op gives x body.old) z body.new) }
{
    let into = body.fresh(gives)?;
    body.ops.push(LlOp::Unary(into, op, x))?;
    Ok(COperand::Var(into))
}

/// The opposite of a truth value, where that is asked.
#[tactic(auto, unfolding(crate::specs::Comparing::opposite_if))]
pub fn opposite_if(reversed: bool, x: COperand, body: &mut Body) -> Result<COperand, NoMem>
    ensures { IfOk result (λ z. Writes (spec.opposite_if reversed x body.old) z body.new) }
{
    if reversed {
        unary(CUnary::Not, LlType::Bool, x, body)
    } else {
        Ok(x)
    }
}

/// Of the numbers of two bytes.
pub fn of_bytes(op: CBinary, x: COperand, y: COperand, body: &mut Body) -> Result<COperand, NoMem>
    ensures { IfOk result (λ z. Writes (spec.of_bytes op x y body.old) z body.new) }
{
    let a = unary(CUnary::C2S, LlType::Signed, x, body)?;
    let b = unary(CUnary::C2S, LlType::Signed, y, body)?;
    binary(op, LlType::Bool, a, b, body)
}

// ---- equality

#[tactic(auto, unfolding(crate::specs::Comparing::texts_equal))]
fn texts_equal(
    alloc: Global,
    layout: &Layout,
    x: COperand,
    s: LlType,
    y: COperand,
    t: LlType,
    found: &mut Found,
    body: &mut Body,
) -> Result<COperand, NoMem>
    ensures { IfOk result (λ z. Gives (spec.texts_equal layout.now x s y t (writing found.old body.old)) z found.new body.new) }
{
    let a = value_as(alloc, layout, x, s, LlType::Ptr(0), found, body)?;
    let b = value_as(alloc, layout, y, t, LlType::Ptr(0), found, body)?;
    helped(alloc, Helper::StrEqual, LlType::Bool, [a, b], found, body)
}

// Whether a pointer is NULL.
pub fn is_null(x: COperand, body: &mut Body) -> Result<COperand, NoMem>
    ensures { IfOk result (λ z. Writes (spec.is_null x body.old) z body.new) }
{
    binary(
        CBinary::Peq,
        LlType::Bool,
        x,
        COperand::Const(CConst::Null),
        body,
    )
}

// Whether a function value is NULL.
pub fn is_no_function(x: COperand, body: &mut Body) -> Result<COperand, NoMem>
    ensures { IfOk result (λ z. Writes (spec.is_no_function x body.old) z body.new) }
{
    let null = COperand::Const(CConst::Null);
    binary(CBinary::Feq, LlType::Bool, x, null, body)
}

fn pointers_equal(
    alloc: Global,
    layout: &Layout,
    x: COperand,
    m: u64,
    y: COperand,
    n: u64,
    found: &mut Found,
    body: &mut Body,
) -> Result<COperand, NoMem>
    ensures { IfOk result (λ z. Gives (spec.pointers_equal layout.now x m y n (writing found.old body.old)) z found.new body.new) }
{
    if m == 0 && n == 0 {
        return helped(alloc, Helper::StrEqual, LlType::Bool, [x, y], found, body);
    }
    if layout.is_tuple(m) && layout.is_tuple(n) {
        return by_small(alloc, Small::Equal(m, n), LlType::Bool, [x, y], found, body);
    }
    Ok(flag(false))
}

/// Whether two values of these types are equal. `None` alone is a truth value.
#[tactic(auto, unfolding(crate::specs::Comparing::equal))]
pub fn equal(
    alloc: Global,
    layout: &Layout,
    x: COperand,
    s: LlType,
    y: COperand,
    t: LlType,
    found: &mut Found,
    body: &mut Body,
) -> Result<COperand, NoMem>
    ensures { IfOk result (λ z. Gives (spec.equal layout.now x s y t (writing found.old body.old)) z found.new body.new) }
{
    match (s, t) {
        (LlType::Signed, LlType::Signed) => binary(CBinary::Eq, LlType::Bool, x, y, body),
        (LlType::Bool, LlType::Bool) => binary(CBinary::Beq, LlType::Bool, x, y, body),
        (LlType::Char, LlType::Char) => of_bytes(CBinary::Eq, x, y, body),
        (LlType::Char, LlType::Ptr(0)) | (LlType::Ptr(0), LlType::Char) => {
            texts_equal(alloc, layout, x, s, y, t, found, body)
        }
        (LlType::Bool, LlType::Ptr(_)) => is_null(y, body),
        (LlType::Ptr(_), LlType::Bool) => is_null(x, body),
        (LlType::Bool, LlType::Char) | (LlType::Char, LlType::Bool) => Ok(flag(false)),
        (LlType::Ptr(m), LlType::Ptr(n)) => {
            pointers_equal(alloc, layout, x, m, y, n, found, body)
        }
        _ => Ok(flag(false)),
    }
}

// ---- identity

// A value beside `None`.
fn beside_none(around: Around<'_>, a: Operand<'_>, body: &mut Body) -> Result<COperand, NoMem>
    ensures { IfOk result (λ z. Writes (spec.beside_none (the_around around.entry) (the_operand a.entry) body.old) z body.new) }
{
    match around.type_of(a) {
        LlType::Ptr(_) => is_null(a.x, body),
        LlType::Fn => is_no_function(a.x, body),
        _ => Ok(flag(false)),
    }
}

// Two lists, or two dicts, of different types are the same where both are `None`.
fn both_null(x: COperand, y: COperand, body: &mut Body) -> Result<COperand, NoMem>
    ensures { IfOk result (λ z. Writes (spec.both_null x y body.old) z body.new) }
{
    let a = is_null(x, body)?;
    let b = is_null(y, body)?;
    let a = unary(CUnary::B2S, LlType::Signed, a, body)?;
    let b = unary(CUnary::B2S, LlType::Signed, b, body)?;
    let all = binary(CBinary::And, LlType::Signed, a, b, body)?;
    let zero = COperand::Const(CConst::Word(0));
    binary(CBinary::Ne, LlType::Bool, all, zero, body)
}

// Two instances of one family, two lists or two dicts.
fn same_pointer(
    around: Around<'_>,
    a: Operand<'_>,
    b: Operand<'_>,
    body: &mut Body,
) -> Result<COperand, NoMem>
    ensures { IfOk result (λ z. Writes (spec.same_pointer (the_around around.entry) (the_operand a.entry) (the_operand b.entry) body.old) z body.new) }
{
    match (around.type_of(a), around.type_of(b)) {
        (LlType::Ptr(m), LlType::Ptr(n)) => {
            if m == n {
                return binary(CBinary::Peq, LlType::Bool, a.x, b.x, body);
            }
            both_null(a.x, b.x, body)
        }
        _ => Ok(flag(false)),
    }
}

#[tactic(auto, unfolding(crate::specs::Comparing::identical))]
fn identical(
    around: Around<'_>,
    a: Operand<'_>,
    b: Operand<'_>,
    body: &mut Body,
) -> Result<COperand, NoMem>
    ensures { IfOk result (λ z. Writes (spec.identical (the_around around.entry) (the_operand a.entry) (the_operand b.entry) body.old) z body.new) }
{
    match (kind_seen(a.element), kind_seen(b.element)) {
        (Kind::Nothing, Kind::Nothing) => Ok(flag(true)),
        (Kind::Nothing, _) => beside_none(around, b, body),
        (_, Kind::Nothing) => beside_none(around, a, body),
        _ => same_pointer(around, a, b, body),
    }
}

// ---- order

fn of_words(op: CmpOp) -> CBinary
    ensures { result ≡ spec.of_words op }
{
    match op {
        CmpOp::Lt => CBinary::Lt,
        CmpOp::Le => CBinary::Le,
        CmpOp::Gt => CBinary::Gt,
        CmpOp::Ge => CBinary::Ge,
        CmpOp::Ne => CBinary::Ne,
        _ => CBinary::Eq,
    }
}

// The first string is less, by one helper: the other orders turn its operands or its answer around.
fn texts_less(
    alloc: Global,
    around: Around<'_>,
    op: CmpOp,
    a: Operand<'_>,
    b: Operand<'_>,
    found: &mut Found,
    body: &mut Body,
) -> Result<COperand, NoMem>
    ensures { IfOk result (λ z. Gives (spec.texts_less (the_around around.entry) op (the_operand a.entry) (the_operand b.entry) (writing found.old body.old)) z found.new body.new) }
{
    let x = given(alloc, around, a, LlType::Ptr(0), found, body)?;
    let y = given(alloc, around, b, LlType::Ptr(0), found, body)?;
    let (x, y, reversed) = match op {
        CmpOp::Lt => (x, y, false),
        CmpOp::Le => (y, x, true),
        CmpOp::Gt => (y, x, false),
        _ => (x, y, true),
    };
    let less = helped(alloc, Helper::StrLess, LlType::Bool, [x, y], found, body)?;
    opposite_if(reversed, less, body)
}

#[tactic(auto, unfolding(crate::specs::Comparing::ordered))]
fn ordered(
    alloc: Global,
    around: Around<'_>,
    op: CmpOp,
    a: Operand<'_>,
    b: Operand<'_>,
    found: &mut Found,
    body: &mut Body,
) -> Result<COperand, NoMem>
    ensures { IfOk result (λ z. Gives (spec.ordered (the_around around.entry) op (the_operand a.entry) (the_operand b.entry) (writing found.old body.old)) z found.new body.new) }
{
    let kinds = (kind_seen(a.element), kind_seen(b.element));
    match kinds {
        (Kind::Word, Kind::Word) => binary(of_words(op), LlType::Bool, a.x, b.x, body),
        (Kind::Byte, Kind::Byte) => of_bytes(of_words(op), a.x, b.x, body),
        (s, t) => {
            if is_text(s) && is_text(t) {
                return texts_less(alloc, around, op, a, b, found, body);
            }
            Ok(flag(false))
        }
    }
}

// ---- within

fn within_text(
    alloc: Global,
    around: Around<'_>,
    a: Operand<'_>,
    b: Operand<'_>,
    found: &mut Found,
    body: &mut Body,
) -> Result<COperand, NoMem>
    ensures { IfOk result (λ z. Gives (spec.within_text (the_around around.entry) (the_operand a.entry) (the_operand b.entry) (writing found.old body.old)) z found.new body.new) }
{
    let part = given(alloc, around, a, LlType::Ptr(0), found, body)?;
    let text = given(alloc, around, b, LlType::Ptr(0), found, body)?;
    helped(
        alloc,
        Helper::StrContains,
        LlType::Bool,
        [part, text],
        found,
        body,
    )
}

/// The field of a tuple at a place.
pub fn field_of(
    n: u64,
    tuple: VarId,
    i: u64,
    field: LlType,
    body: &mut Body,
) -> Result<COperand, NoMem>
    ensures { IfOk result (λ x. Writes (spec.field_of n tuple i field body.old) x body.new) }
{
    let item = body.fresh(field)?;
    body.ops.push(LlOp::GetField(item, n, tuple, i))?;
    Ok(COperand::Var(item))
}

// A word that is not zero where the word is not, or the truth value holds.
fn or_word(any: COperand, same: COperand, body: &mut Body) -> Result<COperand, NoMem>
    ensures { IfOk result (λ x. Writes (spec.or_word any same body.old) x body.new) }
{
    let word = unary(CUnary::B2S, LlType::Signed, same, body)?;
    binary(CBinary::Or, LlType::Signed, any, word, body)
}

// Whether one of the items of a tuple is equal to the value.
fn within_tuple(
    alloc: Global,
    around: Around<'_>,
    a: Operand<'_>,
    b: COperand,
    n: u64,
    found: &mut Found,
    body: &mut Body,
) -> Result<COperand, NoMem>
    ensures { IfOk result (λ z. Gives (spec.within_tuple (the_around around.entry) (the_operand a.entry) b n (writing found.old body.old)) z found.new body.new) }
{
    let s = around.type_of(a);
    let tuple = crate::tuple::variable_of(b, LlType::Ptr(n), body)?;
    let mut any = COperand::Const(CConst::Word(0));
    let fields = around.layout.fields(n);
    let mut i: usize = 0;
    for field in fields {
        let item = field_of(n, tuple, i as u64, *field, body)?;
        let same = equal(alloc, around.layout, item, *field, a.x, s, found, body)?;
        any = or_word(any, same, body)?;
        i += 1;
    }
    let zero = COperand::Const(CConst::Word(0));
    binary(CBinary::Ne, LlType::Bool, any, zero, body)
}

#[tactic(auto, unfolding(crate::specs::Comparing::within))]
fn within(
    alloc: Global,
    around: Around<'_>,
    a: Operand<'_>,
    b: Operand<'_>,
    found: &mut Found,
    body: &mut Body,
) -> Result<COperand, NoMem>
    ensures { IfOk result (λ z. Gives (spec.within (the_around around.entry) (the_operand a.entry) (the_operand b.entry) (writing found.old body.old)) z found.new body.new) }
{
    match (kind_seen(a.element), kind_seen(b.element)) {
        (Kind::Byte, Kind::Byte) => of_bytes(CBinary::Eq, a.x, b.x, body),
        (_, Kind::Tuple) => match around.type_of(b) {
            LlType::Ptr(n) => within_tuple(alloc, around, a, b.x, n, found, body),
            _ => Ok(flag(false)),
        },
        (s, t) => {
            if is_text(s) && is_text_or_none(t) {
                return within_text(alloc, around, a, b, found, body);
            }
            Ok(flag(false))
        }
    }
}

/// The truth value that a comparison gives.
#[tactic(auto, unfolding(crate::specs::Comparing::compare))]
pub fn compare(
    alloc: Global,
    around: Around<'_>,
    op: CmpOp,
    a: Operand<'_>,
    b: Operand<'_>,
    found: &mut Found,
    body: &mut Body,
) -> Result<COperand, NoMem>
    ensures { IfOk result (λ z. Gives (spec.compare (the_around around.entry) op (the_operand a.entry) (the_operand b.entry) (writing found.old body.old)) z found.new body.new) }
{
    match op {
        CmpOp::Eq | CmpOp::Ne => {
            let s = around.type_of(a);
            let t = around.type_of(b);
            let same = equal(alloc, around.layout, a.x, s, b.x, t, found, body)?;
            opposite_if(op == CmpOp::Ne, same, body)
        }
        CmpOp::Is | CmpOp::IsNot => {
            let same = identical(around, a, b, body)?;
            opposite_if(op == CmpOp::IsNot, same, body)
        }
        CmpOp::Within | CmpOp::NotWithin => {
            let is_in = within(alloc, around, a, b, found, body)?;
            opposite_if(op == CmpOp::NotWithin, is_in, body)
        }
        CmpOp::Lt | CmpOp::Le | CmpOp::Gt | CmpOp::Ge => {
            ordered(alloc, around, op, a, b, found, body)
        }
    }
}
