// The operations on values.
ghost use Rattle.std.specs.Prelude.{◌≡◌, ◌+ℤ◌, ◌-ℤ◌, ◌*ℤ◌, not, IfOk};
ghost use Rattle.csub_tree.specs.Operation.{same as same_values, compared, unary_of, binary_of, to_byte as byte_answer, fits};
ghost use Rattle.csub_tree.specs.State.{Value};
ghost use Rattle.csub_runner.specs.Erased.{erase, erase_answer, IsPlain};

use crate::val::{Val, byte_in, flag_in, is_unset, word_in};
use csub_tree::{CBinary, CUnary, StuckReason};
use rpy_base::word;

fn to_byte(a: i64) -> Result<Val, StuckReason>
    ensures is { erase_answer result ≡ byte_answer a }
    ensures plain { IfOk result IsPlain }
{
    if a < 0 || 255 < a {
        return Err(StuckReason::Word);
    }
    Ok(Val::Byte(a as u8))
}

pub fn unary(op: CUnary, x: Val) -> Result<Val, StuckReason>
    ensures is { erase_answer result ≡ unary_of op (erase x) }
    ensures plain { IfOk result IsPlain }
{
    match op {
        CUnary::Neg => match word_in(x) {
            Some(a) => Ok(Val::Word(word::wrap_neg(a))),
            None => Err(StuckReason::Unset),
        },
        CUnary::Inv => match word_in(x) {
            Some(a) => Ok(Val::Word(!a)),
            None => Err(StuckReason::Unset),
        },
        CUnary::Not => match flag_in(x) {
            Some(a) => Ok(Val::Flag(!a)),
            None => Err(StuckReason::Unset),
        },
        CUnary::C2S => match byte_in(x) {
            Some(a) => Ok(Val::Word(a as i64)),
            None => Err(StuckReason::Unset),
        },
        CUnary::S2C => match word_in(x) {
            Some(a) => to_byte(a),
            None => Err(StuckReason::Unset),
        },
        CUnary::B2S => match flag_in(x) {
            Some(a) => Ok(Val::Word(if a { 1 } else { 0 })),
            None => Err(StuckReason::Unset),
        },
    }
}

// Whether two pointers, or two function values, are the same.
fn same(x: Val, y: Val) -> bool
    ensures { result ≡ same_values (erase x) (erase y) }
{
    match (x, y) {
        (Val::Null, Val::Null) => true,
        (Val::Ptr(p), Val::Ptr(q)) => p.number == q.number,
        (Val::Static(g), Val::Static(h)) => g == h,
        (Val::Fun(f), Val::Fun(g)) => f == g,
        _ => false,
    }
}

fn compare(x: Val, y: Val) -> Result<Val, StuckReason>
    ensures is { erase_answer result ≡ compared (erase x) (erase y) }
    ensures plain { IfOk result IsPlain }
{
    if is_unset(x) || is_unset(y) {
        return Err(StuckReason::Unset);
    }
    Ok(Val::Flag(same(x, y)))
}

fn compare_flags(x: Val, y: Val) -> Result<Val, StuckReason>
    ensures is { erase_answer result ≡ binary_of CBinary.Beq (erase x) (erase y) }
    ensures plain { IfOk result IsPlain }
{
    match flag_in(x) {
        Some(a) => match flag_in(y) {
            Some(b) => Ok(Val::Flag(a == b)),
            None => Err(StuckReason::Unset),
        },
        None => Err(StuckReason::Unset),
    }
}

// The floor of the quotient.
fn divide(a: i64, b: i64) -> Result<Val, StuckReason>
    ensures is { erase_answer result ≡ binary_of CBinary.Div (Value.Word a) (Value.Word b) }
    ensures plain { IfOk result IsPlain }
{
    if b == 0 {
        return Err(StuckReason::Word);
    }
    Ok(Val::Word(word::floor_div(a, b)))
}

// What is left after the floor.
fn rest(a: i64, b: i64) -> Result<Val, StuckReason>
    ensures is { erase_answer result ≡ binary_of CBinary.Mod (Value.Word a) (Value.Word b) }
    ensures plain { IfOk result IsPlain }
{
    if b == 0 {
        return Err(StuckReason::Word);
    }
    Ok(Val::Word(word::floor_mod(a, b)))
}

fn shift_left(a: i64, k: i64) -> Result<Val, StuckReason>
    ensures is { erase_answer result ≡ binary_of CBinary.Shl (Value.Word a) (Value.Word k) }
    ensures plain { IfOk result IsPlain }
{
    if k < 0 || 63 < k {
        return Err(StuckReason::Word);
    }
    Ok(Val::Word(word::shl(a, k)))
}

fn shift_right(a: i64, k: i64) -> Result<Val, StuckReason>
    ensures is { erase_answer result ≡ binary_of CBinary.Shr (Value.Word a) (Value.Word k) }
    ensures plain { IfOk result IsPlain }
{
    if k < 0 || 63 < k {
        return Err(StuckReason::Word);
    }
    Ok(Val::Word(word::shr(a, k)))
}

fn shift_overflows(a: i64, k: i64) -> Result<Val, StuckReason>
    ensures is { erase_answer result ≡ binary_of CBinary.ShlOvf (Value.Word a) (Value.Word k) }
    ensures plain { IfOk result IsPlain }
{
    if k < 0 || 63 < k {
        return Err(StuckReason::Word);
    }
    Ok(Val::Flag(word::shl_ovf(a, k)))
}

#[inline(always)]
pub fn add_overflows(a: i64, b: i64) -> bool
    ensures { result ≡ not (fits (a +ℤ b)) }
{
    word::add_ovf(a, b)
}

#[inline(always)]
pub fn sub_overflows(a: i64, b: i64) -> bool
    ensures { result ≡ not (fits (a -ℤ b)) }
{
    word::sub_ovf(a, b)
}

#[inline(always)]
pub fn mul_overflows(a: i64, b: i64) -> bool
    ensures { result ≡ not (fits (a *ℤ b)) }
{
    word::mul_ovf(a, b)
}

#[inline(always)]
fn on_two_words(op: CBinary, a: i64, b: i64) -> Result<Val, StuckReason>
    ensures is { erase_answer result ≡ binary_of op (Value.Word a) (Value.Word b) }
    ensures plain { IfOk result IsPlain }
{
    match op {
        CBinary::Add => Ok(Val::Word(word::wrap_add(a, b))),
        CBinary::Sub => Ok(Val::Word(word::wrap_sub(a, b))),
        CBinary::Mul => Ok(Val::Word(word::wrap_mul(a, b))),
        CBinary::Div => divide(a, b),
        CBinary::Mod => rest(a, b),
        CBinary::Shl => shift_left(a, b),
        CBinary::Shr => shift_right(a, b),
        CBinary::And => Ok(Val::Word(a & b)),
        CBinary::Or => Ok(Val::Word(a | b)),
        CBinary::Xor => Ok(Val::Word(a ^ b)),
        CBinary::AddOvf => Ok(Val::Flag(add_overflows(a, b))),
        CBinary::SubOvf => Ok(Val::Flag(sub_overflows(a, b))),
        CBinary::MulOvf => Ok(Val::Flag(mul_overflows(a, b))),
        CBinary::ShlOvf => shift_overflows(a, b),
        CBinary::Eq => Ok(Val::Flag(a == b)),
        CBinary::Ne => Ok(Val::Flag(a != b)),
        CBinary::Lt => Ok(Val::Flag(a < b)),
        CBinary::Le => Ok(Val::Flag(a <= b)),
        CBinary::Gt => Ok(Val::Flag(a > b)),
        CBinary::Ge => Ok(Val::Flag(a >= b)),
        CBinary::Beq => Err(StuckReason::Unset),
        CBinary::Peq => Ok(Val::Flag(false)),
        CBinary::Feq => Ok(Val::Flag(false)),
    }
}

#[inline(always)]
pub fn binary(op: CBinary, x: Val, y: Val) -> Result<Val, StuckReason>
    ensures is { erase_answer result ≡ binary_of op (erase x) (erase y) }
    ensures plain { IfOk result IsPlain }
{
    match op {
        CBinary::Beq => compare_flags(x, y),
        CBinary::Peq => compare(x, y),
        CBinary::Feq => compare(x, y),
        _ => match word_in(x) {
            Some(a) => match word_in(y) {
                Some(b) => on_two_words(op, a, b),
                None => Err(StuckReason::Unset),
            },
            None => Err(StuckReason::Unset),
        },
    }
}
