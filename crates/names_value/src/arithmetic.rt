// Operators on words. Each result is the true one, or there is none.
ghost use Rattle.std.specs.Prelude.{◌≡◌, ◌≢◌, ◌≤ℤ◌, ◌<ℤ◌, ◌^◌, pos, ◌+ℤ◌, ◌-ℤ◌, ◌*ℤ◌, neg_ℤ, unsigned_abs, None, Some, if◌then◌else◌};
ghost use Rattle.rpy_base.specs.Word.{floor_quotient, times_power};
ghost use Rattle.names_value.specs.Arithmetic as spec;

use rpy_base::word::{
    add_ovf, div_ovf, floor_div, floor_mod, mul_ovf, neg_ovf, shl, shl_ovf, shr, sub_ovf, wrap_add,
    wrap_mul, wrap_neg, wrap_sub,
};
use rpy_tree::{BinOp, UnOp};

fn unless(fails: bool, word: i64) -> Option<i64>
    ensures { result ≡ (if fails then None else Some word) }
{
    if fails { None } else { Some(word) }
}

#[tactic(auto, using(crate::proofs::Fitting::unless_is))]
fn sum(a: i64, b: i64) -> Option<i64>
    ensures { result ≡ spec.fitting (a +ℤ b) }
{
    unless(add_ovf(a, b), wrap_add(a, b))
}

#[tactic(auto, using(crate::proofs::Fitting::unless_is))]
fn difference(a: i64, b: i64) -> Option<i64>
    ensures { result ≡ spec.fitting (a -ℤ b) }
{
    unless(sub_ovf(a, b), wrap_sub(a, b))
}

#[tactic(auto, using(crate::proofs::Fitting::unless_is))]
fn product(a: i64, b: i64) -> Option<i64>
    ensures { result ≡ spec.fitting (a *ℤ b) }
{
    unless(mul_ovf(a, b), wrap_mul(a, b))
}

#[tactic(auto, using(crate::proofs::Fitting::unless_is))]
fn negated(a: i64) -> Option<i64>
    ensures { result ≡ spec.fitting (neg_ℤ a) }
{
    unless(neg_ovf(a), wrap_neg(a))
}

#[tactic(auto, using(crate::proofs::Fitting::unless_is))]
fn quotient(a: i64, b: i64) -> Option<i64>
    requires { b ≢ pos 0 }
    ensures { result ≡ spec.fitting (floor_quotient a b) }
{
    unless(div_ovf(a, b), floor_div(a, b))
}

#[tactic(auto, using(crate::proofs::Fitting::unless_is))]
fn shifted(a: i64, k: i64) -> Option<i64>
    requires low { pos 0 ≤ℤ k }
    requires high { k <ℤ pos 64 }
    ensures { result ≡ spec.fitting (times_power a (unsigned_abs k)) }
{
    unless(shl_ovf(a, k), shl(a, k))
}

fn divided(a: i64, b: i64) -> Option<i64>
    ensures { result ≡ spec.divided a b }
{
    if b == 0 { None } else { quotient(a, b) }
}

fn rest(a: i64, b: i64) -> Option<i64>
    ensures { result ≡ spec.rest a b }
{
    if b == 0 { None } else { Some(floor_mod(a, b)) }
}

fn shifted_left(a: i64, k: i64) -> Option<i64>
    ensures { result ≡ spec.shifted_left a k }
{
    if k < 0 || 63 < k { None } else { shifted(a, k) }
}

fn shifted_right(a: i64, k: i64) -> Option<i64>
    ensures { result ≡ spec.shifted_right a k }
{
    if k < 0 || 63 < k {
        None
    } else {
        Some(shr(a, k))
    }
}

/// The result of an operator, where it is a word.
pub fn word_binary(op: BinOp, a: i64, b: i64) -> Option<i64>
    ensures { result ≡ spec.word_binary op a b }
{
    match op {
        BinOp::Add => sum(a, b),
        BinOp::Sub => difference(a, b),
        BinOp::Mul => product(a, b),
        BinOp::Div => divided(a, b),
        BinOp::FloorDiv => divided(a, b),
        BinOp::Mod => rest(a, b),
        BinOp::Shl => shifted_left(a, b),
        BinOp::Shr => shifted_right(a, b),
        BinOp::BitAnd => Some(a & b),
        BinOp::BitOr => Some(a | b),
        BinOp::BitXor => Some(a ^ b),
    }
}

pub fn word_unary(op: UnOp, a: i64) -> Option<i64>
    ensures { result ≡ spec.word_unary op a }
{
    match op {
        UnOp::Neg => negated(a),
        UnOp::Pos => None,
        UnOp::Invert => Some(!a),
    }
}
