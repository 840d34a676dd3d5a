// Arithmetic on words: each result is the true one, wrapped.
ghost use Rattle.std.specs.Prelude.{◌≡◌, ◌≢◌, ◌<◌, ◌^◌, ◌≤ℤ◌, ◌<ℤ◌, pos, negsuc, ◌+ℤ◌, ◌-ℤ◌, ◌*ℤ◌, neg_ℤ, unsigned_abs};
ghost use Rattle.std.specs.Bool.{FalseIff};
ghost use Rattle.rpy_base.specs.Word.{wrap, Fits, floor_quotient, floor_rest, times_power};

pub fn wrap_add(a: i64, b: i64) -> i64
    ensures { result ≡ wrap (a +ℤ b) }
{
    a.wrapping_add(b)
}

pub fn wrap_sub(a: i64, b: i64) -> i64
    ensures { result ≡ wrap (a -ℤ b) }
{
    a.wrapping_sub(b)
}

pub fn wrap_mul(a: i64, b: i64) -> i64
    ensures { result ≡ wrap (a *ℤ b) }
{
    a.wrapping_mul(b)
}

pub fn wrap_neg(a: i64) -> i64
    ensures { result ≡ wrap (neg_ℤ a) }
{
    a.wrapping_neg()
}

/// The floor of the quotient; at the smallest word over -1 it wraps.
pub fn floor_div(a: i64, b: i64) -> i64
    requires { b ≢ pos 0 }
    ensures { result ≡ wrap (floor_quotient a b) }
{
    let size = a.unsigned_abs();
    let by = b.unsigned_abs();
    if (a < 0) == (b < 0) {
        (size / by).cast_signed()
    } else if size == 0 {
        0
    } else {
        !(((size - 1) / by) as i64)
    }
}

/// What is left of `a` after the floor; it has the sign of `b`.
pub fn floor_mod(a: i64, b: i64) -> i64
    requires { b ≢ pos 0 }
    ensures { result ≡ floor_rest a b }
{
    let size = a.unsigned_abs();
    let by = b.unsigned_abs();
    let rest = if (a < 0) == (b < 0) {
        size % by
    } else if size == 0 {
        0
    } else {
        by - 1 - (size - 1) % by
    };
    if b < 0 { -(rest as i64) } else { rest as i64 }
}

pub fn shl(a: i64, k: i64) -> i64
    requires low { pos 0 ≤ℤ k }
    requires high { k <ℤ pos 64 }
    ensures { result ≡ wrap (times_power a (unsigned_abs k)) }
{
    a << (k as u32)
}

pub fn shr(a: i64, k: i64) -> i64
    requires low { pos 0 ≤ℤ k }
    requires high { k <ℤ pos 64 }
    ensures { result ≡ floor_quotient a (pos (2 ^ unsigned_abs k)) }
{
    a >> (k as u32)
}

pub fn add_ovf(a: i64, b: i64) -> bool
    ensures { FalseIff result (Fits (a +ℤ b)) }
{
    a.overflowing_add(b).1
}

pub fn sub_ovf(a: i64, b: i64) -> bool
    ensures { FalseIff result (Fits (a -ℤ b)) }
{
    a.overflowing_sub(b).1
}

pub fn mul_ovf(a: i64, b: i64) -> bool
    ensures { FalseIff result (Fits (a *ℤ b)) }
{
    a.overflowing_mul(b).1
}

pub fn neg_ovf(a: i64) -> bool
    ensures { FalseIff result (Fits (neg_ℤ a)) }
{
    a.overflowing_neg().1
}

pub fn div_ovf(a: i64, b: i64) -> bool
    requires { b ≢ pos 0 }
    ensures { FalseIff result (Fits (floor_quotient a b)) }
{
    a == i64::MIN && b == -1
}

// 2 to a power that is a word.
fn power(k: i64) -> i64
    requires low { pos 0 ≤ℤ k }
    requires high { k <ℤ pos 63 }
    ensures { result ≡ pos (2 ^ unsigned_abs k) }
{
    1 << (k as u32)
}

pub fn shl_ovf(a: i64, k: i64) -> bool
    requires low { pos 0 ≤ℤ k }
    requires high { k <ℤ pos 64 }
    ensures { FalseIff result (Fits (times_power a (unsigned_abs k))) }
{
    if k == 63 {
        a != 0 && a != -1
    } else {
        a.overflowing_mul(power(k)).1
    }
}
