// Whether each local is bound where it is read.
ghost use Rattle.std.specs.Prelude.{◌≡◌, ◌<◌, ◌^◌, suc};
ghost use Rattle.rpy_first.specs.Program as spec;

use crate::body::{Body, Line, Sum};

fn is_literal(z: i64) -> bool
    ensures { result ≡ spec.is_literal z }
{
    z >= 0
}

fn reads_bound(k: u64, sum: &Sum) -> bool
    ensures { result ≡ spec.reads_bound k (spec.expr_of sum.now) }
{
    match sum {
        Sum::Word(z) => is_literal(*z),
        Sum::Local(i) => *i < k,
        Sum::Binary(_, a, b) => reads_bound(k, a.get()) && reads_bound(k, b.get()),
    }
}

fn line_ok(k: u64, line: &Line) -> bool
    ensures { result ≡ spec.line_ok k line.now }
{
    match line {
        Line::Assign(i, sum) => *i <= k && reads_bound(k, sum),
        Line::Print(sum) => reads_bound(k, sum),
    }
}

// How many locals are bound after a line.
fn bound_by(k: u64, line: &Line) -> u64
    requires { k < 2 ^ 63 }
    ensures value { result ≡ spec.bound_by k line.now }
{
    match line {
        Line::Assign(i, _) => { if *i == k { k + 1 } else { k } }
        Line::Print(_) => k,
    }
}

/// Whether each local is bound where it is read.
pub fn is_bound(body: &Body) -> bool
    ensures { result ≡ spec.is_bound body.now }
{
    let mut k = 0;
    for line in body.lines.as_slice() {
        if !line_ok(k, line) {
            return false;
        }
        k = bound_by(k, line);
    }
    k == body.locals && reads_bound(k, &body.result)
}
