// Whether two constants are one key of a dict.
ghost use Rattle.std.specs.Prelude.{◌≡◌};
ghost use Rattle.names_value.specs.Same as spec;

use rpy_tree::Const;

#[cycle(same)]
pub fn is_same(a: &Const, b: &Const) -> bool
    ensures { result ≡ spec.same a.now b.now }
{
    match a {
        Const::Word(x) => match b {
            Const::Word(y) => *x == *y,
            _ => false,
        },
        Const::Bool(x) => match b {
            Const::Bool(y) => { if *x { *y } else { !*y } }
            _ => false,
        },
        Const::Str(x) => match b {
            Const::Str(y) => x.bytes() == y.bytes(),
            _ => false,
        },
        Const::None => match b {
            Const::None => true,
            _ => false,
        },
        Const::Function(x) => match b {
            Const::Function(y) => *x == *y,
            _ => false,
        },
        Const::Tuple(xs) => match b {
            Const::Tuple(ys) => are_same(xs.as_slice(), ys.as_slice()),
            _ => false,
        },
        Const::List(x) => match b {
            Const::List(y) => *x == *y,
            _ => false,
        },
        Const::Dict(x) => match b {
            Const::Dict(y) => *x == *y,
            _ => false,
        },
    }
}

#[cycle(same)]
fn are_same(xs: &[Const], ys: &[Const]) -> bool
    ensures { result ≡ spec.are_same xs.now ys.now }
{
    let mut rest = ys;
    for x in xs {
        match rest {
            [] => return false,
            [y, others @ ..] => {
                if !is_same(x, y) {
                    return false;
                }
                rest = others;
            }
        }
    }
    rest.is_empty()
}
