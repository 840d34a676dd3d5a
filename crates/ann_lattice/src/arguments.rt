// The arguments that methods take.
ghost use Rattle.std.specs.Prelude.{◌≡◌, map};
ghost use Rattle.ann_lattice.specs.Shape.{shape};
ghost use Rattle.ann_lattice.specs.Methods as spec;

use crate::kind::{is_char, is_int, is_positive, is_str};
use ann_element::Element;

pub fn no_args(args: &[Element]) -> bool
    ensures { result ≡ spec.no_args (map shape args.now) }
{
    match args {
        [] => true,
        [_first, _others @ ..] => false,
    }
}

pub fn one_str(args: &[Element]) -> bool
    ensures { result ≡ spec.one_str (map shape args.now) }
{
    match args {
        [s] => is_str(s),
        _ => false,
    }
}

pub fn one_char(args: &[Element]) -> bool
    ensures { result ≡ spec.one_char (map shape args.now) }
{
    match args {
        [c] => is_char(c),
        _ => false,
    }
}

pub fn one_arg(args: &[Element]) -> bool
    ensures { result ≡ spec.one_arg (map shape args.now) }
{
    match args {
        [_x] => true,
        _ => false,
    }
}

pub fn one_or_two(args: &[Element]) -> bool
    ensures { result ≡ spec.one_or_two (map shape args.now) }
{
    match args {
        [_x] => true,
        [_x, _y] => true,
        _ => false,
    }
}

/// A place that is not below zero, and what is put there.
pub fn place_and_value(args: &[Element]) -> bool
    ensures { result ≡ spec.place_and_value (map shape args.now) }
{
    match args {
        [i, _x] => is_positive(i),
        _ => false,
    }
}

pub fn none_or_int(args: &[Element]) -> bool
    ensures { result ≡ spec.none_or_int (map shape args.now) }
{
    match args {
        [] => true,
        [i] => is_int(i),
        _ => false,
    }
}

pub fn one_list_or_none(args: &[Element]) -> bool
    ensures { result ≡ spec.one_list_or_none (map shape args.now) }
{
    match args {
        [Element::NoneOnly] => true,
        [Element::List(_, _)] => true,
        _ => false,
    }
}
