// The methods of strings.
ghost use Rattle.std.specs.Prelude.{◌≡◌, ◌&&◌, None, true, map};
ghost use Rattle.ann_lattice.specs.Shape.{Truth, Num, Str, Any, shape};
ghost use Rattle.ann_lattice.specs.Kind as kind;
ghost use Rattle.ann_lattice.specs.Methods as spec;

use crate::arguments::{no_args, one_char, one_str};
use crate::kind::{bool_if, conflict, is_char, is_str};
use crate::method::Method;
use ann_element::Element;
use rpy_tree::SiteId;

// Whether the items of a list can be joined.
fn can_be_joined(item: &Element) -> bool
    ensures { result ≡ spec.can_be_joined (shape item.now) }
{
    match item {
        Element::Unreached => true,
        _ => is_str(item),
    }
}

fn str_if(fits: bool) -> Element
    ensures { shape result ≡ kind.given fits (Str Any) }
{
    if fits { Element::Str } else { conflict() }
}

// `join` of a list of strings, which may not be `None`; nor may the string.
fn join_row(a: &Element, args: &[Element], part: &Element) -> Element
    ensures { shape result ≡ spec.joined (shape a.now) (map shape args.now) (shape part.now) }
{
    match args {
        [Element::List(_, false)] => str_if(is_str(a) && can_be_joined(part)),
        _ => conflict(),
    }
}

/// A list of its own site.
pub fn own_list(site: Option<SiteId>, fits: bool) -> Element
    ensures { shape result ≡ spec.own_list site fits }
{
    match site {
        None => conflict(),
        Some(site) => {
            if fits {
                Element::List(site, false)
            } else {
                conflict()
            }
        }
    }
}

fn int_if(fits: bool) -> Element
    ensures { shape result ≡ kind.given fits (Num true) }
{
    if fits { Element::Int } else { conflict() }
}

// A method of one character.
fn of_char(a: &Element, args: &[Element]) -> Element
    ensures { shape result ≡ kind.given (kind.is_char (shape a.now) && spec.no_args (map shape args.now)) (Truth None) }
{
    bool_if(is_char(a) && no_args(args))
}

/// A method of a string. The further part is the item of the list that `join` takes.
pub fn text_method_row(
    method: Method,
    site: Option<SiteId>,
    a: &Element,
    args: &[Element],
    part: &Element,
) -> Element
    ensures { shape result ≡ spec.text_method method site (shape a.now) (map shape args.now) (shape part.now) }
{
    match method {
        Method::Join => join_row(a, args, part),
        Method::Split => own_list(site, one_char(args)),
        Method::Find => int_if(one_str(args)),
        Method::StartsWith => bool_if(one_str(args)),
        Method::EndsWith => bool_if(one_str(args)),
        Method::Strip => str_if(no_args(args)),
        Method::IsDigit => of_char(a, args),
        Method::IsAlpha => of_char(a, args),
        Method::IsSpace => of_char(a, args),
        _ => conflict(),
    }
}
