// What a value is, as far as its lowering asks.
ghost use Rattle.std.specs.Prelude.{◌≡◌};
ghost use Rattle.std.specs.Option.{option_copied};
ghost use Rattle.rtyper_layout.specs.Kinds as spec;

use ann_element::Element;

/// A word; a truth value; a string of length one; a string, or a string or `None`; `None`; a tuple; an
/// instance, or an instance or `None`; a function, or a function or `None`; a list, or a list or `None`;
/// a dict, or a dict or `None`; nothing, since no value comes here; or a value of another kind.
#[derive(Clone, Copy, Debug, PartialEq, Eq)]
pub enum Kind {
    Word,
    Flag,
    Byte,
    Text,
    MaybeText,
    Nothing,
    Tuple,
    Instance,
    MaybeInstance,
    Function,
    MaybeFunction,
    List,
    MaybeList,
    Dict,
    MaybeDict,
    Never,
    Other,
}

fn of_list(or_none: bool) -> Kind
    ensures { result ≡ spec.of_list or_none }
{
    if or_none { Kind::MaybeList } else { Kind::List }
}

fn of_dict(or_none: bool) -> Kind
    ensures { result ≡ spec.of_dict or_none }
{
    if or_none { Kind::MaybeDict } else { Kind::Dict }
}

fn of_instance(or_none: bool) -> Kind
    ensures { result ≡ spec.of_instance or_none }
{
    if or_none {
        Kind::MaybeInstance
    } else {
        Kind::Instance
    }
}

fn of_function(or_none: bool) -> Kind
    ensures { result ≡ spec.of_function or_none }
{
    if or_none {
        Kind::MaybeFunction
    } else {
        Kind::Function
    }
}

/// The kind of the values of an element.
pub fn kind_of(element: &Element) -> Kind
    ensures { result ≡ spec.kind_of element.now }
{
    match element {
        Element::Unreached => Kind::Never,
        Element::NoneOnly => Kind::Nothing,
        Element::KnownTrue | Element::KnownFalse | Element::Bool => Kind::Flag,
        Element::IntPos | Element::Int => Kind::Word,
        Element::Char => Kind::Byte,
        Element::Str => Kind::Text,
        Element::StrOrNone => Kind::MaybeText,
        Element::Tuple(_) => Kind::Tuple,
        Element::List(_, or_none) => of_list(*or_none),
        Element::Instance(_, or_none) => of_instance(*or_none),
        Element::Func(_, or_none) => of_function(*or_none),
        Element::Dict(_, or_none) => of_dict(*or_none),
        Element::Conflict(_, _) => Kind::Other,
    }
}

/// The kind of what was seen; where nothing was, no value comes.
pub fn kind_seen(element: Option<&Element>) -> Kind
    ensures { result ≡ spec.kind_seen (option_copied element.entry) }
{
    match element {
        None => Kind::Never,
        Some(element) => kind_of(element),
    }
}

/// Whether it is a string that is there.
pub fn is_text(kind: Kind) -> bool
    ensures { result ≡ spec.is_text kind }
{
    match kind {
        Kind::Byte | Kind::Text => true,
        _ => false,
    }
}

/// Whether it is a string or `None`.
pub fn is_text_or_none(kind: Kind) -> bool
    ensures { result ≡ spec.is_text_or_none kind }
{
    match kind {
        Kind::Byte | Kind::Text | Kind::MaybeText | Kind::Nothing => true,
        _ => false,
    }
}
