// What the names stand for that the language knows.
ghost use Rattle.std.specs.Prelude.{◌≡◌};
ghost use Rattle.names_bound.specs.Known as spec;

use crate::stand::Stand;
use rpy_nodes::NameId;
use rpy_nodes::words::{EXCEPTION, FALSE, LEN, NONE, OBJECT, TRUE};
use rpy_tree::Builtin;

fn builtin_function(at: usize) -> Stand
    ensures { result ≡ spec.builtin_function at }
{
    match at {
        0 => Stand::Builtin(Builtin::Len),
        1 => Stand::Builtin(Builtin::Ord),
        2 => Stand::Builtin(Builtin::Chr),
        3 => Stand::Builtin(Builtin::Str),
        4 => Stand::Builtin(Builtin::Int),
        5 => Stand::Builtin(Builtin::Bool),
        6 => Stand::Builtin(Builtin::Min),
        7 => Stand::Builtin(Builtin::Max),
        8 => Stand::Builtin(Builtin::IsInstance),
        9 => Stand::Builtin(Builtin::Range),
        10 => Stand::Builtin(Builtin::Xrange),
        _ => Stand::Unknown,
    }
}

fn fixed_value(name: NameId) -> Stand
    ensures { result ≡ spec.fixed_value name }
{
    if name == NONE {
        Stand::NoneValue
    } else if name == TRUE {
        Stand::TrueValue
    } else if name == FALSE {
        Stand::FalseValue
    } else if name == OBJECT {
        Stand::Object
    } else {
        Stand::Unknown
    }
}

/// What a name stands for that no module binds.
pub fn known(name: NameId) -> Stand
    ensures { result ≡ spec.known name }
{
    if name < EXCEPTION {
        fixed_value(name)
    } else if name < LEN {
        Stand::Class(name - EXCEPTION)
    } else {
        builtin_function(name - LEN)
    }
}

/// Whether a name may not be bound: `None`, `True` or `False`.
pub fn is_fixed(name: NameId) -> bool
    ensures { result ≡ spec.is_fixed name }
{
    name <= FALSE
}
