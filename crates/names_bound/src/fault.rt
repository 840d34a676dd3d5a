// Faults of names.
ghost use Rattle.std.specs.Prelude.{◌≡◌};
ghost use Rattle.names_bound.specs.Fault as spec;

use rpy_tree::NodeId;

/// The kinds of faults, in the order of their numbers.
#[derive(Clone, Copy, Debug, PartialEq, Eq)]
pub enum FaultKind {
    Unknown = 1,
    Twice = 2,
    BadBase = 4,
    BadConstant = 5,
    NoModule = 6,
}

/// A fault and its node.
#[derive(Clone, Copy, Debug, PartialEq, Eq)]
pub struct Fault {
    pub node: NodeId,
    pub kind: FaultKind,
}

/// The fault with the smaller node, of two at one node that with the smaller number.
pub fn lesser(old: Option<Fault>, new: Option<Fault>) -> Option<Fault>
    ensures { result ≡ spec.lesser old new }
{
    match (old, new) {
        (None, _) => new,
        (Some(_), None) => old,
        (Some(a), Some(b)) => if comes_first(a, b) { old } else { new },
    }
}

fn comes_first(a: Fault, b: Fault) -> bool
    ensures { result ≡ spec.comes_first a b }
{
    a.node < b.node || (a.node == b.node && number(a.kind) <= number(b.kind))
}

fn number(kind: FaultKind) -> u8
    ensures { result ≡ spec.number kind }
{
    kind as u8
}

/// A fault where something holds.
pub fn fault_if(holds: bool, node: NodeId, kind: FaultKind) -> Option<Fault>
    ensures { result ≡ spec.fault_if holds node kind }
{
    if holds {
        Some(Fault { node, kind })
    } else {
        None
    }
}
