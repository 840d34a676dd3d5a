// Faults of types, of which the least is told.
ghost use Rattle.std.specs.Prelude.{◌≡◌};
ghost use Rattle.rtyper_core.specs.Fault as spec;

use rpy_base::NoMem;
use rpy_tree::NodeId;
use thiserror::Error;

/// Why a program has no types. A fault carries its node.
#[derive(Clone, Copy, Debug, PartialEq, Eq, Error)]
pub enum TypeFault {
    /// An operation modifies a list or a dict that may be a constant.
    #[error("constant modified at node {0}")]
    ConstantModified(NodeId),
    /// A local is read that may be unbound.
    #[error("local that may be unbound at node {0}")]
    MaybeUnbound(NodeId),
    /// A call reaches a function that does not take its arguments, or functions that do not all take
    /// them alike.
    #[error("call of functions that do not fit at node {0}")]
    Family(NodeId),
    /// The result of the entry point is no integer. The node is that of the function.
    #[error("result of the entry point at node {0}")]
    EntryResult(NodeId),
    #[error("out of memory")]
    NoMem,
}

impl From<NoMem> for TypeFault {
    ghost use Rattle.std.specs.Prelude.{◌≡◌};
    ghost use Rattle.rtyper_core.specs.declared.fault.TypeFault.TheVariants.{NoMem};

    ghost from_gives = { λ _ fault. fault ≡ NoMem };

    fn from(_: NoMem) -> TypeFault {
        TypeFault::NoMem
    }
}

/// The kinds of faults, in the order of their numbers.
#[derive(Clone, Copy, Debug, PartialEq, Eq)]
pub enum FaultKind {
    ConstantModified = 1,
    MaybeUnbound = 2,
    Family = 3,
    EntryResult = 4,
}

/// A fault and its node.
#[derive(Clone, Copy, Debug, PartialEq, Eq)]
pub struct Fault {
    pub node: NodeId,
    pub kind: FaultKind,
}

/// The fault with the smaller node, of two at one node that with the smaller number.
pub fn lesser(old: Option<Fault>, new: Option<Fault>) -> Option<Fault>
    ensures { result ≡ spec.lesser old new }
{
    match (old, new) {
        (None, _) => new,
        (Some(_), None) => old,
        (Some(a), Some(b)) => if comes_first(a, b) { old } else { new },
    }
}

fn comes_first(a: Fault, b: Fault) -> bool
    ensures { result ≡ spec.comes_first a b }
{
    a.node < b.node || (a.node == b.node && number(a.kind) <= number(b.kind))
}

fn number(kind: FaultKind) -> u8
    ensures { result ≡ spec.number kind }
{
    kind as u8
}

/// A fault where something holds.
pub fn fault_if(holds: bool, node: NodeId, kind: FaultKind) -> Option<Fault>
    ensures { result ≡ spec.fault_if holds node kind }
{
    if holds {
        Some(Fault { node, kind })
    } else {
        None
    }
}

/// The answer that tells of the least fault.
pub fn told(fault: Option<Fault>) -> Result<(), TypeFault>
    ensures { result ≡ spec.told fault }
{
    match fault {
        None => Ok(()),
        Some(fault) => Err(shown(fault)),
    }
}

fn shown(fault: Fault) -> TypeFault
    ensures { result ≡ spec.shown fault }
{
    match fault.kind {
        FaultKind::ConstantModified => TypeFault::ConstantModified(fault.node),
        FaultKind::MaybeUnbound => TypeFault::MaybeUnbound(fault.node),
        FaultKind::Family => TypeFault::Family(fault.node),
        FaultKind::EntryResult => TypeFault::EntryResult(fault.node),
    }
}
