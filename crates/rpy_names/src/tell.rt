// The fault that is told.
ghost use Rattle.std.specs.Prelude.{◌≡◌};
ghost use Rattle.rpy_names.specs.Build as spec;

use crate::fault::NameFault;
use names_bound::{Fault, FaultKind};

/// The fault that is told.
pub fn told(fault: Fault) -> NameFault
    ensures { result ≡ spec.told fault }
{
    match fault.kind {
        FaultKind::Unknown => NameFault::Unknown(fault.node),
        FaultKind::Twice => NameFault::Twice(fault.node),
        FaultKind::BadBase => NameFault::BadBase(fault.node),
        FaultKind::BadConstant => NameFault::BadConstant(fault.node),
        FaultKind::NoModule => NameFault::NoModule(fault.node),
    }
}
