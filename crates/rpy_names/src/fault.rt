// Why modules are no program.
use rpy_base::{NoMem, Seq};
use rpy_nodes::Named;
use rpy_tree::NodeId;
use thiserror::Error;

/// Why modules are no program. A fault of a name carries its node.
#[derive(Clone, Copy, Debug, PartialEq, Eq, Error)]
pub enum NameFault {
    #[error("unknown name at node {0}")]
    Unknown(NodeId),
    #[error("bound twice at node {0}")]
    Twice(NodeId),
    #[error("no entry point")]
    NoEntryPoint,
    #[error("bad base at node {0}")]
    BadBase(NodeId),
    #[error("bad constant at node {0}")]
    BadConstant(NodeId),
    #[error("no module at node {0}")]
    NoModule(NodeId),
    #[error("out of memory")]
    NoMem,
}

impl From<NoMem> for NameFault {
    ghost use Rattle.std.specs.Prelude.{◌≡◌};
    ghost use Rattle.rpy_names.specs.declared.fault.NameFault.TheVariants.{NoMem};

    ghost from_gives = { λ _ fault. fault ≡ NoMem };

    fn from(_: NoMem) -> NameFault {
        NameFault::NoMem
    }
}

/// A fault, and the modules as they were.
#[derive(Drop)]
pub struct NameRefusal {
    pub fault: NameFault,
    pub modules: Seq<Named>,
}
