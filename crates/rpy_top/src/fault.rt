// Why sources have no text.
ghost use Rattle.std.specs.Prelude.{◌≡◌};
ghost use Rattle.rpy_top.specs.Answer as spec;

use rpy_base::{NoMem, Text};
use rpy_compiled::{CheckFault, TypeKind};
use rpy_first::{NameKind, SourceKind};
use thiserror::Error;

/// Why nothing is written of sources. Each place is a source, counted from 0, and a line, counted from 1.
#[derive(Debug, Drop, Error)]
pub enum TranslateFault {
    /// A source is no module.
    #[error("source {0}, line {1}: {2:?}")]
    Source(u32, u32, SourceKind),
    /// The sources are modules that make no program.
    #[error("source {0}, line {1}: {2:?}")]
    Name(u32, u32, NameKind),
    /// No annotation of the program is free of conflict: the word for a conflict, and the elements of its
    /// operands, each after a space.
    #[error("source {0}, line {1}: conflict")]
    Conflict(u32, u32, Text),
    /// The program has an annotation, but no types.
    #[error("source {0}, line {1}: {2:?}")]
    Typing(u32, u32, TypeKind),
    #[error("out of memory")]
    NoMem,
}

impl From<NoMem> for TranslateFault {
    ghost use Rattle.std.specs.Prelude.{◌≡◌};
    ghost use Rattle.rpy_top.specs.declared.fault.TranslateFault.TheVariants.{NoMem};

    ghost from_gives = { λ _ fault. fault ≡ NoMem };

    fn from(_: NoMem) -> TranslateFault {
        TranslateFault::NoMem
    }
}

/// Why sources make no program, among the causes why nothing is written of them.
pub fn front_fault(fault: rpy_first::TranslateFault) -> TranslateFault
    ensures { result ≡ spec.front_fault fault }
{
    match fault {
        rpy_first::TranslateFault::Source(file, line, kind) => {
            TranslateFault::Source(file, line, kind)
        }
        rpy_first::TranslateFault::Name(file, line, kind) => TranslateFault::Name(file, line, kind),
        // Modules are read whatever their path.
        rpy_first::TranslateFault::NotFirst => TranslateFault::NoMem,
        rpy_first::TranslateFault::NoMem => TranslateFault::NoMem,
    }
}

/// Why a program is refused, among the causes why nothing is written of it.
pub fn check_fault(fault: CheckFault) -> TranslateFault
    ensures { result ≡ spec.check_fault fault }
{
    match fault {
        CheckFault::Conflict(file, line, words) => TranslateFault::Conflict(file, line, words),
        CheckFault::Typing(file, line, kind) => TranslateFault::Typing(file, line, kind),
        CheckFault::NoMem => TranslateFault::NoMem,
    }
}
