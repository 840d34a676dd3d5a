// Why a text is no C file.
use rpy_base::NoMem;
use thiserror::Error;

/// Why a text is no C file.
#[derive(Clone, Copy, Debug, PartialEq, Eq, Error)]
pub enum CFault {
    /// The first line such that no C text begins with the lines up to it, counted from 1. Where
    /// every line fits and the text is none, it is the number of lines plus one. A last piece
    /// without a newline counts as a line that fits no text.
    #[error("line {0}: no C text")]
    NotText(u64),
    /// The first declaration that breaks a rule, in text order from 1.
    #[error("declaration {0}: not checked")]
    NotChecked(u64),
    #[error("out of memory")]
    NoMem,
}

impl From<NoMem> for CFault {
    ghost use Rattle.std.specs.Prelude.{◌≡◌};
    ghost use Rattle.csub_reader.specs.declared.fault.CFault.TheVariants.{NoMem};

    ghost from_gives = { λ _ fault. fault ≡ NoMem };

    fn from(_: NoMem) -> CFault {
        CFault::NoMem
    }
}

/// Why reading stopped. The place where it did is the cursor's.
#[derive(Clone, Copy, Debug, PartialEq, Eq)]
pub enum Stop {
    NoText,
    NoMem,
}

impl From<NoMem> for Stop {
    ghost use Rattle.std.specs.Prelude.{◌≡◌};
    ghost use Rattle.csub_reader.specs.declared.fault.Stop.TheVariants.{NoMem};

    ghost from_gives = { λ _ stop. stop ≡ NoMem };

    fn from(_: NoMem) -> Stop {
        Stop::NoMem
    }
}
