// Why there is no translation.
use rpy_base::NoMem;
use thiserror::Error;

/// Why a source has no tokens, or its tokens are no module.
#[derive(Clone, Copy, Debug, PartialEq, Eq)]
pub enum SourceKind {
    BadByte,
    BadIndent,
    OpenString,
    BadNumber,
    LimitBrackets,
    LimitBlocks,
    LimitOperators,
    Syntax,
}

/// Why modules make no program.
#[derive(Clone, Copy, Debug, PartialEq, Eq)]
pub enum NameKind {
    Unknown,
    Twice,
    NoEntryPoint,
    BadBase,
    BadConstant,
    NoModule,
}

/// Why sources have no translation.
#[derive(Clone, Copy, Debug, PartialEq, Eq, Error)]
pub enum TranslateFault {
    /// A source is no module: which source, counted from 0, the line, counted from 1, and why.
    #[error("source {0}, line {1}: {2:?}")]
    Source(u32, u32, SourceKind),
    /// The sources are modules that make no program: which source, the line, and why.
    #[error("source {0}, line {1}: {2:?}")]
    Name(u32, u32, NameKind),
    /// The module is not one of the first path.
    #[error("not of the first path")]
    NotFirst,
    #[error("out of memory")]
    NoMem,
}

impl From<NoMem> for TranslateFault {
    ghost use Rattle.std.specs.Prelude.{◌≡◌};
    ghost use Rattle.rpy_first.specs.declared.fault.TranslateFault.TheVariants.{NoMem};

    ghost from_gives = { λ _ fault. fault ≡ NoMem };

    fn from(_: NoMem) -> TranslateFault {
        TranslateFault::NoMem
    }
}
