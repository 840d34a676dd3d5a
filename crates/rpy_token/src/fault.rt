// Why bytes have no tokens.
use rpy_base::NoMem;
use thiserror::Error;

/// Which limit a token passes.
#[derive(Clone, Copy, Debug, PartialEq, Eq)]
pub enum LimitKind {
    /// 16 brackets open at one place.
    Brackets,
    /// 32 indentations open at one place.
    Blocks,
    /// 64 operator tokens at one bracket level between two separators.
    Operators,
}

/// Why bytes have no tokens, with the place in bytes.
#[derive(Clone, Copy, Debug, PartialEq, Eq, Error)]
pub enum TokenFault {
    #[error("bad byte at {0}")]
    BadByte(u32),
    #[error("bad indent at {0}")]
    BadIndent(u32),
    #[error("open string at {0}")]
    OpenString(u32),
    #[error("bad number at {0}")]
    BadNumber(u32),
    #[error("limit at {1}")]
    Limit(LimitKind, u32),
    #[error("out of memory")]
    NoMem,
}

impl From<NoMem> for TokenFault {
    ghost use Rattle.std.specs.Prelude.{◌≡◌};
    ghost use Rattle.rpy_token.specs.declared.fault.TokenFault.TheVariants.{NoMem};

    ghost from_gives = { λ _ fault. fault ≡ NoMem };

    fn from(_: NoMem) -> TokenFault {
        TokenFault::NoMem
    }
}
