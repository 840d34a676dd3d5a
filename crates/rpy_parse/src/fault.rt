// Why tokens are no module.
use rpy_base::NoMem;
use thiserror::Error;

/// Why tokens are no module.
#[derive(Clone, Copy, Debug, PartialEq, Eq, Error)]
pub enum ParseFault {
    /// No module begins with the tokens up to and with this one, and some module begins with those
    /// before it. It is the number of tokens where they only end too early.
    #[error("syntax at {0}")]
    Syntax(u32),
    #[error("out of memory")]
    NoMem,
}

impl From<NoMem> for ParseFault {
    ghost use Rattle.std.specs.Prelude.{◌≡◌};
    ghost use Rattle.rpy_parse.specs.declared.fault.ParseFault.TheVariants.{NoMem};

    ghost from_gives = { λ _ fault. fault ≡ NoMem };

    fn from(_: NoMem) -> ParseFault {
        ParseFault::NoMem
    }
}

/// Why a rule was not read.
#[derive(Drop)]
pub enum Stop {
    /// The rule does not go on with the next token: how many tokens there are from it on.
    Dead(usize),
    NoMem,
}

impl From<NoMem> for Stop {
    ghost use Rattle.std.specs.Prelude.{◌≡◌};
    ghost use Rattle.rpy_parse.specs.declared.fault.Stop.TheVariants.{NoMem};

    ghost from_gives = { λ _ stop. stop ≡ NoMem };

    fn from(_: NoMem) -> Stop {
        Stop::NoMem
    }
}
