// Why growing stopped.
use rpy_base::NoMem;

/// A conflict stands in this cell, where none may; or there was no memory.
#[derive(Clone, Copy, Debug, PartialEq, Eq)]
pub enum Stop {
    Conflict(usize),
    NoMem,
}

impl From<NoMem> for Stop {
    ghost use Rattle.std.specs.Prelude.{◌≡◌};
    ghost use Rattle.ann_meets.specs.declared.stop.Stop.TheVariants.{NoMem};

    ghost from_gives = { λ _ stop. stop ≡ NoMem };

    fn from(_: NoMem) -> Stop {
        Stop::NoMem
    }
}
