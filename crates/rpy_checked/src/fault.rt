// Why a program is refused once its names are resolved.
ghost use Rattle.std.specs.Prelude.{◌≡◌};
ghost use Rattle.rpy_checked.specs.Words as spec;

use rpy_base::{NoMem, Text};

/// Why a program has no types.
#[derive(Clone, Copy, Debug, PartialEq, Eq)]
pub enum TypeKind {
    ConstantModified,
    MaybeUnbound,
    Family,
    EntryResult,
}

/// Where a program is refused: the place of its file, from 0, and the line, from 1.
#[derive(Drop)]
pub enum CheckFault {
    /// No annotation is free of conflict: the word for one that shows it, and the elements of its
    /// operands, each after a space.
    Conflict(u32, u32, Text),
    Typing(u32, u32, TypeKind),
    NoMem,
}

impl From<NoMem> for CheckFault {
    ghost use Rattle.std.specs.Prelude.{◌≡◌};
    ghost use Rattle.rpy_checked.specs.declared.fault.CheckFault.TheVariants.{NoMem};

    ghost from_gives = { λ _ fault. fault ≡ NoMem };

    fn from(_: NoMem) -> CheckFault {
        CheckFault::NoMem
    }
}

/// The words for a fault of types.
pub fn type_words(kind: TypeKind) -> &'static [u8]
    ensures { result.now ≡ spec.words_of kind }
{
    match kind {
        TypeKind::ConstantModified => b"constant modified".as_slice(),
        TypeKind::MaybeUnbound => b"maybe unbound".as_slice(),
        TypeKind::Family => b"family".as_slice(),
        TypeKind::EntryResult => b"entry point result".as_slice(),
    }
}
