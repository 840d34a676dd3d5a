// What sets, tests and clears the exception slots.
ghost use Rattle.std.specs.Prelude.{◌≡◌, ◌++◌, OnOk, IfOk};
ghost use Rattle.exc_transform.specs.Explicit as spec;

use crate::family::{Family, kind_of, led_to};
use csub_tree::{CBinary, CConst, COperand};
use ll_code::{LlExit, LlOp, LlType, VarId};
use rpy_base::{NoMem, Seq};

/// The exceptions, the types of the variables of a graph, and the two variables of its own for the tests.
#[derive(Clone, Copy)]
pub struct Slots<'a> {
    pub family: Family,
    pub types: &'a [LlType],
    pub kind: VarId,
    pub test: VarId,
}

/// A value of the type, which nothing reads.
pub fn default_of(kind: LlType) -> Option<COperand>
    ensures { result ≡ spec.default_of kind }
{
    match kind {
        LlType::Signed => Some(COperand::Const(CConst::Word(0))),
        LlType::Char => Some(COperand::Const(CConst::Char(0))),
        LlType::Bool => Some(COperand::Const(CConst::Bool(false))),
        LlType::Void => None,
        LlType::Fn | LlType::Ptr(_) => Some(COperand::Const(CConst::Null)),
    }
}

/// The variable's exception stands in the slots.
pub fn push_raise(slots: Slots<'_>, v: VarId, into: &mut Seq<LlOp>) -> Result<(), NoMem>
    ensures { OnOk result (into.new ≡ into.old ++ spec.raising slots.entry.family slots.entry.kind v) }
{
    match slots.family.kind {
        None => into.push(LlOp::ExcSet(v, v)),
        Some(_) => {
            into.push(LlOp::GetField(slots.kind, slots.family.root, v, 0))?;
            into.push(LlOp::ExcSet(slots.kind, v))
        }
    }
}

/// Whether no exception stands in the slots.
pub fn push_test(slots: Slots<'_>, into: &mut Seq<LlOp>) -> Result<(), NoMem>
    ensures { OnOk result (into.new ≡ into.old ++ spec.testing slots.entry.family slots.entry.kind slots.entry.test) }
{
    let null = COperand::Const(CConst::Null);
    into.push(LlOp::ExcType(slots.kind, kind_of(slots.family)))?;
    into.push(LlOp::Binary(slots.test, CBinary::Peq, COperand::Var(slots.kind), null))
}

fn led_or_root(slots: Slots<'_>, a: VarId) -> u64
    ensures { result ≡ spec.or_else slots.entry.family.root (spec.led_to slots.entry.types.now a) }
{
    match led_to(slots.types, a) {
        None => slots.family.root,
        Some(n) => n,
    }
}

/// The variable takes the exception out of the slots.
pub fn push_taken(slots: Slots<'_>, a: VarId, into: &mut Seq<LlOp>) -> Result<(), NoMem>
    ensures { OnOk result (into.new ≡ into.old ++ spec.taking slots.entry.family slots.entry.types.now a) }
{
    into.push(LlOp::ExcValue(a, led_or_root(slots, a)))?;
    into.push(LlOp::ExcClear)
}

/// A variable takes the exception of another. One of another type takes it by the slots.
pub fn push_given(slots: Slots<'_>, a: VarId, v: VarId, into: &mut Seq<LlOp>) -> Result<(), NoMem>
    ensures { OnOk result (into.new ≡ into.old ++ spec.giving slots.entry.family slots.entry.types.now slots.entry.kind a v) }
{
    if led_to(slots.types, a) == led_to(slots.types, v) {
        into.push(LlOp::Set(a, COperand::Var(v)))
    } else {
        push_raise(slots, v, into)?;
        push_taken(slots, a, into)
    }
}
