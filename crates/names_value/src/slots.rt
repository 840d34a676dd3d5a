// The values of the parts of an expression that wait for what takes them.
ghost use Rattle.std.specs.Prelude.{◌≡◌, IfOk, OnOk};
ghost use Rattle.names_value.specs.Slots as spec;

use rpy_base::{NoMem, Seq};
use rpy_tree::{Const, NodeId};
use std::alloc::Global;

/// The node of a part, and its value, if it has one.
#[derive(Drop)]
pub struct Slot {
    pub node: NodeId,
    pub value: Option<Const>,
}

/// The last part is taken.
#[tactic(auto, using(crate::proofs::Lasts::last_taken, crate::proofs::Lasts::last_is))]
pub fn take_slot(slots: &mut Seq<Slot>) -> Slot
    ensures slot { result ≡ spec.last_slot slots.old }
    ensures slots { slots.new ≡ spec.without_last slots.old }
{
    match slots.pop() {
        Some(slot) => slot,
        None => Slot {
            node: 0,
            value: None,
        },
    }
}

/// So many parts are taken, the last one first.
#[tactic(auto, using(crate::proofs::Lasts::taken_turn))]
pub fn take_slots(alloc: Global, slots: &mut Seq<Slot>, count: usize) -> Result<Seq<Slot>, NoMem>
    ensures taken { IfOk result (λ taken. taken ≡ (spec.take_slots count slots.old).0) }
    ensures slots { OnOk result (slots.new ≡ (spec.take_slots count slots.old).1) }
{
    let mut taken = Seq::new(alloc);
    for _turn in 0..count {
        taken.push(take_slot(slots))?;
    }
    Ok(taken)
}

/// So many parts are dropped.
#[tactic(auto, using(crate::proofs::Lasts::without_turn))]
pub fn drop_slots(slots: &mut Seq<Slot>, count: usize)
    ensures { slots.new ≡ spec.without count slots.old }
{
    for _turn in 0..count {
        let _slot = take_slot(slots);
    }
}

// A value after those.
fn with_value(values: Option<Seq<Const>>, value: Option<Const>) -> Result<Option<Seq<Const>>, NoMem>
    ensures { IfOk result (λ all. all ≡ spec.with_value values value) }
{
    match (values, value) {
        (Some(mut values), Some(value)) => {
            values.push(value)?;
            Ok(Some(values))
        }
        _ => Ok(None),
    }
}

/// The values of parts that were taken last one first, where each has one.
#[tactic(auto, using(crate::proofs::Lasts::values_turn))]
pub fn values_of(alloc: Global, taken: Seq<Slot>) -> Result<Option<Seq<Const>>, NoMem>
    ensures { IfOk result (λ values. values ≡ spec.values_of taken) }
{
    let count = taken.len();
    let mut taken = taken;
    let mut values = Some(Seq::new(alloc));
    for _turn in 0..count {
        let slot = take_slot(&mut taken);
        values = with_value(values, slot.value)?;
    }
    Ok(values)
}
