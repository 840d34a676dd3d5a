// The exception slots. Each owns a reference, where what it leads to is counted.
ghost use Rattle.std.specs.Prelude.{◌≡◌, IfOk, Some};
ghost use Rattle.refcount_transform.specs.Plan as p;

use crate::plan::{add, reference_given};
use ll_code::{LlBlock, LlGraph, LlOp, LlType, VarId};
use rpy_base::NoMem;

/// The structs that the first and the second slot refer to, where these are counted, and the number of
/// the graph that empties the slots.
#[derive(Clone, Copy)]
pub struct Slots {
    pub kind: Option<u64>,
    pub value: Option<u64>,
    pub clear: u64,
}

fn set_by_ops(ops: &[LlOp]) -> Option<(VarId, VarId)>
    ensures { result ≡ p.set_by_ops ops.now }
{
    for op in ops {
        if let LlOp::ExcSet(a, b) = op {
            return Some((*a, *b));
        }
    }
    None
}

fn set_by_blocks(blocks: &[LlBlock]) -> Option<(VarId, VarId)>
    ensures { result ≡ p.set_by_blocks blocks.now }
{
    for block in blocks {
        let found = set_by_ops(block.ops.as_slice());
        if found.is_some() {
            return found;
        }
    }
    None
}

// What a variable refers to.
fn referred_by(counted: &[bool], types: &[LlType], v: VarId) -> Option<u64>
    ensures { result ≡ p.referred_by counted.now types.now v }
{
    match types.get(v as usize) {
        None => None,
        Some(kind) => reference_given(counted, Some(*kind)),
    }
}

/// The slots of a program. All exceptions have one root struct, so that the first one tells it.
pub fn slots_of(counted: &[bool], graphs: &[LlGraph], clear: u64) -> Slots
    ensures { result ≡ p.slots_of counted.now graphs.now clear }
{
    for graph in graphs {
        if let Some((a, b)) = set_by_blocks(graph.blocks.as_slice()) {
            let types = graph.types.as_slice();
            return Slots {
                kind: referred_by(counted, types, a),
                value: referred_by(counted, types, b),
                clear,
            };
        }
    }
    Slots {
        kind: None,
        value: None,
        clear,
    }
}

/// Whether some slot owns a reference. The slots are emptied by a graph then.
pub fn own_some(slots: Slots) -> bool
    ensures { result ≡ p.own_some slots }
{
    slots.kind.is_some() || slots.value.is_some()
}

/// The number of the first graph behind that one, if there is one.
pub fn first_made(slots: Slots) -> Result<u64, NoMem>
    ensures { IfOk result (λ n. n ≡ p.behind slots) }
{
    if own_some(slots) {
        add(slots.clear, 1)
    } else {
        Ok(slots.clear)
    }
}
