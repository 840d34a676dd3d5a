// The exception slots are used alike, and nothing is raised or freed.
ghost use Rattle.std.specs.Prelude.{◌≡◌, slice_get};
ghost use Rattle.ll_points.specs.Agrees as spec;

use crate::leads::is_pointer_to;
use ll_code::{LlBlock, LlExit, LlGraph, LlOp, LlType, VarId};

/// The structs to which the two slots point.
pub type Pair = Option<(u64, u64)>;

fn pointed(kinds: &[LlType], a: VarId, b: VarId) -> Pair
    ensures { result ≡ spec.pointed (slice_get kinds.now a) (slice_get kinds.now b) }
{
    match (kinds.get(a as usize), kinds.get(b as usize)) {
        (Some(LlType::Ptr(k)), Some(LlType::Ptr(v))) => Some((*k, *v)),
        _ => None,
    }
}

fn slots_set(kinds: &[LlType], op: &LlOp) -> Pair
    ensures { result ≡ spec.slots_set kinds.now op.now }
{
    match op {
        LlOp::ExcSet(a, b) => pointed(kinds, *a, *b),
        _ => None,
    }
}

fn slots_in(kinds: &[LlType], ops: &[LlOp]) -> Pair
    ensures { result ≡ spec.slots_in kinds.now ops.now }
{
    for op in ops {
        let found = slots_set(kinds, op);
        if found.is_some() {
            return found;
        }
    }
    None
}

fn slots_within(kinds: &[LlType], blocks: &[LlBlock]) -> Pair
    ensures { result ≡ spec.slots_within kinds.now blocks.now }
{
    for block in blocks {
        let found = slots_in(kinds, block.ops.as_slice());
        if found.is_some() {
            return found;
        }
    }
    None
}

/// What the first operation that sets the slots lets them point to.
pub fn slots_among(graphs: &[LlGraph]) -> Pair
    ensures { result ≡ spec.slots_among graphs.now }
{
    for graph in graphs {
        let found = slots_within(graph.types.as_slice(), graph.blocks.as_slice());
        if found.is_some() {
            return found;
        }
    }
    None
}

fn op_agrees(slots: Pair, kinds: &[LlType], op: &LlOp) -> bool
    ensures { result ≡ spec.op_agrees slots kinds.now op.now }
{
    match (op, slots) {
        (LlOp::ExcSet(_, _), None) => false,
        (LlOp::ExcSet(a, b), Some((k, v))) => {
            is_pointer_to(kinds, *a, k) && is_pointer_to(kinds, *b, v)
        }
        (LlOp::ExcType(_, n), Some((k, _))) => *n == k,
        (LlOp::ExcValue(_, n), Some((_, v))) => *n == v,
        (LlOp::Raise(_), _) | (LlOp::Free(_), _) => false,
        _ => true,
    }
}

fn ops_agree(slots: Pair, kinds: &[LlType], ops: &[LlOp]) -> bool
    ensures { result ≡ spec.ops_agree slots kinds.now ops.now }
{
    for op in ops {
        if !op_agrees(slots, kinds, op) {
            return false;
        }
    }
    true
}

fn exit_agrees(exit: &LlExit) -> bool
    ensures { result ≡ spec.exit_agrees exit.now }
{
    match exit {
        LlExit::OnRaise(_, _, _) | LlExit::Raise(_) => false,
        _ => true,
    }
}

fn blocks_agree(slots: Pair, kinds: &[LlType], blocks: &[LlBlock]) -> bool
    ensures { result ≡ spec.blocks_agree slots kinds.now blocks.now }
{
    for block in blocks {
        if !ops_agree(slots, kinds, block.ops.as_slice()) || !exit_agrees(&block.exit) {
            return false;
        }
    }
    true
}

/// Whether what sets the slots, and what takes from them, has their types, and nothing is raised or
/// freed.
pub fn graphs_agree(slots: Pair, graphs: &[LlGraph]) -> bool
    ensures { result ≡ spec.graphs_agree slots graphs.now }
{
    for graph in graphs {
        if !blocks_agree(slots, graph.types.as_slice(), graph.blocks.as_slice()) {
            return false;
        }
    }
    true
}
