// References lead to root structs, and arrays of references have their numbers.
ghost use Rattle.std.specs.Prelude.{◌≡◌, ◌&&◌, slice_get};
ghost use Rattle.ll_code.specs.declared.program.LlType.TheVariants as type;
ghost use Rattle.refcount_transform.specs.Plan as p;
ghost use Rattle.refcount_transform.specs.Seen.{the_plan};
ghost use Rattle.ll_code.specs.Typed as typed;
ghost use Rattle.refcount_laws.specs.Made as made;
ghost use Rattle.refcount_typed.specs.Leads as spec;
ghost use Rattle.refcount_typed.specs.Numbered as numbered;

use ll_code::{LlBlock, LlGraph, LlOp, LlStruct, LlType, VarId};
use refcount_transform::{
    Plan, field_referred, items_referred, reference_given, referred, root_of,
};

fn is_root_given(plan: Plan<'_>, to: Option<u64>) -> bool
    ensures { result ≡ made.is_root_given (the_plan plan.entry) to }
{
    match to {
        None => true,
        Some(m) => root_of(plan, m) == m,
    }
}

fn all_lead(plan: Plan<'_>, kinds: &[LlType]) -> bool
    ensures { result ≡ made.all_lead (the_plan plan.entry) kinds.now }
{
    for kind in kinds {
        if !is_root_given(plan, referred(plan, *kind)) {
            return false;
        }
    }
    true
}

fn structs_lead(plan: Plan<'_>, structs: &[LlStruct]) -> bool
    ensures { result ≡ made.structs_lead (the_plan plan.entry) structs.now }
{
    for s in structs {
        if !all_lead(plan, s.fields.as_slice())
            || !is_root_given(plan, reference_given(plan.counted, s.items))
        {
            return false;
        }
    }
    true
}

fn begins_with_word(kinds: &[LlType]) -> bool
    ensures { result ≡ typed.has_type type.Signed (slice_get kinds.now 0) }
{
    match kinds.first() {
        Some(LlType::Signed) => true,
        _ => false,
    }
}

fn number_first(plan: Plan<'_>, s: &LlStruct) -> bool
    ensures { result ≡ numbered.number_first s.now.fields (p.reference_given (the_plan plan.entry).counted s.now.items) }
{
    match reference_given(plan.counted, s.items) {
        None => true,
        Some(_) => begins_with_word(s.fields.as_slice()),
    }
}

/// Whether the first field of its own of each struct of which the items are references is their number.
pub fn structs_numbered(plan: Plan<'_>, structs: &[LlStruct]) -> bool
    ensures { result ≡ numbered.structs_numbered (the_plan plan.entry) structs.now }
{
    for s in structs {
        if !number_first(plan, s) {
            return false;
        }
    }
    true
}

pub fn is_pointer_to(kinds: &[LlType], v: VarId, n: u64) -> bool
    ensures { result ≡ typed.has_type (type.Ptr n) (slice_get kinds.now v) }
{
    match kinds.get(v as usize) {
        Some(LlType::Ptr(m)) => n == *m,
        _ => false,
    }
}

fn stands_in_root(plan: Plan<'_>, kinds: &[LlType], n: u64, b: VarId, to: Option<u64>) -> bool
    ensures { result ≡ spec.stands_in_root (the_plan plan.entry) kinds.now n b to }
{
    match to {
        None => true,
        Some(_) => is_pointer_to(kinds, b, root_of(plan, n)),
    }
}

fn op_leads(plan: Plan<'_>, kinds: &[LlType], op: &LlOp) -> bool
    ensures { result ≡ spec.op_leads (the_plan plan.entry) kinds.now op.now }
{
    match op {
        LlOp::SetField(n, b, k, _) => {
            stands_in_root(plan, kinds, *n, *b, field_referred(plan, *n, *k))
        }
        LlOp::SetItem(n, b, _, _) | LlOp::NewArray(b, _, n, _) => {
            stands_in_root(plan, kinds, *n, *b, items_referred(plan, *n))
        }
        LlOp::CallFn(_, _, params, _, _) => all_lead(plan, params.as_slice()),
        _ => true,
    }
}

fn ops_lead(plan: Plan<'_>, kinds: &[LlType], ops: &[LlOp]) -> bool
    ensures { result ≡ spec.ops_lead (the_plan plan.entry) kinds.now ops.now }
{
    for op in ops {
        if !op_leads(plan, kinds, op) {
            return false;
        }
    }
    true
}

fn blocks_lead(plan: Plan<'_>, kinds: &[LlType], blocks: &[LlBlock]) -> bool
    ensures { result ≡ spec.blocks_lead (the_plan plan.entry) kinds.now blocks.now }
{
    for block in blocks {
        if !ops_lead(plan, kinds, block.ops.as_slice()) {
            return false;
        }
    }
    true
}

fn graph_leads(plan: Plan<'_>, graph: &LlGraph) -> bool
    ensures { result ≡ spec.graph_leads (the_plan plan.entry) graph.now }
{
    all_lead(plan, graph.types.as_slice())
        && is_root_given(plan, referred(plan, graph.result))
        && blocks_lead(plan, graph.types.as_slice(), graph.blocks.as_slice())
}

fn graphs_lead(plan: Plan<'_>, graphs: &[LlGraph]) -> bool
    ensures { result ≡ spec.graphs_lead (the_plan plan.entry) graphs.now }
{
    for graph in graphs {
        if !graph_leads(plan, graph) {
            return false;
        }
    }
    true
}

/// Whether references lead to root structs.
pub fn references_lead(plan: Plan<'_>, graphs: &[LlGraph]) -> bool
    ensures { result ≡ (made.structs_lead (the_plan plan.entry) (the_plan plan.entry).structs && spec.graphs_lead (the_plan plan.entry) graphs.now) }
{
    structs_lead(plan, plan.structs) && graphs_lead(plan, graphs)
}
