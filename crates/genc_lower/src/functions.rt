// Functions and prototypes.
ghost use Rattle.std.specs.Prelude.{◌≡◌, ◌++◌, ◌∷◌, [], IfOk, OnOk, length, map, drop};
ghost use Rattle.ll_code.specs.Machine.{c_type as type_of_c};
ghost use Rattle.genc_lower.specs.Lower as spec;

use crate::blocks::blocks_of;
use crate::links::any_crosses;
use crate::order::Order;
use crate::types::{c_result, param_types, push_types};
use csub_tree::{CFunction, CPrototype, CType};
use ll_code::{LlGraph, LlType};
use rpy_base::{NoMem, Seq};
use std::alloc::Global;

fn behind(kinds: &[LlType], count: usize) -> &[LlType]
    ensures { result.now ≡ drop count kinds.now }
{
    if count < kinds.len() {
        &kinds[count..]
    } else {
        &[]
    }
}

fn push_waiting(graph: &LlGraph, into: &mut Seq<CType>) -> Result<(), NoMem>
    ensures { OnOk result (into.new ≡ into.old ++ spec.waiting_types graph.now) }
{
    if any_crosses(graph, graph.blocks.as_slice()) {
        push_types(graph.types.as_slice(), into)
    } else {
        Ok(())
    }
}

fn locals(alloc: Global, graph: &LlGraph) -> Result<Seq<CType>, NoMem>
    ensures { IfOk result (λ types. types ≡ map type_of_c (drop (length graph.now.params) graph.now.types) ++ spec.waiting_types graph.now) }
{
    let mut types = Seq::new(alloc);
    push_types(
        behind(graph.types.as_slice(), graph.params.len()),
        &mut types,
    )?;
    push_waiting(graph, &mut types)?;
    Ok(types)
}

pub fn function(alloc: Global, order: Order, graph: &LlGraph) -> Result<CFunction, NoMem>
    ensures { IfOk result (λ made. made ≡ spec.function_code order graph.now) }
{
    Ok(CFunction {
        name: graph.name.copy(alloc)?,
        result: c_result(graph.result),
        params: param_types(alloc, graph)?,
        locals: locals(alloc, graph)?,
        blocks: blocks_of(alloc, order, graph)?,
    })
}

pub fn prototype(alloc: Global, graph: &LlGraph) -> Result<CPrototype, NoMem>
    ensures { IfOk result (λ made. made ≡ spec.prototype graph.now) }
{
    Ok(CPrototype {
        result: c_result(graph.result),
        params: param_types(alloc, graph)?,
    })
}
