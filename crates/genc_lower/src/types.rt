// Types and structs.
ghost use Rattle.std.specs.Prelude.{◌≡◌, ◌++◌, map, option_map, IfOk, OnOk};
ghost use Rattle.ll_code.specs.Machine.{c_type as type_of_c, c_result as result_of_c, param_types as types_of_params, type_or_word as or_word};
ghost use Rattle.genc_lower.specs.Lower as spec;

use csub_tree::{CStruct, CType};
use ll_code::{LlGraph, LlStruct, LlType};
use rpy_base::{NoMem, Seq};
use std::alloc::Global;

pub fn c_type(kind: LlType) -> CType
    ensures { result ≡ type_of_c kind }
{
    match kind {
        LlType::Signed => CType::Signed,
        LlType::Char => CType::Char,
        LlType::Bool => CType::Bool,
        LlType::Void => CType::Signed,
        LlType::Fn => CType::Fn,
        LlType::Ptr(n) => CType::Ptr(n),
    }
}

pub fn c_result(kind: LlType) -> Option<CType>
    ensures { result ≡ result_of_c kind }
{
    match kind {
        LlType::Void => None,
        _ => Some(c_type(kind)),
    }
}

pub fn push_types(kinds: &[LlType], into: &mut Seq<CType>) -> Result<(), NoMem>
    ensures { OnOk result (into.new ≡ into.old ++ map type_of_c kinds.now) }
{
    for kind in kinds {
        into.push(c_type(*kind))?;
    }
    Ok(())
}

pub fn c_types(alloc: Global, kinds: &[LlType]) -> Result<Seq<CType>, NoMem>
    ensures { IfOk result (λ types. types ≡ map type_of_c kinds.now) }
{
    let mut types = Seq::new(alloc);
    for kind in kinds {
        types.push(c_type(*kind))?;
    }
    Ok(types)
}

fn type_or_word(kind: Option<LlType>) -> CType
    ensures { result ≡ or_word kind }
{
    match kind {
        None => CType::Signed,
        Some(kind) => c_type(kind),
    }
}

pub fn param_types(alloc: Global, graph: &LlGraph) -> Result<Seq<CType>, NoMem>
    ensures { IfOk result (λ types. types ≡ types_of_params graph.now) }
{
    let mut types = Seq::new(alloc);
    for v in graph.params.as_slice() {
        types.push(type_or_word(graph.types.get(*v as usize).copied()))?;
    }
    Ok(types)
}

fn item_type(items: Option<LlType>) -> Option<CType>
    ensures { result ≡ option_map type_of_c items }
{
    match items {
        None => None,
        Some(kind) => Some(c_type(kind)),
    }
}

fn c_struct(alloc: Global, item: &LlStruct) -> Result<CStruct, NoMem>
    ensures { IfOk result (λ made. made ≡ spec.c_struct item.now) }
{
    Ok(CStruct {
        base: item.base,
        fields: c_types(alloc, item.fields.as_slice())?,
        items: item_type(item.items),
    })
}

pub fn c_structs(alloc: Global, structs: &[LlStruct]) -> Result<Seq<CStruct>, NoMem>
    ensures { IfOk result (λ made. made ≡ map spec.c_struct structs.now) }
{
    let mut made = Seq::new(alloc);
    for item in structs {
        made.push(c_struct(alloc, item)?)?;
    }
    Ok(made)
}
