// Copies of what holds lists.
ghost use Rattle.std.specs.Prelude.{◌≡◌, IfOk};

use csub_tree::COperand;
use ll_code::{LlLink, LlStruct, LlType, VarId};
use rpy_base::{NoMem, Seq};
use std::alloc::Global;

pub fn copy_operands(alloc: Global, xs: &[COperand]) -> Result<Seq<COperand>, NoMem>
    ensures { IfOk result (λ made. made ≡ xs.now) }
{
    let items = Vec::from_slice(alloc, xs)?;
    Ok(Seq::from_vec(items))
}

pub fn copy_types(alloc: Global, kinds: &[LlType]) -> Result<Seq<LlType>, NoMem>
    ensures { IfOk result (λ made. made ≡ kinds.now) }
{
    let items = Vec::from_slice(alloc, kinds)?;
    Ok(Seq::from_vec(items))
}

pub fn copy_variables(alloc: Global, variables: &[VarId]) -> Result<Seq<VarId>, NoMem>
    ensures { IfOk result (λ made. made ≡ variables.now) }
{
    let items = Vec::from_slice(alloc, variables)?;
    Ok(Seq::from_vec(items))
}

pub fn copy_link(alloc: Global, link: &LlLink) -> Result<LlLink, NoMem>
    ensures { IfOk result (λ made. made ≡ link.now) }
{
    Ok(LlLink {
        to: link.to,
        args: copy_operands(alloc, link.args.as_slice())?,
    })
}

pub fn copy_struct(alloc: Global, s: &LlStruct) -> Result<LlStruct, NoMem>
    ensures { IfOk result (λ made. made ≡ s.now) }
{
    Ok(LlStruct {
        base: s.base,
        fields: copy_types(alloc, s.fields.as_slice())?,
        items: s.items,
    })
}
