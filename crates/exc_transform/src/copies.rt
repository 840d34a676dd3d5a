// Copies of what holds lists.
ghost use Rattle.std.specs.Prelude.{◌≡◌, IfOk};
ghost use Rattle.exc_transform.specs.Explicit as spec;

use csub_tree::COperand;
use ll_code::{LlLink, LlOp, LlType, VarId};
use rpy_base::{NoMem, Seq};
use std::alloc::Global;

pub fn copy_operands(alloc: Global, xs: &[COperand]) -> Result<Seq<COperand>, NoMem>
    ensures { IfOk result (λ made. made ≡ xs.now) }
{
    let items = Vec::from_slice(alloc, xs)?;
    Ok(Seq::from_vec(items))
}

pub fn copy_types(alloc: Global, kinds: &[LlType]) -> Result<Seq<LlType>, NoMem>
    ensures { IfOk result (λ made. made ≡ kinds.now) }
{
    let items = Vec::from_slice(alloc, kinds)?;
    Ok(Seq::from_vec(items))
}

pub fn copy_variables(alloc: Global, variables: &[VarId]) -> Result<Seq<VarId>, NoMem>
    ensures { IfOk result (λ made. made ≡ variables.now) }
{
    let items = Vec::from_slice(alloc, variables)?;
    Ok(Seq::from_vec(items))
}

pub fn copy_link(alloc: Global, link: &LlLink) -> Result<LlLink, NoMem>
    ensures { IfOk result (λ made. made ≡ link.now) }
{
    Ok(LlLink {
        to: link.to,
        args: copy_operands(alloc, link.args.as_slice())?,
    })
}

// An operation that calls nothing, or else `ExcClear`.
fn copy_plain(op: &LlOp) -> LlOp
    ensures { result ≡ spec.plain op.now }
{
    match op {
        LlOp::Set(a, x) => LlOp::Set(*a, *x),
        LlOp::Unary(a, o, x) => LlOp::Unary(*a, *o, *x),
        LlOp::Binary(a, o, x, y) => LlOp::Binary(*a, *o, *x, *y),
        LlOp::GetField(a, n, b, k) => LlOp::GetField(*a, *n, *b, *k),
        LlOp::SetField(n, b, k, x) => LlOp::SetField(*n, *b, *k, *x),
        LlOp::GetItem(a, n, b, i) => LlOp::GetItem(*a, *n, *b, *i),
        LlOp::SetItem(n, b, i, x) => LlOp::SetItem(*n, *b, *i, *x),
        LlOp::New(a, m, n) => LlOp::New(*a, *m, *n),
        LlOp::NewArray(a, m, n, x) => LlOp::NewArray(*a, *m, *n, *x),
        LlOp::Free(a) => LlOp::Free(*a),
        LlOp::Step(x) => LlOp::Step(*x),
        LlOp::ExcType(a, n) => LlOp::ExcType(*a, *n),
        LlOp::ExcValue(a, n) => LlOp::ExcValue(*a, *n),
        LlOp::ExcSet(a, b) => LlOp::ExcSet(*a, *b),
        LlOp::Argc(a) => LlOp::Argc(*a),
        LlOp::ArgLen(a, x) => LlOp::ArgLen(*a, *x),
        LlOp::Arg(a, x, y) => LlOp::Arg(*a, *x, *y),
        LlOp::Put(x) => LlOp::Put(*x),
        LlOp::Raise(a) => LlOp::Raise(*a),
        LlOp::ExcClear | LlOp::Call(_, _, _) | LlOp::CallFn(_, _, _, _, _) => LlOp::ExcClear,
    }
}

pub fn copy_op(alloc: Global, op: &LlOp) -> Result<LlOp, NoMem>
    ensures { IfOk result (λ made. made ≡ op.now) }
{
    match op {
        LlOp::Call(to, graph, xs) => {
            let xs = copy_operands(alloc, xs.as_slice())?;
            Ok(LlOp::Call(*to, *graph, xs))
        }
        LlOp::CallFn(to, gives, params, b, xs) => {
            let params = copy_types(alloc, params.as_slice())?;
            let xs = copy_operands(alloc, xs.as_slice())?;
            Ok(LlOp::CallFn(*to, *gives, params, *b, xs))
        }
        _ => Ok(copy_plain(op)),
    }
}
