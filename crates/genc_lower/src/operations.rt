// Operations.
ghost use Rattle.std.specs.Prelude.{◌≡◌, ◌++◌, map, IfOk, OnOk};
ghost use Rattle.genc_lower.specs.Lower as spec;

use crate::order::{Order, function_of, operand, operands};
use crate::types::{c_result, c_types};
use csub_tree::CStmt;
use ll_code::LlOp;
use rpy_base::{NoMem, Seq};
use std::alloc::Global;

fn statement(alloc: Global, order: Order, operation: &LlOp) -> Result<CStmt, NoMem>
    ensures { IfOk result (λ made. made ≡ spec.statement order operation.now) }
{
    Ok(match operation {
        LlOp::Set(a, x) => CStmt::Set(*a, operand(order, *x)),
        LlOp::Unary(a, o, x) => CStmt::Unary(*a, *o, operand(order, *x)),
        LlOp::Binary(a, o, x, y) => {
            CStmt::Binary(*a, *o, operand(order, *x), operand(order, *y))
        }
        LlOp::GetField(a, n, b, k) => CStmt::GetField(*a, *n, *b, *k),
        LlOp::SetField(n, b, k, x) => CStmt::SetField(*n, *b, *k, operand(order, *x)),
        LlOp::GetItem(a, n, b, i) => CStmt::GetItem(*a, *n, *b, operand(order, *i)),
        LlOp::SetItem(n, b, i, x) => {
            CStmt::SetItem(*n, *b, operand(order, *i), operand(order, *x))
        }
        LlOp::New(a, m, n) => CStmt::New(*a, *m, *n),
        LlOp::NewArray(a, m, n, x) => CStmt::NewArray(*a, *m, *n, operand(order, *x)),
        LlOp::Free(a) => CStmt::Free(*a),
        LlOp::Step(x) => CStmt::Step(operand(order, *x)),
        LlOp::Call(into, g, xs) => CStmt::Call(
            *into,
            function_of(order, *g),
            operands(alloc, order, xs.as_slice())?,
        ),
        LlOp::CallFn(into, given, params, b, xs) => CStmt::CallFn(
            *into,
            c_result(*given),
            c_types(alloc, params.as_slice())?,
            *b,
            operands(alloc, order, xs.as_slice())?,
        ),
        LlOp::ExcType(a, n) => CStmt::ExcType(*a, *n),
        LlOp::ExcValue(a, n) => CStmt::ExcValue(*a, *n),
        LlOp::ExcSet(a, b) => CStmt::ExcSet(*a, *b),
        LlOp::ExcClear => CStmt::ExcClear,
        LlOp::Argc(a) => CStmt::Argc(*a),
        LlOp::ArgLen(a, x) => CStmt::ArgLen(*a, operand(order, *x)),
        LlOp::Arg(a, x, y) => CStmt::Arg(*a, operand(order, *x), operand(order, *y)),
        LlOp::Put(x) => CStmt::Put(operand(order, *x)),
        LlOp::Raise(_) => CStmt::ExcClear,
    })
}

pub fn push_operations(
    alloc: Global,
    order: Order,
    operations: &[LlOp],
    into: &mut Seq<CStmt>,
) -> Result<(), NoMem>
    ensures { OnOk result (into.new ≡ into.old ++ map (spec.statement order) operations.now) }
{
    for operation in operations {
        into.push(statement(alloc, order, operation)?)?;
    }
    Ok(())
}
