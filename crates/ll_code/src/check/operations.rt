// Operations.
ghost use Rattle.std.specs.Prelude.{◌≡◌, slice_get, Some};
ghost use Rattle.ll_code.specs.Typed as spec;

use crate::check::operands::{
    all_given, all_taken, given_takes, has_type, points, same_pointers, takes, type_of,
};
use crate::check::types::{are_types, begins, field_of, is_kind, items_of};
use crate::program::{LlGraph, LlOp, LlProgram, LlStage, LlType, VarId};
use csub_tree::{CBinary, COperand, CUnary};
use rpy_base::Seq;

fn unary_takes(op: CUnary) -> LlType
    ensures { result ≡ spec.unary_takes op }
{
    match op {
        CUnary::Neg => LlType::Signed,
        CUnary::Inv => LlType::Signed,
        CUnary::Not => LlType::Bool,
        CUnary::C2S => LlType::Char,
        CUnary::S2C => LlType::Signed,
        CUnary::B2S => LlType::Bool,
    }
}

fn unary_gives(op: CUnary) -> LlType
    ensures { result ≡ spec.unary_gives op }
{
    match op {
        CUnary::Not => LlType::Bool,
        CUnary::S2C => LlType::Char,
        CUnary::Neg | CUnary::Inv | CUnary::C2S | CUnary::B2S => LlType::Signed,
    }
}

fn binary_gives(op: CBinary) -> LlType
    ensures { result ≡ spec.binary_gives op }
{
    match op {
        CBinary::AddOvf => LlType::Bool,
        CBinary::SubOvf => LlType::Bool,
        CBinary::MulOvf => LlType::Bool,
        CBinary::ShlOvf => LlType::Bool,
        CBinary::Eq => LlType::Bool,
        CBinary::Ne => LlType::Bool,
        CBinary::Lt => LlType::Bool,
        CBinary::Le => LlType::Bool,
        CBinary::Gt => LlType::Bool,
        CBinary::Ge => LlType::Bool,
        CBinary::Beq => LlType::Bool,
        CBinary::Peq => LlType::Bool,
        CBinary::Feq => LlType::Bool,
        _ => LlType::Signed,
    }
}

fn both_taken(program: &LlProgram, graph: &LlGraph, op: CBinary, x: COperand, y: COperand) -> bool
    ensures { result ≡ spec.both_taken program.now graph.now.types op x y }
{
    match op {
        CBinary::Beq => {
            takes(program, graph, LlType::Bool, x) && takes(program, graph, LlType::Bool, y)
        }
        CBinary::Peq => same_pointers(program, graph, x, y),
        CBinary::Feq => takes(program, graph, LlType::Fn, x)
            && takes(program, graph, LlType::Fn, y),
        _ => takes(program, graph, LlType::Signed, x) && takes(program, graph, LlType::Signed, y),
    }
}

fn has_given(graph: &LlGraph, a: u64, given: Option<LlType>) -> bool
    ensures { result ≡ spec.has_given graph.now.types a given }
{
    match given {
        None => false,
        Some(kind) => has_type(kind, type_of(graph, a)),
    }
}

// What a call gives may be dropped.
fn result_ok(graph: &LlGraph, into: Option<VarId>, given: LlType) -> bool
    ensures { result ≡ spec.result_ok graph.now.types into given }
{
    match into {
        None => true,
        Some(a) => has_type(given, type_of(graph, a)),
    }
}

fn call_fits(
    program: &LlProgram,
    graph: &LlGraph,
    into: Option<VarId>,
    callee: &LlGraph,
    xs: &[COperand],
) -> bool
    ensures { result ≡ spec.call_ok program.now graph.now.types into (Some callee.now) xs.now }
{
    result_ok(graph, into, callee.result)
        && all_given(program, graph, callee, callee.params.as_slice(), xs)
}

fn call(
    program: &LlProgram,
    graph: &LlGraph,
    into: Option<VarId>,
    f: u64,
    xs: &Seq<COperand>,
) -> bool
    ensures { result ≡ spec.operation_ok program.now graph.now.types (LlOp.Call into f xs.now) }
{
    match program.graphs.get(f as usize) {
        None => false,
        Some(callee) => call_fits(program, graph, into, callee, xs.as_slice()),
    }
}

fn unary(program: &LlProgram, graph: &LlGraph, a: u64, op: CUnary, x: COperand) -> bool
    ensures { result ≡ spec.operation_ok program.now graph.now.types (LlOp.Unary a op x) }
{
    has_type(unary_gives(op), type_of(graph, a)) && takes(program, graph, unary_takes(op), x)
}

fn binary(
    program: &LlProgram,
    graph: &LlGraph,
    a: u64,
    op: CBinary,
    x: COperand,
    y: COperand,
) -> bool
    ensures { result ≡ spec.operation_ok program.now graph.now.types (LlOp.Binary a op x y) }
{
    has_type(binary_gives(op), type_of(graph, a)) && both_taken(program, graph, op, x, y)
}

fn get_field(program: &LlProgram, graph: &LlGraph, a: u64, s: u64, b: u64, k: u64) -> bool
    ensures { result ≡ spec.operation_ok program.now graph.now.types (LlOp.GetField a s b k) }
{
    points(type_of(graph, b)) && has_given(graph, a, field_of(program.structs.as_slice(), s, k))
}

fn set_field(program: &LlProgram, graph: &LlGraph, s: u64, b: u64, k: u64, x: COperand) -> bool
    ensures { result ≡ spec.operation_ok program.now graph.now.types (LlOp.SetField s b k x) }
{
    points(type_of(graph, b))
        && given_takes(
            program,
            graph,
            field_of(program.structs.as_slice(), s, k),
            x,
        )
}

fn get_item(program: &LlProgram, graph: &LlGraph, a: u64, s: u64, b: u64, i: COperand) -> bool
    ensures { result ≡ spec.operation_ok program.now graph.now.types (LlOp.GetItem a s b i) }
{
    points(type_of(graph, b))
        && takes(program, graph, LlType::Signed, i)
        && has_given(graph, a, items_of(program.structs.as_slice(), s))
}

fn set_item(program: &LlProgram, graph: &LlGraph, s: u64, b: u64, i: COperand, x: COperand) -> bool
    ensures { result ≡ spec.operation_ok program.now graph.now.types (LlOp.SetItem s b i x) }
{
    points(type_of(graph, b))
        && takes(program, graph, LlType::Signed, i)
        && given_takes(program, graph, items_of(program.structs.as_slice(), s), x)
}

fn new(program: &LlProgram, graph: &LlGraph, a: u64, m: u64, s: u64) -> bool
    ensures { result ≡ spec.operation_ok program.now graph.now.types (LlOp.New a m s) }
{
    has_type(LlType::Ptr(m), type_of(graph, a))
        && begins(program.structs.as_slice(), s, m)
        && items_of(program.structs.as_slice(), s).is_none()
}

fn new_array(program: &LlProgram, graph: &LlGraph, a: u64, m: u64, s: u64, x: COperand) -> bool
    ensures { result ≡ spec.operation_ok program.now graph.now.types (LlOp.NewArray a m s x) }
{
    has_type(LlType::Ptr(m), type_of(graph, a))
        && begins(program.structs.as_slice(), s, m)
        && items_of(program.structs.as_slice(), s).is_some()
        && takes(program, graph, LlType::Signed, x)
}

fn call_fn(
    program: &LlProgram,
    graph: &LlGraph,
    into: Option<VarId>,
    given: LlType,
    kinds: &Seq<LlType>,
    b: VarId,
    xs: &Seq<COperand>,
) -> bool
    ensures { result ≡ spec.operation_ok program.now graph.now.types (LlOp.CallFn into given kinds.now b xs.now) }
{
    has_type(LlType::Fn, type_of(graph, b))
        && is_kind(program.structs.as_slice(), given)
        && are_types(program.structs.as_slice(), kinds.as_slice())
        && result_ok(graph, into, given)
        && all_taken(program, graph, kinds.as_slice(), xs.as_slice())
}

fn reads_exception(program: &LlProgram, graph: &LlGraph, a: u64, s: u64) -> bool
    ensures { result ≡ spec.operation_ok program.now graph.now.types (LlOp.ExcType a s) }
{
    s < program.structs.len() as u64 && has_type(LlType::Ptr(s), type_of(graph, a))
}

fn is_signed(graph: &LlGraph, a: u64) -> bool
    ensures { result ≡ spec.has_type LlType.Signed (slice_get graph.now.types a) }
{
    has_type(LlType::Signed, type_of(graph, a))
}

fn takes_word(program: &LlProgram, graph: &LlGraph, x: COperand) -> bool
    ensures { result ≡ spec.takes program.now graph.now.types LlType.Signed x }
{
    takes(program, graph, LlType::Signed, x)
}

fn arg(program: &LlProgram, graph: &LlGraph, a: u64, x: COperand, y: COperand) -> bool
    ensures { result ≡ spec.operation_ok program.now graph.now.types (LlOp.Arg a x y) }
{
    is_signed(graph, a) && takes_word(program, graph, x) && takes_word(program, graph, y)
}

fn is_counted(stage: LlStage) -> bool
    ensures { result ≡ spec.is_counted stage }
{
    match stage {
        LlStage::Counted => true,
        LlStage::Raw | LlStage::Explicit => false,
    }
}

pub fn is_raw(stage: LlStage) -> bool
    ensures { result ≡ spec.is_raw stage }
{
    match stage {
        LlStage::Raw => true,
        LlStage::Explicit | LlStage::Counted => false,
    }
}

fn free(program: &LlProgram, graph: &LlGraph, a: VarId) -> bool
    ensures { result ≡ spec.operation_ok program.now graph.now.types (LlOp.Free a) }
{
    is_counted(program.stage) && points(type_of(graph, a))
}

fn raise(program: &LlProgram, graph: &LlGraph, a: VarId) -> bool
    ensures { result ≡ spec.operation_ok program.now graph.now.types (LlOp.Raise a) }
{
    is_raw(program.stage) && points(type_of(graph, a))
}

/// Whether an operation of a graph keeps the rules.
fn operation_ok(program: &LlProgram, graph: &LlGraph, operation: &LlOp) -> bool
    ensures { result ≡ spec.operation_ok program.now graph.now.types operation.now }
{
    match operation {
        LlOp::Set(a, x) => given_takes(program, graph, type_of(graph, *a), *x),
        LlOp::Unary(a, op, x) => unary(program, graph, *a, *op, *x),
        LlOp::Binary(a, op, x, y) => binary(program, graph, *a, *op, *x, *y),
        LlOp::GetField(a, s, b, k) => get_field(program, graph, *a, *s, *b, *k),
        LlOp::SetField(s, b, k, x) => set_field(program, graph, *s, *b, *k, *x),
        LlOp::GetItem(a, s, b, i) => get_item(program, graph, *a, *s, *b, *i),
        LlOp::SetItem(s, b, i, x) => set_item(program, graph, *s, *b, *i, *x),
        LlOp::New(a, m, s) => new(program, graph, *a, *m, *s),
        LlOp::NewArray(a, m, s, x) => new_array(program, graph, *a, *m, *s, *x),
        LlOp::Free(a) => free(program, graph, *a),
        LlOp::Step(x) => takes_word(program, graph, *x),
        LlOp::Call(into, f, xs) => call(program, graph, *into, *f, xs),
        LlOp::CallFn(into, given, kinds, b, xs) => {
            call_fn(program, graph, *into, *given, kinds, *b, xs)
        }
        LlOp::ExcType(a, s) => reads_exception(program, graph, *a, *s),
        LlOp::ExcValue(a, s) => reads_exception(program, graph, *a, *s),
        LlOp::ExcSet(a, b) => points(type_of(graph, *a)) && points(type_of(graph, *b)),
        LlOp::ExcClear => true,
        LlOp::Argc(a) => is_signed(graph, *a),
        LlOp::ArgLen(a, x) => is_signed(graph, *a) && takes_word(program, graph, *x),
        LlOp::Arg(a, x, y) => arg(program, graph, *a, *x, *y),
        LlOp::Put(x) => takes_word(program, graph, *x),
        LlOp::Raise(a) => raise(program, graph, *a),
    }
}

pub fn operations_ok(program: &LlProgram, graph: &LlGraph, operations: &[LlOp]) -> bool
    ensures { result ≡ spec.operations_ok program.now graph.now.types operations.now }
{
    for operation in operations {
        if !operation_ok(program, graph, operation) {
            return false;
        }
    }
    true
}
