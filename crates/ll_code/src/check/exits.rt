// Links and exits.
ghost use Rattle.std.specs.Prelude.{◌≡◌, slice_get, Some};
ghost use Rattle.ll_code.specs.Typed as spec;

use crate::check::operands::{all_given, has_type, points, takes, type_of};
use crate::check::operations::is_raw;
use crate::check::types::{is_void, items_of};
use crate::program::{LlBlock, LlExit, LlGraph, LlLink, LlProgram, LlStruct, LlType, VarId};
use csub_tree::COperand;

fn enters(program: &LlProgram, graph: &LlGraph, block: &LlBlock, xs: &[COperand]) -> bool
    ensures { result ≡ spec.enters program.now graph.now.types (Some block.now) xs.now }
{
    all_given(program, graph, graph, block.inputs.as_slice(), xs)
}

fn link_ok(program: &LlProgram, graph: &LlGraph, link: &LlLink) -> bool
    ensures { result ≡ spec.link_ok program.now graph.now link.now }
{
    match graph.blocks.get(link.to as usize) {
        None => false,
        Some(block) => enters(program, graph, block, link.args.as_slice()),
    }
}

fn link_if_any_ok(program: &LlProgram, graph: &LlGraph, link: &Option<LlLink>) -> bool
    ensures { result ≡ spec.link_if_any_ok program.now graph.now link.now }
{
    match link {
        None => true,
        Some(link) => link_ok(program, graph, link),
    }
}

fn branch_ok(
    program: &LlProgram,
    graph: &LlGraph,
    a: VarId,
    there: &LlLink,
    elsewhere: &LlLink,
) -> bool
    ensures { result ≡ spec.exit_ok program.now graph.now (LlExit.If a there.now elsewhere.now) }
{
    has_type(LlType::Bool, type_of(graph, a))
        && link_ok(program, graph, there)
        && link_ok(program, graph, elsewhere)
}

fn on_raise_ok(
    program: &LlProgram,
    graph: &LlGraph,
    a: VarId,
    by: &Option<LlLink>,
    without: &LlLink,
) -> bool
    ensures { result ≡ spec.exit_ok program.now graph.now (LlExit.OnRaise a by.now without.now) }
{
    is_raw(program.stage)
        && points(type_of(graph, a))
        && link_if_any_ok(program, graph, by)
        && link_ok(program, graph, without)
}

fn return_ok(program: &LlProgram, graph: &LlGraph, x: Option<COperand>) -> bool
    ensures { result ≡ spec.return_ok program.now graph.now x }
{
    match x {
        None => is_void(graph.result),
        Some(x) => takes(program, graph, graph.result, x),
    }
}

fn raise_ok(program: &LlProgram, graph: &LlGraph, a: VarId) -> bool
    ensures { result ≡ spec.exit_ok program.now graph.now (LlExit.Raise a) }
{
    is_raw(program.stage) && points(type_of(graph, a))
}

fn is_char(kind: Option<LlType>) -> bool
    ensures { result ≡ spec.is_char kind }
{
    match kind {
        Some(LlType::Char) => true,
        _ => false,
    }
}

fn names_chars(structs: &[LlStruct], kind: Option<LlType>) -> bool
    ensures { result ≡ spec.names_chars structs.now kind }
{
    match kind {
        Some(LlType::Ptr(n)) => is_char(items_of(structs, n)),
        _ => false,
    }
}

/// Whether the exit of a block keeps the rules.
pub fn exit_ok(program: &LlProgram, graph: &LlGraph, exit: &LlExit) -> bool
    ensures { result ≡ spec.exit_ok program.now graph.now exit.now }
{
    match exit {
        LlExit::Goto(link) => link_ok(program, graph, link),
        LlExit::If(a, there, elsewhere) => branch_ok(program, graph, *a, there, elsewhere),
        LlExit::OnRaise(a, by, without) => on_raise_ok(program, graph, *a, by, without),
        LlExit::Return(x) => return_ok(program, graph, *x),
        LlExit::Raise(a) => raise_ok(program, graph, *a),
        LlExit::Fail(n) => 1 <= *n && *n <= 5,
        LlExit::Raised(a) => names_chars(program.structs.as_slice(), type_of(graph, *a)),
    }
}
