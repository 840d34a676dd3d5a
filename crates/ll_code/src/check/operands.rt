// Constants, variables and operands.
ghost use Rattle.std.specs.Prelude.{◌≡◌, slice_get};
ghost use Rattle.csub_tree.specs.Checked.{kind_of as kind_named};
ghost use Rattle.ll_code.specs.Typed as spec;

use crate::check::types::{begins, same_type};
use crate::program::{LlGraph, LlProgram, LlStatic, LlStruct, LlType, VarId};
use csub_tree::{CConst, COperand};

fn kind_of(statics: &[LlStatic], g: u64) -> Option<u64>
    ensures { result ≡ kind_named (slice_get statics.now g) }
{
    match statics.get(g as usize) {
        None => None,
        Some(item) => Some(item.kind),
    }
}

fn is_cast(structs: &[LlStruct], kind: Option<u64>, s: u64) -> bool
    ensures { result ≡ spec.is_cast structs.now kind s }
{
    match kind {
        None => false,
        Some(kind) => begins(structs, kind, s),
    }
}

/// Whether a constant is of a type, where statics may be named whose number is below this one.
pub fn is_of(program: &LlProgram, below: u64, kind: LlType, constant: CConst) -> bool
    ensures { result ≡ spec.is_of program.now below kind constant }
{
    match (kind, constant) {
        (LlType::Signed, CConst::Word(_)) => true,
        (LlType::Char, CConst::Char(_)) => true,
        (LlType::Bool, CConst::Bool(_)) => true,
        (LlType::Fn, CConst::Null) => true,
        (LlType::Fn, CConst::Fun(f)) => f < program.graphs.len() as u64,
        (LlType::Ptr(_), CConst::Null) => true,
        (LlType::Ptr(n), CConst::Static(s, g)) => {
            n == s
                && g < below
                && is_cast(
                    program.structs.as_slice(),
                    kind_of(program.statics.as_slice(), g),
                    s,
                )
        }
        _ => false,
    }
}

fn is_of_any(program: &LlProgram, kind: LlType, constant: CConst) -> bool
    ensures { result ≡ spec.is_of_any program.now kind constant }
{
    is_of(program, program.statics.len() as u64, kind, constant)
}

/// The type of a variable.
pub fn type_of(graph: &LlGraph, a: u64) -> Option<LlType>
    ensures { result ≡ slice_get graph.now.types a }
{
    graph.types.get(a as usize).copied()
}

pub fn has_type(kind: LlType, found: Option<LlType>) -> bool
    ensures { result ≡ spec.has_type kind found }
{
    match found {
        None => false,
        Some(found) => same_type(kind, found),
    }
}

pub fn takes(program: &LlProgram, graph: &LlGraph, kind: LlType, x: COperand) -> bool
    ensures { result ≡ spec.takes program.now graph.now.types kind x }
{
    match x {
        COperand::Var(v) => has_type(kind, type_of(graph, v)),
        COperand::Const(constant) => is_of_any(program, kind, constant),
    }
}

pub fn all_taken(program: &LlProgram, graph: &LlGraph, kinds: &[LlType], xs: &[COperand]) -> bool
    ensures { result ≡ spec.all_taken program.now graph.now.types kinds.now xs.now }
{
    if kinds.len() != xs.len() {
        return false;
    }
    for i in 0..kinds.len() {
        if !takes(program, graph, kinds[i], xs[i]) {
            return false;
        }
    }
    true
}

pub fn points(kind: Option<LlType>) -> bool
    ensures { result ≡ spec.points kind }
{
    match kind {
        Some(LlType::Ptr(_)) => true,
        _ => false,
    }
}

fn pointer_type(kind: Option<LlType>) -> Option<Option<u64>>
    ensures { result ≡ spec.pointer_type kind }
{
    match kind {
        Some(LlType::Ptr(n)) => Some(Some(n)),
        _ => None,
    }
}

// The struct of an operand that could be compared as a pointer; `NULL` has none.
fn pointed(program: &LlProgram, graph: &LlGraph, x: COperand) -> Option<Option<u64>>
    ensures { result ≡ spec.pointed program.now graph.now.types x }
{
    match x {
        COperand::Var(v) => pointer_type(type_of(graph, v)),
        COperand::Const(CConst::Null) => Some(None),
        COperand::Const(CConst::Static(s, g)) => {
            if is_of_any(program, LlType::Ptr(s), CConst::Static(s, g)) {
                Some(Some(s))
            } else {
                None
            }
        }
        _ => None,
    }
}

fn same_structs(x: Option<Option<u64>>, y: Option<Option<u64>>) -> bool
    ensures { result ≡ spec.same_pointers x y }
{
    match (x, y) {
        (Some(Some(n)), Some(Some(m))) => n == m,
        (Some(_), Some(_)) => true,
        _ => false,
    }
}

/// Whether both are pointers of one type.
pub fn same_pointers(program: &LlProgram, graph: &LlGraph, x: COperand, y: COperand) -> bool
    ensures { result ≡ spec.same_pointers (spec.pointed program.now graph.now.types x) (spec.pointed program.now graph.now.types y) }
{
    same_structs(pointed(program, graph, x), pointed(program, graph, y))
}

/// Whether a type that is given takes the operand.
pub fn given_takes(program: &LlProgram, graph: &LlGraph, given: Option<LlType>, x: COperand) -> bool
    ensures { result ≡ spec.given_takes program.now graph.now.types given x }
{
    match given {
        None => false,
        Some(kind) => takes(program, graph, kind, x),
    }
}

/// Whether each of these variables of `other` takes its operand.
pub fn all_given(
    program: &LlProgram,
    graph: &LlGraph,
    other: &LlGraph,
    variables: &[VarId],
    xs: &[COperand],
) -> bool
    ensures { result ≡ spec.all_given program.now graph.now.types other.now.types variables.now xs.now }
{
    if variables.len() != xs.len() {
        return false;
    }
    for i in 0..variables.len() {
        if !given_takes(program, graph, type_of(other, variables[i]), xs[i]) {
            return false;
        }
    }
    true
}
