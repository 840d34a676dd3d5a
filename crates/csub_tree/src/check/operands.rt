// Constants, variables and operands.
ghost use Rattle.std.specs.Prelude.{◌≡◌, ◌++◌, slice_get};
ghost use Rattle.csub_tree.specs.Checked as spec;

use crate::check::types::{begins, same_type};
use crate::tree::{CConst, CFile, CFunction, COperand, CStatic, CStruct, CType};

fn kind_of(statics: &[CStatic], g: u64) -> Option<u64>
    ensures { result ≡ spec.kind_of (slice_get statics.now g) }
{
    match statics.get(g as usize) {
        None => None,
        Some(item) => Some(item.kind),
    }
}

fn is_cast(structs: &[CStruct], kind: Option<u64>, s: u64) -> bool
    ensures { result ≡ spec.is_cast structs.now kind s }
{
    match kind {
        None => false,
        Some(kind) => begins(structs, kind, s),
    }
}

/// Whether a constant is of a type, where statics may be named whose number is below this one.
pub fn is_of(file: &CFile, below: u64, kind: CType, constant: CConst) -> bool
    ensures { result ≡ spec.is_of file.now below kind constant }
{
    match (kind, constant) {
        (CType::Signed, CConst::Word(_)) => true,
        (CType::Char, CConst::Char(_)) => true,
        (CType::Bool, CConst::Bool(_)) => true,
        (CType::Fn, CConst::Null) => true,
        (CType::Fn, CConst::Fun(f)) => f < file.prototypes.len() as u64,
        (CType::Ptr(_), CConst::Null) => true,
        (CType::Ptr(n), CConst::Static(s, g)) => {
            n == s
                && g < below
                && is_cast(
                    file.structs.as_slice(),
                    kind_of(file.statics.as_slice(), g),
                    s,
                )
        }
        _ => false,
    }
}

fn is_of_any(file: &CFile, kind: CType, constant: CConst) -> bool
    ensures { result ≡ spec.is_of_any file.now kind constant }
{
    is_of(file, file.statics.len() as u64, kind, constant)
}

/// The type of a variable.
pub fn type_of(function: &CFunction, a: u64) -> Option<CType>
    ensures { result ≡ slice_get (spec.variables function.now) a }
{
    let params = function.params.len() as u64;
    if a < params {
        return function.params.get(a as usize).copied();
    }
    function.locals.get((a - params) as usize).copied()
}

pub fn has_type(kind: CType, found: Option<CType>) -> bool
    ensures { result ≡ spec.has_type kind found }
{
    match found {
        None => false,
        Some(found) => same_type(kind, found),
    }
}

pub fn takes(file: &CFile, function: &CFunction, kind: CType, x: COperand) -> bool
    ensures { result ≡ spec.takes file.now (spec.variables function.now) kind x }
{
    match x {
        COperand::Var(v) => has_type(kind, type_of(function, v)),
        COperand::Const(constant) => is_of_any(file, kind, constant),
    }
}

pub fn all_taken(file: &CFile, function: &CFunction, kinds: &[CType], xs: &[COperand]) -> bool
    ensures { result ≡ spec.all_taken file.now (spec.variables function.now) kinds.now xs.now }
{
    if kinds.len() != xs.len() {
        return false;
    }
    for i in 0..kinds.len() {
        if !takes(file, function, kinds[i], xs[i]) {
            return false;
        }
    }
    true
}

pub fn points(kind: Option<CType>) -> bool
    ensures { result ≡ spec.points kind }
{
    match kind {
        Some(CType::Ptr(_)) => true,
        _ => false,
    }
}

fn pointer_type(kind: Option<CType>) -> Option<Option<u64>>
    ensures { result ≡ spec.pointer_type kind }
{
    match kind {
        Some(CType::Ptr(n)) => Some(Some(n)),
        _ => None,
    }
}

// The struct of an operand that could be compared as a pointer; `NULL` has none.
fn pointed(file: &CFile, function: &CFunction, x: COperand) -> Option<Option<u64>>
    ensures { result ≡ spec.pointed file.now (spec.variables function.now) x }
{
    match x {
        COperand::Var(v) => pointer_type(type_of(function, v)),
        COperand::Const(CConst::Null) => Some(None),
        COperand::Const(CConst::Static(s, g)) => {
            if is_of_any(file, CType::Ptr(s), CConst::Static(s, g)) {
                Some(Some(s))
            } else {
                None
            }
        }
        _ => None,
    }
}

fn same_structs(x: Option<Option<u64>>, y: Option<Option<u64>>) -> bool
    ensures { result ≡ spec.same_pointers x y }
{
    match (x, y) {
        (Some(Some(n)), Some(Some(m))) => n == m,
        (Some(_), Some(_)) => true,
        _ => false,
    }
}

/// Whether both are pointers of one type.
pub fn same_pointers(file: &CFile, function: &CFunction, x: COperand, y: COperand) -> bool
    ensures { result ≡ spec.same_pointers (spec.pointed file.now (spec.variables function.now) x) (spec.pointed file.now (spec.variables function.now) y) }
{
    same_structs(pointed(file, function, x), pointed(file, function, y))
}
