// Statements.
ghost use Rattle.std.specs.Prelude.{◌≡◌, ◌<◌, length, nat_lt, slice_get, Some};
ghost use Rattle.csub_tree.specs.Checked as spec;

use crate::check::operands::{all_taken, has_type, points, same_pointers, takes, type_of};
use crate::check::types::{are_types, begins, field_of, is_type_if_any, items_of};
use crate::tree::{CBinary, CFile, CFunction, COperand, CPrototype, CStmt, CStruct, CType, CUnary};
use rpy_base::Seq;

fn unary_takes(op: CUnary) -> CType
    ensures { result ≡ spec.unary_takes op }
{
    match op {
        CUnary::Neg => CType::Signed,
        CUnary::Inv => CType::Signed,
        CUnary::Not => CType::Bool,
        CUnary::C2S => CType::Char,
        CUnary::S2C => CType::Signed,
        CUnary::B2S => CType::Bool,
    }
}

fn unary_gives(op: CUnary) -> CType
    ensures { result ≡ spec.unary_gives op }
{
    match op {
        CUnary::Not => CType::Bool,
        CUnary::S2C => CType::Char,
        CUnary::Neg | CUnary::Inv | CUnary::C2S | CUnary::B2S => CType::Signed,
    }
}

fn binary_gives(op: CBinary) -> CType
    ensures { result ≡ spec.binary_gives op }
{
    match op {
        CBinary::AddOvf => CType::Bool,
        CBinary::SubOvf => CType::Bool,
        CBinary::MulOvf => CType::Bool,
        CBinary::ShlOvf => CType::Bool,
        CBinary::Eq => CType::Bool,
        CBinary::Ne => CType::Bool,
        CBinary::Lt => CType::Bool,
        CBinary::Le => CType::Bool,
        CBinary::Gt => CType::Bool,
        CBinary::Ge => CType::Bool,
        CBinary::Beq => CType::Bool,
        CBinary::Peq => CType::Bool,
        CBinary::Feq => CType::Bool,
        _ => CType::Signed,
    }
}

fn both_taken(file: &CFile, function: &CFunction, op: CBinary, x: COperand, y: COperand) -> bool
    ensures { result ≡ spec.both_taken file.now (spec.variables function.now) op x y }
{
    match op {
        CBinary::Beq => {
            takes(file, function, CType::Bool, x) && takes(file, function, CType::Bool, y)
        }
        CBinary::Peq => same_pointers(file, function, x, y),
        CBinary::Feq => takes(file, function, CType::Fn, x) && takes(file, function, CType::Fn, y),
        _ => takes(file, function, CType::Signed, x) && takes(file, function, CType::Signed, y),
    }
}

fn has_given(function: &CFunction, a: u64, given: Option<CType>) -> bool
    ensures { result ≡ spec.has_given (spec.variables function.now) a given }
{
    match given {
        None => false,
        Some(kind) => has_type(kind, type_of(function, a)),
    }
}

// What a call gives may be dropped.
fn result_ok(function: &CFunction, into: Option<u64>, given: Option<CType>) -> bool
    ensures { result ≡ spec.result_ok (spec.variables function.now) into given }
{
    match into {
        None => true,
        Some(a) => has_given(function, a, given),
    }
}

fn call_fits(
    file: &CFile,
    function: &CFunction,
    into: Option<u64>,
    callee: &CPrototype,
    xs: &[COperand],
) -> bool
    ensures { result ≡ spec.call_ok file.now (spec.variables function.now) into (Some callee.now) xs.now }
{
    result_ok(function, into, callee.result)
        && all_taken(file, function, callee.params.as_slice(), xs)
}

fn call(file: &CFile, function: &CFunction, into: Option<u64>, f: u64, xs: &Seq<COperand>) -> bool
    ensures { result ≡ spec.keeps file.now function.now (CStmt.Call into f xs.now) }
{
    match file.prototypes.get(f as usize) {
        None => false,
        Some(callee) => call_fits(file, function, into, callee, xs.as_slice()),
    }
}

fn given_takes(file: &CFile, function: &CFunction, given: Option<CType>, x: COperand) -> bool
    ensures { result ≡ spec.given_takes file.now (spec.variables function.now) given x }
{
    match given {
        None => false,
        Some(kind) => takes(file, function, kind, x),
    }
}

fn return_ok(file: &CFile, function: &CFunction, x: Option<COperand>) -> bool
    ensures { result ≡ spec.return_ok file.now (spec.variables function.now) function.now.result x }
{
    match (function.result, x) {
        (None, None) => true,
        (Some(kind), Some(x)) => takes(file, function, kind, x),
        _ => false,
    }
}

fn is_char(kind: Option<CType>) -> bool
    ensures { result ≡ spec.is_char kind }
{
    match kind {
        Some(CType::Char) => true,
        _ => false,
    }
}

fn names_chars(structs: &[CStruct], kind: Option<CType>) -> bool
    ensures { result ≡ spec.names_chars structs.now kind }
{
    match kind {
        Some(CType::Ptr(n)) => is_char(items_of(structs, n)),
        _ => false,
    }
}

fn unary(file: &CFile, function: &CFunction, a: u64, op: CUnary, x: COperand) -> bool
    ensures { result ≡ spec.keeps file.now function.now (CStmt.Unary a op x) }
{
    has_type(unary_gives(op), type_of(function, a)) && takes(file, function, unary_takes(op), x)
}

fn binary(file: &CFile, function: &CFunction, a: u64, op: CBinary, x: COperand, y: COperand) -> bool
    ensures { result ≡ spec.keeps file.now function.now (CStmt.Binary a op x y) }
{
    has_type(binary_gives(op), type_of(function, a)) && both_taken(file, function, op, x, y)
}

fn get_field(file: &CFile, function: &CFunction, a: u64, s: u64, b: u64, k: u64) -> bool
    ensures { result ≡ spec.keeps file.now function.now (CStmt.GetField a s b k) }
{
    points(type_of(function, b)) && has_given(function, a, field_of(file.structs.as_slice(), s, k))
}

fn set_field(file: &CFile, function: &CFunction, s: u64, b: u64, k: u64, x: COperand) -> bool
    ensures { result ≡ spec.keeps file.now function.now (CStmt.SetField s b k x) }
{
    points(type_of(function, b))
        && given_takes(file, function, field_of(file.structs.as_slice(), s, k), x)
}

fn get_item(file: &CFile, function: &CFunction, a: u64, s: u64, b: u64, i: COperand) -> bool
    ensures { result ≡ spec.keeps file.now function.now (CStmt.GetItem a s b i) }
{
    points(type_of(function, b))
        && takes(file, function, CType::Signed, i)
        && has_given(function, a, items_of(file.structs.as_slice(), s))
}

fn set_item(file: &CFile, function: &CFunction, s: u64, b: u64, i: COperand, x: COperand) -> bool
    ensures { result ≡ spec.keeps file.now function.now (CStmt.SetItem s b i x) }
{
    points(type_of(function, b))
        && takes(file, function, CType::Signed, i)
        && given_takes(file, function, items_of(file.structs.as_slice(), s), x)
}

fn new(file: &CFile, function: &CFunction, a: u64, m: u64, s: u64) -> bool
    ensures { result ≡ spec.keeps file.now function.now (CStmt.New a m s) }
{
    has_type(CType::Ptr(m), type_of(function, a))
        && begins(file.structs.as_slice(), s, m)
        && items_of(file.structs.as_slice(), s).is_none()
}

fn new_array(file: &CFile, function: &CFunction, a: u64, m: u64, s: u64, x: COperand) -> bool
    ensures { result ≡ spec.keeps file.now function.now (CStmt.NewArray a m s x) }
{
    has_type(CType::Ptr(m), type_of(function, a))
        && begins(file.structs.as_slice(), s, m)
        && items_of(file.structs.as_slice(), s).is_some()
        && takes(file, function, CType::Signed, x)
}

fn call_fn(
    file: &CFile,
    function: &CFunction,
    into: Option<u64>,
    given: Option<CType>,
    kinds: &Seq<CType>,
    b: u64,
    xs: &Seq<COperand>,
) -> bool
    ensures { result ≡ spec.keeps file.now function.now (CStmt.CallFn into given kinds.now b xs.now) }
{
    has_type(CType::Fn, type_of(function, b))
        && is_type_if_any(file.structs.as_slice(), given)
        && are_types(file.structs.as_slice(), kinds.as_slice())
        && result_ok(function, into, given)
        && all_taken(file, function, kinds.as_slice(), xs.as_slice())
}

fn reads_exception(file: &CFile, function: &CFunction, a: u64, s: u64) -> bool
    ensures { result ≡ spec.keeps file.now function.now (CStmt.ExcType a s) }
{
    s < file.structs.len() as u64 && has_type(CType::Ptr(s), type_of(function, a))
}

fn is_signed(function: &CFunction, a: u64) -> bool
    ensures { result ≡ spec.has_type CType.Signed (slice_get (spec.variables function.now) a) }
{
    has_type(CType::Signed, type_of(function, a))
}

fn takes_word(file: &CFile, function: &CFunction, x: COperand) -> bool
    ensures { result ≡ spec.takes file.now (spec.variables function.now) CType.Signed x }
{
    takes(file, function, CType::Signed, x)
}

fn arg(file: &CFile, function: &CFunction, a: u64, x: COperand, y: COperand) -> bool
    ensures { result ≡ spec.keeps file.now function.now (CStmt.Arg a x y) }
{
    is_signed(function, a) && takes_word(file, function, x) && takes_word(file, function, y)
}

fn is_block(function: &CFunction, b: u64) -> bool
    ensures { result ≡ nat_lt b (length function.now.blocks) }
{
    b < function.blocks.len() as u64
}

fn branch(file: &CFile, function: &CFunction, a: u64, b: u64, c: u64) -> bool
    ensures { result ≡ spec.keeps file.now function.now (CStmt.If a b c) }
{
    has_type(CType::Bool, type_of(function, a)) && is_block(function, b) && is_block(function, c)
}

/// Whether a statement of a function keeps the rules.
pub fn statement_ok(file: &CFile, function: &CFunction, statement: &CStmt) -> bool
    ensures { result ≡ spec.keeps file.now function.now statement.now }
{
    match statement {
        CStmt::Set(a, x) => given_takes(file, function, type_of(function, *a), *x),
        CStmt::Unary(a, op, x) => unary(file, function, *a, *op, *x),
        CStmt::Binary(a, op, x, y) => binary(file, function, *a, *op, *x, *y),
        CStmt::GetField(a, s, b, k) => get_field(file, function, *a, *s, *b, *k),
        CStmt::SetField(s, b, k, x) => set_field(file, function, *s, *b, *k, *x),
        CStmt::GetItem(a, s, b, i) => get_item(file, function, *a, *s, *b, *i),
        CStmt::SetItem(s, b, i, x) => set_item(file, function, *s, *b, *i, *x),
        CStmt::New(a, m, s) => new(file, function, *a, *m, *s),
        CStmt::NewArray(a, m, s, x) => new_array(file, function, *a, *m, *s, *x),
        CStmt::Free(a) => points(type_of(function, *a)),
        CStmt::Step(x) => takes_word(file, function, *x),
        CStmt::Call(into, f, xs) => call(file, function, *into, *f, xs),
        CStmt::CallFn(into, given, kinds, b, xs) => {
            call_fn(file, function, *into, *given, kinds, *b, xs)
        }
        CStmt::ExcType(a, s) => reads_exception(file, function, *a, *s),
        CStmt::ExcValue(a, s) => reads_exception(file, function, *a, *s),
        CStmt::ExcSet(a, b) => points(type_of(function, *a)) && points(type_of(function, *b)),
        CStmt::ExcClear => true,
        CStmt::Argc(a) => is_signed(function, *a),
        CStmt::ArgLen(a, x) => is_signed(function, *a) && takes_word(file, function, *x),
        CStmt::Arg(a, x, y) => arg(file, function, *a, *x, *y),
        CStmt::Put(x) => takes_word(file, function, *x),
        CStmt::Goto(b) => is_block(function, *b),
        CStmt::If(a, b, c) => branch(file, function, *a, *b, *c),
        CStmt::Return(x) => return_ok(file, function, *x),
        CStmt::Fail(n) => 1 <= *n && *n <= 5,
        CStmt::Raised(a) => names_chars(file.structs.as_slice(), type_of(function, *a)),
    }
}

fn is_end(statement: &CStmt) -> bool
    ensures { result ≡ spec.ends_block statement.now }
{
    match statement {
        CStmt::Goto(_) => true,
        CStmt::If(_, _, _) => true,
        CStmt::Return(_) => true,
        CStmt::Fail(_) => true,
        CStmt::Raised(_) => true,
        _ => false,
    }
}

fn block_ok(file: &CFile, function: &CFunction, statements: &[CStmt]) -> bool
    ensures { result ≡ spec.keeps_block file.now function.now statements.now }
{
    if statements.is_empty() {
        return false;
    }
    let last = statements.len() - 1;
    for i in 0..last {
        if is_end(&statements[i]) || !statement_ok(file, function, &statements[i]) {
            return false;
        }
    }
    is_end(&statements[last]) && statement_ok(file, function, &statements[last])
}

pub fn blocks_ok(file: &CFile, function: &CFunction, blocks: &[Seq<CStmt>]) -> bool
    ensures { result ≡ spec.keeps_blocks file.now function.now blocks.now }
{
    for block in blocks {
        if !block_ok(file, function, block.as_slice()) {
            return false;
        }
    }
    true
}
