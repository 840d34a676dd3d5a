// Reading the file that runs.
ghost use Rattle.std.specs.Prelude.{◌≡◌, ◌+◌, ◌<◌, ◌^◌, ◌++◌, slice_get, OnSome, ℕ};
ghost use Rattle.std.specs.Option.{option_copied};
ghost use Rattle.csub_tree.specs.Machine.{stmt_in, block_in, locals_of as locals_in};
ghost use Rattle.csub_tree.specs.Statement.{same_type as same_kind, same_types as same_kinds, same_result as same_given, type_in as type_of_var};

use csub_tree::{CFile, CFunction, CStmt, CType};
use rpy_base::Seq;

pub fn function_at(file: &CFile, number: u64) -> Option<&CFunction>
    ensures { option_copied result ≡ slice_get file.now.functions number }
{
    file.functions.get(number as usize)
}

/// The statement at a place.
#[inline(always)]
pub fn statement(file: &CFile, function: u64, block: u64, at: u64) -> Option<&CStmt>
    ensures is { option_copied result ≡ stmt_in (block_in (slice_get file.now.functions function) block) at }
    ensures within { OnSome result (at + 1 < 2 ^ 64) }
{
    let stmts = file
        .functions
        .get(function as usize)?
        .blocks
        .get(block as usize)?;
    if at < stmts.len() as u64 {
        stmts.get(at as usize)
    } else {
        None
    }
}

/// The statements of a block, none where there is no such block.
#[inline(always)]
pub fn statements_at(file: &CFile, function: u64, block: u64) -> &[CStmt]
    ensures { (at : ℕ) → slice_get result.now at ≡ stmt_in (block_in (slice_get file.now.functions function) block) at }
{
    match block_at(file, function, block) {
        Some(stmts) => stmts.as_slice(),
        None => &[],
    }
}

#[inline(always)]
fn block_at(file: &CFile, function: u64, block: u64) -> Option<&Seq<CStmt>>
    ensures { option_copied result ≡ block_in (slice_get file.now.functions function) block }
{
    file.functions
        .get(function as usize)?
        .blocks
        .get(block as usize)
}

/// The statement at a place of a block.
#[inline(always)]
pub fn statement_among(stmts: &[CStmt], at: u64) -> Option<&CStmt>
    ensures is { option_copied result ≡ slice_get stmts.now at }
    ensures within { OnSome result (at + 1 < 2 ^ 64) }
{
    if at < stmts.len() as u64 {
        stmts.get(at as usize)
    } else {
        None
    }
}

/// The type of a variable.
pub fn type_in(file: &CFile, number: u64, a: u64) -> Option<CType>
    ensures { result ≡ type_of_var (slice_get file.now.functions number) a }
{
    match function_at(file, number) {
        Some(function) => type_of(function, a),
        None => None,
    }
}

fn type_of(function: &CFunction, a: u64) -> Option<CType>
    ensures { result ≡ slice_get (function.now.params ++ function.now.locals) a }
{
    let params = function.params.len() as u64;
    if a < params {
        return function.params.get(a as usize).copied();
    }
    function.locals.get((a - params) as usize).copied()
}

fn same_type(s: CType, t: CType) -> bool
    ensures { result ≡ same_kind s t }
{
    match (s, t) {
        (CType::Signed, CType::Signed) => true,
        (CType::Char, CType::Char) => true,
        (CType::Bool, CType::Bool) => true,
        (CType::Fn, CType::Fn) => true,
        (CType::Ptr(m), CType::Ptr(n)) => m == n,
        _ => false,
    }
}

pub fn same_types(ss: &[CType], ts: &[CType]) -> bool
    ensures { result ≡ same_kinds ss.now ts.now }
{
    for i in 0..ss.len() {
        if i >= ts.len() || !same_type(ss[i], ts[i]) {
            return false;
        }
    }
    ss.len() == ts.len()
}

pub fn same_result(s: Option<CType>, t: Option<CType>) -> bool
    ensures { result ≡ same_given s t }
{
    match (s, t) {
        (None, None) => true,
        (Some(s), Some(t)) => same_type(s, t),
        _ => false,
    }
}

/// The variables of a function that are no parameters.
pub fn locals_of(file: &CFile, number: u64) -> u64
    ensures { result ≡ locals_in (slice_get file.now.functions number) }
{
    match function_at(file, number) {
        Some(function) => function.locals.len() as u64,
        None => 0,
    }
}
