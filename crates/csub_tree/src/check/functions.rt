// Prototypes and functions.
ghost use Rattle.std.specs.Prelude.{◌≡◌, ◌<◌, ◌^◌, ◌++◌, slice_get, Some};
ghost use Rattle.csub_tree.specs.Checked as spec;

use crate::check::statements::blocks_ok;
use crate::check::types::{are_types, is_type_if_any, same_result, same_types};
use crate::tree::{CFile, CFunction, CPrototype, CStruct, CType};

fn is_name_byte(byte: u8) -> bool
    ensures { result ≡ spec.is_name_byte byte }
{
    (97 <= byte && byte <= 122)
        || (65 <= byte && byte <= 90)
        || (48 <= byte && byte <= 57)
        || byte == 95
        || byte == 46
}

fn is_name(bytes: &[u8]) -> bool
    ensures { result ≡ spec.is_name bytes.now }
{
    for byte in bytes {
        if !is_name_byte(*byte) {
            return false;
        }
    }
    true
}

fn declares(prototype: &CPrototype, function: &CFunction) -> bool
    ensures { result ≡ spec.is_declared function.now (Some prototype.now) }
{
    same_result(function.result, prototype.result)
        && same_types(function.params.as_slice(), prototype.params.as_slice())
}

fn is_declared(prototypes: &[CPrototype], n: u64, function: &CFunction) -> bool
    ensures { result ≡ spec.is_declared function.now (slice_get prototypes.now n) }
{
    match prototypes.get(n as usize) {
        None => false,
        Some(prototype) => declares(prototype, function),
    }
}

fn are_both_types(structs: &[CStruct], kinds: &[CType], more: &[CType]) -> bool
    ensures { result ≡ spec.are_types structs.now (kinds.now ++ more.now) }
{
    are_types(structs, kinds) && are_types(structs, more)
}

fn are_variables(structs: &[CStruct], function: &CFunction) -> bool
    ensures { result ≡ spec.are_types structs.now (spec.variables function.now) }
{
    are_both_types(
        structs,
        function.params.as_slice(),
        function.locals.as_slice(),
    )
}

fn begins_run(function: &CFunction) -> bool
    ensures { result ≡ spec.begins_run function.now }
{
    same_types(function.params.as_slice(), &[]) && same_result(function.result, Some(CType::Signed))
}

// The last function takes nothing and gives a Signed.
fn may_stand(file: &CFile, n: u64, function: &CFunction) -> bool
    requires { n < 2 ^ 63 }
    ensures { result ≡ spec.may_stand file.now n function.now }
{
    begins_run(function) || n + 1 < file.functions.len() as u64
}

pub fn function_ok(file: &CFile, n: u64, function: &CFunction) -> bool
    requires { n < 2 ^ 63 }
    ensures { result ≡ spec.function_ok file.now n function.now }
{
    is_name(function.name.bytes())
        && is_declared(file.prototypes.as_slice(), n, function)
        && are_variables(file.structs.as_slice(), function)
        && is_type_if_any(file.structs.as_slice(), function.result)
        && may_stand(file, n, function)
        && 0 < function.blocks.len()
        && blocks_ok(file, function, function.blocks.as_slice())
}

pub fn prototype_ok(file: &CFile, n: u64, prototype: &CPrototype) -> bool
    ensures { result ≡ spec.prototype_ok file.now n prototype.now }
{
    n < file.functions.len() as u64
        && are_types(file.structs.as_slice(), prototype.params.as_slice())
        && is_type_if_any(file.structs.as_slice(), prototype.result)
}
