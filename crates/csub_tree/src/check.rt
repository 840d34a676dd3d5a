// The rules that a file keeps.
ghost use Rattle.std.specs.Prelude.{◌≡◌, ◌+◌, ◌<◌, length, IfSome};
ghost use Rattle.csub_tree.specs.Checked as spec;

mod functions;
mod operands;
mod statements;
mod statics;
mod types;

use crate::tree::{CFile, CFunction, CPrototype, CStatic, CStruct};

fn bad_struct(structs: &[CStruct]) -> Option<u64>
    ensures value { result ≡ spec.first_bad (spec.struct_ok structs.now) 0 structs.now }
    ensures within { IfSome result (λ n. n < length structs.now) }
{
    for i in 0..structs.len() {
        if !types::struct_ok(structs, i as u64, &structs[i]) {
            return Some(i as u64);
        }
    }
    None
}

fn bad_prototype(file: &CFile, prototypes: &[CPrototype]) -> Option<u64>
    ensures value { result ≡ spec.first_bad (spec.prototype_ok file.now) 0 prototypes.now }
    ensures within { IfSome result (λ n. n < length prototypes.now) }
{
    for i in 0..prototypes.len() {
        if !functions::prototype_ok(file, i as u64, &prototypes[i]) {
            return Some(i as u64);
        }
    }
    None
}

fn bad_static(file: &CFile, statics: &[CStatic]) -> Option<u64>
    ensures value { result ≡ spec.first_bad (spec.static_ok file.now) 0 statics.now }
    ensures within { IfSome result (λ n. n < length statics.now) }
{
    for i in 0..statics.len() {
        if !statics::static_ok(file, i as u64, &statics[i]) {
            return Some(i as u64);
        }
    }
    None
}

fn bad_function(file: &CFile, functions: &[CFunction]) -> Option<u64>
    ensures value { result ≡ spec.first_bad (spec.function_ok file.now) 0 functions.now }
    ensures within { IfSome result (λ n. n < length functions.now) }
{
    for i in 0..functions.len() {
        if !functions::function_ok(file, i as u64, &functions[i]) {
            return Some(i as u64);
        }
    }
    None
}

// The number of the first declaration that breaks a rule.
fn first_unchecked(file: &CFile) -> Option<u64>
    ensures { result ≡ spec.first_unchecked file.now }
{
    let structs = file.structs.as_slice();
    let prototypes = file.prototypes.as_slice();
    let statics = file.statics.as_slice();
    let functions = file.functions.as_slice();
    if let Some(n) = bad_struct(structs) {
        return Some(1 + n);
    }
    let before = 1 + structs.len() as u64;
    if let Some(n) = bad_prototype(file, prototypes) {
        return Some(before + n);
    }
    let before = before + prototypes.len() as u64;
    if let Some(n) = bad_static(file, statics) {
        return Some(before + n);
    }
    let before = before + statics.len() as u64;
    if let Some(n) = bad_function(file, functions) {
        return Some(before + n);
    }
    if functions.is_empty() {
        Some(before)
    } else {
        None
    }
}

/// Whether each declaration of a file keeps the rules; otherwise the number of the first that
/// breaks one. Structs, prototypes, statics and functions are counted from 1 in this order, and a
/// file without functions breaks a rule after its last declaration.
pub fn checked(file: &CFile) -> Result<(), u64>
    ensures { spec.Answers result (spec.first_unchecked file.now) }
{
    match first_unchecked(file) {
        None => Ok(()),
        Some(number) => Err(number),
    }
}
