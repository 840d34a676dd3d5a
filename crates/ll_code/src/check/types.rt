// Types and structs.
ghost use Rattle.std.specs.Prelude.{◌≡◌, ◌<◌, slice_get};
ghost use Rattle.ll_code.specs.Typed as spec;

use crate::program::{LlStruct, LlType};

pub fn same_type(s: LlType, t: LlType) -> bool
    ensures { result ≡ spec.same_type s t }
{
    match (s, t) {
        (LlType::Signed, LlType::Signed) => true,
        (LlType::Char, LlType::Char) => true,
        (LlType::Bool, LlType::Bool) => true,
        (LlType::Fn, LlType::Fn) => true,
        (LlType::Ptr(m), LlType::Ptr(n)) => m == n,
        _ => false,
    }
}

fn is_type(structs: &[LlStruct], kind: LlType) -> bool
    ensures { result ≡ spec.is_type structs.now kind }
{
    match kind {
        LlType::Ptr(n) => n < structs.len() as u64,
        LlType::Void => false,
        LlType::Signed | LlType::Char | LlType::Bool | LlType::Fn => true,
    }
}

pub fn are_types(structs: &[LlStruct], kinds: &[LlType]) -> bool
    ensures { result ≡ spec.are_types structs.now kinds.now }
{
    for kind in kinds {
        if !is_type(structs, *kind) {
            return false;
        }
    }
    true
}

/// Whether a variable, or the result of a graph, may have the type.
pub fn is_kind(structs: &[LlStruct], kind: LlType) -> bool
    ensures { result ≡ spec.is_kind structs.now kind }
{
    match kind {
        LlType::Void => true,
        _ => is_type(structs, kind),
    }
}

pub fn are_kinds(structs: &[LlStruct], kinds: &[LlType]) -> bool
    ensures { result ≡ spec.are_kinds structs.now kinds.now }
{
    for kind in kinds {
        if !is_kind(structs, *kind) {
            return false;
        }
    }
    true
}

pub fn is_type_given(structs: &[LlStruct], kind: Option<LlType>) -> bool
    ensures { result ≡ spec.is_type_given structs.now kind }
{
    match kind {
        None => false,
        Some(kind) => is_type(structs, kind),
    }
}

fn is_type_if_any(structs: &[LlStruct], kind: Option<LlType>) -> bool
    ensures { result ≡ spec.is_type_if_any structs.now kind }
{
    match kind {
        None => true,
        Some(kind) => is_type(structs, kind),
    }
}

fn base_of(structs: &[LlStruct], n: u64) -> Option<u64>
    ensures { result ≡ spec.base_of (slice_get structs.now n) }
{
    match structs.get(n as usize) {
        None => None,
        Some(item) => item.base,
    }
}

pub fn items_of(structs: &[LlStruct], n: u64) -> Option<LlType>
    ensures { result ≡ spec.items_of (slice_get structs.now n) }
{
    match structs.get(n as usize) {
        None => None,
        Some(item) => item.items,
    }
}

// A base has a smaller number, so the chain of bases ends within as many looks.
fn begins_within(structs: &[LlStruct], n: u64, m: u64) -> bool
    ensures { result ≡ spec.begins_within structs.now n n m }
{
    let mut at = n;
    for _i in 0..n {
        if at == m {
            return true;
        }
        match base_of(structs, at) {
            None => return false,
            Some(base) => at = base,
        }
    }
    at == m
}

/// Whether struct n is m or begins with m.
pub fn begins(structs: &[LlStruct], n: u64, m: u64) -> bool
    ensures { result ≡ spec.begins structs.now n m }
{
    n < structs.len() as u64 && begins_within(structs, n, m)
}

fn is_base(structs: &[LlStruct], n: u64, base: Option<u64>) -> bool
    ensures { result ≡ spec.is_base structs.now n base }
{
    match base {
        None => true,
        Some(m) => m < n && items_of(structs, m).is_none(),
    }
}

fn struct_ok(structs: &[LlStruct], n: u64, item: &LlStruct) -> bool
    ensures { result ≡ spec.struct_ok structs.now n item.now }
{
    is_base(structs, n, item.base)
        && are_types(structs, item.fields.as_slice())
        && is_type_if_any(structs, item.items)
}

// With a base, field 0 is the base and has no type.
fn own_field(item: &LlStruct, k: u64) -> Option<LlType>
    ensures { result ≡ spec.own_field item.now item.now.base k }
{
    match item.base {
        None => item.fields.get(k as usize).copied(),
        Some(_) => {
            if k == 0 {
                None
            } else {
                item.fields.get((k - 1) as usize).copied()
            }
        }
    }
}

/// The type of a field of a struct.
pub fn field_of(structs: &[LlStruct], n: u64, k: u64) -> Option<LlType>
    ensures { result ≡ spec.field_of (slice_get structs.now n) k }
{
    match structs.get(n as usize) {
        None => None,
        Some(item) => own_field(item, k),
    }
}

pub fn structs_ok(structs: &[LlStruct]) -> bool
    ensures { result ≡ spec.structs_ok structs.now 0 structs.now }
{
    for i in 0..structs.len() {
        if !struct_ok(structs, i as u64, &structs[i]) {
            return false;
        }
    }
    true
}

pub fn is_void(kind: LlType) -> bool
    ensures { result ≡ spec.is_void kind }
{
    match kind {
        LlType::Void => true,
        LlType::Signed | LlType::Char | LlType::Bool | LlType::Fn | LlType::Ptr(_) => false,
    }
}

pub fn is_signed(kind: LlType) -> bool
    ensures { result ≡ spec.is_signed kind }
{
    match kind {
        LlType::Signed => true,
        LlType::Char | LlType::Bool | LlType::Void | LlType::Fn | LlType::Ptr(_) => false,
    }
}
