// Types and structs.
ghost use Rattle.std.specs.Prelude.{◌≡◌, ◌<◌, slice_get};
ghost use Rattle.csub_tree.specs.Statement as same;
ghost use Rattle.csub_tree.specs.Checked as spec;

use crate::tree::{CStruct, CType};

pub fn same_type(s: CType, t: CType) -> bool
    ensures { result ≡ same.same_type s t }
{
    match (s, t) {
        (CType::Signed, CType::Signed) => true,
        (CType::Char, CType::Char) => true,
        (CType::Bool, CType::Bool) => true,
        (CType::Fn, CType::Fn) => true,
        (CType::Ptr(m), CType::Ptr(n)) => m == n,
        _ => false,
    }
}

pub fn same_types(ss: &[CType], ts: &[CType]) -> bool
    ensures { result ≡ same.same_types ss.now ts.now }
{
    if ss.len() != ts.len() {
        return false;
    }
    for i in 0..ss.len() {
        if !same_type(ss[i], ts[i]) {
            return false;
        }
    }
    true
}

pub fn same_result(s: Option<CType>, t: Option<CType>) -> bool
    ensures { result ≡ same.same_result s t }
{
    match (s, t) {
        (None, None) => true,
        (Some(s), Some(t)) => same_type(s, t),
        _ => false,
    }
}

fn is_type(structs: &[CStruct], kind: CType) -> bool
    ensures { result ≡ spec.is_type structs.now kind }
{
    match kind {
        CType::Ptr(n) => n < structs.len() as u64,
        _ => true,
    }
}

pub fn are_types(structs: &[CStruct], kinds: &[CType]) -> bool
    ensures { result ≡ spec.are_types structs.now kinds.now }
{
    for kind in kinds {
        if !is_type(structs, *kind) {
            return false;
        }
    }
    true
}

pub fn is_type_if_any(structs: &[CStruct], kind: Option<CType>) -> bool
    ensures { result ≡ spec.is_type_if_any structs.now kind }
{
    match kind {
        None => true,
        Some(kind) => is_type(structs, kind),
    }
}

fn base_of(structs: &[CStruct], n: u64) -> Option<u64>
    ensures { result ≡ spec.base_of (slice_get structs.now n) }
{
    match structs.get(n as usize) {
        None => None,
        Some(item) => item.base,
    }
}

pub fn items_of(structs: &[CStruct], n: u64) -> Option<CType>
    ensures { result ≡ spec.items_of (slice_get structs.now n) }
{
    match structs.get(n as usize) {
        None => None,
        Some(item) => item.items,
    }
}

// A base has a smaller number, so the chain of bases ends within as many looks.
fn begins_within(structs: &[CStruct], n: u64, m: u64) -> bool
    ensures { result ≡ spec.begins_within structs.now n n m }
{
    let mut at = n;
    for _i in 0..n {
        if at == m {
            return true;
        }
        match base_of(structs, at) {
            None => return false,
            Some(base) => at = base,
        }
    }
    at == m
}

/// Whether struct n is m or begins with m.
pub fn begins(structs: &[CStruct], n: u64, m: u64) -> bool
    ensures { result ≡ spec.begins structs.now n m }
{
    n < structs.len() as u64 && begins_within(structs, n, m)
}

fn is_base(structs: &[CStruct], n: u64, base: Option<u64>) -> bool
    ensures { result ≡ spec.is_base structs.now n base }
{
    match base {
        None => true,
        Some(m) => m < n && items_of(structs, m).is_none(),
    }
}

pub fn struct_ok(structs: &[CStruct], n: u64, item: &CStruct) -> bool
    ensures { result ≡ spec.struct_ok structs.now n item.now }
{
    is_base(structs, n, item.base)
        && are_types(structs, item.fields.as_slice())
        && is_type_if_any(structs, item.items)
}

// With a base, field 0 is the base and has no type.
fn own_field(item: &CStruct, k: u64) -> Option<CType>
    ensures { result ≡ spec.own_field item.now item.now.base k }
{
    match item.base {
        None => item.fields.get(k as usize).copied(),
        Some(_) => {
            if k == 0 {
                None
            } else {
                item.fields.get((k - 1) as usize).copied()
            }
        }
    }
}

/// The type of a field of a struct.
pub fn field_of(structs: &[CStruct], n: u64, k: u64) -> Option<CType>
    ensures { result ≡ spec.field_of (slice_get structs.now n) k }
{
    match structs.get(n as usize) {
        None => None,
        Some(item) => own_field(item, k),
    }
}
