// The exceptions of a program. They have one root struct, whose first field leads to what tells their
// classes apart.
ghost use Rattle.std.specs.Prelude.{◌≡◌, Some, slice_get};
ghost use Rattle.exc_transform.specs.Explicit as spec;
ghost use Rattle.exc_transform.specs.Families as families;
ghost use Rattle.ll_code.specs.Typed as typed;

use ll_code::{LlBlock, LlExit, LlGraph, LlOp, LlStruct, LlType, VarId};

/// The root struct of the exceptions, and the one that its first field leads to. Where that is no
/// pointer, as in a program of a test, an exception is its own type.
#[derive(Clone, Copy)]
pub struct Family {
    pub root: u64,
    pub kind: Option<u64>,
}

/// The struct that the first exception slot leads to.
pub fn kind_of(family: Family) -> u64
    ensures { result ≡ spec.kind_of family }
{
    match family.kind {
        None => family.root,
        Some(n) => n,
    }
}

// ---- the structs of exceptions

/// The struct that a variable leads to.
pub fn led_to(types: &[LlType], v: VarId) -> Option<u64>
    ensures { result ≡ spec.led_to types.now v }
{
    match types.get(v as usize) {
        Some(LlType::Ptr(n)) => Some(*n),
        _ => None,
    }
}

fn in_ops(types: &[LlType], ops: &[LlOp]) -> Option<u64>
    ensures { result ≡ families.in_ops types.now ops.now }
{
    for op in ops {
        if let LlOp::Raise(v) = op {
            return led_to(types, *v);
        }
    }
    None
}

fn in_exit(types: &[LlType], exit: &LlExit) -> Option<u64>
    ensures { result ≡ families.in_exit types.now exit.now }
{
    match exit {
        LlExit::OnRaise(v, _, _) | LlExit::Raise(v) => led_to(types, *v),
        LlExit::Goto(_)
        | LlExit::If(_, _, _)
        | LlExit::Return(_)
        | LlExit::Fail(_)
        | LlExit::Raised(_) => None,
    }
}

fn in_blocks(types: &[LlType], blocks: &[LlBlock]) -> Option<u64>
    ensures { result ≡ families.in_blocks types.now blocks.now }
{
    for block in blocks {
        let found = in_ops(types, block.ops.as_slice());
        if found.is_some() {
            return found;
        }
        let found = in_exit(types, &block.exit);
        if found.is_some() {
            return found;
        }
    }
    None
}

fn in_graphs(graphs: &[LlGraph]) -> Option<u64>
    ensures { result ≡ families.in_graphs graphs.now }
{
    for graph in graphs {
        let found = in_blocks(graph.types.as_slice(), graph.blocks.as_slice());
        if found.is_some() {
            return found;
        }
    }
    None
}

// ---- roots

fn base_of(structs: &[LlStruct], n: u64) -> Option<u64>
    ensures { result ≡ typed.base_of (slice_get structs.now n) }
{
    match structs.get(n as usize) {
        None => None,
        Some(s) => s.base,
    }
}

fn root_of(structs: &[LlStruct], n: u64) -> u64
    ensures { result ≡ families.root_from structs.now (Some n) }
{
    let mut at = n;
    for _ in structs {
        match base_of(structs, at) {
            None => return at,
            Some(base) => at = base,
        }
    }
    at
}

fn first_field(structs: &[LlStruct], n: u64) -> Option<u64>
    ensures { result ≡ families.first_field structs.now n }
{
    match structs.get(n as usize) {
        None => None,
        Some(s) => led_to(s.fields.as_slice(), 0),
    }
}

/// The exceptions of a program. All are of one family, so that the first one tells it.
pub fn family_of(structs: &[LlStruct], graphs: &[LlGraph]) -> Family
    ensures { result ≡ families.family_of structs.now graphs.now }
{
    let root = match in_graphs(graphs) {
        None => 0,
        Some(n) => root_of(structs, n),
    };
    Family {
        root,
        kind: first_field(structs, root),
    }
}
