// Where what a target takes stands: in a variable, or in the tuples that one holds.
ghost use Rattle.std.specs.Prelude.{◌≡◌, false, ◌∷◌, ◌++◌, [], IfOk};
ghost use Rattle.rpy_meaning.specs.declared.row.RowOp.TheVariants as row;
ghost use Rattle.flow_space.specs.Placed.{Part, ActsAt, UnpacksAt, ThereAt, TakenAt, NamedAt, StoredAt, TupleAt, taken_place, taken_count, last_jump, jump_of};

use crate::code::{Code, Jump, Scope, jump_and, jump_first, jump_stored, op_at};
use crate::places::{one, plus};
use rpy_base::{NoMem, Seq};
use rpy_meaning::RowOp;
use rpy_tree::NodeId;
use std::alloc::Global;

/// An item of a tuple of `count`, and the target that takes this tuple apart.
#[derive(Copy, Clone)]
pub struct TupleItem {
    pub node: NodeId,
    pub count: u32,
    pub place: u32,
}

/// The variable at a place, or the item in it at a path of tuples.
#[derive(Drop)]
pub struct Source {
    pub at: usize,
    pub path: Seq<TupleItem>,
}

/// The variable itself.
pub fn variable(alloc: Global, at: usize) -> Source
    ensures { (result.at ≡ at) × (result.path ≡ []) }
{
    Source {
        at,
        path: Seq::new(alloc),
    }
}

/// An item of the tuple that stands there.
pub fn item_of(alloc: Global, source: &Source, item: TupleItem) -> Result<Source, NoMem>
    ensures { IfOk result (λ s. (s.at ≡ source.now.at) × (s.path ≡ source.now.path ++ item ∷ [])) }
{
    let mut path = copied(Seq::new(alloc), source.path.as_slice())?;
    path.push(item)?;
    Ok(Source {
        at: source.at,
        path,
    })
}

fn copied(path: Seq<TupleItem>, items: &[TupleItem]) -> Result<Seq<TupleItem>, NoMem>
    ensures { IfOk result (λ all. all ≡ path ++ items.now) }
{
    let mut path = path;
    for item in items {
        path.push(*item)?;
    }
    Ok(path)
}

/// The place at which it stands once it is taken behind the first m variables.
pub fn place_taken(source: &Source, m: usize) -> usize
    ensures { result ≡ taken_place source.now.path source.now.at m }
{
    match source.path.as_slice() {
        [] => source.at,
        [_first, ..] => m,
    }
}

/// How many variables are there then.
pub fn count_taken(source: &Source, m: usize) -> Result<usize, NoMem>
    ensures { IfOk result (λ count. count ≡ taken_count source.now.path m) }
{
    match source.path.as_slice() {
        [] => Ok(m),
        [_first, ..] => plus(m, 1),
    }
}

// The last item goes on behind the first m variables, or it is dropped.
fn jump_last(alloc: Global, kept: bool, norm: u64, m: usize, item: usize) -> Result<Jump, NoMem>
    ensures { IfOk result (λ jump. jump_of jump ≡ last_jump kept norm m item) }
{
    if kept {
        jump_and(alloc, norm, m, item)
    } else {
        jump_first(alloc, norm, m)
    }
}

// An item of the tuple at a place.
fn put_unpack(
    alloc: Global,
    code: &mut Code,
    scope: &Scope,
    item: TupleItem,
    at: usize,
    all: usize,
    jump: Jump,
) -> Result<u64, NoMem>
    ensures { IfOk result (λ b. Part code.old.blocks code.new.blocks (ActsAt scope.now b item.node false (row.Unpack item.count item.place) (at ∷ []) all (jump_of jump))) }
{
    let args = one(alloc, at)?;
    let of = op_at(item.node, false, RowOp::Unpack(item.count, item.place));
    code.put_op(alloc, scope, of, args, all, jump)
}

// Items of tuples one in another, each behind the first m variables; the first is one of the tuple at a
// place of `all` variables.
#[cycle(unpacks)]
fn put_unpacks(
    alloc: Global,
    code: &mut Code,
    scope: &Scope,
    item: TupleItem,
    rest: &[TupleItem],
    at: usize,
    m: usize,
    all: usize,
    kept: bool,
    norm: u64,
) -> Result<u64, NoMem>
    ensures { IfOk result (λ b. Part code.old.blocks code.new.blocks (UnpacksAt scope.now kept (item ∷ rest.now) at m all norm b)) }
{
    match rest {
        [] => {
            let jump = jump_last(alloc, kept, norm, m, all)?;
            put_unpack(alloc, code, scope, item, at, all, jump)
        }
        [next, more @ ..] => {
            let wide = plus(m, 1)?;
            let later = put_unpacks(alloc, code, scope, *next, more, m, m, wide, kept, norm)?;
            let jump = jump_and(alloc, later, m, all)?;
            put_unpack(alloc, code, scope, item, at, all, jump)
        }
    }
}

/// Blocks that ask whether it is there, where m variables are.
pub fn put_there(
    alloc: Global,
    code: &mut Code,
    scope: &Scope,
    source: &Source,
    m: usize,
    norm: u64,
) -> Result<u64, NoMem>
    ensures { IfOk result (λ b. Part code.old.blocks code.new.blocks (ThereAt scope.now source.now b m norm)) }
{
    match source.path.as_slice() {
        [] => Ok(norm),
        [item, rest @ ..] => {
            put_unpacks(
                alloc, code, scope, *item, rest, source.at, m, m, false, norm,
            )
        }
    }
}

/// Blocks that take it, behind the first m variables.
pub fn put_taken(
    alloc: Global,
    code: &mut Code,
    scope: &Scope,
    source: &Source,
    m: usize,
    norm: u64,
) -> Result<u64, NoMem>
    ensures { IfOk result (λ b. Part code.old.blocks code.new.blocks (TakenAt scope.now source.now b m norm)) }
{
    match source.path.as_slice() {
        [] => Ok(norm),
        [item, rest @ ..] => {
            put_unpacks(alloc, code, scope, *item, rest, source.at, m, m, true, norm)
        }
    }
}

/// A local takes it.
pub fn put_name(
    alloc: Global,
    code: &mut Code,
    scope: &Scope,
    node: NodeId,
    local: u32,
    source: &Source,
    m: usize,
    keep: usize,
    norm: u64,
) -> Result<u64, NoMem>
    ensures { IfOk result (λ b. Part code.old.blocks code.new.blocks (NamedAt scope.now node local source.now m keep b norm)) }
{
    let all = count_taken(source, m)?;
    let args = one(alloc, place_taken(source, m))?;
    let jump = jump_stored(alloc, norm, keep, local, all)?;
    let copy = code.put_op(
        alloc,
        scope,
        op_at(node, true, RowOp::Copy),
        args,
        all,
        jump,
    )?;
    put_taken(alloc, code, scope, source, m, copy)
}

/// It is taken behind m variables and stored by an operation on these places.
pub fn put_store(
    alloc: Global,
    code: &mut Code,
    scope: &Scope,
    node: NodeId,
    op: RowOp,
    args: Seq<usize>,
    source: &Source,
    m: usize,
    keep: usize,
    norm: u64,
) -> Result<u64, NoMem>
    ensures { IfOk result (λ b. Part code.old.blocks code.new.blocks (StoredAt scope.now node op args source.now m keep b norm)) }
{
    let jump = jump_first(alloc, norm, keep)?;
    let all = count_taken(source, m)?;
    let store = code.put_op(alloc, scope, op_at(node, true, op), args, all, jump)?;
    put_taken(alloc, code, scope, source, m, store)
}

/// The tuple itself is the value of its target.
pub fn put_tuple(
    alloc: Global,
    code: &mut Code,
    scope: &Scope,
    node: NodeId,
    source: &Source,
    m: usize,
    norm: u64,
) -> Result<u64, NoMem>
    ensures { IfOk result (λ b. Part code.old.blocks code.new.blocks (TupleAt scope.now node source.now m b norm)) }
{
    let all = count_taken(source, m)?;
    let args = one(alloc, place_taken(source, m))?;
    let jump = jump_first(alloc, norm, m)?;
    let copy = code.put_op(
        alloc,
        scope,
        op_at(node, true, RowOp::Copy),
        args,
        all,
        jump,
    )?;
    put_taken(alloc, code, scope, source, m, copy)
}
