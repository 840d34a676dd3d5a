// Variables that are copies. One that is set once, to another variable or to a constant, and is named in one block
// alone, behind that, is another name of what it is set to, as long as that stays what it is up to the block's end.
ghost use Rattle.std.specs.Prelude.{◌≡◌, ◌++◌, ◌&&◌, ℕ, slice_get, slice_set, IfOk, OnOk};
ghost use Rattle.std.specs.Option.{option_copied};
ghost use Rattle.ll_joined.specs.Counted.{zeros, sets_in, set_by_exit};
ghost use Rattle.ll_joined.specs.Copied as spec;

use crate::count::{Counts, add_if, are_some, count_raised, count_sets, has, zeros};
use crate::marks::Marks;
use crate::names::{Names, copied, exit, named};
use csub_tree::COperand;
use ll_code::{LlBlock, LlExit, LlOp, LlType, VarId};
use ll_live::set_by;
use rpy_base::{NoMem, Seq};
use std::alloc::Global;

/// What is known of a graph: how often its variables are set by operations, and where they are named.
#[derive(Clone, Copy)]
struct Known<'a> {
    types: &'a [LlType],
    counts: &'a Counts,
    changes: &'a [u64],
    marks: &'a Marks,
}

/// What stands for each variable, and how often operations before have set it.
#[derive(Drop)]
struct Copies {
    values: Seq<COperand>,
    done: Seq<u64>,
}

impl Copies {
    fn name(&mut self, a: VarId, value: COperand)
        ensures { self.new ≡ record self.old { values = slice_set self.old.values a value } }
    {
        let at = a as usize;
        if at < self.values.len() {
            self.values.set(at, value);
        }
    }
}

#[tactic(auto, using(crate::proofs::Steps::own_next))]
fn own_values(alloc: Global, count: usize) -> Result<Seq<COperand>, NoMem>
    ensures { IfOk result (λ made. made ≡ spec.own_from 0 count) }
{
    let mut values = Seq::new(alloc);
    for i in 0..count {
        values.push(COperand::Var(i as u64))?;
    }
    Ok(values)
}

// Whether the variable is set once, and named in this block alone, first where it is set.
fn is_local(known: Known<'_>, block: u64, a: VarId) -> bool
    ensures { result ≡ spec.is_local (spec.facts known.entry) block a }
{
    has(1, a, known.counts.set.as_slice())
        && has(block, a, known.marks.home.as_slice())
        && has(1, a, known.marks.first_set.as_slice())
}

fn same_kind(a: LlType, b: LlType) -> bool
    ensures { result ≡ spec.same_kind a b }
{
    match (a, b) {
        (LlType::Signed, LlType::Signed)
        | (LlType::Char, LlType::Char)
        | (LlType::Bool, LlType::Bool)
        | (LlType::Void, LlType::Void)
        | (LlType::Fn, LlType::Fn) => true,
        (LlType::Ptr(m), LlType::Ptr(n)) => m == n,
        _ => false,
    }
}

fn same_kinds(a: Option<&LlType>, b: Option<&LlType>) -> bool
    ensures { result ≡ spec.same_kinds (option_copied a.entry) (option_copied b.entry) }
{
    match (a, b) {
        (None, None) => true,
        (Some(a), Some(b)) => same_kind(*a, *b),
        _ => false,
    }
}

fn same_counts(a: Option<&u64>, b: Option<&u64>) -> bool
    ensures { result ≡ spec.same_counts (option_copied a.entry) (option_copied b.entry) }
{
    match (a, b) {
        (None, None) => true,
        (Some(a), Some(b)) => *a == *b,
        _ => false,
    }
}

// Whether the first variable can be named as the second, which no operation sets from here to the end of the block.
fn is_same(known: Known<'_>, done: &[u64], a: VarId, b: VarId) -> bool
    ensures { result ≡ spec.is_same (spec.facts known.entry) done.now a b }
{
    are_same_kinds(known.types, a, b) && are_same_counts(known.changes, done, b)
}

fn are_same_kinds(types: &[LlType], a: VarId, b: VarId) -> bool
    ensures { result ≡ spec.same_kinds (slice_get types.now a) (slice_get types.now b) }
{
    same_kinds(types.get(a as usize), types.get(b as usize))
}

fn are_same_counts(changes: &[u64], done: &[u64], b: VarId) -> bool
    ensures { result ≡ spec.same_counts (slice_get changes.now b) (slice_get done.now b) }
{
    same_counts(changes.get(b as usize), done.get(b as usize))
}

fn stands_for(known: Known<'_>, done: &[u64], a: VarId, x: COperand) -> bool
    ensures { result ≡ spec.stands_for (spec.facts known.entry) done.now a x }
{
    match x {
        COperand::Var(b) => is_same(known, done, a, b),
        COperand::Const(_) => has(0, a, known.marks.asked.as_slice()),
    }
}

fn is_copy(known: Known<'_>, done: &[u64], block: u64, a: VarId, x: COperand) -> bool
    ensures { result ≡ spec.is_copy (spec.facts known.entry) done.now block a x }
{
    is_local(known, block, a) && stands_for(known, done, a, x)
}

fn push_kept(
    alloc: Global,
    op: &LlOp,
    copies: &mut Copies,
    ops: &mut Seq<LlOp>,
) -> Result<(), NoMem>
    ensures { OnOk result (spec.left_in ops.new copies.new ≡ spec.behind ops.old (spec.kept copies.old op.now)) }
{
    let values = Names::Values(copies.values.as_slice());
    ops.push(named(alloc, values, op)?)?;
    add_if(set_by(op), &mut copies.done);
    Ok(())
}

// The operation, unless it makes a copy.
fn push_unless_copy(
    alloc: Global,
    known: Known<'_>,
    block: u64,
    op: &LlOp,
    copies: &mut Copies,
    ops: &mut Seq<LlOp>,
) -> Result<(), NoMem>
    ensures { OnOk result (spec.left_in ops.new copies.new ≡ spec.behind ops.old (spec.left_of (spec.facts known.entry) block copies.old op.now)) }
{
    if let LlOp::Set(a, x) = op {
        let value = Names::Values(copies.values.as_slice()).operand(*x);
        if is_copy(known, copies.done.as_slice(), block, *a, value) {
            copies.name(*a, value);
            return Ok(());
        }
    }
    push_kept(alloc, op, copies, ops)
}

// The number of no block.
const NOWHERE: u64 = 0;

// An exit by exceptions is one of the last operation, which stays the last.
fn home_of(number: u64, exit: &LlExit, rest: &[LlOp]) -> u64
    ensures { result ≡ spec.home_of number exit.now rest.now }
{
    match exit {
        LlExit::OnRaise(_, _, _) => { if are_some(rest) { number } else { NOWHERE } }
        _ => number,
    }
}

fn push_left(
    alloc: Global,
    known: Known<'_>,
    number: u64,
    block: &LlBlock,
    copies: &mut Copies,
    ops: &mut Seq<LlOp>,
) -> Result<(), NoMem>
    ensures { OnOk result (spec.left_in ops.new copies.new ≡ spec.left_from (spec.facts known.entry) number block.now.exit block.now.ops (spec.left_in ops.old copies.old)) }
{
    let mut rest = block.ops.as_slice();
    while let [op, others @ ..] = rest {
        let home = home_of(number, &block.exit, others);
        push_unless_copy(alloc, known, home, op, copies, ops)?;
        rest = others;
    }
    Ok(())
}

fn block_without(
    alloc: Global,
    known: Known<'_>,
    number: u64,
    block: &LlBlock,
    copies: &mut Copies,
) -> Result<LlBlock, NoMem>
    ensures made { IfOk result (λ made. made ≡ spec.block_without (spec.facts known.entry) number copies.old block.now) }
    ensures behind { OnOk result (copies.new ≡ spec.copies_behind (spec.facts known.entry) number copies.old block.now) }
{
    let mut ops = Seq::new(alloc);
    push_left(alloc, known, number, block, copies, &mut ops)?;
    count_raised(&block.exit, &mut copies.done);
    let values = Names::Values(copies.values.as_slice());
    Ok(LlBlock {
        inputs: copied(alloc, block.inputs.as_slice())?,
        ops,
        exit: exit(alloc, values, &[], &block.exit)?,
    })
}

// How often operations set each variable.
fn changes_of(alloc: Global, count: usize, blocks: &[LlBlock]) -> Result<Seq<u64>, NoMem>
    ensures { IfOk result (λ made. made ≡ spec.changes_in blocks.now (zeros count)) }
{
    let mut changes = zeros(alloc, count)?;
    for block in blocks {
        add_changes(block, &mut changes);
    }
    Ok(changes)
}

fn add_changes(block: &LlBlock, changes: &mut Seq<u64>)
    ensures { changes.new ≡ set_by_exit block.now.exit (sets_in block.now.ops changes.old) }
{
    count_sets(block.ops.as_slice(), changes);
    count_raised(&block.exit, changes);
}

/// The blocks without the copies of a graph.
pub fn without_copies(
    alloc: Global,
    types: &[LlType],
    counts: &Counts,
    marks: &Marks,
    blocks: &[LlBlock],
) -> Result<Seq<LlBlock>, NoMem>
    ensures { IfOk result (λ made. made ≡ spec.without_copies types.now counts.now marks.now blocks.now) }
{
    let changes = changes_of(alloc, types.len(), blocks)?;
    let known = Known {
        types,
        counts,
        changes: changes.as_slice(),
        marks,
    };
    let mut copies = Copies {
        values: own_values(alloc, types.len())?,
        done: zeros(alloc, types.len())?,
    };
    let mut all = Seq::new(alloc);
    for i in 0..blocks.len() {
        let number = (i as u64).saturating_add(1);
        all.push(block_without(alloc, known, number, &blocks[i], &mut copies)?)?;
    }
    Ok(all)
}
