// Blocks and variables that are left have the numbers from 0 on.
ghost use Rattle.std.specs.Prelude.{◌≡◌, ◌++◌, map, IfOk, OnOk};
ghost use Rattle.ll_joined.specs.Named.{naming};
ghost use Rattle.ll_joined.specs.Joined as spec;

use crate::count::{Counts, has};
use crate::names::{Names, exit, push_named, variables};
use ll_code::{LlBlock, LlType, VarId};
use rpy_base::{NoMem, Seq};
use std::alloc::Global;

// ---- blocks

/// Whether a block stays: the first one, and each to which a link leads and that no other takes in.
pub fn stays(counts: &Counts, taken: &[u64], i: usize) -> bool
    ensures { result ≡ spec.stays counts.now taken.now i }
{
    i == 0 || (!has(0, i as u64, counts.to.as_slice()) && has(0, i as u64, taken))
}

fn next_if(stays: bool, next: u64) -> u64
    ensures { result ≡ spec.next_if stays next }
{
    if stays { next.saturating_add(1) } else { next }
}

/// For each block the number that it has among those that stay.
#[tactic(auto, using(crate::proofs::Steps::numbers_next))]
pub fn numbers_of(alloc: Global, counts: &Counts, taken: &[u64]) -> Result<Seq<u64>, NoMem>
    ensures { IfOk result (λ made. made ≡ spec.numbers_of counts.now taken.now) }
{
    let mut numbers = Seq::new(alloc);
    let mut next: u64 = 0;
    for i in 0..taken.len() {
        numbers.push(next)?;
        next = next_if(stays(counts, taken, i), next);
    }
    Ok(numbers)
}

/// For each variable the number that it has among those that are named.
pub fn places_of(alloc: Global, named: &[u64]) -> Result<Seq<VarId>, NoMem>
    ensures { IfOk result (λ made. made ≡ spec.places_of named.now) }
{
    let mut places = Seq::new(alloc);
    let mut next: u64 = 0;
    for count in named {
        places.push(next)?;
        next = next_if(*count != 0, next);
    }
    Ok(places)
}

fn push_type(is_left_out: bool, kind: LlType, kept: &mut Seq<LlType>) -> Result<(), NoMem>
    ensures { OnOk result (kept.new ≡ kept.old ++ spec.type_if is_left_out kind) }
{
    if is_left_out {
        return Ok(());
    }
    kept.push(kind)
}

/// The types of the variables that are named.
pub fn types_of(alloc: Global, named: &[u64], types: &[LlType]) -> Result<Seq<LlType>, NoMem>
    ensures { IfOk result (λ made. made ≡ spec.types_of named.now types.now) }
{
    let mut kept = Seq::new(alloc);
    for i in 0..types.len() {
        push_type(has(0, i as u64, named), types[i], &mut kept)?;
    }
    Ok(kept)
}

// ---- all of it

fn block_by(
    alloc: Global,
    names: Names<'_>,
    numbers: &[u64],
    block: &LlBlock,
) -> Result<LlBlock, NoMem>
    ensures { IfOk result (λ made. made ≡ spec.block_by (naming names.entry) numbers.now block.now) }
{
    let inputs = variables(alloc, names, block.inputs.as_slice())?;
    let mut ops = Seq::new(alloc);
    push_named(alloc, names, block.ops.as_slice(), &mut ops)?;
    let exit = exit(alloc, names, numbers, &block.exit)?;
    Ok(LlBlock { inputs, ops, exit })
}

/// The blocks with these names and numbers.
pub fn blocks_by(
    alloc: Global,
    names: Names<'_>,
    numbers: &[u64],
    blocks: &[LlBlock],
) -> Result<Seq<LlBlock>, NoMem>
    ensures { IfOk result (λ made. made ≡ map (spec.block_by (naming names.entry) numbers.now) blocks.now) }
{
    let mut all = Seq::new(alloc);
    for block in blocks {
        all.push(block_by(alloc, names, numbers, block)?)?;
    }
    Ok(all)
}
