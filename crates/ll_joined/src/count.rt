// What leads to a block, and what sets a variable.
ghost use Rattle.std.specs.Prelude.{◌≡◌, ℕ, replicate, length, slice_get, IfOk};
ghost use Rattle.std.specs.Option.{option_copied};
ghost use Rattle.ll_joined.specs.Counted as spec;

use csub_tree::COperand;
use ll_code::{LlBlock, LlExit, LlLink, LlOp, VarId};
use ll_live::set_by;
use rpy_base::{NoMem, Seq};
use std::alloc::Global;

/// How many links lead to each block, and how often each variable is set, or is an input.
#[derive(Drop)]
pub struct Counts {
    pub to: Seq<u64>,
    pub set: Seq<u64>,
}

#[tactic(auto, using(crate::proofs::Steps::zeros_next))]
pub fn zeros(alloc: Global, count: usize) -> Result<Seq<u64>, NoMem>
    ensures { IfOk result (λ made. made ≡ spec.zeros count) }
{
    let mut counts = Seq::new(alloc);
    for _ in 0..count {
        counts.push(0)?;
    }
    Ok(counts)
}

pub fn add_one(at: u64, counts: &mut Seq<u64>)
    ensures { counts.new ≡ spec.add_one at counts.old }
{
    let at = at as usize;
    let next: u64 = match counts.get(at) {
        None => return,
        Some(count) => count.saturating_add(1),
    };
    counts.set(at, next);
}

/// Whether this count stands at this place.
pub fn has(n: u64, at: u64, counts: &[u64]) -> bool
    ensures { result ≡ spec.has n at counts.now }
{
    match counts.get(at as usize) {
        None => false,
        Some(count) => *count == n,
    }
}

/// One more where an operation sets a variable.
pub fn add_if(a: Option<VarId>, counts: &mut Seq<u64>)
    ensures { counts.new ≡ spec.add_if a counts.old }
{
    if let Some(a) = a {
        add_one(a, counts);
    }
}

// ---- counting

/// What operations set.
pub fn count_sets(ops: &[LlOp], counts: &mut Seq<u64>)
    ensures { counts.new ≡ spec.sets_in ops.now counts.old }
{
    for op in ops {
        add_if(set_by(op), counts);
    }
}

fn count_inputs(inputs: &[VarId], counts: &mut Seq<u64>)
    ensures { counts.new ≡ spec.inputs_in inputs.now counts.old }
{
    for v in inputs {
        add_one(*v, counts);
    }
}

/// What an exit sets.
pub fn count_raised(exit: &LlExit, counts: &mut Seq<u64>)
    ensures { counts.new ≡ spec.set_by_exit exit.now counts.old }
{
    if let LlExit::OnRaise(v, _, _) = exit {
        add_one(*v, counts);
    }
}

fn count_link(link: Option<&LlLink>, counts: &mut Seq<u64>)
    ensures { counts.new ≡ spec.led_if (option_copied link.entry) counts.old }
{
    if let Some(link) = link {
        add_one(link.to, counts);
    }
}

fn count_links(exit: &LlExit, counts: &mut Seq<u64>)
    ensures { counts.new ≡ spec.led_by exit.now counts.old }
{
    match exit {
        LlExit::Goto(link) => add_one(link.to, counts),
        LlExit::If(_, there, elsewhere) => {
            add_one(there.to, counts);
            add_one(elsewhere.to, counts);
        }
        LlExit::OnRaise(_, caught, without) => {
            count_link(caught.as_ref(), counts);
            add_one(without.to, counts);
        }
        LlExit::Return(_) | LlExit::Raise(_) | LlExit::Fail(_) | LlExit::Raised(_) => {}
    }
}

fn count_block(block: &LlBlock, counts: &mut Counts)
    ensures { counts.new ≡ spec.counted block.now counts.old }
{
    count_inputs(block.inputs.as_slice(), &mut counts.set);
    count_sets(block.ops.as_slice(), &mut counts.set);
    count_raised(&block.exit, &mut counts.set);
    count_links(&block.exit, &mut counts.to);
}

/// The counts of a graph with so many variables.
pub fn counts_of(alloc: Global, variables: usize, blocks: &[LlBlock]) -> Result<Counts, NoMem>
    ensures { IfOk result (λ made. made ≡ spec.counts_of variables blocks.now) }
{
    let to = zeros(alloc, blocks.len())?;
    let set = zeros(alloc, variables)?;
    let mut counts = Counts { to, set };
    for block in blocks {
        count_block(block, &mut counts);
    }
    Ok(counts)
}

// ---- what can follow at once

fn is_alone(counts: &Counts, a: Option<VarId>) -> bool
    ensures { result ≡ spec.is_alone counts.now a }
{
    match a {
        None => true,
        Some(a) => has(1, a, counts.set.as_slice()),
    }
}

// Whether what the operations set is set by nothing else.
fn are_alone(counts: &Counts, ops: &[LlOp]) -> bool
    ensures { result ≡ spec.are_alone counts.now ops.now }
{
    for op in ops {
        if !is_alone(counts, set_by(op)) {
            return false;
        }
    }
    true
}

// An exit by exceptions is one of the block's last operation.
fn is_exit_alone(counts: &Counts, ops: &[LlOp], exit: &LlExit) -> bool
    ensures { result ≡ spec.is_exit_alone counts.now ops.now exit.now }
{
    match exit {
        LlExit::OnRaise(v, _, _) => has(1, *v, counts.set.as_slice()) && are_some(ops),
        _ => true,
    }
}

/// Whether there are any.
pub fn are_some(ops: &[LlOp]) -> bool
    ensures { result ≡ spec.are_some ops.now }
{
    !ops.is_empty()
}

// Whether each input becomes a variable, or is set by nothing else.
#[tactic(auto, using(crate::proofs::Steps::named_ends))]
fn are_named(counts: &Counts, inputs: &[VarId], args: &[COperand]) -> bool
    ensures { result ≡ spec.are_named counts.now inputs.now args.now }
{
    for i in 0..inputs.len() {
        if i >= args.len() {
            return false;
        }
        if !is_named(counts, inputs[i], args[i]) {
            return false;
        }
    }
    true
}

fn is_named(counts: &Counts, v: VarId, x: COperand) -> bool
    ensures { result ≡ spec.is_named counts.now v x }
{
    match x {
        COperand::Var(_) => true,
        COperand::Const(_) => has(1, v, counts.set.as_slice()),
    }
}

fn is_open(counts: &Counts, link: &LlLink, next: &LlBlock) -> bool
    ensures { result ≡ spec.is_open counts.now link.now next.now }
{
    link.to != 0
        && has(1, link.to, counts.to.as_slice())
        && are_named(counts, next.inputs.as_slice(), link.args.as_slice())
        && are_alone(counts, next.ops.as_slice())
        && is_exit_alone(counts, next.ops.as_slice(), &next.exit)
}

/// The link of an exit to a block that can follow at once.
pub fn follows<'a>(blocks: &[LlBlock], counts: &Counts, exit: &'a LlExit) -> Option<&'a LlLink>
    ensures { option_copied result ≡ spec.follows blocks.now counts.now exit.now }
{
    match exit {
        LlExit::Goto(link) => match blocks.get(link.to as usize) {
            None => None,
            Some(next) => {
                if is_open(counts, link, next) {
                    Some(link)
                } else {
                    None
                }
            }
        },
        _ => None,
    }
}

/// For each block how many others take it in, one or none.
pub fn taken_in(alloc: Global, blocks: &[LlBlock], counts: &Counts) -> Result<Seq<u64>, NoMem>
    ensures { IfOk result (λ made. made ≡ spec.taken_in blocks.now counts.now) }
{
    let mut taken = zeros(alloc, blocks.len())?;
    for block in blocks {
        count_link(follows(blocks, counts, &block.exit), &mut taken);
    }
    Ok(taken)
}
