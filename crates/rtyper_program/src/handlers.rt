// The ways that an exception may take. The classes of handlers are tested one after the other, in blocks of
// their own.
ghost use Rattle.std.specs.Prelude.{◌≡◌, IfOk};
ghost use Rattle.class_desc.specs.Range.{range};
ghost use Rattle.rtyper_data.specs.Seen.{writing, Gives};
ghost use Rattle.rtyper_program.specs.Handlers as spec;
ghost use Rattle.rtyper_program.specs.Handlers.{work, Works, Adds};
ghost use Rattle.rtyper_class.specs.Seen.{the_world};
ghost use Rattle.rtyper_program.specs.Seen.{the_lowered};

use crate::extra::{Extra, push_block};
use crate::links::{Caught, Lowered, link_of};
use crate::live::{live, push_variables};
use csub_tree::COperand;
use flow_graph::{Link, VarId};
use ll_code::{LlBlock, LlExit, LlLink, LlOp, LlType};
use rpy_base::{NoMem, Seq};
use rpy_tree::ClassId;
use rtyper_data::{Around, Body, Found, Small, small_number};
use std::alloc::Global;
use std::mem;

// ---- where an exception goes

// What a link passes on, in a block of its own: conversions stand there.
#[tactic(auto, unfolding(crate::specs::Handlers::landing))]
fn landing(
    alloc: Global,
    lowered: Lowered<'_>,
    link: &Link,
    caught: Caught,
    found: &mut Found,
    body: &mut Body,
) -> Result<LlBlock, NoMem>
    ensures { IfOk result (λ block. Gives (spec.landing (the_lowered lowered.entry) link.now caught (writing found.old body.old)) block found.new body.new) }
{
    let kept = mem::replace(&mut body.ops, Seq::new(alloc));
    let made = link_of(alloc, lowered, link, Some(caught), found, body)?;
    let ops = mem::replace(&mut body.ops, kept);
    let inputs = live(alloc, ops.as_slice(), &[], made.args.as_slice())?;
    Ok(LlBlock {
        inputs,
        ops,
        exit: LlExit::Goto(made),
    })
}

// A block for the link, and the link to that.
#[tactic(auto, unfolding(crate::specs::Handlers::land))]
fn push_landing(
    alloc: Global,
    lowered: Lowered<'_>,
    link: &Link,
    caught: Caught,
    found: &mut Found,
    body: &mut Body,
    extra: &mut Extra,
) -> Result<LlLink, NoMem>
    ensures { IfOk result (λ made. Works (spec.land (the_lowered lowered.entry) link.now caught (work (writing found.old body.old) extra.old)) made found.new body.new extra.new) }
{
    let block = landing(alloc, lowered, link, caught, found, body)?;
    push_block(alloc, block, extra)
}

// Where no handler takes the exception, it leaves the graph.
fn push_leaving(alloc: Global, v: VarId, extra: &mut Extra) -> Result<LlLink, NoMem>
    ensures { IfOk result (λ made. Adds (spec.leave v extra.old) made extra.new) }
{
    let mut inputs = Seq::new(alloc);
    inputs.push(v)?;
    let block = LlBlock {
        inputs,
        ops: Seq::new(alloc),
        exit: LlExit::Raise(v),
    };
    push_block(alloc, block, extra)
}

// ---- handlers

// The small graph that tells whether an exception is below a class.
#[tactic(auto, unfolding(crate::specs::Handlers::test_of))]
fn test_of(around: Around<'_>, class: ClassId) -> Small
    ensures { result ≡ spec.test_of (the_world around.entry) class }
{
    let (root, vtable) = match around.layout.laid(0) {
        None => (0, 0),
        Some(laid) => (laid.root, laid.vtable),
    };
    let (low, high) = around.classes.range(class);
    Small::IsInstance(root, vtable, low, high)
}

// The exception, and what the two ways pass on.
fn test_inputs(
    alloc: Global,
    v: VarId,
    there: &LlLink,
    elsewhere: &LlLink,
) -> Result<Seq<VarId>, NoMem>
    ensures { IfOk result (λ inputs. inputs ≡ spec.test_inputs v there.now elsewhere.now) }
{
    let mut inputs = Seq::new(alloc);
    inputs.push(v)?;
    push_variables(alloc, there.args.as_slice(), &[v], &mut inputs)?;
    push_variables(alloc, elsewhere.args.as_slice(), &[v], &mut inputs)?;
    Ok(inputs)
}

fn test_block(
    alloc: Global,
    v: VarId,
    there: LlLink,
    elsewhere: LlLink,
    number: u64,
    test: VarId,
) -> Result<LlBlock, NoMem>
    ensures { IfOk result (λ block. block ≡ spec.test_block v there elsewhere number test) }
{
    let inputs = test_inputs(alloc, v, &there, &elsewhere)?;
    let mut xs = Seq::new(alloc);
    xs.push(COperand::Var(v))?;
    let mut ops = Seq::new(alloc);
    ops.push(LlOp::Call(Some(test), number, xs))?;
    Ok(LlBlock {
        inputs,
        ops,
        exit: LlExit::If(test, there, elsewhere),
    })
}

#[tactic(auto, unfolding(crate::specs::Handlers::tested))]
fn push_test(
    alloc: Global,
    lowered: Lowered<'_>,
    v: VarId,
    class: ClassId,
    there: LlLink,
    elsewhere: LlLink,
    found: &mut Found,
    body: &mut Body,
    extra: &mut Extra,
) -> Result<LlLink, NoMem>
    ensures { IfOk result (λ made. Works (spec.tested (the_lowered lowered.entry) v class there elsewhere (work (writing found.old body.old) extra.old)) made found.new body.new extra.new) }
{
    let number = small_number(test_of(lowered.around, class), found)?;
    let test = body.fresh(LlType::Bool)?;
    let block = test_block(alloc, v, there, elsewhere, number, test)?;
    push_block(alloc, block, extra)
}

// A handler, before the further ones.
#[tactic(auto, unfolding(crate::specs::Handlers::handler))]
fn push_handler(
    alloc: Global,
    lowered: Lowered<'_>,
    caught: Caught,
    hand: &(ClassId, Link),
    next: LlLink,
    found: &mut Found,
    body: &mut Body,
    extra: &mut Extra,
) -> Result<LlLink, NoMem>
    ensures { IfOk result (λ made. Works (spec.handler (the_lowered lowered.entry) caught hand.now (next, work (writing found.old body.old) extra.old)) made found.new body.new extra.new) }
{
    let there = push_landing(alloc, lowered, &hand.1, caught, found, body, extra)?;
    let v = caught.exception;
    push_test(alloc, lowered, v, hand.0, there, next, found, body, extra)
}

// The tests are made from the last one on.
#[tactic(auto, using(crate::proofs::Turns::last_hand))]
fn push_handlers(
    alloc: Global,
    lowered: Lowered<'_>,
    caught: Caught,
    hands: &[(ClassId, Link)],
    next: LlLink,
    found: &mut Found,
    body: &mut Body,
    extra: &mut Extra,
) -> Result<LlLink, NoMem>
    ensures { IfOk result (λ made. Works (spec.handlers (the_lowered lowered.entry) caught hands.now (next, work (writing found.old body.old) extra.old)) made found.new body.new extra.new) }
{
    let mut left = hands;
    let mut next = next;
    while let Some((hand, before)) = left.split_last() {
        next = push_handler(alloc, lowered, caught, hand, next, found, body, extra)?;
        left = before;
    }
    Ok(next)
}

fn push_any_other(
    alloc: Global,
    lowered: Lowered<'_>,
    caught: Caught,
    by: &Option<Link>,
    found: &mut Found,
    body: &mut Body,
    extra: &mut Extra,
) -> Result<LlLink, NoMem>
    ensures { IfOk result (λ made. Works (spec.any_other (the_lowered lowered.entry) caught by.now (work (writing found.old body.old) extra.old)) made found.new body.new extra.new) }
{
    match by {
        None => push_leaving(alloc, caught.exception, extra),
        Some(link) => push_landing(alloc, lowered, link, caught, found, body, extra),
    }
}

/// The link that an exception takes.
#[tactic(auto, unfolding(crate::specs::Handlers::taken))]
pub fn push_taken(
    alloc: Global,
    lowered: Lowered<'_>,
    caught: Caught,
    hands: &[(ClassId, Link)],
    by: &Option<Link>,
    found: &mut Found,
    body: &mut Body,
    extra: &mut Extra,
) -> Result<LlLink, NoMem>
    ensures { IfOk result (λ made. Works (spec.taken (the_lowered lowered.entry) caught hands.now by.now (work (writing found.old body.old) extra.old)) made found.new body.new extra.new) }
{
    let next = push_any_other(alloc, lowered, caught, by, found, body, extra)?;
    push_handlers(alloc, lowered, caught, hands, next, found, body, extra)
}
