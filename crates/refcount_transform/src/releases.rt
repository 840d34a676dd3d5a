// Blocks and graphs with their changes of counts. An exit gives the references that it reads on; where
// it gives one twice there is one more, and where a way of a test does not give one that the other
// gives, that way drops it in a block of its own.
ghost use Rattle.std.specs.Prelude.{◌≡◌, ◌+◌, ◌∷◌, [], ◌++◌, length, reverse, IfOk, OnOk};
ghost use Rattle.refcount_transform.specs.Changes as c;
ghost use Rattle.refcount_transform.specs.Blocks as b;
ghost use Rattle.refcount_transform.specs.Seen.{the_plan, the_graph};
ghost use Rattle.ll_live.specs.Live.{variables_in};

use crate::changes::{Around, push_dead, push_down, push_given, push_ops};
use crate::copies::{copy_link, copy_types, copy_variables};
use crate::plan::{Plan, add};
use csub_tree::COperand;
use ll_code::{LlBlock, LlExit, LlGraph, LlLink, LlOp, VarId};
use ll_live::{among, among_operands, push_operands};
use rpy_base::{NoMem, Seq};
use std::alloc::Global;

// Drops each of the variables once that is not among the operands which are given.
#[tactic(auto, using(crate::proofs::Emitted::down_first))]
fn push_left(
    alloc: Global,
    around: Around<'_>,
    given: &[COperand],
    variables: &[VarId],
    into: &mut Seq<LlOp>,
) -> Result<(), NoMem>
    ensures { OnOk result (into.new ≡ into.old ++ b.left (the_graph around.entry) given.now variables.now []) }
{
    let mut rest = variables;
    while let [v, others @ ..] = rest {
        if !among(*v, others) && !among_operands(*v, given) {
            push_down(alloc, around, *v, into)?;
        }
        rest = others;
    }
    Ok(())
}

// The changes on one way of a test, where the other way is this.
#[tactic(auto, using(crate::proofs::Emitted::given_first))]
fn way_ops(
    alloc: Global,
    around: Around<'_>,
    way: &LlLink,
    other: &LlLink,
) -> Result<Seq<LlOp>, NoMem>
    ensures { IfOk result (λ ops. ops ≡ b.way_ops (the_graph around.entry) way.now other.now) }
{
    let mut ops = Seq::new(alloc);
    push_given(alloc, around, way.args.as_slice(), &mut ops)?;
    let mut variables = Seq::new(alloc);
    push_operands(other.args.as_slice(), &mut variables)?;
    push_left(
        alloc,
        around,
        way.args.as_slice(),
        variables.as_slice(),
        &mut ops,
    )?;
    Ok(ops)
}

// A way of a test: by a block of its own, behind those that are there, where something changes.
fn way_of(
    alloc: Global,
    around: Around<'_>,
    next: u64,
    way: &LlLink,
    other: &LlLink,
    extra: &mut Seq<LlBlock>,
) -> Result<LlLink, NoMem>
    ensures link { IfOk result (λ link. link ≡ b.way_link way.now next (b.way_ops (the_graph around.entry) way.now other.now)) }
    ensures extra { OnOk result (extra.new ≡ extra.old ++ b.way_block way.now (b.way_ops (the_graph around.entry) way.now other.now)) }
{
    let ops = way_ops(alloc, around, way, other)?;
    if ops.is_empty() {
        return copy_link(alloc, way);
    }
    extra.push(LlBlock {
        inputs: Seq::new(alloc),
        ops,
        exit: LlExit::Goto(copy_link(alloc, way)?),
    })?;
    Ok(LlLink {
        to: next,
        args: Seq::new(alloc),
    })
}

fn test_of(
    alloc: Global,
    around: Around<'_>,
    first: u64,
    v: VarId,
    there: &LlLink,
    elsewhere: &LlLink,
    extra: &mut Seq<LlBlock>,
) -> Result<LlExit, NoMem>
    ensures exit { IfOk result (λ exit. exit ≡ b.exit_of (the_graph around.entry) (first + length extra.old) (LlExit.If v there.now elsewhere.now)) }
    ensures extra { OnOk result (extra.new ≡ extra.old ++ b.behind_exit (the_graph around.entry) (LlExit.If v there.now elsewhere.now)) }
{
    let next = add(first, extra.len() as u64)?;
    let yes = way_of(alloc, around, next, there, elsewhere, extra)?;
    let next = add(first, extra.len() as u64)?;
    let no = way_of(alloc, around, next, elsewhere, there, extra)?;
    Ok(LlExit::If(v, yes, no))
}

// An exit, behind the changes that it wants.
fn exit_of(
    alloc: Global,
    around: Around<'_>,
    first: u64,
    exit: &LlExit,
    extra: &mut Seq<LlBlock>,
) -> Result<LlExit, NoMem>
    ensures exit { IfOk result (λ made. made ≡ b.exit_of (the_graph around.entry) (first + length extra.old) exit.now) }
    ensures extra { OnOk result (extra.new ≡ extra.old ++ b.behind_exit (the_graph around.entry) exit.now) }
{
    match exit {
        LlExit::Goto(link) | LlExit::OnRaise(_, _, link) => {
            Ok(LlExit::Goto(copy_link(alloc, link)?))
        }
        LlExit::If(v, there, elsewhere) => {
            test_of(alloc, around, first, *v, there, elsewhere, extra)
        }
        LlExit::Return(x) => Ok(LlExit::Return(*x)),
        LlExit::Raise(v) => Ok(LlExit::Raise(*v)),
        LlExit::Fail(n) => Ok(LlExit::Fail(*n)),
        LlExit::Raised(v) => Ok(LlExit::Raised(*v)),
    }
}

// A block; inputs that it does not read are dropped first.
#[tactic(auto, using(crate::proofs::Emitted::dead_first))]
fn block_of(
    alloc: Global,
    around: Around<'_>,
    first: u64,
    block: &LlBlock,
    extra: &mut Seq<LlBlock>,
) -> Result<LlBlock, NoMem>
    ensures made { IfOk result (λ made. made ≡ b.block_of (the_graph around.entry) (first + length extra.old) block.now) }
    ensures extra { OnOk result (extra.new ≡ extra.old ++ b.behind_exit (the_graph around.entry) block.now.exit) }
{
    let mut ops = Seq::new(alloc);
    let inputs = block.inputs.as_slice();
    let given = block.ops.as_slice();
    push_dead(alloc, around, inputs, given, &block.exit, &mut ops)?;
    push_ops(alloc, around, given, &block.exit, &mut ops)?;
    let exit = exit_of(alloc, around, first, &block.exit, extra)?;
    Ok(LlBlock {
        inputs: copy_variables(alloc, inputs)?,
        ops,
        exit,
    })
}

// The blocks keep their numbers.
fn blocks_of(alloc: Global, around: Around<'_>, blocks: &[LlBlock]) -> Result<Seq<LlBlock>, NoMem>
    ensures { IfOk result (λ made. made ≡ b.blocks_of (the_graph around.entry) blocks.now) }
{
    let first = blocks.len() as u64;
    let mut made = Seq::new(alloc);
    let mut extra = Seq::new(alloc);
    for block in blocks {
        made.push(block_of(alloc, around, first, block, &mut extra)?)?;
    }
    append(alloc, &mut made, extra)?;
    Ok(made)
}

// Blocks in the other order.
#[tactic(auto, using(crate::proofs::Behind::last_first))]
fn turned(alloc: Global, blocks: Seq<LlBlock>) -> Result<Seq<LlBlock>, NoMem>
    ensures { IfOk result (λ made. made ≡ reverse blocks) }
{
    let mut left = blocks;
    let mut made = Seq::new(alloc);
    while let Some(block) = left.pop() {
        made.push(block)?;
    }
    Ok(made)
}

// The blocks behind the others, in their order.
#[tactic(auto, using(crate::proofs::Behind::last_first))]
fn append(alloc: Global, into: &mut Seq<LlBlock>, extra: Seq<LlBlock>) -> Result<(), NoMem>
    ensures { OnOk result (into.new ≡ into.old ++ extra) }
{
    let mut left = turned(alloc, extra)?;
    while let Some(block) = left.pop() {
        into.push(block)?;
    }
    Ok(())
}

/// A graph with its changes of counts.
pub fn graph_of(alloc: Global, plan: Plan<'_>, graph: &LlGraph) -> Result<LlGraph, NoMem>
    ensures { IfOk result (λ made. made ≡ b.graph_of (the_plan plan.entry) graph.now) }
{
    let around = Around {
        plan,
        types: graph.types.as_slice(),
    };
    Ok(LlGraph {
        name: graph.name.copy(alloc)?,
        params: copy_variables(alloc, graph.params.as_slice())?,
        result: graph.result,
        types: copy_types(alloc, graph.types.as_slice())?,
        blocks: blocks_of(alloc, around, graph.blocks.as_slice())?,
    })
}
