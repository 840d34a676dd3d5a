// The list of the program's arguments.
ghost use Rattle.std.specs.Prelude.{◌≡◌, ◌++◌, IfOk, OnOk};
ghost use Rattle.rtyper_data.specs.Seen.{Asks};
ghost use Rattle.list_texts.specs.Arguments as spec;

use csub_tree::COperand::Var;
use csub_tree::{CBinary, CUnary};
use list_shape::{ONE, Shape, ZERO, array, gives, number_of};
use ll_build::build::{
    block, blocks_of, call_of, fork, go, graph, operations, types_of, variables,
};
use ll_code::{LlBlock, LlExit, LlGraph, LlOp, LlType, VarId};
use rpy_base::{NoMem, Seq};
use rtyper_data::{Found, Listed};
use std::alloc::Global;

const SIGNED: LlType = LlType::Signed;

// 0 the list, 1 its array, 2 the number of arguments, 3 which one, 4 a test, 5 its length, 6 its string,
// 7 to 10 a byte of it

#[tactic(auto, unfolding(crate::specs::Arguments::types))]
fn types(alloc: Global, shape: Shape) -> Result<Seq<LlType>, NoMem>
    ensures { IfOk result (λ types. types ≡ spec.types shape) }
{
    types_of(
        alloc,
        [
            LlType::Ptr(shape.list),
            LlType::Ptr(shape.array),
            SIGNED,
            SIGNED,
            LlType::Bool,
            SIGNED,
            LlType::Ptr(0),
            SIGNED,
            SIGNED,
            LlType::Char,
            SIGNED,
        ],
    )
}

#[tactic(auto, unfolding(crate::specs::Arguments::start))]
fn start(alloc: Global, makes: u64, shape: Shape) -> Result<LlBlock, NoMem>
    ensures { IfOk result (λ made. made ≡ spec.start makes shape) }
{
    let ops = operations(
        alloc,
        [
            LlOp::Argc(2),
            call_of(alloc, Some(0), makes, [Var(2)])?,
            array(1, shape, 0),
        ],
    )?;
    let exit = go(alloc, 1, [Var(0), Var(1), Var(2), ZERO])?;
    block(alloc, [], ops, exit)
}

#[tactic(auto, unfolding(crate::specs::Arguments::asks))]
fn asks(alloc: Global) -> Result<LlBlock, NoMem>
    ensures { IfOk result (λ made. made ≡ spec.asks) }
{
    let ops = operations(alloc, [LlOp::Binary(4, CBinary::Lt, Var(3), Var(2))])?;
    let all = [Var(0), Var(1), Var(2), Var(3)];
    let exit = fork(alloc, 4, 2, all, 6, [Var(0)])?;
    block(alloc, [0, 1, 2, 3], ops, exit)
}

// The string of the next argument, which has no bytes yet.
#[tactic(auto, unfolding(crate::specs::Arguments::next_text))]
fn next_text(alloc: Global) -> Result<LlBlock, NoMem>
    ensures { IfOk result (λ made. made ≡ spec.next_text) }
{
    let ops = operations(
        alloc,
        [
            LlOp::ArgLen(5, Var(3)),
            LlOp::NewArray(6, 0, 0, Var(5)),
            LlOp::SetField(0, 6, 0, Var(5)),
        ],
    )?;
    let xs = [Var(0), Var(1), Var(2), Var(3), Var(6), Var(5), ZERO];
    block(alloc, [0, 1, 2, 3], ops, go(alloc, 3, xs)?)
}

const TEXT: [VarId; 7] = [0, 1, 2, 3, 6, 5, 7];

// Whether it has another byte.
#[tactic(auto, unfolding(crate::specs::Arguments::text_asks))]
fn text_asks(alloc: Global) -> Result<LlBlock, NoMem>
    ensures { IfOk result (λ made. made ≡ spec.text_asks) }
{
    let ops = operations(alloc, [LlOp::Binary(4, CBinary::Lt, Var(7), Var(5))])?;
    let more = [Var(0), Var(1), Var(2), Var(3), Var(6), Var(5), Var(7)];
    let done = [Var(0), Var(1), Var(2), Var(3), Var(6)];
    block(alloc, TEXT, ops, fork(alloc, 4, 4, more, 5, done)?)
}

#[tactic(auto, unfolding(crate::specs::Arguments::next_byte))]
fn next_byte(alloc: Global) -> Result<LlBlock, NoMem>
    ensures { IfOk result (λ made. made ≡ spec.next_byte) }
{
    let ops = operations(
        alloc,
        [
            LlOp::Arg(8, Var(3), Var(7)),
            LlOp::Unary(9, CUnary::S2C, Var(8)),
            LlOp::SetItem(0, 6, Var(7), Var(9)),
            LlOp::Binary(10, CBinary::Add, Var(7), ONE),
        ],
    )?;
    let xs = [Var(0), Var(1), Var(2), Var(3), Var(6), Var(5), Var(10)];
    block(alloc, TEXT, ops, go(alloc, 3, xs)?)
}

#[tactic(auto, unfolding(crate::specs::Arguments::text_done))]
fn text_done(alloc: Global, array: u64) -> Result<LlBlock, NoMem>
    ensures { IfOk result (λ made. made ≡ spec.text_done array) }
{
    let ops = operations(
        alloc,
        [
            LlOp::SetItem(array, 1, Var(3), Var(6)),
            LlOp::Binary(10, CBinary::Add, Var(3), ONE),
        ],
    )?;
    let exit = go(alloc, 1, [Var(0), Var(1), Var(2), Var(10)])?;
    block(alloc, [0, 1, 2, 3, 6], ops, exit)
}

#[tactic(auto, unfolding(crate::specs::Arguments::first_blocks))]
fn first_blocks(alloc: Global, makes: u64, shape: Shape) -> Result<Seq<LlBlock>, NoMem>
    ensures { IfOk result (λ made. made ≡ spec.first_blocks makes shape) }
{
    let start = start(alloc, makes, shape)?;
    let asks = asks(alloc)?;
    let next = next_text(alloc)?;
    blocks_of(alloc, [start, asks, next])
}

#[tactic(auto, unfolding(crate::specs::Arguments::last_blocks))]
fn push_last_blocks(alloc: Global, array: u64, blocks: &mut Seq<LlBlock>) -> Result<(), NoMem>
    ensures { OnOk result (blocks.new ≡ blocks.old ++ spec.last_blocks array) }
{
    blocks.push(text_asks(alloc)?)?;
    blocks.push(next_byte(alloc)?)?;
    blocks.push(text_done(alloc, array)?)?;
    blocks.push(gives(alloc, 0)?)
}

#[tactic(auto, unfolding(crate::specs::Arguments::arguments_graph))]
fn arguments_graph(alloc: Global, makes: u64, shape: Shape) -> Result<LlGraph, NoMem>
    ensures { IfOk result (λ made. made ≡ spec.arguments_graph makes shape) }
{
    let types = types(alloc, shape)?;
    let mut blocks = first_blocks(alloc, makes, shape)?;
    push_last_blocks(alloc, shape.array, &mut blocks)?;
    let params = variables(alloc, [])?;
    let list = LlType::Ptr(shape.list);
    graph(alloc, b"arguments", params, list, types, blocks)
}

#[tactic(auto, unfolding(crate::specs::Arguments::arguments))]
pub fn arguments(alloc: Global, shape: Shape, found: &mut Found) -> Result<LlGraph, NoMem>
    ensures { IfOk result (λ made. Asks (spec.arguments shape found.old) made found.new) }
{
    let makes = number_of(Listed::Make(shape.list), found)?;
    arguments_graph(alloc, makes, shape)
}
