// Lists that are made: all is paid before.
ghost use Rattle.std.specs.Prelude.{◌≡◌, ◌++◌, IfOk, OnOk};
ghost use Rattle.rtyper_data.specs.Seen.{Asks};
ghost use Rattle.list_loops.specs.Making as spec;

use csub_tree::COperand::Var;
use csub_tree::{CBinary, COperand};
use list_shape::{ONE, Shape, ZERO, array, gives, length, number_of, set_length};
use ll_build::build::{
    block, blocks_of, call_of, fails, fork, go, graph, operations, types_of, variables, word,
};
use ll_code::{LlBlock, LlExit, LlGraph, LlOp, LlType};
use rpy_base::{NoMem, Seq};
use rtyper_data::{Found, Listed};
use std::alloc::Global;

const SIGNED: LlType = LlType::Signed;

/// More than any bound on steps.
pub const TOO_MUCH: i64 = 4611686018427387904;

/// What a graph of three variables passes on.
pub const THREE: [COperand; 3] = [Var(0), Var(1), Var(2)];

// ---- a list of so many items, which are still to be set

#[tactic(auto, unfolding(crate::specs::Making::make_given))]
fn make_given(alloc: Global, shape: Shape) -> Result<LlBlock, NoMem>
    ensures { IfOk result (λ made. made ≡ spec.make_given shape) }
{
    let ops = operations(
        alloc,
        [
            LlOp::NewArray(1, shape.array, shape.array, Var(0)),
            LlOp::SetField(shape.array, 1, 0, Var(0)),
            LlOp::New(2, shape.list, shape.list),
            set_length(shape, 2, Var(0)),
            LlOp::SetField(shape.list, 2, 1, Var(1)),
        ],
    )?;
    block(alloc, [0], ops, LlExit::Return(Some(Var(2))))
}

/// A list of so many items, which are still to be set.
#[tactic(auto, unfolding(crate::specs::Making::make))]
pub fn make(alloc: Global, shape: Shape) -> Result<LlGraph, NoMem>
    ensures { IfOk result (λ made. made ≡ spec.make shape) }
{
    let list = LlType::Ptr(shape.list);
    let types = types_of(alloc, [SIGNED, LlType::Ptr(shape.array), list])?;
    let blocks = blocks_of(alloc, [make_given(alloc, shape)?])?;
    let params = variables(alloc, [0])?;
    graph(alloc, b"list_make", params, list, types, blocks)
}

// ---- the items of two lists in a third

#[tactic(auto, unfolding(crate::specs::Making::concat_types))]
fn concat_types(alloc: Global, a: Shape, b: Shape, r: Shape) -> Result<Seq<LlType>, NoMem>
    ensures { IfOk result (λ types. types ≡ spec.concat_types a b r) }
{
    types_of(
        alloc,
        [
            LlType::Ptr(a.list),
            LlType::Ptr(b.list),
            SIGNED,
            SIGNED,
            SIGNED,
            LlType::Ptr(r.list),
            LlType::Ptr(r.array),
            LlType::Ptr(a.array),
            LlType::Ptr(b.array),
        ],
    )
}

#[tactic(auto, unfolding(crate::specs::Making::concat_given))]
fn concat_given(
    alloc: Global,
    makes: u64,
    copies_a: u64,
    copies_b: u64,
    a: Shape,
    b: Shape,
    r: Shape,
) -> Result<LlBlock, NoMem>
    ensures { IfOk result (λ made. made ≡ spec.concat_given makes copies_a copies_b a b r) }
{
    let from_a = [Var(7), ZERO, Var(6), ZERO, Var(2)];
    let from_b = [Var(8), ZERO, Var(6), Var(2), Var(3)];
    let ops = operations(
        alloc,
        [
            length(2, a, 0),
            length(3, b, 1),
            LlOp::Step(ONE),
            LlOp::Step(Var(2)),
            LlOp::Step(Var(3)),
            LlOp::Binary(4, CBinary::Add, Var(2), Var(3)),
            call_of(alloc, Some(5), makes, [Var(4)])?,
            array(6, r, 5),
            array(7, a, 0),
            call_of(alloc, None, copies_a, from_a)?,
            array(8, b, 1),
            call_of(alloc, None, copies_b, from_b)?,
        ],
    )?;
    block(alloc, [0, 1], ops, LlExit::Return(Some(Var(5))))
}

#[tactic(auto, unfolding(crate::specs::Making::concat_graph))]
fn concat_graph(
    alloc: Global,
    makes: u64,
    copies_a: u64,
    copies_b: u64,
    a: Shape,
    b: Shape,
    r: Shape,
) -> Result<LlGraph, NoMem>
    ensures { IfOk result (λ made. made ≡ spec.concat_graph makes copies_a copies_b a b r) }
{
    let types = concat_types(alloc, a, b, r)?;
    let given = concat_given(alloc, makes, copies_a, copies_b, a, b, r)?;
    let blocks = blocks_of(alloc, [given])?;
    let params = variables(alloc, [0, 1])?;
    let list = LlType::Ptr(r.list);
    graph(alloc, b"list_concat", params, list, types, blocks)
}

/// The items of two lists in a third.
#[tactic(auto, unfolding(crate::specs::Making::concat))]
pub fn concat(
    alloc: Global,
    a: Shape,
    b: Shape,
    r: Shape,
    found: &mut Found,
) -> Result<LlGraph, NoMem>
    ensures { IfOk result (λ made. Asks (spec.concat a b r found.old) made found.new) }
{
    let makes = number_of(Listed::Make(r.list), found)?;
    let copies_a = number_of(Listed::Copy(a.array, r.array), found)?;
    let copies_b = number_of(Listed::Copy(b.array, r.array), found)?;
    concat_graph(alloc, makes, copies_a, copies_b, a, b, r)
}

// ---- a list so many times

#[tactic(auto, unfolding(crate::specs::Making::repeat_types))]
fn repeat_types(alloc: Global, a: Shape, r: Shape) -> Result<Seq<LlType>, NoMem>
    ensures { IfOk result (λ types. types ≡ spec.repeat_types a r) }
{
    types_of(
        alloc,
        [
            LlType::Ptr(a.list),
            SIGNED,
            SIGNED,
            LlType::Bool,
            SIGNED,
            LlType::Ptr(r.list),
            LlType::Ptr(r.array),
            LlType::Ptr(a.array),
            SIGNED,
            SIGNED,
        ],
    )
}

// Less than no times is none.
#[tactic(auto, unfolding(crate::specs::Making::repeat_start))]
fn repeat_start(alloc: Global, a: Shape) -> Result<LlBlock, NoMem>
    ensures { IfOk result (λ made. made ≡ spec.repeat_start a) }
{
    let below = LlOp::Binary(3, CBinary::Lt, Var(1), ZERO);
    let ops = operations(alloc, [length(2, a, 0), below])?;
    let exit = fork(alloc, 3, 1, [Var(0), ZERO, Var(2)], 1, THREE)?;
    block(alloc, [0, 1], ops, exit)
}

// Whether the new length is a word.
#[tactic(auto, unfolding(crate::specs::Making::repeat_asks))]
fn repeat_asks(alloc: Global) -> Result<LlBlock, NoMem>
    ensures { IfOk result (λ made. made ≡ spec.repeat_asks) }
{
    let ops = operations(alloc, [LlOp::Binary(3, CBinary::MulOvf, Var(2), Var(1))])?;
    block(alloc, [0, 1, 2], ops, fork(alloc, 3, 2, [], 3, THREE)?)
}

#[tactic(auto, unfolding(crate::specs::Making::repeat_beyond))]
fn repeat_beyond(alloc: Global) -> Result<LlBlock, NoMem>
    ensures { IfOk result (λ made. made ≡ spec.repeat_beyond) }
{
    let ops = operations(alloc, [LlOp::Step(word(TOO_MUCH))])?;
    block(alloc, [], ops, LlExit::Fail(5))
}

// What it costs, where that is a word.
#[tactic(auto, unfolding(crate::specs::Making::repeat_paid))]
fn repeat_paid(alloc: Global, makes: u64, a: Shape, r: Shape) -> Result<LlBlock, NoMem>
    ensures { IfOk result (λ made. made ≡ spec.repeat_paid makes a r) }
{
    let ops = operations(
        alloc,
        [
            LlOp::Binary(4, CBinary::Mul, Var(2), Var(1)),
            LlOp::Step(ONE),
            LlOp::Step(Var(4)),
            call_of(alloc, Some(5), makes, [Var(4)])?,
            array(6, r, 5),
            array(7, a, 0),
        ],
    )?;
    let xs = [Var(5), Var(6), Var(7), Var(4), Var(2), ZERO];
    block(alloc, [0, 1, 2], ops, go(alloc, 5, xs)?)
}

#[tactic(auto, unfolding(crate::specs::Making::repeat_turn))]
fn repeat_turn(alloc: Global, copies: u64) -> Result<LlBlock, NoMem>
    ensures { IfOk result (λ made. made ≡ spec.repeat_turn copies) }
{
    let xs = [Var(7), ZERO, Var(6), Var(8), Var(2)];
    let ops = operations(
        alloc,
        [
            call_of(alloc, None, copies, xs)?,
            LlOp::Binary(9, CBinary::Add, Var(8), Var(2)),
        ],
    )?;
    let next = [Var(5), Var(6), Var(7), Var(4), Var(2), Var(9)];
    block(alloc, [5, 6, 7, 4, 2, 8], ops, go(alloc, 5, next)?)
}

#[tactic(auto, unfolding(crate::specs::Making::repeat_more))]
fn repeat_more(alloc: Global) -> Result<LlBlock, NoMem>
    ensures { IfOk result (λ made. made ≡ spec.repeat_more) }
{
    let ops = operations(alloc, [LlOp::Binary(3, CBinary::Lt, Var(8), Var(4))])?;
    let turn = [Var(5), Var(6), Var(7), Var(4), Var(2), Var(8)];
    let exit = fork(alloc, 3, 4, turn, 6, [Var(5)])?;
    block(alloc, [5, 6, 7, 4, 2, 8], ops, exit)
}

// The new length and its cost, and the list.
#[tactic(auto, unfolding(crate::specs::Making::repeat_makes))]
fn repeat_makes(alloc: Global, makes: u64, a: Shape, r: Shape) -> Result<Seq<LlBlock>, NoMem>
    ensures { IfOk result (λ made. made ≡ spec.repeat_makes makes a r) }
{
    let start = repeat_start(alloc, a)?;
    let asks = repeat_asks(alloc)?;
    let beyond = repeat_beyond(alloc)?;
    let paid = repeat_paid(alloc, makes, a, r)?;
    blocks_of(alloc, [start, asks, beyond, paid])
}

// And its items.
#[tactic(auto, unfolding(crate::specs::Making::repeat_copies))]
fn push_repeat_copies(alloc: Global, copies: u64, blocks: &mut Seq<LlBlock>) -> Result<(), NoMem>
    ensures { OnOk result (blocks.new ≡ blocks.old ++ spec.repeat_copies copies) }
{
    blocks.push(repeat_turn(alloc, copies)?)?;
    blocks.push(repeat_more(alloc)?)?;
    blocks.push(gives(alloc, 5)?)
}

#[tactic(auto, unfolding(crate::specs::Making::repeat_graph))]
fn repeat_graph(
    alloc: Global,
    makes: u64,
    copies: u64,
    a: Shape,
    r: Shape,
) -> Result<LlGraph, NoMem>
    ensures { IfOk result (λ made. made ≡ spec.repeat_graph makes copies a r) }
{
    let types = repeat_types(alloc, a, r)?;
    let mut blocks = repeat_makes(alloc, makes, a, r)?;
    push_repeat_copies(alloc, copies, &mut blocks)?;
    let params = variables(alloc, [0, 1])?;
    let list = LlType::Ptr(r.list);
    graph(alloc, b"list_repeat", params, list, types, blocks)
}

#[tactic(auto, unfolding(crate::specs::Making::repeat))]
pub fn repeat(alloc: Global, a: Shape, r: Shape, found: &mut Found) -> Result<LlGraph, NoMem>
    ensures { IfOk result (λ made. Asks (spec.repeat a r found.old) made found.new) }
{
    let makes = number_of(Listed::Make(r.list), found)?;
    let copies = number_of(Listed::Copy(a.array, r.array), found)?;
    repeat_graph(alloc, makes, copies, a, r)
}

// ---- slices

#[tactic(auto, unfolding(crate::specs::Making::slice_types))]
fn slice_types(alloc: Global, a: Shape, r: Shape) -> Result<Seq<LlType>, NoMem>
    ensures { IfOk result (λ types. types ≡ spec.slice_types a r) }
{
    types_of(
        alloc,
        [
            LlType::Ptr(a.list),
            SIGNED,
            SIGNED,
            SIGNED,
            LlType::Bool,
            LlType::Ptr(r.list),
            LlType::Ptr(r.array),
            LlType::Ptr(a.array),
            SIGNED,
        ],
    )
}

// A test of the bounds, which goes on at one of two blocks.
#[tactic(auto, unfolding(crate::specs::Making::bound))]
fn bound<const N: usize>(
    alloc: Global,
    test: LlOp,
    there: u64,
    xs: [COperand; N],
    elsewhere: u64,
) -> Result<LlBlock, NoMem>
    ensures { IfOk result (λ made. made ≡ spec.bound test there xs.entry elsewhere) }
{
    let ops = operations(alloc, [test])?;
    let exit = fork(alloc, 4, there, xs, elsewhere, THREE)?;
    block(alloc, [0, 1, 2], ops, exit)
}

// Whether the end lies within the list.
#[tactic(auto, unfolding(crate::specs::Making::slice_end))]
fn slice_end(alloc: Global, a: Shape) -> Result<LlBlock, NoMem>
    ensures { IfOk result (λ made. made ≡ spec.slice_end a) }
{
    let beyond = LlOp::Binary(4, CBinary::Lt, Var(3), Var(2));
    let ops = operations(alloc, [length(3, a, 0), beyond])?;
    let exit = fork(alloc, 4, 3, [Var(0), Var(1), Var(3)], 3, THREE)?;
    block(alloc, [0, 1, 2], ops, exit)
}

#[tactic(auto, unfolding(crate::specs::Making::slice_cut))]
fn slice_cut(alloc: Global, makes: u64, copies: u64, a: Shape, r: Shape) -> Result<LlBlock, NoMem>
    ensures { IfOk result (λ made. made ≡ spec.slice_cut makes copies a r) }
{
    let xs = [Var(7), Var(1), Var(6), ZERO, Var(8)];
    let ops = operations(
        alloc,
        [
            LlOp::Binary(8, CBinary::Sub, Var(2), Var(1)),
            LlOp::Step(ONE),
            LlOp::Step(Var(8)),
            call_of(alloc, Some(5), makes, [Var(8)])?,
            array(6, r, 5),
            array(7, a, 0),
            call_of(alloc, None, copies, xs)?,
        ],
    )?;
    block(alloc, [0, 1, 2], ops, LlExit::Return(Some(Var(5))))
}

#[tactic(auto, unfolding(crate::specs::Making::slice_graph))]
fn slice_graph(alloc: Global, makes: u64, copies: u64, a: Shape, r: Shape) -> Result<LlGraph, NoMem>
    ensures { IfOk result (λ made. made ≡ spec.slice_graph makes copies a r) }
{
    let low = LlOp::Binary(4, CBinary::Lt, Var(1), ZERO);
    let high = LlOp::Binary(4, CBinary::Lt, Var(2), ZERO);
    let past = LlOp::Binary(4, CBinary::Lt, Var(2), Var(1));
    let types = slice_types(alloc, a, r)?;
    let blocks = blocks_of(
        alloc,
        [
            bound(alloc, low, 5, [], 1)?,
            bound(alloc, high, 5, [], 2)?,
            slice_end(alloc, a)?,
            bound(alloc, past, 4, [Var(0), Var(2), Var(2)], 4)?,
            slice_cut(alloc, makes, copies, a, r)?,
            fails(alloc, 5)?,
        ],
    )?;
    let params = variables(alloc, [0, 1, 2])?;
    let list = LlType::Ptr(r.list);
    graph(alloc, b"list_slice", params, list, types, blocks)
}

/// The items between two bounds, which are cut at the length.
#[tactic(auto, unfolding(crate::specs::Making::slice))]
pub fn slice(alloc: Global, a: Shape, r: Shape, found: &mut Found) -> Result<LlGraph, NoMem>
    ensures { IfOk result (λ made. Asks (spec.slice a r found.old) made found.new) }
{
    let makes = number_of(Listed::Make(r.list), found)?;
    let copies = number_of(Listed::Copy(a.array, r.array), found)?;
    slice_graph(alloc, makes, copies, a, r)
}

// ---- all items but the last

#[tactic(auto, unfolding(crate::specs::Making::but_last_start))]
fn but_last_start(alloc: Global, a: Shape) -> Result<LlBlock, NoMem>
    ensures { IfOk result (λ made. made ≡ spec.but_last_start a) }
{
    let any = LlOp::Binary(2, CBinary::Gt, Var(1), ZERO);
    let ops = operations(alloc, [length(1, a, 0), any])?;
    let exit = fork(alloc, 2, 1, [Var(0), Var(1)], 2, [Var(0), ZERO])?;
    block(alloc, [0], ops, exit)
}

#[tactic(auto, unfolding(crate::specs::Making::but_last_shorter))]
fn but_last_shorter(alloc: Global) -> Result<LlBlock, NoMem>
    ensures { IfOk result (λ made. made ≡ spec.but_last_shorter) }
{
    let ops = operations(alloc, [LlOp::Binary(3, CBinary::Sub, Var(1), ONE)])?;
    block(alloc, [0, 1], ops, go(alloc, 2, [Var(0), Var(3)])?)
}

#[tactic(auto, unfolding(crate::specs::Making::but_last_given))]
fn but_last_given(alloc: Global, slices: u64) -> Result<LlBlock, NoMem>
    ensures { IfOk result (λ made. made ≡ spec.but_last_given slices) }
{
    let given = call_of(alloc, Some(4), slices, [Var(0), ZERO, Var(3)])?;
    let ops = operations(alloc, [given])?;
    block(alloc, [0, 3], ops, LlExit::Return(Some(Var(4))))
}

#[tactic(auto, unfolding(crate::specs::Making::but_last_graph))]
fn but_last_graph(alloc: Global, slices: u64, a: Shape, r: Shape) -> Result<LlGraph, NoMem>
    ensures { IfOk result (λ made. made ≡ spec.but_last_graph slices a r) }
{
    let list = LlType::Ptr(r.list);
    let given = LlType::Ptr(a.list);
    let types = types_of(alloc, [given, SIGNED, LlType::Bool, SIGNED, list])?;
    let blocks = blocks_of(
        alloc,
        [
            but_last_start(alloc, a)?,
            but_last_shorter(alloc)?,
            but_last_given(alloc, slices)?,
        ],
    )?;
    let params = variables(alloc, [0])?;
    graph(alloc, b"list_but_last", params, list, types, blocks)
}

/// All items but the last.
#[tactic(auto, unfolding(crate::specs::Making::but_last))]
pub fn but_last(alloc: Global, a: Shape, r: Shape, found: &mut Found) -> Result<LlGraph, NoMem>
    ensures { IfOk result (λ made. Asks (spec.but_last a r found.old) made found.new) }
{
    let slices = number_of(Listed::Slice(a.list, r.list), found)?;
    but_last_graph(alloc, slices, a, r)
}
