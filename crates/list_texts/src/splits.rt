// Strings out of lists, and lists out of strings. All is paid before the first block is made.
ghost use Rattle.std.specs.Prelude.{◌≡◌, IfOk};
ghost use Rattle.rtyper_data.specs.Seen.{writing, Asks, Gives};
ghost use Rattle.list_texts.specs.Splitting as spec;

use csub_tree::COperand::Var;
use csub_tree::{CBinary, CCell, CConst, COperand, CUnary};
use list_shape::{ONE, Shape, ZERO, array, gives, length, number_of};
use ll_build::Helper;
use ll_build::build::{
    answer, block, blocks_of, call_of, fork, go, graph, operations, types_of, variables, word,
};
use ll_code::{LlBlock, LlExit, LlGraph, LlOp, LlType, VarId};
use rpy_base::{NoMem, Seq};
use rtyper_data::{Body, Found, Listed, helper_number, static_of, value_as, variable_of};
use rtyper_layout::Layout;
use std::alloc::Global;

const THREE: [COperand; 3] = [Var(0), Var(1), Var(2)];

const SIGNED: LlType = LlType::Signed;

const TEXT: LlType = LlType::Ptr(0);

// ---- a part of a string, which costs nothing: short ones are statics

// The string without bytes.
#[tactic(auto, unfolding(crate::specs::Splitting::empty))]
fn empty(alloc: Global, found: &mut Found) -> Result<CConst, NoMem>
    ensures { IfOk result (λ made. Asks (spec.empty found.old) made found.new) }
{
    let mut cells = Seq::new(alloc);
    cells.push(CCell::Const(CConst::Word(0)))?;
    cells.push(CCell::Braces(Seq::new(alloc)))?;
    static_of(0, cells, found)
}

#[tactic(auto, unfolding(crate::specs::Splitting::part_types))]
fn part_types(alloc: Global) -> Result<Seq<LlType>, NoMem>
    ensures { IfOk result (λ types. types ≡ spec.part_types) }
{
    let flag = LlType::Bool;
    types_of(
        alloc,
        [TEXT, SIGNED, SIGNED, flag, LlType::Char, TEXT, TEXT],
    )
}

#[tactic(auto, unfolding(crate::specs::Splitting::part_none))]
fn part_none(alloc: Global) -> Result<LlBlock, NoMem>
    ensures { IfOk result (λ made. made ≡ spec.part_none) }
{
    let ops = operations(alloc, [LlOp::Binary(3, CBinary::Eq, Var(2), ZERO)])?;
    block(alloc, [0, 1, 2], ops, fork(alloc, 3, 1, [], 2, THREE)?)
}

#[tactic(auto, unfolding(crate::specs::Splitting::part_one))]
fn part_one(alloc: Global) -> Result<LlBlock, NoMem>
    ensures { IfOk result (λ made. made ≡ spec.part_one) }
{
    let ops = operations(alloc, [LlOp::Binary(3, CBinary::Eq, Var(2), ONE)])?;
    let exit = fork(alloc, 3, 3, [Var(0), Var(1)], 4, THREE)?;
    block(alloc, [0, 1, 2], ops, exit)
}

#[tactic(auto, unfolding(crate::specs::Splitting::part_byte))]
fn part_byte(alloc: Global, of_char: u64) -> Result<LlBlock, NoMem>
    ensures { IfOk result (λ made. made ≡ spec.part_byte of_char) }
{
    let ops = operations(
        alloc,
        [
            LlOp::GetItem(4, 0, 0, Var(1)),
            call_of(alloc, Some(5), of_char, [Var(4)])?,
        ],
    )?;
    block(alloc, [0, 1], ops, LlExit::Return(Some(Var(5))))
}

#[tactic(auto, unfolding(crate::specs::Splitting::part_more))]
fn part_more(alloc: Global, copies: u64) -> Result<LlBlock, NoMem>
    ensures { IfOk result (λ made. made ≡ spec.part_more copies) }
{
    let xs = [Var(0), Var(1), Var(6), ZERO, Var(2)];
    let ops = operations(
        alloc,
        [
            LlOp::NewArray(6, 0, 0, Var(2)),
            LlOp::SetField(0, 6, 0, Var(2)),
            call_of(alloc, None, copies, xs)?,
        ],
    )?;
    block(alloc, [0, 1, 2], ops, LlExit::Return(Some(Var(6))))
}

// No byte or one.
#[tactic(auto, unfolding(crate::specs::Splitting::part_short))]
fn part_short(alloc: Global, nothing: CConst, of_char: u64) -> Result<Seq<LlBlock>, NoMem>
    ensures { IfOk result (λ made. made ≡ spec.part_short nothing of_char) }
{
    let none = part_none(alloc)?;
    let empty = answer(alloc, COperand::Const(nothing))?;
    let one = part_one(alloc)?;
    let byte = part_byte(alloc, of_char)?;
    blocks_of(alloc, [none, empty, one, byte])
}

#[tactic(auto, unfolding(crate::specs::Splitting::part_graph))]
fn part_graph(alloc: Global, nothing: CConst, of_char: u64, copies: u64) -> Result<LlGraph, NoMem>
    ensures { IfOk result (λ made. made ≡ spec.part_graph nothing of_char copies) }
{
    let types = part_types(alloc)?;
    let mut blocks = part_short(alloc, nothing, of_char)?;
    blocks.push(part_more(alloc, copies)?)?;
    let params = variables(alloc, [0, 1, 2])?;
    graph(alloc, b"text_part", params, TEXT, types, blocks)
}

#[tactic(auto, unfolding(crate::specs::Splitting::part))]
pub fn part(alloc: Global, found: &mut Found) -> Result<LlGraph, NoMem>
    ensures { IfOk result (λ made. Asks (spec.part found.old) made found.new) }
{
    let nothing = empty(alloc, found)?;
    let of_char = helper_number(Helper::StrOfChar, found)?;
    let copies = number_of(Listed::Copy(0, 0), found)?;
    part_graph(alloc, nothing, of_char, copies)
}

// ---- `join`: 0 the string between, 1 the list, 2 its array, 3 its length, 4 the length of the string
// between, 5 a place, 6 the length of all, 7 a test, 8 the result, 9 a place in it, 10 and 11 what comes
// next, 12 the length of an item, 13 a short result

#[tactic(auto, unfolding(crate::specs::Splitting::join_types))]
fn join_types(alloc: Global, shape: Shape) -> Result<Seq<LlType>, NoMem>
    ensures { IfOk result (λ types. types ≡ spec.join_types shape) }
{
    types_of(
        alloc,
        [
            TEXT,
            LlType::Ptr(shape.list),
            LlType::Ptr(shape.array),
            SIGNED,
            SIGNED,
            SIGNED,
            SIGNED,
            LlType::Bool,
            TEXT,
            SIGNED,
            SIGNED,
            SIGNED,
            SIGNED,
            TEXT,
        ],
    )
}

// The item at the place, as a string, and its length.
#[tactic(auto, unfolding(crate::specs::Splitting::item_text))]
fn item_text(
    alloc: Global,
    layout: &Layout,
    shape: Shape,
    found: &mut Found,
    body: &mut Body,
) -> Result<VarId, NoMem>
    ensures { IfOk result (λ text. Gives (spec.item_text layout.now shape (writing found.old body.old)) text found.new body.new) }
{
    let item = body.fresh(shape.item)?;
    body.ops.push(LlOp::GetItem(item, shape.array, 2, Var(5)))?;
    let kind = shape.item;
    let x = value_as(alloc, layout, Var(item), kind, TEXT, found, body)?;
    let text = variable_of(x, TEXT, body)?;
    body.ops.push(LlOp::GetField(12, 0, text, 0))?;
    Ok(text)
}

// The operations, which a block takes.
fn taken(alloc: Global, body: &mut Body) -> Seq<LlOp>
    ensures given { result ≡ body.old.ops }
    ensures left { body.new ≡ spec.without_ops body.old }
{
    std::mem::replace(&mut body.ops, Seq::new(alloc))
}

#[tactic(auto, unfolding(crate::specs::Splitting::join_start))]
fn join_start(alloc: Global, shape: Shape) -> Result<LlBlock, NoMem>
    ensures { IfOk result (λ made. made ≡ spec.join_start shape) }
{
    let ops = operations(
        alloc,
        [
            length(3, shape, 1),
            array(2, shape, 1),
            LlOp::GetField(4, 0, 0, 0),
            LlOp::Step(ONE),
        ],
    )?;
    let xs = [Var(0), Var(2), Var(3), Var(4), ZERO, ZERO];
    block(alloc, [0, 1], ops, go(alloc, 1, xs)?)
}

// What counting goes on with.
const COUNTING: [VarId; 6] = [0, 2, 3, 4, 5, 6];

#[tactic(auto, unfolding(crate::specs::Splitting::join_asks))]
fn join_asks(alloc: Global) -> Result<LlBlock, NoMem>
    ensures { IfOk result (λ made. made ≡ spec.join_asks) }
{
    let ops = operations(alloc, [LlOp::Binary(7, CBinary::Lt, Var(5), Var(3))])?;
    let all = [Var(0), Var(2), Var(3), Var(4), Var(5), Var(6)];
    let end = [Var(0), Var(2), Var(3), Var(4), Var(6)];
    block(alloc, COUNTING, ops, fork(alloc, 7, 2, all, 5, end)?)
}

#[tactic(auto, unfolding(crate::specs::Splitting::counted_block))]
fn counted_block(alloc: Global, ops: Seq<LlOp>) -> Result<LlBlock, NoMem>
    ensures { IfOk result (λ made. made ≡ spec.counted_block ops) }
{
    let xs = [Var(0), Var(2), Var(3), Var(4), Var(5), Var(11)];
    block(alloc, COUNTING, ops, fork(alloc, 7, 3, xs, 4, xs)?)
}

// An item is paid by its length.
#[tactic(auto, unfolding(crate::specs::Splitting::counted))]
fn counted(
    alloc: Global,
    layout: &Layout,
    shape: Shape,
    found: &mut Found,
    body: &mut Body,
) -> Result<LlBlock, NoMem>
    ensures { IfOk result (λ made. Gives (spec.counted layout.now shape (writing found.old body.old)) made found.new body.new) }
{
    let _text = item_text(alloc, layout, shape, found, body)?;
    body.ops.push(LlOp::Step(Var(12)))?;
    body.ops
        .push(LlOp::Binary(11, CBinary::Add, Var(6), Var(12)))?;
    body.ops.push(LlOp::Binary(7, CBinary::Gt, Var(5), ZERO))?;
    let ops = taken(alloc, body);
    counted_block(alloc, ops)
}

// And the string before it by its own.
#[tactic(auto, unfolding(crate::specs::Splitting::join_between))]
fn join_between(alloc: Global) -> Result<LlBlock, NoMem>
    ensures { IfOk result (λ made. made ≡ spec.join_between) }
{
    let ops = operations(
        alloc,
        [
            LlOp::Step(Var(4)),
            LlOp::Binary(11, CBinary::Add, Var(6), Var(4)),
        ],
    )?;
    let xs = [Var(0), Var(2), Var(3), Var(4), Var(5), Var(11)];
    block(alloc, COUNTING, ops, go(alloc, 4, xs)?)
}

#[tactic(auto, unfolding(crate::specs::Splitting::join_next))]
fn join_next(alloc: Global) -> Result<LlBlock, NoMem>
    ensures { IfOk result (λ made. made ≡ spec.join_next) }
{
    let ops = operations(alloc, [LlOp::Binary(10, CBinary::Add, Var(5), ONE)])?;
    let xs = [Var(0), Var(2), Var(3), Var(4), Var(10), Var(6)];
    block(alloc, COUNTING, ops, go(alloc, 1, xs)?)
}

#[tactic(auto, unfolding(crate::specs::Splitting::join_made))]
fn join_made(alloc: Global) -> Result<LlBlock, NoMem>
    ensures { IfOk result (λ made. made ≡ spec.join_made) }
{
    let ops = operations(
        alloc,
        [
            LlOp::NewArray(8, 0, 0, Var(6)),
            LlOp::SetField(0, 8, 0, Var(6)),
        ],
    )?;
    let xs = [Var(0), Var(2), Var(3), Var(4), Var(8), ZERO, ZERO, Var(6)];
    block(alloc, [0, 2, 3, 4, 6], ops, go(alloc, 6, xs)?)
}

// What writing goes on with.
const JOINING: [VarId; 8] = [0, 2, 3, 4, 8, 5, 9, 6];

const JOINING_ON: [COperand; 8] = [
    Var(0),
    Var(2),
    Var(3),
    Var(4),
    Var(8),
    Var(5),
    Var(9),
    Var(6),
];

// Whether an item is there.
#[tactic(auto, unfolding(crate::specs::Splitting::join_more))]
fn join_more(alloc: Global) -> Result<LlBlock, NoMem>
    ensures { IfOk result (λ made. made ≡ spec.join_more) }
{
    let ops = operations(alloc, [LlOp::Binary(7, CBinary::Lt, Var(5), Var(3))])?;
    let exit = fork(alloc, 7, 7, JOINING_ON, 10, [Var(8), Var(6)])?;
    block(alloc, JOINING, ops, exit)
}

#[tactic(auto, unfolding(crate::specs::Splitting::join_behind_first))]
fn join_behind_first(alloc: Global) -> Result<LlBlock, NoMem>
    ensures { IfOk result (λ made. made ≡ spec.join_behind_first) }
{
    let ops = operations(alloc, [LlOp::Binary(7, CBinary::Gt, Var(5), ZERO)])?;
    let exit = fork(alloc, 7, 8, JOINING_ON, 9, JOINING_ON)?;
    block(alloc, JOINING, ops, exit)
}

// The string between.
#[tactic(auto, unfolding(crate::specs::Splitting::join_separated))]
fn join_separated(alloc: Global, copies: u64) -> Result<LlBlock, NoMem>
    ensures { IfOk result (λ made. made ≡ spec.join_separated copies) }
{
    let xs = [Var(0), ZERO, Var(8), Var(9), Var(4)];
    let ops = operations(
        alloc,
        [
            call_of(alloc, None, copies, xs)?,
            LlOp::Binary(11, CBinary::Add, Var(9), Var(4)),
        ],
    )?;
    let xs = [
        Var(0),
        Var(2),
        Var(3),
        Var(4),
        Var(8),
        Var(5),
        Var(11),
        Var(6),
    ];
    block(alloc, JOINING, ops, go(alloc, 9, xs)?)
}

#[tactic(auto, unfolding(crate::specs::Splitting::put_block))]
fn put_block(alloc: Global, ops: Seq<LlOp>) -> Result<LlBlock, NoMem>
    ensures { IfOk result (λ made. made ≡ spec.put_block ops) }
{
    let xs = [
        Var(0),
        Var(2),
        Var(3),
        Var(4),
        Var(8),
        Var(10),
        Var(11),
        Var(6),
    ];
    block(alloc, JOINING, ops, go(alloc, 6, xs)?)
}

#[tactic(auto, unfolding(crate::specs::Splitting::put))]
fn put(
    alloc: Global,
    layout: &Layout,
    shape: Shape,
    copies: u64,
    found: &mut Found,
    body: &mut Body,
) -> Result<LlBlock, NoMem>
    ensures { IfOk result (λ made. Gives (spec.put layout.now shape copies (writing found.old body.old)) made found.new body.new) }
{
    let text = item_text(alloc, layout, shape, found, body)?;
    let xs = [Var(text), ZERO, Var(8), Var(9), Var(12)];
    body.ops.push(call_of(alloc, None, copies, xs)?)?;
    body.ops
        .push(LlOp::Binary(11, CBinary::Add, Var(9), Var(12)))?;
    body.ops.push(LlOp::Binary(10, CBinary::Add, Var(5), ONE))?;
    let ops = taken(alloc, body);
    put_block(alloc, ops)
}

#[tactic(auto, unfolding(crate::specs::Splitting::join_short))]
fn join_short(alloc: Global) -> Result<LlBlock, NoMem>
    ensures { IfOk result (λ made. made ≡ spec.join_short) }
{
    let ops = operations(alloc, [LlOp::Binary(7, CBinary::Lt, Var(6), word(2))])?;
    let exit = fork(alloc, 7, 11, [Var(8), Var(6)], 12, [Var(8)])?;
    block(alloc, [8, 6], ops, exit)
}

#[tactic(auto, unfolding(crate::specs::Splitting::join_shortened))]
fn join_shortened(alloc: Global, parts: u64) -> Result<LlBlock, NoMem>
    ensures { IfOk result (λ made. made ≡ spec.join_shortened parts) }
{
    let given = call_of(alloc, Some(13), parts, [Var(8), ZERO, Var(6)])?;
    let ops = operations(alloc, [given])?;
    block(alloc, [8, 6], ops, LlExit::Return(Some(Var(13))))
}

// Blocks 0 to 4 count and pay, 5 makes the result, 6 to 9 write it, 10 to 12 give it.
#[tactic(auto, unfolding(crate::specs::Splitting::join_graph))]
fn join_graph(
    alloc: Global,
    shape: Shape,
    counts: LlBlock,
    copies: u64,
    puts: LlBlock,
    parts: u64,
    types: Seq<LlType>,
) -> Result<LlGraph, NoMem>
    ensures { IfOk result (λ made. made ≡ spec.join_graph shape counts copies puts parts types) }
{
    let blocks = blocks_of(
        alloc,
        [
            join_start(alloc, shape)?,
            join_asks(alloc)?,
            counts,
            join_between(alloc)?,
            join_next(alloc)?,
            join_made(alloc)?,
            join_more(alloc)?,
            join_behind_first(alloc)?,
            join_separated(alloc, copies)?,
            puts,
            join_short(alloc)?,
            join_shortened(alloc, parts)?,
            gives(alloc, 8)?,
        ],
    )?;
    let params = variables(alloc, [0, 1])?;
    graph(alloc, b"join", params, TEXT, types, blocks)
}

#[tactic(auto, unfolding(crate::specs::Splitting::join))]
pub fn join(
    alloc: Global,
    layout: &Layout,
    shape: Shape,
    found: &mut Found,
) -> Result<LlGraph, NoMem>
    ensures { IfOk result (λ made. Asks (spec.join layout.now shape found.old) made found.new) }
{
    let mut body = Body {
        types: join_types(alloc, shape)?,
        ops: Seq::new(alloc),
    };
    let counts = counted(alloc, layout, shape, found, &mut body)?;
    let copies = number_of(Listed::Copy(0, 0), found)?;
    let puts = put(alloc, layout, shape, copies, found, &mut body)?;
    let parts = number_of(Listed::Part, found)?;
    let Body { types, ops: _ops } = body;
    join_graph(alloc, shape, counts, copies, puts, parts, types)
}

// ---- `split`: 0 the string, 1 the character, 2 its number, 3 the length, 4 a place, 5 the number of
// parts, 6 a test, 7 the list, 8 its array, 9 where a part begins, 10 the place of a part, 11 to 15 what
// comes between

#[tactic(auto, unfolding(crate::specs::Splitting::split_types))]
fn split_types(alloc: Global, shape: Shape) -> Result<Seq<LlType>, NoMem>
    ensures { IfOk result (λ types. types ≡ spec.split_types shape) }
{
    types_of(
        alloc,
        [
            TEXT,
            LlType::Char,
            SIGNED,
            SIGNED,
            SIGNED,
            SIGNED,
            LlType::Bool,
            LlType::Ptr(shape.list),
            LlType::Ptr(shape.array),
            SIGNED,
            SIGNED,
            LlType::Char,
            SIGNED,
            SIGNED,
            TEXT,
            SIGNED,
        ],
    )
}

#[tactic(auto, unfolding(crate::specs::Splitting::split_start))]
fn split_start(alloc: Global) -> Result<LlBlock, NoMem>
    ensures { IfOk result (λ made. made ≡ spec.split_start) }
{
    let ops = operations(
        alloc,
        [
            LlOp::Unary(2, CUnary::C2S, Var(1)),
            LlOp::GetField(3, 0, 0, 0),
        ],
    )?;
    let xs = [Var(0), Var(2), Var(3), ZERO, ONE];
    block(alloc, [0, 1], ops, go(alloc, 1, xs)?)
}

#[tactic(auto, unfolding(crate::specs::Splitting::split_asks))]
fn split_asks(alloc: Global) -> Result<LlBlock, NoMem>
    ensures { IfOk result (λ made. made ≡ spec.split_asks) }
{
    let ops = operations(alloc, [LlOp::Binary(6, CBinary::Lt, Var(4), Var(3))])?;
    let all = [Var(0), Var(2), Var(3), Var(4), Var(5)];
    let end = [Var(0), Var(2), Var(3), Var(5)];
    let exit = fork(alloc, 6, 2, all, 3, end)?;
    block(alloc, [0, 2, 3, 4, 5], ops, exit)
}

#[tactic(auto, unfolding(crate::specs::Splitting::split_counted))]
fn split_counted(alloc: Global) -> Result<LlBlock, NoMem>
    ensures { IfOk result (λ made. made ≡ spec.split_counted) }
{
    let ops = operations(
        alloc,
        [
            LlOp::GetItem(11, 0, 0, Var(4)),
            LlOp::Unary(12, CUnary::C2S, Var(11)),
            LlOp::Binary(6, CBinary::Eq, Var(12), Var(2)),
            LlOp::Unary(13, CUnary::B2S, Var(6)),
            LlOp::Binary(12, CBinary::Add, Var(5), Var(13)),
            LlOp::Binary(13, CBinary::Add, Var(4), ONE),
        ],
    )?;
    let xs = [Var(0), Var(2), Var(3), Var(13), Var(12)];
    block(alloc, [0, 2, 3, 4, 5], ops, go(alloc, 1, xs)?)
}

// A step, two for each part, and one for each byte of the parts.
#[tactic(auto, unfolding(crate::specs::Splitting::split_paid))]
fn split_paid(alloc: Global, makes: u64, shape: Shape) -> Result<LlBlock, NoMem>
    ensures { IfOk result (λ made. made ≡ spec.split_paid makes shape) }
{
    let ops = operations(
        alloc,
        [
            LlOp::Binary(12, CBinary::Sub, Var(3), Var(5)),
            LlOp::Binary(12, CBinary::Add, Var(12), ONE),
            LlOp::Step(ONE),
            LlOp::Step(Var(5)),
            LlOp::Step(Var(5)),
            LlOp::Step(Var(12)),
            call_of(alloc, Some(7), makes, [Var(5)])?,
            array(8, shape, 7),
        ],
    )?;
    let xs = [Var(0), Var(2), Var(3), Var(7), Var(8), ZERO, ZERO, ZERO];
    block(alloc, [0, 2, 3, 5], ops, go(alloc, 4, xs)?)
}

// What taking parts goes on with.
const SPLITTING: [VarId; 8] = [0, 2, 3, 7, 8, 4, 9, 10];

const SPLITTING_ON: [COperand; 8] = [
    Var(0),
    Var(2),
    Var(3),
    Var(7),
    Var(8),
    Var(4),
    Var(9),
    Var(10),
];

#[tactic(auto, unfolding(crate::specs::Splitting::split_more))]
fn split_more(alloc: Global) -> Result<LlBlock, NoMem>
    ensures { IfOk result (λ made. made ≡ spec.split_more) }
{
    let ops = operations(alloc, [LlOp::Binary(6, CBinary::Lt, Var(4), Var(3))])?;
    let end = [Var(0), Var(3), Var(7), Var(8), Var(9), Var(10)];
    let exit = fork(alloc, 6, 5, SPLITTING_ON, 8, end)?;
    block(alloc, SPLITTING, ops, exit)
}

#[tactic(auto, unfolding(crate::specs::Splitting::split_tested))]
fn split_tested(alloc: Global) -> Result<LlBlock, NoMem>
    ensures { IfOk result (λ made. made ≡ spec.split_tested) }
{
    let ops = operations(
        alloc,
        [
            LlOp::GetItem(11, 0, 0, Var(4)),
            LlOp::Unary(12, CUnary::C2S, Var(11)),
            LlOp::Binary(6, CBinary::Eq, Var(12), Var(2)),
        ],
    )?;
    let exit = fork(alloc, 6, 6, SPLITTING_ON, 7, SPLITTING_ON)?;
    block(alloc, SPLITTING, ops, exit)
}

#[tactic(auto, unfolding(crate::specs::Splitting::split_part))]
fn split_part(alloc: Global, parts: u64, shape: Shape) -> Result<LlBlock, NoMem>
    ensures { IfOk result (λ made. made ≡ spec.split_part parts shape) }
{
    let ops = operations(
        alloc,
        [
            LlOp::Binary(12, CBinary::Sub, Var(4), Var(9)),
            call_of(alloc, Some(14), parts, [Var(0), Var(9), Var(12)])?,
            LlOp::SetItem(shape.array, 8, Var(10), Var(14)),
            LlOp::Binary(12, CBinary::Add, Var(4), ONE),
            LlOp::Binary(13, CBinary::Add, Var(10), ONE),
        ],
    )?;
    let xs = [
        Var(0),
        Var(2),
        Var(3),
        Var(7),
        Var(8),
        Var(12),
        Var(12),
        Var(13),
    ];
    block(alloc, SPLITTING, ops, go(alloc, 4, xs)?)
}

#[tactic(auto, unfolding(crate::specs::Splitting::split_next))]
fn split_next(alloc: Global) -> Result<LlBlock, NoMem>
    ensures { IfOk result (λ made. made ≡ spec.split_next) }
{
    let ops = operations(alloc, [LlOp::Binary(12, CBinary::Add, Var(4), ONE)])?;
    let xs = [
        Var(0),
        Var(2),
        Var(3),
        Var(7),
        Var(8),
        Var(12),
        Var(9),
        Var(10),
    ];
    block(alloc, SPLITTING, ops, go(alloc, 4, xs)?)
}

#[tactic(auto, unfolding(crate::specs::Splitting::split_last))]
fn split_last(alloc: Global, parts: u64, shape: Shape) -> Result<LlBlock, NoMem>
    ensures { IfOk result (λ made. made ≡ spec.split_last parts shape) }
{
    let ops = operations(
        alloc,
        [
            LlOp::Binary(12, CBinary::Sub, Var(3), Var(9)),
            call_of(alloc, Some(14), parts, [Var(0), Var(9), Var(12)])?,
            LlOp::SetItem(shape.array, 8, Var(10), Var(14)),
        ],
    )?;
    let given = LlExit::Return(Some(Var(7)));
    block(alloc, [0, 3, 7, 8, 9, 10], ops, given)
}

// Blocks 0 to 2 count the parts, 3 pays and makes the list, 4 to 8 take the parts.
#[tactic(auto, unfolding(crate::specs::Splitting::split_graph))]
fn split_graph(alloc: Global, makes: u64, parts: u64, shape: Shape) -> Result<LlGraph, NoMem>
    ensures { IfOk result (λ made. made ≡ spec.split_graph makes parts shape) }
{
    let types = split_types(alloc, shape)?;
    let blocks = blocks_of(
        alloc,
        [
            split_start(alloc)?,
            split_asks(alloc)?,
            split_counted(alloc)?,
            split_paid(alloc, makes, shape)?,
            split_more(alloc)?,
            split_tested(alloc)?,
            split_part(alloc, parts, shape)?,
            split_next(alloc)?,
            split_last(alloc, parts, shape)?,
        ],
    )?;
    let params = variables(alloc, [0, 1])?;
    graph(
        alloc,
        b"split",
        params,
        LlType::Ptr(shape.list),
        types,
        blocks,
    )
}

#[tactic(auto, unfolding(crate::specs::Splitting::split))]
pub fn split(alloc: Global, shape: Shape, found: &mut Found) -> Result<LlGraph, NoMem>
    ensures { IfOk result (λ made. Asks (spec.split shape found.old) made found.new) }
{
    let makes = number_of(Listed::Make(shape.list), found)?;
    let parts = number_of(Listed::Part, found)?;
    split_graph(alloc, makes, parts, shape)
}
