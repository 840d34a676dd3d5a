// Operations on words and bytes that are graphs of their own, since they test something.
ghost use Rattle.std.specs.Prelude.{◌≡◌, IfOk};
ghost use Rattle.ll_helpers.specs.Words as spec;

use csub_tree::{CBinary, CUnary};
use ll_build::build::{
    block, flag, fork, graph, none, one, three, two, types_of, var, variables, word,
};
use ll_code::{LlExit, LlGraph, LlOp, LlType};
use rpy_base::{NoMem, Seq};
use std::alloc::Global;

/// The floor of a quotient; a zero divisor fails.
pub fn word_div(alloc: Global) -> Result<LlGraph, NoMem>
    ensures { IfOk result (λ made. made ≡ spec.word_div) }
{
    let mut blocks = Seq::new(alloc);
    let ops = one(alloc, LlOp::Binary(2, CBinary::Eq, var(1), word(0)))?;
    blocks.push(block(
        alloc,
        [0, 1],
        ops,
        fork(alloc, 2, 1, [], 2, [var(0), var(1)])?,
    )?)?;
    blocks.push(none(alloc, [], LlExit::Fail(2))?)?;
    let ops = one(alloc, LlOp::Binary(3, CBinary::Div, var(0), var(1)))?;
    blocks.push(block(alloc, [0, 1], ops, LlExit::Return(Some(var(3))))?)?;
    let types = types_of(
        alloc,
        [LlType::Signed, LlType::Signed, LlType::Bool, LlType::Signed],
    )?;
    graph(
        alloc,
        b"word_div",
        variables(alloc, [0, 1])?,
        LlType::Signed,
        types,
        blocks,
    )
}

/// What is left of it; a zero divisor fails.
pub fn word_mod(alloc: Global) -> Result<LlGraph, NoMem>
    ensures { IfOk result (λ made. made ≡ spec.word_mod) }
{
    let mut blocks = Seq::new(alloc);
    let ops = one(alloc, LlOp::Binary(2, CBinary::Eq, var(1), word(0)))?;
    blocks.push(block(
        alloc,
        [0, 1],
        ops,
        fork(alloc, 2, 1, [], 2, [var(0), var(1)])?,
    )?)?;
    blocks.push(none(alloc, [], LlExit::Fail(2))?)?;
    let ops = one(alloc, LlOp::Binary(3, CBinary::Mod, var(0), var(1)))?;
    blocks.push(block(alloc, [0, 1], ops, LlExit::Return(Some(var(3))))?)?;
    let types = types_of(
        alloc,
        [LlType::Signed, LlType::Signed, LlType::Bool, LlType::Signed],
    )?;
    graph(
        alloc,
        b"word_mod",
        variables(alloc, [0, 1])?,
        LlType::Signed,
        types,
        blocks,
    )
}

/// A shift to the left; a count outside 0 to 63 fails.
pub fn word_shl(alloc: Global) -> Result<LlGraph, NoMem>
    ensures { IfOk result (λ made. made ≡ spec.word_shl) }
{
    let mut blocks = Seq::new(alloc);
    let ops = one(alloc, LlOp::Binary(2, CBinary::Lt, var(1), word(0)))?;
    blocks.push(block(
        alloc,
        [0, 1],
        ops,
        fork(alloc, 2, 3, [], 1, [var(0), var(1)])?,
    )?)?;
    let ops = one(alloc, LlOp::Binary(3, CBinary::Lt, var(1), word(64)))?;
    blocks.push(block(
        alloc,
        [0, 1],
        ops,
        fork(alloc, 3, 2, [var(0), var(1)], 3, [])?,
    )?)?;
    let ops = one(alloc, LlOp::Binary(4, CBinary::Shl, var(0), var(1)))?;
    blocks.push(block(alloc, [0, 1], ops, LlExit::Return(Some(var(4))))?)?;
    blocks.push(none(alloc, [], LlExit::Fail(3))?)?;
    let types = types_of(
        alloc,
        [
            LlType::Signed,
            LlType::Signed,
            LlType::Bool,
            LlType::Bool,
            LlType::Signed,
        ],
    )?;
    graph(
        alloc,
        b"word_shl",
        variables(alloc, [0, 1])?,
        LlType::Signed,
        types,
        blocks,
    )
}

/// A shift to the right; a count outside 0 to 63 fails.
pub fn word_shr(alloc: Global) -> Result<LlGraph, NoMem>
    ensures { IfOk result (λ made. made ≡ spec.word_shr) }
{
    let mut blocks = Seq::new(alloc);
    let ops = one(alloc, LlOp::Binary(2, CBinary::Lt, var(1), word(0)))?;
    blocks.push(block(
        alloc,
        [0, 1],
        ops,
        fork(alloc, 2, 3, [], 1, [var(0), var(1)])?,
    )?)?;
    let ops = one(alloc, LlOp::Binary(3, CBinary::Lt, var(1), word(64)))?;
    blocks.push(block(
        alloc,
        [0, 1],
        ops,
        fork(alloc, 3, 2, [var(0), var(1)], 3, [])?,
    )?)?;
    let ops = one(alloc, LlOp::Binary(4, CBinary::Shr, var(0), var(1)))?;
    blocks.push(block(alloc, [0, 1], ops, LlExit::Return(Some(var(4))))?)?;
    blocks.push(none(alloc, [], LlExit::Fail(3))?)?;
    let types = types_of(
        alloc,
        [
            LlType::Signed,
            LlType::Signed,
            LlType::Bool,
            LlType::Bool,
            LlType::Signed,
        ],
    )?;
    graph(
        alloc,
        b"word_shr",
        variables(alloc, [0, 1])?,
        LlType::Signed,
        types,
        blocks,
    )
}

/// The byte of a number; one outside 0 to 255 fails.
pub fn word_chr(alloc: Global) -> Result<LlGraph, NoMem>
    ensures { IfOk result (λ made. made ≡ spec.word_chr) }
{
    let mut blocks = Seq::new(alloc);
    let ops = one(alloc, LlOp::Binary(1, CBinary::Lt, var(0), word(0)))?;
    blocks.push(block(alloc, [0], ops, fork(alloc, 1, 3, [], 1, [var(0)])?)?)?;
    let ops = one(alloc, LlOp::Binary(2, CBinary::Lt, var(0), word(256)))?;
    blocks.push(block(alloc, [0], ops, fork(alloc, 2, 2, [var(0)], 3, [])?)?)?;
    let ops = one(alloc, LlOp::Unary(3, CUnary::S2C, var(0)))?;
    blocks.push(block(alloc, [0], ops, LlExit::Return(Some(var(3))))?)?;
    blocks.push(none(alloc, [], LlExit::Fail(3))?)?;
    let types = types_of(
        alloc,
        [LlType::Signed, LlType::Bool, LlType::Bool, LlType::Char],
    )?;
    graph(
        alloc,
        b"word_chr",
        variables(alloc, [0])?,
        LlType::Char,
        types,
        blocks,
    )
}

/// The smaller of two words.
pub fn word_min(alloc: Global) -> Result<LlGraph, NoMem>
    ensures { IfOk result (λ made. made ≡ spec.word_min) }
{
    let mut blocks = Seq::new(alloc);
    let ops = one(alloc, LlOp::Binary(2, CBinary::Le, var(0), var(1)))?;
    blocks.push(block(
        alloc,
        [0, 1],
        ops,
        fork(alloc, 2, 1, [var(0)], 2, [var(1)])?,
    )?)?;
    blocks.push(none(alloc, [0], LlExit::Return(Some(var(0))))?)?;
    blocks.push(none(alloc, [1], LlExit::Return(Some(var(1))))?)?;
    let types = types_of(alloc, [LlType::Signed, LlType::Signed, LlType::Bool])?;
    graph(
        alloc,
        b"word_min",
        variables(alloc, [0, 1])?,
        LlType::Signed,
        types,
        blocks,
    )
}

/// The greater of two words.
pub fn word_max(alloc: Global) -> Result<LlGraph, NoMem>
    ensures { IfOk result (λ made. made ≡ spec.word_max) }
{
    let mut blocks = Seq::new(alloc);
    let ops = one(alloc, LlOp::Binary(2, CBinary::Ge, var(0), var(1)))?;
    blocks.push(block(
        alloc,
        [0, 1],
        ops,
        fork(alloc, 2, 1, [var(0)], 2, [var(1)])?,
    )?)?;
    blocks.push(none(alloc, [0], LlExit::Return(Some(var(0))))?)?;
    blocks.push(none(alloc, [1], LlExit::Return(Some(var(1))))?)?;
    let types = types_of(alloc, [LlType::Signed, LlType::Signed, LlType::Bool])?;
    graph(
        alloc,
        b"word_max",
        variables(alloc, [0, 1])?,
        LlType::Signed,
        types,
        blocks,
    )
}

/// Of a range that rises: its end, a number and the step; the next number, or the end where that comes first.
pub fn range_up(alloc: Global) -> Result<LlGraph, NoMem>
    ensures { IfOk result (λ made. made ≡ spec.range_up) }
{
    let mut blocks = Seq::new(alloc);
    let ops = two(
        alloc,
        LlOp::Binary(3, CBinary::Add, var(1), var(2)),
        LlOp::Binary(4, CBinary::AddOvf, var(1), var(2)),
    )?;
    blocks.push(block(
        alloc,
        [0, 1, 2],
        ops,
        fork(alloc, 4, 2, [var(0)], 1, [var(0), var(3)])?,
    )?)?;
    let ops = one(alloc, LlOp::Binary(5, CBinary::Lt, var(3), var(0)))?;
    blocks.push(block(
        alloc,
        [0, 3],
        ops,
        fork(alloc, 5, 3, [var(3)], 2, [var(0)])?,
    )?)?;
    blocks.push(none(alloc, [0], LlExit::Return(Some(var(0))))?)?;
    blocks.push(none(alloc, [3], LlExit::Return(Some(var(3))))?)?;
    let types = types_of(
        alloc,
        [
            LlType::Signed,
            LlType::Signed,
            LlType::Signed,
            LlType::Signed,
            LlType::Bool,
            LlType::Bool,
        ],
    )?;
    graph(
        alloc,
        b"range_up",
        variables(alloc, [0, 1, 2])?,
        LlType::Signed,
        types,
        blocks,
    )
}

/// The same of a range that falls.
pub fn range_down(alloc: Global) -> Result<LlGraph, NoMem>
    ensures { IfOk result (λ made. made ≡ spec.range_down) }
{
    let mut blocks = Seq::new(alloc);
    let ops = two(
        alloc,
        LlOp::Binary(3, CBinary::Add, var(1), var(2)),
        LlOp::Binary(4, CBinary::AddOvf, var(1), var(2)),
    )?;
    blocks.push(block(
        alloc,
        [0, 1, 2],
        ops,
        fork(alloc, 4, 2, [var(0)], 1, [var(0), var(3)])?,
    )?)?;
    let ops = one(alloc, LlOp::Binary(5, CBinary::Gt, var(3), var(0)))?;
    blocks.push(block(
        alloc,
        [0, 3],
        ops,
        fork(alloc, 5, 3, [var(3)], 2, [var(0)])?,
    )?)?;
    blocks.push(none(alloc, [0], LlExit::Return(Some(var(0))))?)?;
    blocks.push(none(alloc, [3], LlExit::Return(Some(var(3))))?)?;
    let types = types_of(
        alloc,
        [
            LlType::Signed,
            LlType::Signed,
            LlType::Signed,
            LlType::Signed,
            LlType::Bool,
            LlType::Bool,
        ],
    )?;
    graph(
        alloc,
        b"range_down",
        variables(alloc, [0, 1, 2])?,
        LlType::Signed,
        types,
        blocks,
    )
}

/// Whether a byte is a digit.
pub fn is_digit(alloc: Global) -> Result<LlGraph, NoMem>
    ensures { IfOk result (λ made. made ≡ spec.is_digit) }
{
    let mut blocks = Seq::new(alloc);
    let ops = two(
        alloc,
        LlOp::Unary(1, CUnary::C2S, var(0)),
        LlOp::Binary(2, CBinary::Lt, var(1), word(48)),
    )?;
    blocks.push(block(alloc, [0], ops, fork(alloc, 2, 2, [], 1, [var(1)])?)?)?;
    let ops = one(alloc, LlOp::Binary(3, CBinary::Lt, var(1), word(58)))?;
    blocks.push(block(alloc, [1], ops, LlExit::Return(Some(var(3))))?)?;
    blocks.push(none(alloc, [], LlExit::Return(Some(flag(false))))?)?;
    let types = types_of(
        alloc,
        [LlType::Char, LlType::Signed, LlType::Bool, LlType::Bool],
    )?;
    graph(
        alloc,
        b"is_digit",
        variables(alloc, [0])?,
        LlType::Bool,
        types,
        blocks,
    )
}

/// Whether a byte is a letter. Those of two cases differ by 32.
pub fn is_alpha(alloc: Global) -> Result<LlGraph, NoMem>
    ensures { IfOk result (λ made. made ≡ spec.is_alpha) }
{
    let mut blocks = Seq::new(alloc);
    let ops = three(
        alloc,
        LlOp::Unary(1, CUnary::C2S, var(0)),
        LlOp::Binary(2, CBinary::Or, var(1), word(32)),
        LlOp::Binary(3, CBinary::Lt, var(2), word(97)),
    )?;
    blocks.push(block(alloc, [0], ops, fork(alloc, 3, 2, [], 1, [var(2)])?)?)?;
    let ops = one(alloc, LlOp::Binary(4, CBinary::Lt, var(2), word(123)))?;
    blocks.push(block(alloc, [2], ops, LlExit::Return(Some(var(4))))?)?;
    blocks.push(none(alloc, [], LlExit::Return(Some(flag(false))))?)?;
    let types = types_of(
        alloc,
        [
            LlType::Char,
            LlType::Signed,
            LlType::Signed,
            LlType::Bool,
            LlType::Bool,
        ],
    )?;
    graph(
        alloc,
        b"is_alpha",
        variables(alloc, [0])?,
        LlType::Bool,
        types,
        blocks,
    )
}

/// Whether a byte is a space or one of 9 to 13.
pub fn is_space(alloc: Global) -> Result<LlGraph, NoMem>
    ensures { IfOk result (λ made. made ≡ spec.is_space) }
{
    let mut blocks = Seq::new(alloc);
    let ops = two(
        alloc,
        LlOp::Unary(1, CUnary::C2S, var(0)),
        LlOp::Binary(2, CBinary::Eq, var(1), word(32)),
    )?;
    blocks.push(block(alloc, [0], ops, fork(alloc, 2, 3, [], 1, [var(1)])?)?)?;
    let ops = one(alloc, LlOp::Binary(3, CBinary::Lt, var(1), word(9)))?;
    blocks.push(block(alloc, [1], ops, fork(alloc, 3, 4, [], 2, [var(1)])?)?)?;
    let ops = one(alloc, LlOp::Binary(4, CBinary::Lt, var(1), word(14)))?;
    blocks.push(block(alloc, [1], ops, LlExit::Return(Some(var(4))))?)?;
    blocks.push(none(alloc, [], LlExit::Return(Some(flag(true))))?)?;
    blocks.push(none(alloc, [], LlExit::Return(Some(flag(false))))?)?;
    let types = types_of(
        alloc,
        [
            LlType::Char,
            LlType::Signed,
            LlType::Bool,
            LlType::Bool,
            LlType::Bool,
        ],
    )?;
    graph(
        alloc,
        b"is_space",
        variables(alloc, [0])?,
        LlType::Bool,
        types,
        blocks,
    )
}
