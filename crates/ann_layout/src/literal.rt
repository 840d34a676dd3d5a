// Which calls of classes have a string literal as their one argument. An expression is evaluated operation
// by operation, each in a block of its own, and a literal goes on along a link to the call that takes it.
ghost use Rattle.std.specs.Prelude.{◌≡◌, replicate, false, IfOk};
ghost use Rattle.std.specs.Option.{option_copied};
ghost use Rattle.ann_layout.specs.Literals as spec;

use flow_graph::{Block, Exit, Graph, Link, Op, VarId};
use rpy_base::{NoMem, Seq};
use rpy_meaning::RowOp;
use std::alloc::Global;

fn is_text(op: &RowOp) -> bool
    ensures { result ≡ spec.is_text op.now }
{
    match op {
        RowOp::Str(_) => true,
        _ => false,
    }
}

// Whether the variable is a string literal of the block.
fn is_literal(v: VarId, ops: &[Op]) -> bool
    ensures { result ≡ spec.is_literal v ops.now }
{
    for op in ops {
        if op.result == v && is_text(&op.op) {
            return true;
        }
    }
    false
}

fn is_new(op: &RowOp) -> bool
    ensures { result ≡ spec.is_new op.now }
{
    match op {
        RowOp::New(_) => true,
        _ => false,
    }
}

fn set_mark(number: usize, marks: &mut Seq<bool>)
    ensures { marks.new ≡ spec.set_mark number marks.old }
{
    if number < marks.len() {
        marks.set(number, true);
    }
}

// Whether a link with these arguments passes a string literal of its block on to an input.
fn passes_literal(v: VarId, inputs: &[VarId], args: &[VarId], ops: &[Op]) -> bool
    ensures { result ≡ spec.passes_literal v inputs.now args.now ops.now }
{
    match inputs {
        [] => false,
        [input, inputs @ ..] => match args {
            [] => false,
            [arg, args @ ..] => {
                (*input == v && is_literal(*arg, ops)) || passes_literal(v, inputs, args, ops)
            }
        },
    }
}

fn takes_one_literal(args: &[VarId], inputs: &[VarId], passed: &[VarId], ops: &[Op]) -> bool
    ensures { result ≡ spec.takes_one_literal args.now inputs.now passed.now ops.now }
{
    match args {
        [v] => passes_literal(*v, inputs, passed, ops),
        _ => false,
    }
}

fn mark_op(ops: &[Op], passed: &[VarId], inputs: &[VarId], op: &Op, marks: &mut Seq<bool>)
    ensures { marks.new ≡ spec.with_op ops.now passed.now inputs.now op.now marks.old }
{
    if is_new(&op.op) && takes_one_literal(op.args.as_slice(), inputs, passed, ops) {
        set_mark(op.node as usize, marks);
    }
}

fn mark_ops(ops: &[Op], passed: &[VarId], inputs: &[VarId], to: &[Op], marks: &mut Seq<bool>)
    ensures { marks.new ≡ spec.with_ops ops.now passed.now inputs.now to.now marks.old }
{
    for op in to {
        mark_op(ops, passed, inputs, op, marks);
    }
}

// The link that a block goes on by, once its operations gave values, where it has one such link.
fn onward(exit: &Exit) -> Option<&Link>
    ensures { option_copied result ≡ spec.onward exit.now }
{
    match exit {
        Exit::Goto(link) => Some(link),
        Exit::OnRaise(_, _, _, link) => Some(link),
        _ => None,
    }
}

fn mark_target(blocks: &[Block], ops: &[Op], link: &Link, marks: &mut Seq<bool>)
    ensures { marks.new ≡ spec.with_link blocks.now ops.now link.now marks.old }
{
    match blocks.get(link.to as usize) {
        None => {}
        Some(to) => mark_ops(
            ops,
            link.args.as_slice(),
            to.inputs.as_slice(),
            to.ops.as_slice(),
            marks,
        ),
    }
}

fn mark_block(blocks: &[Block], block: &Block, marks: &mut Seq<bool>)
    ensures { marks.new ≡ spec.with_block blocks.now block.now marks.old }
{
    match onward(&block.exit) {
        None => {}
        Some(link) => mark_target(blocks, block.ops.as_slice(), link, marks),
    }
}

fn mark_blocks(blocks: &[Block], marks: &mut Seq<bool>)
    ensures { marks.new ≡ spec.with_blocks blocks.now blocks.now marks.old }
{
    for block in blocks {
        mark_block(blocks, block, marks);
    }
}

/// So many times the same mark.
pub fn unset(alloc: Global, count: usize) -> Result<Seq<bool>, NoMem>
    ensures { IfOk result (λ marks. marks ≡ replicate count false) }
{
    let mut marks = Seq::new(alloc);
    for _mark in 0..count {
        marks.push(false)?;
    }
    Ok(marks)
}

/// The nodes that call a class with a string literal as the one argument.
pub fn literals_of(alloc: Global, nodes: usize, graphs: &[Graph]) -> Result<Seq<bool>, NoMem>
    ensures { IfOk result (λ marks. marks ≡ spec.literals nodes graphs.now) }
{
    let mut marks = unset(alloc, nodes)?;
    for graph in graphs {
        mark_blocks(graph.blocks.as_slice(), &mut marks);
    }
    Ok(marks)
}
