// Where the variables of a graph are named, and how.
ghost use Rattle.std.specs.Prelude.{◌≡◌, ℕ, slice_get, IfOk};
ghost use Rattle.ll_joined.specs.Marked as spec;

use crate::count::{add_one, has, zeros};
use csub_tree::COperand;
use ll_code::{LlBlock, LlExit, LlLink, LlOp, VarId};
use ll_live::set_by;
use rpy_base::{NoMem, Seq};
use std::alloc::Global;

/// What stands for a variable that is named in more than one block.
pub const MANY: u64 = u64::MAX;

/// Of each variable: how often it is named; in which block, counted from 1, if in one alone; how often it stands
/// where no constant can; and whether an operation sets it where it is named first.
#[derive(Drop)]
pub struct Marks {
    pub named: Seq<u64>,
    pub home: Seq<u64>,
    pub asked: Seq<u64>,
    pub first_set: Seq<u64>,
    block: u64,
}

impl Marks {
    fn name(&mut self, v: VarId)
        ensures { self.new ≡ spec.name v self.old }
    {
        add_one(v, &mut self.named);
        name_at_home(self.block, v, &mut self.home);
    }

    fn first(&mut self, v: VarId)
        ensures { self.new ≡ spec.first v self.old }
    {
        if has(0, v, self.named.as_slice()) {
            add_one(v, &mut self.first_set);
        }
    }

    fn set(&mut self, v: VarId)
        ensures { self.new ≡ spec.set v self.old }
    {
        self.first(v);
        self.name(v);
    }

    fn ask(&mut self, v: VarId)
        ensures { self.new ≡ spec.ask v self.old }
    {
        add_one(v, &mut self.asked);
        self.name(v);
    }

    fn read(&mut self, x: COperand)
        ensures { self.new ≡ spec.read x self.old }
    {
        if let COperand::Var(v) = x {
            self.name(v);
        }
    }

    fn set_if(&mut self, a: Option<VarId>)
        ensures { self.new ≡ spec.set_if a self.old }
    {
        if let Some(a) = a {
            self.set(a);
        }
    }
}

// The variable is named in this block.
fn name_at_home(block: u64, v: VarId, homes: &mut Seq<u64>)
    ensures { homes.new ≡ spec.home_from block v homes.old (slice_get homes.old v) }
{
    let at = v as usize;
    let home = match homes.get(at) {
        None => return,
        Some(home) => *home,
    };
    if home == 0 {
        homes.set(at, block);
    } else if home != block {
        homes.set(at, MANY);
    }
}

fn read_all(xs: &[COperand], marks: &mut Marks)
    ensures { marks.new ≡ spec.read_all xs.now marks.old }
{
    for x in xs {
        marks.read(*x);
    }
}

fn ask_all(variables: &[VarId], marks: &mut Marks)
    ensures { marks.new ≡ spec.ask_all variables.now marks.old }
{
    for v in variables {
        marks.ask(*v);
    }
}

fn mark_reads(op: &LlOp, marks: &mut Marks)
    ensures { marks.new ≡ spec.reads op.now marks.old }
{
    match op {
        LlOp::Set(_, x)
        | LlOp::Unary(_, _, x)
        | LlOp::NewArray(_, _, _, x)
        | LlOp::Step(x)
        | LlOp::ArgLen(_, x)
        | LlOp::Put(x) => marks.read(*x),
        LlOp::Binary(_, _, x, y) | LlOp::Arg(_, x, y) => {
            marks.read(*x);
            marks.read(*y);
        }
        LlOp::GetField(_, _, b, _) | LlOp::Free(b) | LlOp::Raise(b) => marks.ask(*b),
        LlOp::SetField(_, b, _, x) | LlOp::GetItem(_, _, b, x) => {
            marks.ask(*b);
            marks.read(*x);
        }
        LlOp::SetItem(_, b, i, x) => {
            marks.ask(*b);
            marks.read(*i);
            marks.read(*x);
        }
        LlOp::Call(_, _, xs) => read_all(xs.as_slice(), marks),
        LlOp::CallFn(_, _, _, b, xs) => {
            marks.ask(*b);
            read_all(xs.as_slice(), marks);
        }
        LlOp::ExcSet(a, b) => {
            marks.ask(*a);
            marks.ask(*b);
        }
        LlOp::New(_, _, _)
        | LlOp::ExcType(_, _)
        | LlOp::ExcValue(_, _)
        | LlOp::ExcClear
        | LlOp::Argc(_) => {}
    }
}

fn mark_ops(ops: &[LlOp], marks: &mut Marks)
    ensures { marks.new ≡ spec.in_ops ops.now marks.old }
{
    for op in ops {
        mark_reads(op, marks);
        marks.set_if(set_by(op));
    }
}

fn mark_link(link: &LlLink, marks: &mut Marks)
    ensures { marks.new ≡ spec.read_all link.now.args marks.old }
{
    read_all(link.args.as_slice(), marks);
}

fn mark_link_if(link: &Option<LlLink>, marks: &mut Marks)
    ensures { marks.new ≡ spec.in_link_if link.now marks.old }
{
    if let Some(link) = link {
        mark_link(link, marks);
    }
}

fn mark_exit(exit: &LlExit, marks: &mut Marks)
    ensures { marks.new ≡ spec.in_exit exit.now marks.old }
{
    match exit {
        LlExit::Goto(link) => mark_link(link, marks),
        LlExit::If(v, there, elsewhere) => {
            marks.ask(*v);
            mark_link(there, marks);
            mark_link(elsewhere, marks);
        }
        LlExit::OnRaise(v, caught, without) => {
            marks.ask(*v);
            mark_link_if(caught, marks);
            mark_link(without, marks);
        }
        LlExit::Return(Some(x)) => marks.read(*x),
        LlExit::Raise(v) | LlExit::Raised(v) => marks.ask(*v),
        LlExit::Return(None) | LlExit::Fail(_) => {}
    }
}

// Blocks are counted from 1 on.
fn mark_block(i: u64, block: &LlBlock, marks: &mut Marks)
    ensures { marks.new ≡ spec.in_block i block.now marks.old }
{
    marks.block = i.saturating_add(1);
    ask_all(block.inputs.as_slice(), marks);
    mark_ops(block.ops.as_slice(), marks);
    mark_exit(&block.exit, marks);
}

/// The marks of a graph with so many variables.
pub fn marks_of(
    alloc: Global,
    count: usize,
    params: &[VarId],
    blocks: &[LlBlock],
) -> Result<Marks, NoMem>
    ensures { IfOk result (λ made. made ≡ spec.marks_of count params.now blocks.now) }
{
    let mut marks = Marks {
        named: zeros(alloc, count)?,
        home: zeros(alloc, count)?,
        asked: zeros(alloc, count)?,
        first_set: zeros(alloc, count)?,
        block: MANY,
    };
    ask_all(params, &mut marks);
    for i in 0..blocks.len() {
        mark_block(i as u64, &blocks[i], &mut marks);
    }
    Ok(marks)
}
