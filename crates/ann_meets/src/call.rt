// What a call asks, in pieces.
ghost use Rattle.std.specs.Prelude.{◌≡◌, ◌++◌, map, slice_get, OnOk};
ghost use Rattle.ann_lattice.specs.Shape.{shape};
ghost use Rattle.ann_rules.specs.Asks as ask;
ghost use Rattle.ann_needs.specs.View as spec;
ghost use Rattle.ann_meets.specs.Calls as calls;

use crate::part::Piece;
use ann_element::Element;
use ann_needs::{
    Asks, Plan, State, asked, functions_of, has_conflict, has_unreached, methods_of, operands_of,
    reach, reach_method, tie_two,
};
use flow_graph::Op;
use rpy_base::{NoMem, Seq, Text};
use rpy_meaning::RowOp;
use rpy_tree::{ClassId, FunId};
use std::alloc::Global;

// ---- functions

fn reach_one(
    alloc: Global,
    p: &Plan,
    asks: &mut Asks,
    fs: &Seq<FunId>,
    at: usize,
    xs: &[Element],
) -> Result<(), NoMem>
    ensures { OnOk result (spec.seen asks.new ≡ spec.seen asks.old ++ calls.reach_one (spec.whole p.now) (map shape xs.now) (slice_get fs.now at)) }
{
    match fs.get(at) {
        None => Ok(()),
        Some(f) => reach(alloc, p, asks, *f, xs),
    }
}

fn share_with(
    alloc: Global,
    p: &Plan,
    s: &State,
    asks: &mut Asks,
    received: bool,
    f: FunId,
    fs: &Seq<FunId>,
    other: usize,
) -> Result<(), NoMem>
    ensures { OnOk result (spec.seen asks.new ≡ spec.seen asks.old ++ calls.share_with (spec.whole p.now) (spec.assignment s.now) received f (slice_get fs.now other)) }
{
    match fs.get(other) {
        None => Ok(()),
        Some(h) => tie_two(alloc, p, s, asks, received, f, *h),
    }
}

fn share(
    alloc: Global,
    p: &Plan,
    s: &State,
    asks: &mut Asks,
    received: bool,
    fs: &Seq<FunId>,
    one: usize,
    other: usize,
) -> Result<(), NoMem>
    ensures { OnOk result (spec.seen asks.new ≡ spec.seen asks.old ++ calls.share (spec.whole p.now) (spec.assignment s.now) received (slice_get fs.now one) (slice_get fs.now other)) }
{
    match fs.get(one) {
        None => Ok(()),
        Some(f) => share_with(alloc, p, s, asks, received, *f, fs, other),
    }
}

fn of_functions(
    alloc: Global,
    p: &Plan,
    s: &State,
    asks: &mut Asks,
    piece: Piece,
    fs: &Seq<FunId>,
    xs: &[Element],
) -> Result<(), NoMem>
    ensures { OnOk result (spec.seen asks.new ≡ spec.seen asks.old ++ calls.of_functions (spec.whole p.now) (spec.assignment s.now) piece fs.now (map shape xs.now)) }
{
    match piece {
        Piece::Result => Ok(()),
        Piece::Reach(at) => reach_one(alloc, p, asks, fs, at, xs),
        Piece::Share(one, other) => share(alloc, p, s, asks, false, fs, one, other),
    }
}

// ---- methods

fn reach_at(
    alloc: Global,
    p: &Plan,
    asks: &mut Asks,
    methods: &Seq<(ClassId, FunId)>,
    at: usize,
    xs: &[Element],
) -> Result<(), NoMem>
    ensures { OnOk result (spec.seen asks.new ≡ spec.seen asks.old ++ calls.reach_method (spec.whole p.now) (map shape xs.now) (slice_get methods.now at)) }
{
    match methods.get(at) {
        None => Ok(()),
        Some(method) => reach_method(alloc, p, asks, method.0, method.1, xs),
    }
}

fn of_methods(
    alloc: Global,
    p: &Plan,
    s: &State,
    asks: &mut Asks,
    piece: Piece,
    methods: &Seq<(ClassId, FunId)>,
    xs: &[Element],
) -> Result<(), NoMem>
    ensures { OnOk result (spec.seen asks.new ≡ spec.seen asks.old ++ calls.of_methods (spec.whole p.now) (spec.assignment s.now) piece methods.now (map shape xs.now)) }
{
    match piece {
        Piece::Result => Ok(()),
        Piece::Reach(at) => reach_at(alloc, p, asks, methods, at, xs),
        Piece::Share(one, other) => {
            let fs = functions_of(alloc, methods.as_slice())?;
            share(alloc, p, s, asks, true, &fs, one, other)
        }
    }
}

fn of_instance(
    alloc: Global,
    p: &Plan,
    s: &State,
    asks: &mut Asks,
    name: &Text,
    piece: Piece,
    class: ClassId,
    xs: &[Element],
) -> Result<(), NoMem>
    ensures { OnOk result (spec.seen asks.new ≡ spec.seen asks.old ++ calls.of_methods (spec.whole p.now) (spec.assignment s.now) piece (ask.methods (spec.whole p.now) (spec.assignment s.now) class name.now) (map shape xs.now)) }
{
    let methods = methods_of(alloc, p, s, class, name)?;
    of_methods(alloc, p, s, asks, piece, &methods, xs)
}

// ---- calls

fn of_value(
    alloc: Global,
    p: &Plan,
    s: &State,
    asks: &mut Asks,
    piece: Piece,
    xs: &[Element],
) -> Result<(), NoMem>
    ensures { OnOk result (spec.seen asks.new ≡ spec.seen asks.old ++ ask.with_first (calls.of_value (spec.whole p.now) (spec.assignment s.now) piece) (map shape xs.now)) }
{
    match xs {
        [Element::Func(fs, _), args @ ..] => of_functions(alloc, p, s, asks, piece, fs, args),
        _ => Ok(()),
    }
}

fn of_receiver(
    alloc: Global,
    p: &Plan,
    s: &State,
    asks: &mut Asks,
    name: &Text,
    piece: Piece,
    xs: &[Element],
) -> Result<(), NoMem>
    ensures { OnOk result (spec.seen asks.new ≡ spec.seen asks.old ++ ask.with_first (calls.of_receiver (spec.whole p.now) (spec.assignment s.now) name.now piece) (map shape xs.now)) }
{
    match xs {
        [Element::Instance(class, _), args @ ..] => {
            of_instance(alloc, p, s, asks, name, piece, *class, args)
        }
        _ => Ok(()),
    }
}

fn called(
    alloc: Global,
    p: &Plan,
    s: &State,
    asks: &mut Asks,
    piece: Piece,
    op: &RowOp,
    xs: &[Element],
) -> Result<(), NoMem>
    ensures { OnOk result (spec.seen asks.new ≡ spec.seen asks.old ++ calls.called (spec.whole p.now) (spec.assignment s.now) piece op.now (map shape xs.now)) }
{
    match op {
        RowOp::CallValue => of_value(alloc, p, s, asks, piece, xs),
        RowOp::Method(name, _) => of_receiver(alloc, p, s, asks, name, piece, xs),
        _ => Ok(()),
    }
}

fn fitting(
    alloc: Global,
    p: &Plan,
    s: &State,
    asks: &mut Asks,
    g: usize,
    piece: Piece,
    op: &Op,
    xs: &[Element],
) -> Result<(), NoMem>
    ensures { OnOk result (spec.seen asks.new ≡ spec.seen asks.old ++ calls.fitting (spec.whole p.now) (spec.assignment s.now) g piece op.now (map shape xs.now)) }
{
    let list = asked(alloc, p, s, g, &op.op, xs, op.node)?;
    if has_conflict(list.as_slice()) {
        Ok(())
    } else {
        called(alloc, p, s, asks, piece, &op.op, xs)
    }
}

fn result_asks(
    alloc: Global,
    p: &Plan,
    s: &State,
    asks: &mut Asks,
    g: usize,
    op: &Op,
    xs: &[Element],
) -> Result<(), NoMem>
    ensures { OnOk result (spec.seen asks.new ≡ spec.seen asks.old ++ calls.result_needs (spec.whole p.now) (spec.assignment s.now) g op.now (map shape xs.now)) }
{
    let list = asked(alloc, p, s, g, &op.op, xs, op.node)?;
    asks.above_all(p.variable(g, op.result), list)
}

fn call_asks(
    alloc: Global,
    p: &Plan,
    s: &State,
    asks: &mut Asks,
    g: usize,
    piece: Piece,
    op: &Op,
    xs: &[Element],
) -> Result<(), NoMem>
    ensures { OnOk result (spec.seen asks.new ≡ spec.seen asks.old ++ calls.call_needs (spec.whole p.now) (spec.assignment s.now) g piece op.now (map shape xs.now)) }
{
    match piece {
        Piece::Result => result_asks(alloc, p, s, asks, g, op, xs),
        Piece::Reach(at) => fitting(alloc, p, s, asks, g, Piece::Reach(at), op, xs),
        Piece::Share(one, other) => {
            fitting(alloc, p, s, asks, g, Piece::Share(one, other), op, xs)
        }
    }
}

fn piece_asks(
    alloc: Global,
    p: &Plan,
    s: &State,
    asks: &mut Asks,
    g: usize,
    piece: Piece,
    op: &Op,
) -> Result<(), NoMem>
    ensures { OnOk result (spec.seen asks.new ≡ spec.seen asks.old ++ calls.piece_needs (spec.whole p.now) (spec.assignment s.now) g piece op.now) }
{
    let xs = operands_of(alloc, p, s, g, op.args.as_slice())?;
    if has_unreached(xs.as_slice()) {
        Ok(())
    } else {
        call_asks(alloc, p, s, asks, g, piece, op, xs.as_slice())
    }
}

/// A piece of what the operation asks that a block begins with.
pub fn first_piece(
    alloc: Global,
    p: &Plan,
    s: &State,
    asks: &mut Asks,
    g: usize,
    piece: Piece,
    ops: &[Op],
) -> Result<(), NoMem>
    ensures { OnOk result (spec.seen asks.new ≡ spec.seen asks.old ++ calls.first_piece (spec.whole p.now) (spec.assignment s.now) g piece ops.now) }
{
    match ops {
        [] => Ok(()),
        [op, _others @ ..] => piece_asks(alloc, p, s, asks, g, piece, op),
    }
}
