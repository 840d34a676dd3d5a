// Constants that are read.
ghost use Rattle.std.specs.Prelude.{◌≡◌, ◌++◌, ◌∷◌, [], map, IfOk, OnOk};
ghost use Rattle.ann_lattice.specs.Shape.{shape};
ghost use Rattle.ann_lattice.specs.Assign.{Up};
ghost use Rattle.ann_lattice.specs.Row.{constant};
ghost use Rattle.ann_rules.specs.Asks as rule;
ghost use Rattle.ann_needs.specs.View as spec;

use crate::ask::Asks;
use crate::plan::Plan;
use ann_element::{Element, copy_element};
use ann_lattice::pieces_of;
use rpy_base::{NoMem, Seq};
use rpy_copies::copy_const;
use rpy_meaning::RowOp;
use rpy_tree::Const;
use std::alloc::Global;

// The contents of the lists and dicts in a constant.
#[cycle(load)]
pub fn load(p: &Plan, asks: &mut Asks, value: &Const) -> Result<(), NoMem>
    ensures { OnOk result (spec.seen asks.new ≡ spec.seen asks.old ++ rule.loads (spec.whole p.now) value.now) }
{
    match value {
        Const::List(site) => asks.set(p.loaded(*site)),
        Const::Dict(site) => asks.set(p.loaded(*site)),
        Const::Tuple(parts) => load_all(p, asks, parts.as_slice()),
        _ => Ok(()),
    }
}

#[cycle(load)]
fn load_all(p: &Plan, asks: &mut Asks, parts: &[Const]) -> Result<(), NoMem>
    ensures { OnOk result (spec.seen asks.new ≡ spec.seen asks.old ++ rule.from_each (λ needs. needs) (map (rule.loads (spec.whole p.now)) parts.now)) }
{
    for part in parts {
        load(p, asks, part)?;
    }
    Ok(())
}

fn constant_pieces(alloc: Global, p: &Plan, value: &Const) -> Result<Seq<Element>, NoMem>
    ensures { IfOk result (λ pieces. map shape pieces ≡ constant value.now ∷ []) }
{
    let op = RowOp::Constant(copy_const(alloc, value)?);
    pieces_of(alloc, &p.classes, &op, &[], &Element::Unreached)
}

fn only(alloc: Global, pieces: &[Element]) -> Result<Element, NoMem>
    ensures { IfOk result (λ e. shape e ≡ spec.only (map shape pieces.now)) }
{
    match pieces {
        [e] => copy_element(alloc, e),
        _ => Ok(Element::Unreached),
    }
}

/// The element of a constant.
pub fn constant_of(alloc: Global, p: &Plan, value: &Const) -> Result<Element, NoMem>
    ensures { IfOk result (λ e. shape e ≡ constant value.now) }
{
    let pieces = constant_pieces(alloc, p, value)?;
    only(alloc, pieces.as_slice())
}

/// A cell is to be above the element of a constant that is read.
pub fn put_constant(
    alloc: Global,
    p: &Plan,
    asks: &mut Asks,
    cell: usize,
    value: &Const,
) -> Result<(), NoMem>
    ensures { OnOk result (spec.seen asks.new ≡ spec.seen asks.old ++ (rule.loads (spec.whole p.now) value.now ++ Up cell (constant value.now ∷ []) ∷ [])) }
{
    load(p, asks, value)?;
    let e = constant_of(alloc, p, value)?;
    asks.above(alloc, cell, &e)
}
