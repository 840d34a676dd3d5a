// What an operation asks of the parts of the program, for operands that fit its row.
ghost use Rattle.std.specs.Prelude.{◌≡◌, ◌++◌, map, OnOk};
ghost use Rattle.ann_lattice.specs.Shape.{shape};
ghost use Rattle.ann_rules.specs.Asks as rule;
ghost use Rattle.ann_needs.specs.View as spec;

use crate::ask::Asks;
use crate::call::{call_all, make};
use crate::constant::load;
use crate::held::{flow, hold, look_up, look_up_key, to_items, walked};
use crate::method::method_asks;
use crate::plan::Plan;
use crate::state::State;
use ann_element::Element;
use rpy_base::{NoMem, Text};
use rpy_meaning::RowOp;
use rpy_tree::{BinOp, ClassId, CmpOp, SiteId};
use std::alloc::Global;

fn sum(
    alloc: Global,
    p: &Plan,
    s: &State,
    asks: &mut Asks,
    op: BinOp,
    site: Option<SiteId>,
    xs: &[Element],
) -> Result<(), NoMem>
    ensures { OnOk result (spec.seen asks.new ≡ spec.seen asks.old ++ rule.with_two (rule.sum (spec.whole p.now) (spec.assignment s.now) op site) (map shape xs.now)) }
{
    match xs {
        [x, y] => match site {
            None => Ok(()),
            Some(site) => {
                flow(alloc, p, s, asks, x, site)?;
                match op {
                    BinOp::Add => flow(alloc, p, s, asks, y, site),
                    _ => Ok(()),
                }
            }
        },
        _ => Ok(()),
    }
}

fn extend(alloc: Global, p: &Plan, s: &State, asks: &mut Asks, xs: &[Element]) -> Result<(), NoMem>
    ensures { OnOk result (spec.seen asks.new ≡ spec.seen asks.old ++ rule.with_two (rule.extend (spec.whole p.now) (spec.assignment s.now)) (map shape xs.now)) }
{
    match xs {
        [Element::List(site, _), y] => flow(alloc, p, s, asks, y, *site),
        _ => Ok(()),
    }
}

fn first_flows(
    alloc: Global,
    p: &Plan,
    s: &State,
    asks: &mut Asks,
    site: SiteId,
    xs: &[Element],
) -> Result<(), NoMem>
    ensures { OnOk result (spec.seen asks.new ≡ spec.seen asks.old ++ rule.with_first (λ x ys. rule.flow (spec.whole p.now) (spec.assignment s.now) x site) (map shape xs.now)) }
{
    match xs {
        [x, _others @ ..] => flow(alloc, p, s, asks, x, site),
        [] => Ok(()),
    }
}

fn all_to_items(
    alloc: Global,
    p: &Plan,
    s: &State,
    asks: &mut Asks,
    site: SiteId,
    xs: &[Element],
) -> Result<(), NoMem>
    ensures { OnOk result (spec.seen asks.new ≡ spec.seen asks.old ++ rule.from_each (rule.to_items (spec.whole p.now) (spec.assignment s.now) site) (map shape xs.now)) }
{
    for x in xs {
        to_items(alloc, p, s, asks, site, x)?;
    }
    Ok(())
}

fn compared(
    alloc: Global,
    p: &Plan,
    s: &State,
    asks: &mut Asks,
    op: CmpOp,
    xs: &[Element],
) -> Result<(), NoMem>
    ensures { OnOk result (spec.seen asks.new ≡ spec.seen asks.old ++ rule.with_two (rule.compared (spec.whole p.now) (spec.assignment s.now) op) (map shape xs.now)) }
{
    match xs {
        [x, y] => match op {
            CmpOp::Within => look_up(alloc, p, s, asks, y, x),
            CmpOp::NotWithin => look_up(alloc, p, s, asks, y, x),
            _ => Ok(()),
        },
        _ => Ok(()),
    }
}

fn indexed(alloc: Global, p: &Plan, s: &State, asks: &mut Asks, xs: &[Element]) -> Result<(), NoMem>
    ensures { OnOk result (spec.seen asks.new ≡ spec.seen asks.old ++ rule.with_two (rule.look_up_key (spec.whole p.now) (spec.assignment s.now)) (map shape xs.now)) }
{
    match xs {
        [holder, key] => look_up_key(alloc, p, s, asks, holder, key),
        _ => Ok(()),
    }
}

fn stored(alloc: Global, p: &Plan, s: &State, asks: &mut Asks, xs: &[Element]) -> Result<(), NoMem>
    ensures { OnOk result (spec.seen asks.new ≡ spec.seen asks.old ++ rule.with_three (λ x i y. rule.look_up_key (spec.whole p.now) (spec.assignment s.now) x i ++ rule.hold (spec.whole p.now) (spec.assignment s.now) x y) (map shape xs.now)) }
{
    match xs {
        [holder, key, value] => {
            look_up_key(alloc, p, s, asks, holder, key)?;
            hold(alloc, p, s, asks, holder, value)
        }
        _ => Ok(()),
    }
}

fn added(alloc: Global, p: &Plan, s: &State, asks: &mut Asks, xs: &[Element]) -> Result<(), NoMem>
    ensures { OnOk result (spec.seen asks.new ≡ spec.seen asks.old ++ rule.with_two (rule.hold (spec.whole p.now) (spec.assignment s.now)) (map shape xs.now)) }
{
    match xs {
        [holder, item] => hold(alloc, p, s, asks, holder, item),
        _ => Ok(()),
    }
}

fn to_attribute(
    alloc: Global,
    p: &Plan,
    s: &State,
    asks: &mut Asks,
    home: Option<ClassId>,
    name: &Text,
    x: &Element,
) -> Result<(), NoMem>
    ensures { OnOk result (spec.seen asks.new ≡ spec.seen asks.old ++ rule.to_attribute (spec.whole p.now) (spec.assignment s.now) home name.now (shape x.now)) }
{
    match home {
        None => Ok(()),
        Some(home) => asks.above(alloc, p.attribute(home, name), x),
    }
}

fn store(
    alloc: Global,
    p: &Plan,
    s: &State,
    asks: &mut Asks,
    name: &Text,
    xs: &[Element],
) -> Result<(), NoMem>
    ensures { OnOk result (spec.seen asks.new ≡ spec.seen asks.old ++ rule.with_two (rule.store (spec.whole p.now) (spec.assignment s.now) name.now) (map shape xs.now)) }
{
    match xs {
        [Element::Instance(class, _), x] => {
            to_attribute(alloc, p, s, asks, p.classes.home(*class, name), name, x)
        }
        _ => Ok(()),
    }
}

fn first_walked(
    alloc: Global,
    p: &Plan,
    s: &State,
    asks: &mut Asks,
    site: SiteId,
    xs: &[Element],
) -> Result<(), NoMem>
    ensures { OnOk result (spec.seen asks.new ≡ spec.seen asks.old ++ rule.with_first (λ x ys. rule.walked (spec.whole p.now) (spec.assignment s.now) site x) (map shape xs.now)) }
{
    match xs {
        [x, _others @ ..] => walked(alloc, p, s, asks, site, x),
        [] => Ok(()),
    }
}

fn called_value(
    alloc: Global,
    p: &Plan,
    s: &State,
    asks: &mut Asks,
    xs: &[Element],
) -> Result<(), NoMem>
    ensures { OnOk result (spec.seen asks.new ≡ spec.seen asks.old ++ rule.with_first (rule.call_value (spec.whole p.now) (spec.assignment s.now)) (map shape xs.now)) }
{
    match xs {
        [Element::Func(fs, _), args @ ..] => call_all(alloc, p, s, asks, fs.as_slice(), args),
        _ => Ok(()),
    }
}

/// What an operation asks of the parts of the program.
pub fn operation_asks(
    alloc: Global,
    p: &Plan,
    s: &State,
    asks: &mut Asks,
    op: &RowOp,
    xs: &[Element],
) -> Result<(), NoMem>
    ensures { OnOk result (spec.seen asks.new ≡ spec.seen asks.old ++ rule.asks (spec.whole p.now) (spec.assignment s.now) op.now (map shape xs.now)) }
{
    match op {
        RowOp::Binary(op, site) => sum(alloc, p, s, asks, *op, *site, xs),
        RowOp::AddTo => extend(alloc, p, s, asks, xs),
        RowOp::Slice(site, _, _) => first_flows(alloc, p, s, asks, *site, xs),
        RowOp::AllButLast(site) => first_flows(alloc, p, s, asks, *site, xs),
        RowOp::List(site) => all_to_items(alloc, p, s, asks, *site, xs),
        RowOp::Compare(op) => compared(alloc, p, s, asks, *op, xs),
        RowOp::Index(_) => indexed(alloc, p, s, asks, xs),
        RowOp::DeleteIndex => indexed(alloc, p, s, asks, xs),
        RowOp::StoreIndex => stored(alloc, p, s, asks, xs),
        RowOp::StoreAttr(name) => store(alloc, p, s, asks, name, xs),
        RowOp::AddItem => added(alloc, p, s, asks, xs),
        RowOp::Walk(site) => first_walked(alloc, p, s, asks, *site, xs),
        RowOp::Constant(value) => load(p, asks, value),
        RowOp::Call(f) => call_all(alloc, p, s, asks, &[*f], xs),
        RowOp::CallOf(_, f) => call_all(alloc, p, s, asks, &[*f], xs),
        RowOp::CallValue => called_value(alloc, p, s, asks, xs),
        RowOp::New(class) => make(alloc, p, asks, *class, xs),
        RowOp::Method(name, site) => method_asks(alloc, p, s, asks, name, *site, xs),
        _ => Ok(()),
    }
}
