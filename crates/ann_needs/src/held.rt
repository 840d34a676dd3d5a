// What the lists and dicts of a class of sites hold. It stands at the least site of the class.
ghost use Rattle.std.specs.Prelude.{◌≡◌, ◌++◌, ◌∷◌, [], IfOk, OnOk};
ghost use Rattle.ann_lattice.specs.Shape.{shape};
ghost use Rattle.ann_rules.specs.Asks as rule;
ghost use Rattle.ann_needs.specs.View as spec;

use crate::ask::Asks;
use crate::plan::Plan;
use crate::state::State;
use ann_element::{Element, copy_element};
use ann_lattice::is_key;
use rpy_base::NoMem;
use rpy_tree::SiteId;
use std::alloc::Global;

pub fn items_of(alloc: Global, p: &Plan, s: &State, site: SiteId) -> Result<Element, NoMem>
    ensures { IfOk result (λ e. shape e ≡ rule.items_of (spec.whole p.now) (spec.assignment s.now) site) }
{
    s.element(alloc, p.item(s.same.leader(site)))
}

pub fn keys_of(alloc: Global, p: &Plan, s: &State, site: SiteId) -> Result<Element, NoMem>
    ensures { IfOk result (λ e. shape e ≡ rule.keys_of (spec.whole p.now) (spec.assignment s.now) site) }
{
    s.element(alloc, p.key(s.same.leader(site)))
}

pub fn to_items(
    alloc: Global,
    p: &Plan,
    s: &State,
    asks: &mut Asks,
    site: SiteId,
    x: &Element,
) -> Result<(), NoMem>
    ensures { OnOk result (spec.seen asks.new ≡ spec.seen asks.old ++ rule.to_items (spec.whole p.now) (spec.assignment s.now) site (shape x.now)) }
{
    asks.above(alloc, p.item(s.same.leader(site)), x)
}

// An element that can be a key, or a conflict.
fn as_key(alloc: Global, x: &Element) -> Result<Element, NoMem>
    ensures { IfOk result (λ e. shape e ≡ spec.as_key (shape x.now)) }
{
    if is_key(x) {
        copy_element(alloc, x)
    } else {
        Ok(Element::Conflict(None, None))
    }
}

pub fn to_keys(
    alloc: Global,
    p: &Plan,
    s: &State,
    asks: &mut Asks,
    site: SiteId,
    x: &Element,
) -> Result<(), NoMem>
    ensures { OnOk result (spec.seen asks.new ≡ spec.seen asks.old ++ rule.to_keys (spec.whole p.now) (spec.assignment s.now) site (shape x.now)) }
{
    let key = as_key(alloc, x)?;
    asks.above(alloc, p.key(s.same.leader(site)), &key)
}

/// The items of one list are items of another.
pub fn flow(
    alloc: Global,
    p: &Plan,
    s: &State,
    asks: &mut Asks,
    x: &Element,
    site: SiteId,
) -> Result<(), NoMem>
    ensures { OnOk result (spec.seen asks.new ≡ spec.seen asks.old ++ rule.flow (spec.whole p.now) (spec.assignment s.now) (shape x.now) site) }
{
    match x {
        Element::List(of, _) => {
            let e = items_of(alloc, p, s, *of)?;
            to_items(alloc, p, s, asks, site, &e)
        }
        _ => Ok(()),
    }
}

/// What is looked up is a key of the dict, or an item of the list.
pub fn look_up(
    alloc: Global,
    p: &Plan,
    s: &State,
    asks: &mut Asks,
    holder: &Element,
    x: &Element,
) -> Result<(), NoMem>
    ensures { OnOk result (spec.seen asks.new ≡ spec.seen asks.old ++ rule.look_up (spec.whole p.now) (spec.assignment s.now) (shape holder.now) (shape x.now)) }
{
    match holder {
        Element::Dict(site, _) => to_keys(alloc, p, s, asks, *site, x),
        Element::List(site, _) => to_items(alloc, p, s, asks, *site, x),
        _ => Ok(()),
    }
}

pub fn look_up_key(
    alloc: Global,
    p: &Plan,
    s: &State,
    asks: &mut Asks,
    holder: &Element,
    x: &Element,
) -> Result<(), NoMem>
    ensures { OnOk result (spec.seen asks.new ≡ spec.seen asks.old ++ rule.look_up_key (spec.whole p.now) (spec.assignment s.now) (shape holder.now) (shape x.now)) }
{
    match holder {
        Element::Dict(site, _) => to_keys(alloc, p, s, asks, *site, x),
        _ => Ok(()),
    }
}

pub fn hold(
    alloc: Global,
    p: &Plan,
    s: &State,
    asks: &mut Asks,
    holder: &Element,
    x: &Element,
) -> Result<(), NoMem>
    ensures { OnOk result (spec.seen asks.new ≡ spec.seen asks.old ++ rule.hold (spec.whole p.now) (spec.assignment s.now) (shape holder.now) (shape x.now)) }
{
    match holder {
        Element::Dict(site, _) => to_items(alloc, p, s, asks, *site, x),
        Element::List(site, _) => to_items(alloc, p, s, asks, *site, x),
        _ => Ok(()),
    }
}

// The keys of a dict that is walked are items of the list of its walk.
pub fn walked(
    alloc: Global,
    p: &Plan,
    s: &State,
    asks: &mut Asks,
    site: SiteId,
    x: &Element,
) -> Result<(), NoMem>
    ensures { OnOk result (spec.seen asks.new ≡ spec.seen asks.old ++ rule.walked (spec.whole p.now) (spec.assignment s.now) site (shape x.now)) }
{
    match x {
        Element::Dict(of, _) => {
            let e = keys_of(alloc, p, s, *of)?;
            to_items(alloc, p, s, asks, site, &e)
        }
        _ => Ok(()),
    }
}

/// Two cells have one element.
pub fn tie(
    alloc: Global,
    p: &Plan,
    s: &State,
    asks: &mut Asks,
    c: usize,
    d: usize,
) -> Result<(), NoMem>
    ensures { OnOk result (spec.seen asks.new ≡ spec.seen asks.old ++ rule.tie (spec.whole p.now) (spec.assignment s.now) c d) }
{
    let of_d = s.element(alloc, d)?;
    asks.above(alloc, c, &of_d)?;
    let of_c = s.element(alloc, c)?;
    asks.above(alloc, d, &of_c)
}
