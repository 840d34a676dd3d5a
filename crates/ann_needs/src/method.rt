// What the call of a method asks of the parts of the program.
ghost use Rattle.std.specs.Prelude.{◌≡◌, ◌++◌, ◌∷◌, [], map, nat_le, IfOk, OnOk};
ghost use Rattle.ann_lattice.specs.Shape.{Tup, end, more, shape, shapes};
ghost use Rattle.ann_lattice.specs.Join as join;
ghost use Rattle.ann_lattice.specs.Kind.{is_nothing};
ghost use Rattle.ann_lattice.specs.Row.{if_shallow};
ghost use Rattle.ann_rules.specs.Asks as rule;
ghost use Rattle.ann_needs.specs.View as spec;

use crate::ask::Asks;
use crate::call::{call_methods, methods_of};
use crate::held::{flow, items_of, keys_of, to_items, to_keys};
use crate::plan::Plan;
use crate::state::State;
use ann_element::{Element, copy_element};
use ann_lattice::{Method, method_of};
use rpy_base::{NoMem, Seq, Text};
use rpy_tree::{ClassId, SiteId};
use std::alloc::Global;

// ---- pairs

#[cycle(shallow)]
fn is_shallow(e: &Element, levels: u64) -> bool
    ensures { result ≡ nat_le (join.depth (shape e.now)) levels }
{
    match e {
        Element::Tuple(parts) => levels > 0 && all_shallow(parts.as_slice(), levels - 1),
        _ => true,
    }
}

#[cycle(shallow)]
fn all_shallow(parts: &[Element], levels: u64) -> bool
    ensures { result ≡ nat_le (join.depths (shapes parts.now)) levels }
{
    match parts {
        [] => true,
        [part, parts @ ..] => is_shallow(part, levels) && all_shallow(parts, levels),
    }
}

fn pair(alloc: Global, key: Element, value: Element) -> Result<Element, NoMem>
    ensures { IfOk result (λ e. shape e ≡ Tup (more (shape key) (more (shape value) end))) }
{
    let mut parts = Seq::new(alloc);
    parts.push(key)?;
    parts.push(value)?;
    Ok(Element::Tuple(parts))
}

fn shallow(e: Element) -> Element
    ensures { shape result ≡ if_shallow (shape e) }
{
    if is_shallow(&e, 8) {
        e
    } else {
        Element::Conflict(None, None)
    }
}

pub fn is_unreached(e: &Element) -> bool
    ensures { result ≡ is_nothing (shape e.now) }
{
    match e {
        Element::Unreached => true,
        _ => false,
    }
}

// The pairs of a dict, once it has some.
fn pairs(
    alloc: Global,
    p: &Plan,
    s: &State,
    asks: &mut Asks,
    site: SiteId,
    key: Element,
    value: Element,
) -> Result<(), NoMem>
    ensures { OnOk result (spec.seen asks.new ≡ spec.seen asks.old ++ rule.pairs (spec.whole p.now) (spec.assignment s.now) site (shape key) (shape value)) }
{
    if is_unreached(&key) || is_unreached(&value) {
        return Ok(());
    }
    let item = shallow(pair(alloc, key, value)?);
    to_items(alloc, p, s, asks, site, &item)
}

// ---- methods of dicts

fn listed(
    alloc: Global,
    p: &Plan,
    s: &State,
    asks: &mut Asks,
    method: Method,
    of: SiteId,
    site: SiteId,
) -> Result<(), NoMem>
    ensures { OnOk result (spec.seen asks.new ≡ spec.seen asks.old ++ rule.listed (spec.whole p.now) (spec.assignment s.now) method «of» site) }
{
    let key = keys_of(alloc, p, s, of)?;
    let value = items_of(alloc, p, s, of)?;
    match method {
        Method::Keys => to_items(alloc, p, s, asks, site, &key),
        Method::Values => to_items(alloc, p, s, asks, site, &value),
        Method::Items => pairs(alloc, p, s, asks, site, key, value),
        _ => Ok(()),
    }
}

fn listed_at(
    alloc: Global,
    p: &Plan,
    s: &State,
    asks: &mut Asks,
    method: Method,
    of: SiteId,
    site: Option<SiteId>,
) -> Result<(), NoMem>
    ensures { OnOk result (spec.seen asks.new ≡ spec.seen asks.old ++ spec.listed_at (spec.whole p.now) (spec.assignment s.now) method «of» site) }
{
    match site {
        None => Ok(()),
        Some(site) => listed(alloc, p, s, asks, method, of, site),
    }
}

fn dict_asks(
    alloc: Global,
    p: &Plan,
    s: &State,
    asks: &mut Asks,
    method: Method,
    of: SiteId,
    site: Option<SiteId>,
    xs: &[Element],
) -> Result<(), NoMem>
    ensures { OnOk result (spec.seen asks.new ≡ spec.seen asks.old ++ rule.dict_asks (spec.whole p.now) (spec.assignment s.now) method «of» site (map shape xs.now)) }
{
    match method {
        Method::Get => match xs {
            [key, _others @ ..] => to_keys(alloc, p, s, asks, of, key),
            [] => Ok(()),
        },
        _ => listed_at(alloc, p, s, asks, method, of, site),
    }
}

// ---- methods of lists, strings and instances

fn list_asks(
    alloc: Global,
    p: &Plan,
    s: &State,
    asks: &mut Asks,
    method: Method,
    of: SiteId,
    xs: &[Element],
) -> Result<(), NoMem>
    ensures { OnOk result (spec.seen asks.new ≡ spec.seen asks.old ++ rule.list_asks (spec.whole p.now) (spec.assignment s.now) method «of» (map shape xs.now)) }
{
    match method {
        Method::Append => match xs {
            [x] => to_items(alloc, p, s, asks, of, x),
            _ => Ok(()),
        },
        Method::Insert => match xs {
            [_, x] => to_items(alloc, p, s, asks, of, x),
            _ => Ok(()),
        },
        Method::Extend => match xs {
            [x] => flow(alloc, p, s, asks, x, of),
            _ => Ok(()),
        },
        _ => Ok(()),
    }
}

fn split_asks(
    alloc: Global,
    p: &Plan,
    s: &State,
    asks: &mut Asks,
    method: Method,
    site: Option<SiteId>,
) -> Result<(), NoMem>
    ensures { OnOk result (spec.seen asks.new ≡ spec.seen asks.old ++ rule.split_asks (spec.whole p.now) (spec.assignment s.now) method site) }
{
    match method {
        Method::Split => match site {
            None => Ok(()),
            Some(site) => to_items(alloc, p, s, asks, site, &Element::Str),
        },
        _ => Ok(()),
    }
}

fn instance_asks(
    alloc: Global,
    p: &Plan,
    s: &State,
    asks: &mut Asks,
    name: &Text,
    class: ClassId,
    xs: &[Element],
) -> Result<(), NoMem>
    ensures { OnOk result (spec.seen asks.new ≡ spec.seen asks.old ++ rule.call_methods (spec.whole p.now) (spec.assignment s.now) (rule.methods (spec.whole p.now) (spec.assignment s.now) class name.now) (map shape xs.now)) }
{
    let methods = methods_of(alloc, p, s, class, name)?;
    call_methods(alloc, p, s, asks, methods.as_slice(), xs)
}

/// What the call of a method asks, whatever the receiver is.
pub fn method_asks(
    alloc: Global,
    p: &Plan,
    s: &State,
    asks: &mut Asks,
    name: &Text,
    site: Option<SiteId>,
    xs: &[Element],
) -> Result<(), NoMem>
    ensures { OnOk result (spec.seen asks.new ≡ spec.seen asks.old ++ rule.with_first (rule.method_asks (spec.whole p.now) (spec.assignment s.now) name.now site) (map shape xs.now)) }
{
    match xs {
        [Element::Instance(class, _), others @ ..] => {
            instance_asks(alloc, p, s, asks, name, *class, others)
        }
        [Element::List(of, _), others @ ..] => {
            list_asks(alloc, p, s, asks, method_of(name), *of, others)
        }
        [Element::Dict(of, _), others @ ..] => {
            dict_asks(alloc, p, s, asks, method_of(name), *of, site, others)
        }
        [Element::Char, _others @ ..] => split_asks(alloc, p, s, asks, method_of(name), site),
        [Element::Str, _others @ ..] => split_asks(alloc, p, s, asks, method_of(name), site),
        [Element::StrOrNone, _others @ ..] => split_asks(alloc, p, s, asks, method_of(name), site),
        _ => Ok(()),
    }
}
