// The graphs of dicts.
ghost use Rattle.std.specs.Prelude.{◌≡◌, IfOk};
ghost use Rattle.rtyper_data.specs.Seen.{Asks};
ghost use Rattle.rtyper_dict.specs.Graphs as spec;

use crate::change::{add_entry, remove, store};
use crate::grow::{grow, make};
use crate::hash::hash_graph;
use crate::index::{enter, fill, index, size};
use crate::lists::{Part, get, list, truth, value};
use crate::look::{entry, find};
use crate::parts::dict_at;
use list_shape::{item_of, shape_of};
use ll_code::LlGraph;
use rpy_base::NoMem;
use rtyper_data::{Found, Keyed};
use rtyper_layout::Layout;
use std::alloc::Global;

// What makes and changes a dict, and the length of an index.
#[tactic(auto, unfolding(crate::specs::Graphs::changing))]
fn changing(
    alloc: Global,
    layout: &Layout,
    keyed: Keyed,
    found: &mut Found,
) -> Result<LlGraph, NoMem>
    ensures { IfOk result (λ made. Asks (spec.changing layout.now keyed found.old) made found.new) }
{
    match keyed {
        Keyed::Make(d) => make(alloc, dict_at(layout, d)),
        Keyed::Fill(array) => fill(alloc, array, item_of(layout, array)),
        Keyed::Enter(d) => enter(alloc, dict_at(layout, d), found),
        Keyed::Index(d) => index(alloc, dict_at(layout, d), found),
        Keyed::Grow(d) => grow(alloc, dict_at(layout, d), found),
        Keyed::Add(d) => add_entry(alloc, dict_at(layout, d), found),
        Keyed::Store(d) => store(alloc, dict_at(layout, d), found),
        Keyed::Remove(d) => remove(alloc, dict_at(layout, d), found),
        _ => size(alloc),
    }
}

/// The graph that is asked for.
#[tactic(auto, unfolding(crate::specs::Graphs::dict_graph))]
pub fn dict_graph(
    alloc: Global,
    layout: &Layout,
    keyed: Keyed,
    found: &mut Found,
) -> Result<LlGraph, NoMem>
    ensures { IfOk result (λ made. Asks (spec.dict_graph layout.now keyed found.old) made found.new) }
{
    match keyed {
        Keyed::Hash(kind) => hash_graph(alloc, layout, kind, found),
        Keyed::Find(d) => find(alloc, layout, dict_at(layout, d), found),
        Keyed::Entry(d) => entry(alloc, dict_at(layout, d), found),
        Keyed::Value(d) => value(alloc, dict_at(layout, d)),
        Keyed::Get(d, kind) => get(alloc, layout, dict_at(layout, d), kind, found),
        Keyed::Truth(d) => truth(alloc, dict_at(layout, d)),
        Keyed::Keys(d, l) => {
            let to = shape_of(layout, l);
            list(alloc, layout, dict_at(layout, d), to, Part::Key, found)
        }
        Keyed::Values(d, l) => {
            let to = shape_of(layout, l);
            list(alloc, layout, dict_at(layout, d), to, Part::Value, found)
        }
        Keyed::Items(d, l) => {
            let to = shape_of(layout, l);
            list(alloc, layout, dict_at(layout, d), to, Part::Both, found)
        }
        _ => changing(alloc, layout, keyed, found),
    }
}
