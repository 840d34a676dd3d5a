// What sites ask: those of one class hold the same, and a site that is read what it holds before the run.
ghost use Rattle.std.specs.Prelude.{◌≡◌, ◌++◌, OnOk};
ghost use Rattle.ann_rules.specs.Rules as rule;
ghost use Rattle.ann_needs.specs.View as spec;

use crate::ask::Asks;
use crate::constant::{constant_of, load};
use crate::held::{tie, to_items, to_keys};
use crate::plan::Plan;
use crate::state::State;
use rpy_base::NoMem;
use rpy_tree::{Const, Site, SiteId};
use std::alloc::Global;

fn pair_asks(
    alloc: Global,
    p: &Plan,
    s: &State,
    asks: &mut Asks,
    site: SiteId,
    dict: bool,
    pair: &(Const, Const),
) -> Result<(), NoMem>
    ensures { OnOk result (spec.seen asks.new ≡ spec.seen asks.old ++ rule.pair_needs (spec.whole p.now) (spec.assignment s.now) site dict pair.now) }
{
    if dict {
        load(p, asks, &pair.0)?;
        let key = constant_of(alloc, p, &pair.0)?;
        to_keys(alloc, p, s, asks, site, &key)?;
    }
    load(p, asks, &pair.1)?;
    let item = constant_of(alloc, p, &pair.1)?;
    to_items(alloc, p, s, asks, site, &item)
}

fn pairs_asks(
    alloc: Global,
    p: &Plan,
    s: &State,
    asks: &mut Asks,
    site: SiteId,
    dict: bool,
    pairs: &[(Const, Const)],
) -> Result<(), NoMem>
    ensures { OnOk result (spec.seen asks.new ≡ spec.seen asks.old ++ spec.pairs_needs (spec.whole p.now) (spec.assignment s.now) site dict pairs.now) }
{
    for pair in pairs {
        pair_asks(alloc, p, s, asks, site, dict, pair)?;
    }
    Ok(())
}

fn contents_asks(
    alloc: Global,
    p: &Plan,
    s: &State,
    asks: &mut Asks,
    site: SiteId,
    of: &Site,
) -> Result<(), NoMem>
    ensures { OnOk result (spec.seen asks.new ≡ spec.seen asks.old ++ rule.contents (spec.whole p.now) (spec.assignment s.now) site «of».now.dict «of».now.prebuilt) }
{
    match &of.prebuilt {
        None => Ok(()),
        Some(pairs) => pairs_asks(alloc, p, s, asks, site, of.dict, pairs.as_slice()),
    }
}

/// What a site asks.
pub fn site_asks(
    alloc: Global,
    p: &Plan,
    s: &State,
    asks: &mut Asks,
    site: SiteId,
    of: &Site,
) -> Result<(), NoMem>
    ensures { OnOk result (spec.seen asks.new ≡ spec.seen asks.old ++ rule.site_needs (spec.whole p.now) (spec.assignment s.now) site «of».now) }
{
    let leader = s.same.leader(site);
    tie(alloc, p, s, asks, p.item(site), p.item(leader))?;
    tie(alloc, p, s, asks, p.key(site), p.key(leader))?;
    if s.is_marked(p.loaded(site)) {
        contents_asks(alloc, p, s, asks, site, of)
    } else {
        Ok(())
    }
}
