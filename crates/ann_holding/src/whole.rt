// Whether all that a program's graphs ask holds.
ghost use Rattle.std.specs.Prelude.{◌≡◌, true, IfOk};
ghost use Rattle.ann_lattice.specs.Assign.{Closed};
ghost use Rattle.ann_rules.specs.Rules.{rules};
ghost use Rattle.ann_needs.specs.View.{assignment, whole};
ghost use Rattle.ann_holding.specs.Holds as spec;

use crate::block::{all_met, blocks_hold};
use ann_needs::{Asks, Callee, Plan, State, entry_asks, site_asks, start_asks, tie_asks};
use flow_graph::Graph;
use rpy_base::NoMem;
use rpy_tree::{FunId, Site, SiteId};
use std::alloc::Global;

fn ties_hold(alloc: Global, p: &Plan, s: &State, g: usize, graph: &Graph) -> Result<bool, NoMem>
    ensures { IfOk result (λ holds. holds ≡ spec.ties_hold (whole p.now) (assignment s.now) g graph.now) }
{
    let mut asks = Asks::new(alloc);
    tie_asks(alloc, p, s, &mut asks, g, graph)?;
    Ok(all_met(p, s, asks.items.as_slice()))
}

fn graph_holds(alloc: Global, p: &Plan, s: &State, g: usize, graph: &Graph) -> Result<bool, NoMem>
    ensures { IfOk result (λ holds. holds ≡ spec.graph_holds (whole p.now) (assignment s.now) g graph.now) }
{
    if !blocks_hold(alloc, p, s, g, graph, graph.blocks.as_slice())? {
        return Ok(false);
    }
    ties_hold(alloc, p, s, g, graph)
}

fn graphs_hold(alloc: Global, p: &Plan, s: &State, graphs: &[Graph]) -> Result<bool, NoMem>
    ensures { IfOk result (λ holds. holds ≡ spec.graphs_hold (whole p.now) (assignment s.now) 0 graphs.now) }
{
    for (g, graph) in graphs.iter().enumerate() {
        if !graph_holds(alloc, p, s, g, graph)? {
            return Ok(false);
        }
    }
    Ok(true)
}

// ---- functions and sites

fn narrow(number: usize) -> Result<u32, NoMem>
    ensures { IfOk result (λ narrowed. narrowed ≡ number) }
{
    if number <= 4294967295 {
        Ok(number as u32)
    } else {
        Err(NoMem)
    }
}

fn start_holds(alloc: Global, p: &Plan, s: &State, f: FunId, callee: &Callee) -> Result<bool, NoMem>
    ensures { IfOk result (λ holds. holds ≡ spec.start_holds (whole p.now) (assignment s.now) f callee.now) }
{
    let mut asks = Asks::new(alloc);
    start_asks(alloc, p, s, &mut asks, f, callee)?;
    Ok(all_met(p, s, asks.items.as_slice()))
}

fn starts_hold(alloc: Global, p: &Plan, s: &State, callees: &[Callee]) -> Result<bool, NoMem>
    ensures { IfOk result (λ holds. holds ≡ spec.starts_hold (whole p.now) (assignment s.now) 0 callees.now) }
{
    for (f, callee) in callees.iter().enumerate() {
        if !start_holds(alloc, p, s, narrow(f)?, callee)? {
            return Ok(false);
        }
    }
    Ok(true)
}

fn site_holds(
    alloc: Global,
    p: &Plan,
    s: &State,
    number: SiteId,
    site: &Site,
) -> Result<bool, NoMem>
    ensures { IfOk result (λ holds. holds ≡ spec.site_holds (whole p.now) (assignment s.now) number site.now) }
{
    let mut asks = Asks::new(alloc);
    site_asks(alloc, p, s, &mut asks, number, site)?;
    Ok(all_met(p, s, asks.items.as_slice()))
}

fn sites_hold(alloc: Global, p: &Plan, s: &State, sites: &[Site]) -> Result<bool, NoMem>
    ensures { IfOk result (λ holds. holds ≡ spec.sites_hold (whole p.now) (assignment s.now) 0 sites.now) }
{
    for (number, site) in sites.iter().enumerate() {
        if !site_holds(alloc, p, s, narrow(number)?, site)? {
            return Ok(false);
        }
    }
    Ok(true)
}

fn entry_holds(alloc: Global, p: &Plan, s: &State) -> Result<bool, NoMem>
    ensures { IfOk result (λ holds. holds ≡ spec.entry_holds (whole p.now) (assignment s.now)) }
{
    let mut asks = Asks::new(alloc);
    entry_asks(alloc, p, s, &mut asks)?;
    Ok(all_met(p, s, asks.items.as_slice()))
}

// ---- all of it

fn parts_hold(alloc: Global, p: &Plan, s: &State) -> Result<bool, NoMem>
    ensures { IfOk result (λ holds. holds ≡ spec.holds (whole p.now) (assignment s.now) p.now.callees) }
{
    if !entry_holds(alloc, p, s)? {
        return Ok(false);
    }
    if !starts_hold(alloc, p, s, p.callees.as_slice())? {
        return Ok(false);
    }
    if !graphs_hold(alloc, p, s, p.graphs.graphs.as_slice())? {
        return Ok(false);
    }
    sites_hold(alloc, p, s, p.sites.as_slice())
}

/// Whether all that the graphs ask of an assignment holds in it. Then it is closed under all of their rules.
pub fn all_holds(alloc: Global, p: &Plan, s: &State) -> Result<bool, NoMem>
    ensures { IfOk result (λ holds. holds ≡ true → Closed p.now.classes.classes (rules (whole p.now)) (assignment s.now)) }
{
    parts_hold(alloc, p, s)
}
