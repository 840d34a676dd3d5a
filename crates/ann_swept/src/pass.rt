// Sweeps over all that waits.
ghost use Rattle.std.specs.Prelude.{◌≡◌, IfErr, OnOk};
ghost use Rattle.ann_needs.specs.View.{assignment, whole};
ghost use Rattle.ann_grown.specs.Partial.{Keeps};
ghost use Rattle.ann_meets.specs.Steps.{spots_in, Stopped};

use crate::read::read_op;
use crate::reader::Place;
use crate::wake::{Work, is_set, mark, number_of};
use ann_meets::{News, Part, Stop, grow_block, grow_part, grow_ties};
use ann_needs::{Plan, State};
use flow_graph::Op;
use rpy_base::{NoMem, Seq};
use rpy_tree::{FunId, SiteId};
use std::alloc::Global;

// ---- starts

fn pass_start(
    alloc: Global,
    p: &Plan,
    spots: &Seq<bool>,
    s: &mut State,
    work: &mut Work,
    function: FunId,
) -> Result<(), Stop>
    ensures kept { OnOk result (Keeps (whole p.now) (spots_in spots.now) (assignment s.old) (assignment s.new)) }
    ensures first { IfErr result (Stopped (whole p.now) (spots_in spots.now) (assignment s.old) (assignment s.new)) }
{
    let mut news = News::new(alloc);
    grow_part(alloc, p, spots, s, Part::Start(function), &mut news)?;
    Ok(work.take(p, s, &news, false)?)
}

fn pass_starts(
    alloc: Global,
    p: &Plan,
    spots: &Seq<bool>,
    s: &mut State,
    work: &mut Work,
) -> Result<(), Stop>
    ensures kept { OnOk result (Keeps (whole p.now) (spots_in spots.now) (assignment s.old) (assignment s.new)) }
    ensures first { IfErr result (Stopped (whole p.now) (spots_in spots.now) (assignment s.old) (assignment s.new)) }
{
    for _start in 0..u64::MAX {
        match work.starts.pop() {
            None => return Ok(()),
            Some(function) => pass_start(alloc, p, spots, s, work, function)?,
        }
    }
    Ok(())
}

// ---- blocks

fn read_ops(p: &Plan, s: &State, work: &mut Work, place: Place, ops: &[Op]) -> Result<(), NoMem> {
    for op in ops {
        read_op(work, p, s, place, op)?;
    }
    Ok(())
}

fn read_block(p: &Plan, s: &State, work: &mut Work, place: Place) -> Result<(), NoMem> {
    match p.graphs.graphs.get(place.graph) {
        None => Ok(()),
        Some(graph) => match graph.blocks.get(place.block as usize) {
            None => Ok(()),
            Some(block) => read_ops(p, s, work, place, block.ops.as_slice()),
        },
    }
}

fn pass_block(
    alloc: Global,
    p: &Plan,
    spots: &Seq<bool>,
    s: &mut State,
    work: &mut Work,
    place: Place,
) -> Result<(), Stop>
    ensures kept { OnOk result (Keeps (whole p.now) (spots_in spots.now) (assignment s.old) (assignment s.new)) }
    ensures first { IfErr result (Stopped (whole p.now) (spots_in spots.now) (assignment s.old) (assignment s.new)) }
{
    let mut news = News::new(alloc);
    grow_block(alloc, p, spots, s, place.graph, place.block, &mut news)?;
    read_block(p, s, work, place)?;
    Ok(work.take(p, s, &news, false)?)
}

// A block that waits, and the starts of the functions that it calls.
fn pass_if_awake(
    alloc: Global,
    p: &Plan,
    spots: &Seq<bool>,
    s: &mut State,
    work: &mut Work,
    place: Place,
) -> Result<(), Stop>
    ensures kept { OnOk result (Keeps (whole p.now) (spots_in spots.now) (assignment s.old) (assignment s.new)) }
    ensures first { IfErr result (Stopped (whole p.now) (spots_in spots.now) (assignment s.old) (assignment s.new)) }
{
    let number = p.block(place.graph, place.block);
    if !is_set(&work.awake, number) {
        return Ok(());
    }
    mark(&mut work.awake, number, false);
    pass_block(alloc, p, spots, s, work, place)?;
    pass_starts(alloc, p, spots, s, work)
}

// From the last block to the first.
fn pass_blocks(
    alloc: Global,
    p: &Plan,
    spots: &Seq<bool>,
    s: &mut State,
    work: &mut Work,
    graph: usize,
    count: usize,
) -> Result<(), Stop>
    ensures kept { OnOk result (Keeps (whole p.now) (spots_in spots.now) (assignment s.old) (assignment s.new)) }
    ensures first { IfErr result (Stopped (whole p.now) (spots_in spots.now) (assignment s.old) (assignment s.new)) }
{
    for passed in 0..count {
        let place = Place {
            graph,
            block: (count - 1 - passed) as u64,
        };
        pass_if_awake(alloc, p, spots, s, work, place)?;
    }
    Ok(())
}

// A graph begins with its head; then the blocks go on from the last to the first.
fn pass_graph(
    alloc: Global,
    p: &Plan,
    spots: &Seq<bool>,
    s: &mut State,
    work: &mut Work,
    graph: usize,
) -> Result<(), Stop>
    ensures kept { OnOk result (Keeps (whole p.now) (spots_in spots.now) (assignment s.old) (assignment s.new)) }
    ensures first { IfErr result (Stopped (whole p.now) (spots_in spots.now) (assignment s.old) (assignment s.new)) }
{
    match p.graphs.graphs.get(graph) {
        None => Ok(()),
        Some(of) => {
            let head = Place { graph, block: 0 };
            pass_if_awake(alloc, p, spots, s, work, head)?;
            pass_blocks(alloc, p, spots, s, work, graph, of.blocks.len())
        }
    }
}

fn pass_ties(
    alloc: Global,
    p: &Plan,
    spots: &Seq<bool>,
    s: &mut State,
    work: &mut Work,
    graph: usize,
) -> Result<(), Stop>
    ensures kept { OnOk result (Keeps (whole p.now) (spots_in spots.now) (assignment s.old) (assignment s.new)) }
    ensures first { IfErr result (Stopped (whole p.now) (spots_in spots.now) (assignment s.old) (assignment s.new)) }
{
    let mut news = News::new(alloc);
    grow_ties(alloc, p, spots, s, graph, &mut news)?;
    Ok(work.take(p, s, &news, true)?)
}

// The blocks that wait, and then the results of one node.
fn pass_if_waiting(
    alloc: Global,
    p: &Plan,
    spots: &Seq<bool>,
    s: &mut State,
    work: &mut Work,
    graph: usize,
) -> Result<bool, Stop>
    ensures kept { OnOk result (Keeps (whole p.now) (spots_in spots.now) (assignment s.old) (assignment s.new)) }
    ensures first { IfErr result (Stopped (whole p.now) (spots_in spots.now) (assignment s.old) (assignment s.new)) }
{
    if is_set(&work.waiting, graph) {
        mark(&mut work.waiting, graph, false);
        pass_graph(alloc, p, spots, s, work, graph)?;
        return Ok(true);
    }
    if is_set(&work.untied, graph) {
        mark(&mut work.untied, graph, false);
        pass_ties(alloc, p, spots, s, work, graph)?;
        return Ok(true);
    }
    Ok(false)
}

// ---- sites

fn pass_site(
    alloc: Global,
    p: &Plan,
    spots: &Seq<bool>,
    s: &mut State,
    work: &mut Work,
    site: SiteId,
) -> Result<(), Stop>
    ensures kept { OnOk result (Keeps (whole p.now) (spots_in spots.now) (assignment s.old) (assignment s.new)) }
    ensures first { IfErr result (Stopped (whole p.now) (spots_in spots.now) (assignment s.old) (assignment s.new)) }
{
    let mut news = News::new(alloc);
    grow_part(alloc, p, spots, s, Part::Site(site), &mut news)?;
    Ok(work.take(p, s, &news, false)?)
}

fn pass_contents(
    alloc: Global,
    p: &Plan,
    spots: &Seq<bool>,
    s: &mut State,
    work: &mut Work,
) -> Result<(), Stop>
    ensures kept { OnOk result (Keeps (whole p.now) (spots_in spots.now) (assignment s.old) (assignment s.new)) }
    ensures first { IfErr result (Stopped (whole p.now) (spots_in spots.now) (assignment s.old) (assignment s.new)) }
{
    for _site in 0..u64::MAX {
        match work.contents.pop() {
            None => return Ok(()),
            Some(site) => pass_site(alloc, p, spots, s, work, site)?,
        }
    }
    Ok(())
}

// A site that is not the least of its class.
fn pass_if_led(
    alloc: Global,
    p: &Plan,
    spots: &Seq<bool>,
    s: &mut State,
    work: &mut Work,
    site: SiteId,
) -> Result<(), Stop>
    ensures kept { OnOk result (Keeps (whole p.now) (spots_in spots.now) (assignment s.old) (assignment s.new)) }
    ensures first { IfErr result (Stopped (whole p.now) (spots_in spots.now) (assignment s.old) (assignment s.new)) }
{
    if s.same.leader(site) == site {
        return Ok(());
    }
    pass_site(alloc, p, spots, s, work, site)
}

fn pass_sites(
    alloc: Global,
    p: &Plan,
    spots: &Seq<bool>,
    s: &mut State,
    work: &mut Work,
) -> Result<(), Stop>
    ensures kept { OnOk result (Keeps (whole p.now) (spots_in spots.now) (assignment s.old) (assignment s.new)) }
    ensures first { IfErr result (Stopped (whole p.now) (spots_in spots.now) (assignment s.old) (assignment s.new)) }
{
    for site in 0..p.sites.len() {
        pass_if_led(alloc, p, spots, s, work, number_of(site))?;
    }
    Ok(())
}

// Classes of sites that became one hold the same. That may make others one.
fn pass_united(
    alloc: Global,
    p: &Plan,
    spots: &Seq<bool>,
    s: &mut State,
    work: &mut Work,
) -> Result<(), Stop>
    ensures kept { OnOk result (Keeps (whole p.now) (spots_in spots.now) (assignment s.old) (assignment s.new)) }
    ensures first { IfErr result (Stopped (whole p.now) (spots_in spots.now) (assignment s.old) (assignment s.new)) }
{
    for _round in 0..u64::MAX {
        if !work.united {
            return Ok(());
        }
        work.united = false;
        pass_sites(alloc, p, spots, s, work)?;
    }
    Ok(())
}

// ---- sweeps

fn pass_graphs(
    alloc: Global,
    p: &Plan,
    spots: &Seq<bool>,
    s: &mut State,
    work: &mut Work,
) -> Result<bool, Stop>
    ensures kept { OnOk result (Keeps (whole p.now) (spots_in spots.now) (assignment s.old) (assignment s.new)) }
    ensures first { IfErr result (Stopped (whole p.now) (spots_in spots.now) (assignment s.old) (assignment s.new)) }
{
    let mut passed = false;
    for graph in 0..p.graphs.graphs.len() {
        let waited = pass_if_waiting(alloc, p, spots, s, work, graph)?;
        passed = passed || waited;
    }
    Ok(passed)
}

// Once through all that waits, and whether there was some.
fn pass_all(
    alloc: Global,
    p: &Plan,
    spots: &Seq<bool>,
    s: &mut State,
    work: &mut Work,
) -> Result<bool, Stop>
    ensures kept { OnOk result (Keeps (whole p.now) (spots_in spots.now) (assignment s.old) (assignment s.new)) }
    ensures first { IfErr result (Stopped (whole p.now) (spots_in spots.now) (assignment s.old) (assignment s.new)) }
{
    pass_starts(alloc, p, spots, s, work)?;
    let passed = pass_graphs(alloc, p, spots, s, work)?;
    pass_contents(alloc, p, spots, s, work)?;
    pass_united(alloc, p, spots, s, work)?;
    Ok(passed || !work.starts.is_empty())
}

/// Until nothing waits, or to the first conflict.
pub fn sweep(
    alloc: Global,
    p: &Plan,
    spots: &Seq<bool>,
    s: &mut State,
    work: &mut Work,
) -> Result<(), Stop>
    ensures kept { OnOk result (Keeps (whole p.now) (spots_in spots.now) (assignment s.old) (assignment s.new)) }
    ensures first { IfErr result (Stopped (whole p.now) (spots_in spots.now) (assignment s.old) (assignment s.new)) }
{
    for _pass in 0..u64::MAX {
        let passed = pass_all(alloc, p, spots, s, work)?;
        if !passed {
            return Ok(());
        }
    }
    Ok(())
}

/// What the function asks that the run begins with.
pub fn begin(
    alloc: Global,
    p: &Plan,
    spots: &Seq<bool>,
    s: &mut State,
    work: &mut Work,
) -> Result<(), Stop>
    ensures kept { OnOk result (Keeps (whole p.now) (spots_in spots.now) (assignment s.old) (assignment s.new)) }
    ensures first { IfErr result (Stopped (whole p.now) (spots_in spots.now) (assignment s.old) (assignment s.new)) }
{
    let mut news = News::new(alloc);
    grow_part(alloc, p, spots, s, Part::Entry, &mut news)?;
    Ok(work.take(p, s, &news, false)?)
}
