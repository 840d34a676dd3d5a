// The least annotation of a program, or the first conflict that growing meets.
ghost use Rattle.std.specs.Prelude.{◌≡◌, true, false, IfErr, IfOk, OnOk};
ghost use Rattle.ann_needs.specs.View.{assignment, whole};
ghost use Rattle.ann_meets.specs.Steps.{spots_in, Stopped};
ghost use Rattle.ann_shown.specs.Told.{IsPlanOf};
ghost use Rattle.ann_settled.specs.Settled as spec;

use crate::node::nodes_of;
use crate::read::read;
use ann_element::Annotation;
use ann_holding::all_holds;
use ann_layout::Planned;
use ann_meets::Stop;
use ann_needs::State;
use ann_shown::{Told, tell};
use ann_states::{named_cells, nothing_reached, spots_of};
use ann_swept::{Work, begin, sweep, wake_all};
use rpy_base::{NoMem, Seq};
use rpy_tree::Program;
use std::alloc::Global;
use std::mem;

/// Why there is no annotation: none is closed and free of conflict, and growing met this conflict first; or
/// there was no memory.
#[derive(Drop)]
pub enum Unsettled {
    Conflict(Told),
    NoMem,
}

impl From<NoMem> for Unsettled {
    ghost use Rattle.std.specs.Prelude.{◌≡◌};
    ghost use Rattle.ann_settled.specs.declared.settle.Unsettled.TheVariants.{NoMem};

    ghost from_gives = { λ _ fault. fault ≡ NoMem };

    fn from(_: NoMem) -> Unsettled {
        Unsettled::NoMem
    }
}

// ---- the end of growing

// Whether each cell and each mark is there.
fn is_complete(planned: &Planned, s: &State) -> bool
    ensures { result ≡ spec.is_complete planned.now s.now }
{
    s.cells.len() == planned.cells && s.marks.len() == planned.marks
}

fn is_closed(alloc: Global, planned: &Planned, s: &State) -> Result<bool, NoMem>
    ensures { IfOk result (λ closed. closed ≡ true → spec.IsAllThere planned.now s.now) }
{
    if is_complete(planned, s) {
        all_holds(alloc, &planned.plan, s)
    } else {
        Ok(false)
    }
}

// Writes each element with the least sites. Where all that is asked does not hold so, the elements are left
// as they were.
fn is_settled(alloc: Global, planned: &Planned, s: &mut State) -> Result<bool, NoMem>
    ensures settled { IfOk result (λ settled. settled ≡ true → spec.IsNamed planned.now (assignment s.old) s.new) }
    ensures open { IfOk result (λ settled. settled ≡ false → assignment s.new ≡ assignment s.old) }
{
    let named = named_cells(alloc, s)?;
    let cells = mem::replace(&mut s.cells, named);
    if is_closed(alloc, planned, s)? {
        return Ok(true);
    }
    s.cells = cells;
    Ok(false)
}

// Steps until all that is asked holds, or to the first conflict.
#[tactic(auto, using(crate::proofs::Ending::settles_by))]
fn grow_by(
    alloc: Global,
    planned: &Planned,
    spots: &Seq<bool>,
    s: &mut State,
    work: &mut Work,
) -> Result<(), Stop>
    ensures settled { OnOk result (spec.Settles planned.now (spots_in spots.now) (assignment s.old) s.new) }
    ensures first { IfErr result (Stopped (whole planned.now.plan) (spots_in spots.now) (assignment s.old) (assignment s.new)) }
{
    let plan = &planned.plan;
    begin(alloc, plan, spots, s, work)?;
    for _pass in 0..u64::MAX {
        sweep(alloc, plan, spots, s, work)?;
        if is_settled(alloc, planned, s)? {
            return Ok(());
        }
        wake_all(work, plan)?;
    }
    Err(Stop::NoMem)
}

fn grow(alloc: Global, planned: &Planned, spots: &Seq<bool>, s: &mut State) -> Result<(), Stop>
    ensures settled { OnOk result (spec.Settles planned.now (spots_in spots.now) (assignment s.old) s.new) }
    ensures first { IfErr result (Stopped (whole planned.now.plan) (spots_in spots.now) (assignment s.old) (assignment s.new)) }
{
    let mut work = Work::new(alloc, &planned.plan, planned.cells, planned.marks)?;
    grow_by(alloc, planned, spots, s, &mut work)
}

// Why growing stopped, as it is told.
fn why_stopped(
    alloc: Global,
    program: &Program,
    planned: &Planned,
    s: &State,
    stop: Stop,
) -> Unsettled
    requires plan { IsPlanOf program.now planned.now.plan }
    requires tellable { spec.IsTellable program.now planned.now (assignment s.now) stop }
    ensures { spec.Tells program.now planned.now (assignment s.now) stop result }
{
    match stop {
        Stop::NoMem => Unsettled::NoMem,
        Stop::Conflict(cell) => match tell(alloc, program, &planned.plan, s, cell) {
            Ok(told) => Unsettled::Conflict(told),
            Err(NoMem) => Unsettled::NoMem,
        },
    }
}

#[tactic(auto, using(crate::proofs::Ending::stopped))]
fn settle(alloc: Global, program: &Program, planned: &Planned) -> Result<State, Unsettled>
    requires { IsPlanOf program.now planned.now.plan }
    ensures { spec.Ends program.now planned.now result }
{
    let cells = planned.cells;
    let spots = spots_of(alloc, &planned.plan, cells)?;
    let mut s = nothing_reached(alloc, program, cells, planned.marks)?;
    match grow(alloc, planned, &spots, &mut s) {
        Ok(()) => Ok(s),
        Err(stop) => Err(why_stopped(alloc, program, planned, &s, stop)),
    }
}

#[tactic(auto, using(crate::proofs::Nodes::read_by))]
fn read_out(alloc: Global, planned: &Planned, s: State) -> Result<Annotation, NoMem>
    ensures { IfOk result (λ n. spec.IsRead planned.now s n) }
{
    let plan = &planned.plan;
    let nodes = nodes_of(alloc, plan, &s)?;
    read(alloc, s, &plan.classes, &plan.places, nodes)
}

/// The least annotation that is closed under all that the graphs of a planned program ask and free of
/// conflict. Or there is none, with the first conflict that growing meets.
pub fn close(alloc: Global, program: &Program, planned: &Planned) -> Result<Annotation, Unsettled>
    requires { IsPlanOf program.now planned.now.plan }
    ensures { spec.Closes program.now planned.now result }
{
    let s = settle(alloc, program, planned)?;
    Ok(read_out(alloc, planned, s)?)
}
