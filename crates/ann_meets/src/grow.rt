// A part is met step by step, asked anew after each.
ghost use Rattle.std.specs.Prelude.{◌≡◌, IfErr, OnOk};
ghost use Rattle.ann_needs.specs.View.{assignment, whole};
ghost use Rattle.ann_grown.specs.Partial.{Keeps};
ghost use Rattle.ann_meets.specs.Steps.{spots_in, Stopped};

use crate::meet::{News, meet_asked};
use crate::part::{Part, asks_of};
use crate::stop::Stop;
use ann_closed::is_met;
use ann_needs::{Ask, Plan, State};
use class_desc::Classes;
use rpy_base::Seq;
use std::alloc::Global;

fn unmet_in(classes: &Classes, s: &State, asks: &[Ask], from: usize, to: usize) -> Option<usize> {
    for at in from..to {
        match asks.get(at) {
            None => {}
            Some(ask) => {
                if !is_met(classes, s, ask) {
                    return Some(at);
                }
            }
        }
    }
    None
}

// The place of what does not hold, from a place on and then from the first on.
fn unmet_from(classes: &Classes, s: &State, asks: &[Ask], from: usize) -> Option<usize> {
    match unmet_in(classes, s, asks, from, asks.len()) {
        None => unmet_in(classes, s, asks, 0, from.min(asks.len())),
        Some(at) => Some(at),
    }
}

// One step, and the place behind what it met; or all that the part asks holds.
fn grow_next(
    alloc: Global,
    p: &Plan,
    spots: &Seq<bool>,
    s: &mut State,
    part: Part,
    from: usize,
    news: &mut News,
) -> Result<Option<usize>, Stop>
    ensures kept { OnOk result (Keeps (whole p.now) (spots_in spots.now) (assignment s.old) (assignment s.new)) }
    ensures first { IfErr result (Stopped (whole p.now) (spots_in spots.now) (assignment s.old) (assignment s.new)) }
{
    let asks = asks_of(alloc, p, s, part)?;
    match unmet_from(&p.classes, s, asks.items.as_slice(), from) {
        None => Ok(None),
        Some(at) => match asks.items.get(at) {
            None => Ok(None),
            Some(ask) => match meet_asked(alloc, p, spots, s, ask, news) {
                Ok(()) => Ok(Some(at.saturating_add(1))),
                Err(stop) => Err(stop),
            },
        },
    }
}

/// Steps until all that a part asks holds, or to the first conflict.
pub fn grow_part(
    alloc: Global,
    p: &Plan,
    spots: &Seq<bool>,
    s: &mut State,
    part: Part,
    news: &mut News,
) -> Result<(), Stop>
    ensures kept { OnOk result (Keeps (whole p.now) (spots_in spots.now) (assignment s.old) (assignment s.new)) }
    ensures first { IfErr result (Stopped (whole p.now) (spots_in spots.now) (assignment s.old) (assignment s.new)) }
{
    let mut from = 0;
    for _step in 0..u64::MAX {
        match grow_next(alloc, p, spots, s, part, from, news)? {
            None => return Ok(()),
            Some(behind) => from = behind,
        }
    }
    Ok(())
}
