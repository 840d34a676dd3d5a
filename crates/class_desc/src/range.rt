// Numbers of classes, such that those below a class have the numbers of a range.
ghost use Rattle.std.specs.Prelude.{◌≡◌, ◌+◌, ◌^◌, ◌<◌, length, replicate, get_or, IfOk, OnOk};
ghost use Rattle.class_desc.specs.Range as spec;
ghost use Rattle.class_desc.specs.Line.{above};

use crate::line::base_of;
use rpy_base::{NoMem, Seq};
use rpy_tree::{ClassId, ClassInfo};
use std::alloc::Global;

/// By how much the number of each class is above that of its base, and what is below the children so
/// far of each class, after what is below those of none.
#[derive(Drop)]
pub struct Laid {
    pub offsets: Seq<u32>,
    pub taken: Seq<u32>,
}

// There is no memory for 2 ^ 32 classes.
fn sum(a: u32, b: u32) -> Result<u32, NoMem>
    ensures { IfOk result (λ sum. sum ≡ a + b) }
{
    match a.checked_add(b) {
        None => Err(NoMem),
        Some(sum) => Ok(sum),
    }
}

fn class_at(place: usize) -> Result<ClassId, NoMem>
    ensures { IfOk result (λ class. class ≡ place) }
{
    if place < 4294967296 {
        Ok(place as u32)
    } else {
        Err(NoMem)
    }
}

fn count_at(counts: &[u32], place: usize) -> u32
    ensures { result ≡ get_or counts.now place 0 }
{
    match counts.get(place) {
        None => 0,
        Some(count) => *count,
    }
}

fn bump(counts: &mut Seq<u32>, place: usize, by: u32) -> Result<(), NoMem>
    ensures { OnOk result (counts.new ≡ spec.bump place by counts.old) }
{
    if place < counts.len() {
        let count = sum(count_at(counts.as_slice(), place), by)?;
        counts.set(place, count);
    }
    Ok(())
}

fn zeros(alloc: Global, count: usize) -> Result<Seq<u32>, NoMem>
    ensures { IfOk result (λ counts. counts ≡ replicate count 0) }
{
    let mut counts = Seq::new(alloc);
    for _place in 0..count {
        counts.push(0)?;
    }
    Ok(counts)
}

// One more below a class and each of its bases.
#[tactic(auto, using(crate::proofs::Turns::line_turn))]
fn bump_line(infos: &[ClassInfo], c: ClassId, counts: &mut Seq<u32>) -> Result<(), NoMem>
    ensures { OnOk result (counts.new ≡ spec.bumps (above infos.now c) counts.old) }
{
    let mut class = c;
    for _turn in 0..infos.len() {
        bump(counts, class as usize, 1)?;
        match base_of(infos, class) {
            None => return Ok(()),
            Some(base) => class = base,
        }
    }
    Ok(())
}

#[tactic(auto, using(crate::proofs::Turns::sizes_next))]
fn sizes_of(alloc: Global, infos: &[ClassInfo]) -> Result<Seq<u32>, NoMem>
    ensures { IfOk result (λ sizes. sizes ≡ spec.sizes infos.now) }
{
    let mut counts = zeros(alloc, infos.len())?;
    for place in 0..infos.len() {
        bump_line(infos, class_at(place)?, &mut counts)?;
    }
    Ok(counts)
}

// 0 for no base, and else one more than its number.
#[tactic(auto, using(crate::proofs::Turns::slot_is))]
fn parent_of(infos: &[ClassInfo], class: ClassId) -> usize
    ensures { result ≡ spec.parent infos.now class }
{
    match base_of(infos, class) {
        None => 0,
        Some(base) => base as usize + 1,
    }
}

fn lay(infos: &[ClassInfo], sizes: &[u32], class: ClassId, laid: &mut Laid) -> Result<(), NoMem>
    ensures { OnOk result (laid.new ≡ spec.lay infos.now sizes.now class laid.old) }
{
    let parent = parent_of(infos, class);
    let offset = sum(count_at(laid.taken.as_slice(), parent), 1)?;
    laid.offsets.push(offset)?;
    bump(&mut laid.taken, parent, count_at(sizes, class as usize))
}

#[tactic(auto, using(crate::proofs::Turns::laid_next, crate::proofs::Turns::one_more))]
fn laid_of(alloc: Global, infos: &[ClassInfo], sizes: &[u32]) -> Result<Laid, NoMem>
    requires { length infos.now < 2 ^ 63 }
    ensures { IfOk result (λ laid. laid ≡ spec.laid_to infos.now sizes.now (length infos.now)) }
{
    let mut laid = Laid {
        offsets: Seq::new(alloc),
        taken: zeros(alloc, infos.len() + 1)?,
    };
    for place in 0..infos.len() {
        lay(infos, sizes, class_at(place)?, &mut laid)?;
    }
    Ok(laid)
}

#[tactic(auto, using(crate::proofs::Turns::line_turn))]
fn number_of(infos: &[ClassInfo], offsets: &[u32], c: ClassId) -> Result<u32, NoMem>
    ensures { IfOk result (λ number. number ≡ spec.number infos.now offsets.now c) }
{
    let mut class = c;
    let mut number = 0;
    for _turn in 0..infos.len() {
        number = sum(number, count_at(offsets, class as usize))?;
        match base_of(infos, class) {
            None => return Ok(number),
            Some(base) => class = base,
        }
    }
    Ok(number)
}

fn range_by(
    infos: &[ClassInfo],
    sizes: &[u32],
    offsets: &[u32],
    c: ClassId,
) -> Result<(u32, u32), NoMem>
    ensures { IfOk result (λ range. range ≡ spec.range_by infos.now sizes.now offsets.now c) }
{
    let number = number_of(infos, offsets, c)?;
    let end = sum(number, count_at(sizes, c as usize))?;
    Ok((number, end))
}

#[tactic(auto, using(crate::proofs::Turns::ranges_next))]
fn all_ranges(
    alloc: Global,
    infos: &[ClassInfo],
    sizes: &[u32],
    offsets: &[u32],
) -> Result<Seq<(u32, u32)>, NoMem>
    ensures { IfOk result (λ ranges. ranges ≡ spec.ranges_to infos.now sizes.now offsets.now (length infos.now)) }
{
    let mut ranges = Seq::new(alloc);
    for place in 0..infos.len() {
        ranges.push(range_by(infos, sizes, offsets, class_at(place)?)?)?;
    }
    Ok(ranges)
}

/// The ranges of the classes.
pub fn ranges_of(alloc: Global, infos: &[ClassInfo]) -> Result<Seq<(u32, u32)>, NoMem>
    requires { length infos.now < 2 ^ 63 }
    ensures { IfOk result (λ ranges. ranges ≡ spec.ranges infos.now) }
{
    let sizes = sizes_of(alloc, infos)?;
    let laid = laid_of(alloc, infos, sizes.as_slice())?;
    all_ranges(alloc, infos, sizes.as_slice(), laid.offsets.as_slice())
}
