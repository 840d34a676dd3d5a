// Places of variables in a block: its inputs from 0, then the results of its operations.
ghost use Rattle.std.specs.Prelude.{◌≡◌, ◌+◌, [], ◌∷◌, ◌++◌, slice_set, IfOk};
ghost use Rattle.flow_stands.specs.Places.{range};

use rpy_base::{NoMem, Seq};
use std::alloc::Global;

/// A number of variables, which always fits the memory.
pub fn plus(m: usize, k: usize) -> Result<usize, NoMem>
    ensures { IfOk result (λ sum. sum ≡ m + k) }
{
    match m.checked_add(k) {
        None => Err(NoMem),
        Some(sum) => Ok(sum),
    }
}

/// So many places from this one on.
pub fn range(alloc: Global, from: usize, count: usize) -> Result<Seq<usize>, NoMem>
    ensures { IfOk result (λ places. places ≡ range from count) }
{
    let mut places = Seq::new(alloc);
    for k in 0..count {
        places.push(plus(from, k)?)?;
    }
    Ok(places)
}

/// The first places.
pub fn first(alloc: Global, count: usize) -> Result<Seq<usize>, NoMem>
    ensures { IfOk result (λ places. places ≡ range 0 count) }
{
    range(alloc, 0, count)
}

/// The first places and one more.
pub fn first_and(alloc: Global, count: usize, last: usize) -> Result<Seq<usize>, NoMem>
    ensures { IfOk result (λ places. places ≡ range 0 count ++ last ∷ []) }
{
    let mut places = first(alloc, count)?;
    places.push(last)?;
    Ok(places)
}

/// The first places, with another in the place of one of them.
pub fn stored(alloc: Global, count: usize, at: usize, place: usize) -> Result<Seq<usize>, NoMem>
    ensures { IfOk result (λ places. places ≡ slice_set (range 0 count) at place) }
{
    let mut places = first(alloc, count)?;
    if at < places.len() {
        places.set(at, place);
    }
    Ok(places)
}

/// One place.
pub fn one(alloc: Global, a: usize) -> Result<Seq<usize>, NoMem>
    ensures { IfOk result (λ places. places ≡ a ∷ []) }
{
    let mut places = Seq::new(alloc);
    places.push(a)?;
    Ok(places)
}

/// Two places.
pub fn two(alloc: Global, a: usize, b: usize) -> Result<Seq<usize>, NoMem>
    ensures { IfOk result (λ places. places ≡ a ∷ b ∷ []) }
{
    let mut places = one(alloc, a)?;
    places.push(b)?;
    Ok(places)
}

/// Three places.
pub fn three(alloc: Global, a: usize, b: usize, c: usize) -> Result<Seq<usize>, NoMem>
    ensures { IfOk result (λ places. places ≡ a ∷ b ∷ c ∷ []) }
{
    let mut places = two(alloc, a, b)?;
    places.push(c)?;
    Ok(places)
}

/// A count as the number that an operation or a graph carries.
pub fn narrow(count: usize) -> Result<u32, NoMem>
    ensures { IfOk result (λ number. number ≡ count) }
{
    if count <= 4294967295 {
        Ok(count as u32)
    } else {
        Err(NoMem)
    }
}
