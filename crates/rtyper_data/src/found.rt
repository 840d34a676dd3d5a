// What the lowering of a program asks for: helpers, statics and small graphs.
ghost use Rattle.std.specs.Prelude.{◌≡◌, slice_get, IfOk};
ghost use Rattle.rtyper_data.specs.Finding as spec;
ghost use Rattle.rtyper_data.specs.Seen.{Asks};

use crate::small::{Small, is_same_small};
use csub_tree::{CCell, CConst, CStatic};
use ll_build::{Helper, Need};
use ll_code::{LlStatic, LlType};
use rpy_base::{NoMem, Seq};
use rpy_meaning::Covers;
use rpy_tree::SiteId;
use std::alloc::Global;

/// The helpers that are needed, in the order in which they were first asked for: the graph of each
/// has its number, and raises the failures that it was asked for to raise. For which failures the
/// operation that is lowered asks so. The statics, by their numbers, with those of
/// the lists and dicts that are constants, by their sites, and the small graphs, the first of which has the
/// number `first_small`. Whether something had no lowering.
#[derive(Drop)]
pub struct Found {
    pub needs: Seq<Need>,
    pub caught: Seq<Covers>,
    pub covered: Covers,
    pub statics: Seq<LlStatic>,
    pub prebuilt: Seq<(SiteId, u64)>,
    pub smalls: Seq<Small>,
    pub first_small: u64,
}

impl Found {
    /// Nothing yet.
    pub fn new(alloc: Global) -> Found {
        Found {
            needs: Seq::new(alloc),
            caught: Seq::new(alloc),
            covered: NOTHING,
            statics: Seq::new(alloc),
            prebuilt: Seq::new(alloc),
            smalls: Seq::new(alloc),
            first_small: 0,
        }
    }

    /// These helpers, whose statics these are, and small graphs from this number on.
    pub fn again(
        alloc: Global,
        needs: Seq<Need>,
        caught: Seq<Covers>,
        statics: Seq<LlStatic>,
        first_small: u64,
    ) -> Found {
        Found {
            needs,
            caught,
            covered: NOTHING,
            statics,
            prebuilt: Seq::new(alloc),
            smalls: Seq::new(alloc),
            first_small,
        }
    }
}

/// No failure is raised.
pub const NOTHING: Covers = Covers {
    index: false,
    zero: false,
    number: false,
    attribute: false,
};

// Whether the need at a place is of the helper, and these are the failures that it is asked for to raise.
#[tactic(auto, unfolding(crate::specs::Finding::is_need))]
fn is_need(need: Need, caught: &[Covers], place: usize, helper: Helper, covered: Covers) -> bool
    ensures { result ≡ spec.is_need need (slice_get caught.now place) helper covered }
{
    match caught.get(place) {
        None => false,
        Some(caught) => need.helper == helper && *caught == covered,
    }
}

fn place_of_need(needs: &[Need], caught: &[Covers], helper: Helper, covered: Covers) -> Option<u64>
    ensures { result ≡ spec.need_from 0 needs.now caught.now helper covered }
{
    let mut place: usize = 0;
    for need in needs {
        if is_need(*need, caught, place, helper, covered) {
            return Some(place as u64);
        }
        place += 1;
    }
    None
}

// Which failures a helper has, of those that an operation may have.
fn failures_of(helper: Helper, covered: Covers) -> Covers
    ensures { result ≡ spec.failures_of helper covered }
{
    match helper {
        Helper::WordDiv | Helper::WordMod => Covers {
            zero: covered.zero,
            ..NOTHING
        },
        Helper::WordShl | Helper::WordShr | Helper::WordChr => Covers {
            number: covered.number,
            ..NOTHING
        },
        Helper::StrIndex => Covers {
            index: covered.index,
            attribute: covered.attribute,
            ..NOTHING
        },
        Helper::StrAdd
        | Helper::StrMul
        | Helper::StrSlice
        | Helper::StrButLast
        | Helper::StrLen
        | Helper::StrContains
        | Helper::StrFind
        | Helper::StrStartsWith
        | Helper::StrEndsWith
        | Helper::StrStrip
        | Helper::StrWalk => Covers {
            attribute: covered.attribute,
            ..NOTHING
        },
        _ => NOTHING,
    }
}

/// The number of the graph of a helper.
#[tactic(auto, unfolding(crate::specs::Finding::helper_number))]
pub fn helper_number(helper: Helper, found: &mut Found) -> Result<u64, NoMem>
    ensures { IfOk result (λ number. Asks (spec.helper_number helper found.old) number found.new) }
{
    let covered = failures_of(helper, found.covered);
    let needs = found.needs.as_slice();
    match place_of_need(needs, found.caught.as_slice(), helper, covered) {
        Some(place) => return Ok(place),
        None => {}
    }
    found.caught.push(covered)?;
    let number = found.needs.len() as u64;
    found.needs.push(Need {
        helper,
        item: LlType::Void,
        key: LlType::Void,
    })?;
    Ok(number)
}

// ---- small graphs

fn place_of_small(smalls: &[Small], small: Small) -> Option<u64>
    ensures { result ≡ spec.small_from 0 smalls.now small }
{
    let mut place: usize = 0;
    for each in smalls {
        if is_same_small(*each, small) {
            return Some(place as u64);
        }
        place += 1;
    }
    None
}

/// The number of a small graph.
#[tactic(auto, unfolding(crate::specs::Finding::small_number))]
pub fn small_number(small: Small, found: &mut Found) -> Result<u64, NoMem>
    ensures { IfOk result (λ number. Asks (spec.small_number small found.old) number found.new) }
{
    match place_of_small(found.smalls.as_slice(), small) {
        Some(place) => return Ok(found.first_small.saturating_add(place)),
        None => {}
    }
    let number = found.first_small.saturating_add(found.smalls.len() as u64);
    found.smalls.push(small)?;
    Ok(number)
}

// ---- statics

#[cycle(same)]
#[tactic(auto, using(crate::proofs::Cells::constants_are, crate::proofs::Cells::braces_are, crate::proofs::Cells::constant_is_no_brace, crate::proofs::Cells::brace_is_no_constant))]
fn is_same_cell(a: &CCell, b: &CCell) -> bool
    ensures { result ≡ spec.same_cell a.now b.now }
{
    match (a, b) {
        (CCell::Const(x), CCell::Const(y)) => *x == *y,
        (CCell::Braces(xs), CCell::Braces(ys)) => are_same_cells(xs.as_slice(), ys.as_slice()),
        _ => false,
    }
}

#[cycle(same)]
fn are_same_cells(xs: &[CCell], ys: &[CCell]) -> bool
    ensures { result ≡ spec.same_cells xs.now ys.now }
{
    let mut rest = ys;
    for x in xs {
        match rest {
            [] => return false,
            [y, others @ ..] => {
                if !is_same_cell(x, y) {
                    return false;
                }
                rest = others;
            }
        }
    }
    rest.is_empty()
}

fn place_of_static(statics: &[LlStatic], kind: u64, cells: &[CCell]) -> Option<u64>
    ensures { result ≡ spec.static_from 0 statics.now kind cells.now }
{
    let mut place: usize = 0;
    for each in statics {
        if each.kind == kind && are_same_cells(each.cells.as_slice(), cells) {
            return Some(place as u64);
        }
        place += 1;
    }
    None
}

/// The static of the list or dict of a site, where that is a constant that was made.
pub fn static_of_site(found: &Found, site: SiteId) -> Option<u64>
    ensures { result ≡ spec.prebuilt_at found.now.prebuilt site }
{
    for each in found.prebuilt.as_slice() {
        if each.0 == site {
            return Some(each.1);
        }
    }
    None
}

/// The constant that is a static of this struct with these cells.
#[tactic(auto, unfolding(crate::specs::Finding::static_of))]
pub fn static_of(kind: u64, cells: Seq<CCell>, found: &mut Found) -> Result<CConst, NoMem>
    ensures { IfOk result (λ made. Asks (spec.static_of kind cells found.old) made found.new) }
{
    match place_of_static(found.statics.as_slice(), kind, cells.as_slice()) {
        Some(place) => Ok(CConst::Static(kind, place)),
        None => {
            let place = found.statics.len() as u64;
            found.statics.push(CStatic { kind, cells })?;
            Ok(CConst::Static(kind, place))
        }
    }
}
