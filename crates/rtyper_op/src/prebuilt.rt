// Lists and dicts that are constants of modules. A list is two statics, the array and the list, a dict three. Each
// stands behind those of the lists and dicts that it holds.
ghost use Rattle.std.specs.Prelude.{◌≡◌, IfOk, OnOk, length, map, pos};
ghost use Rattle.csub_tree.specs.declared.tree.CConst.TheVariants as CConst;
ghost use Rattle.rtyper_op.specs.Prebuilt as spec;
ghost use Rattle.rtyper_data.specs.Seen.{the_around, Asks};

use crate::constant::constant_of;
use crate::mapped::{own_static, push_mapped};
use ann_element::Element;
use csub_tree::{CCell, CConst, CStatic};
use ll_code::LlType;
use rpy_base::{NoMem, Seq};
use rpy_tree::{Const, SiteId};
use rtyper_data::{Around, Found, static_of_site};
use rtyper_layout::repr;
use std::alloc::Global;

// Whether the lists and dicts inside a constant are made.
#[cycle(ready)]
#[tactic(auto, using(crate::proofs::Ready::tuple_is))]
fn is_ready(found: &Found, constant: &Const) -> bool
    ensures { result ≡ spec.is_ready found.now constant.now }
{
    match constant {
        Const::List(site) | Const::Dict(site) => static_of_site(found, *site).is_some(),
        Const::Tuple(parts) => are_ready(found, parts.as_slice()),
        _ => true,
    }
}

#[cycle(ready)]
fn are_ready(found: &Found, parts: &[Const]) -> bool
    ensures { result ≡ spec.are_true (map (spec.is_ready found.now) parts.now) }
{
    for part in parts {
        if !is_ready(found, part) {
            return false;
        }
    }
    true
}

fn all_ready(found: &Found, pairs: &[(Const, Const)]) -> bool
    ensures { result ≡ spec.all_ready found.now pairs.now }
{
    for pair in pairs {
        if !is_ready(found, &pair.1) {
            return false;
        }
    }
    true
}

fn item_type(around: Around<'_>, array: u64) -> LlType
    ensures { result ≡ spec.item_type (the_around around.entry) array }
{
    match around.layout.structs.get(array as usize) {
        None => LlType::Bool,
        Some(each) => match each.items {
            None => LlType::Bool,
            Some(kind) => kind,
        },
    }
}

#[tactic(auto, unfolding(crate::specs::Prebuilt::array_cells))]
fn array_cells(
    alloc: Global,
    around: Around<'_>,
    pairs: &[(Const, Const)],
    item: LlType,
    found: &mut Found,
) -> Result<Seq<CCell>, NoMem>
    ensures { IfOk result (λ cells. Asks (spec.array_cells (the_around around.entry) pairs.now item found.old) cells found.new) }
{
    let mut items = Seq::new(alloc);
    for pair in pairs {
        let cell = constant_of(alloc, around, &pair.1, item, found)?;
        items.push(CCell::Const(cell))?;
    }
    let mut cells = Seq::new(alloc);
    cells.push(CCell::Const(length_of(pairs)?))?;
    cells.push(CCell::Braces(items))?;
    Ok(cells)
}

fn length_of(pairs: &[(Const, Const)]) -> Result<CConst, NoMem>
    ensures { IfOk result (λ made. made ≡ CConst.Word (pos (length pairs.now))) }
{
    match i64::try_from(pairs.len()) {
        Ok(length) => Ok(CConst::Word(length)),
        Err(_) => Err(NoMem),
    }
}

// Two lists with the same items are two lists.
#[tactic(auto, unfolding(crate::specs::Prebuilt::listed))]
fn push_list(
    alloc: Global,
    around: Around<'_>,
    site: SiteId,
    list: u64,
    pairs: &[(Const, Const)],
    found: &mut Found,
) -> Result<(), NoMem>
    ensures { OnOk result (found.new ≡ spec.listed (the_around around.entry) site list pairs.now found.old) }
{
    let array = list.saturating_add(1);
    let item = item_type(around, array);
    let cells = array_cells(alloc, around, pairs, item, found)?;
    let items = own_static(array, cells, found)?;
    let mut cells = Seq::new(alloc);
    cells.push(CCell::Const(length_of(pairs)?))?;
    cells.push(CCell::Const(items))?;
    let number = found.statics.len() as u64;
    found.statics.push(CStatic { kind: list, cells })?;
    found.prebuilt.push((site, number))
}

// What a site makes.
#[tactic(auto, unfolding(crate::specs::Prebuilt::element_of))]
fn element_of(around: Around<'_>, site: SiteId, is_dict: bool) -> Element
    ensures { result ≡ spec.element_of (the_around around.entry) around.entry.sites.now around.entry.same.now site is_dict }
{
    let leader = around.same.leader(site);
    if is_dict {
        Element::Dict(leader, false)
    } else {
        Element::List(leader, false)
    }
}

#[tactic(auto, unfolding(crate::specs::Prebuilt::type_of_site))]
fn type_of_site(around: Around<'_>, site: SiteId, is_dict: bool) -> LlType
    ensures { result ≡ spec.type_of_site (the_around around.entry) around.entry.sites.now around.entry.same.now site is_dict }
{
    let element = element_of(around, site, is_dict);
    repr(around.layout, &element)
}

// A list or dict, where its parts are made.
#[tactic(auto, unfolding(crate::specs::Prebuilt::contents))]
fn push_contents(
    alloc: Global,
    around: Around<'_>,
    is_dict: bool,
    site: SiteId,
    kind: u64,
    pairs: &[(Const, Const)],
    found: &mut Found,
) -> Result<(), NoMem>
    ensures { OnOk result (found.new ≡ spec.contents (the_around around.entry) is_dict site kind pairs.now found.old) }
{
    if !all_ready(found, pairs) {
        return Ok(());
    }
    if is_dict {
        return push_mapped(alloc, around, site, kind, pairs, found);
    }
    push_list(alloc, around, site, kind, pairs, found)
}

// The list or dict of a site, where it is a constant whose parts are made and it is not.
#[tactic(auto, unfolding(crate::specs::Prebuilt::site_made))]
fn push_site(
    alloc: Global,
    around: Around<'_>,
    site: SiteId,
    found: &mut Found,
) -> Result<(), NoMem>
    ensures { OnOk result (found.new ≡ spec.site_made (the_around around.entry) around.entry.sites.now around.entry.same.now site found.old) }
{
    if static_of_site(found, site).is_some() {
        return Ok(());
    }
    let Some(of) = around.sites.get(site as usize) else {
        return Ok(());
    };
    match (&of.prebuilt, type_of_site(around, site, of.dict)) {
        (Some(pairs), LlType::Ptr(kind)) => {
            push_contents(alloc, around, of.dict, site, kind, pairs.as_slice(), found)
        }
        _ => Ok(()),
    }
}

#[tactic(auto, using(crate::proofs::Ready::next_site), unfolding(crate::specs::Prebuilt::round))]
fn push_round(alloc: Global, around: Around<'_>, found: &mut Found) -> Result<(), NoMem>
    ensures { OnOk result (found.new ≡ spec.round (the_around around.entry) around.entry.sites.now around.entry.same.now found.old) }
{
    let mut site: SiteId = 0;
    for turn in 0..around.sites.len() {
        push_site(alloc, around, site, found)?;
        site = site.saturating_add(1);
    }
    Ok(())
}

/// The lists and dicts that are constants. Each round makes those whose parts are made.
#[tactic(auto, using(crate::proofs::Ready::next_round), unfolding(crate::specs::Prebuilt::prebuilt))]
pub fn push_prebuilt(alloc: Global, around: Around<'_>, found: &mut Found) -> Result<(), NoMem>
    ensures { OnOk result (found.new ≡ spec.prebuilt (the_around around.entry) around.entry.sites.now around.entry.same.now found.old) }
{
    for turn in 0..around.sites.len() {
        let before = found.prebuilt.len();
        push_round(alloc, around, found)?;
        if found.prebuilt.len() == before {
            return Ok(());
        }
    }
    Ok(())
}
