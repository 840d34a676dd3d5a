// States whose elements are written with the least site of each class.
ghost use Rattle.std.specs.Prelude.{◌≡◌, map, IfOk};
ghost use Rattle.ann_lattice.specs.Shape.{shape, shapes, Tup};
ghost use Rattle.ann_lattice.specs.Laws as laws;
ghost use Rattle.ann_needs.specs.View.{assignment};
ghost use Rattle.ann_grown.specs.Partial.{with_leaders};

use ann_element::{Element, Sites, copy_element};
use ann_needs::State;
use rpy_base::{NoMem, Seq};
use rpy_tree::SiteId;
use std::alloc::Global;

fn name_of(same: &Sites, site: Option<SiteId>) -> Option<SiteId>
    ensures { result ≡ laws.name_of same.now site }
{
    match site {
        None => None,
        Some(site) => Some(same.leader(site)),
    }
}

fn tuple(parts: Seq<Element>) -> Element
    ensures { shape result ≡ Tup (shapes parts) }
{
    Element::Tuple(parts)
}

#[cycle(named)]
fn named(alloc: Global, same: &Sites, e: &Element) -> Result<Element, NoMem>
    ensures { IfOk result (λ n. shape n ≡ laws.named same.now (shape e.now)) }
{
    match e {
        Element::List(site, none) => Ok(Element::List(same.leader(*site), *none)),
        Element::Dict(site, none) => Ok(Element::Dict(same.leader(*site), *none)),
        Element::Tuple(parts) => named_tuple(alloc, same, parts.as_slice()),
        Element::Conflict(lists, dicts) => Ok(Element::Conflict(
            name_of(same, *lists),
            name_of(same, *dicts),
        )),
        other => copy_element(alloc, other),
    }
}

#[cycle(named)]
fn named_tuple(alloc: Global, same: &Sites, parts: &[Element]) -> Result<Element, NoMem>
    ensures { IfOk result (λ n. shape n ≡ laws.named same.now (Tup (shapes parts.now))) }
{
    let all = all_named(alloc, same, parts)?;
    Ok(tuple(all))
}

/// Elements, each written with the least site of each class.
#[cycle(named)]
pub fn all_named(alloc: Global, same: &Sites, parts: &[Element]) -> Result<Seq<Element>, NoMem>
    ensures { IfOk result (λ ns. map shape ns ≡ map (laws.named same.now) (map shape parts.now)) }
{
    let mut all = Seq::new(alloc);
    for part in parts {
        all.push(named(alloc, same, part)?)?;
    }
    Ok(all)
}

/// The cells of a state, each element written with the least site of each class.
pub fn named_cells(alloc: Global, s: &State) -> Result<Seq<Element>, NoMem>
    ensures { IfOk result (λ cells. map shape cells ≡ (with_leaders (assignment s.now)).cells) }
{
    all_named(alloc, &s.same, s.cells.as_slice())
}
