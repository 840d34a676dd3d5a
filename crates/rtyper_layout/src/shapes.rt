// The types that stand for elements. Each shape of tuples, which is the types of the items, has a struct.
ghost use Rattle.std.specs.Prelude.{◌≡◌, IfOk, OnOk};
ghost use Rattle.std.specs.Option.{option_copied};
ghost use Rattle.rtyper_layout.specs.Sites as met;
ghost use Rattle.rtyper_layout.specs.Types as spec;

use crate::classes::Laid;
use crate::layout::Layout;
use ann_element::Element;
use ll_code::LlType;
use rpy_base::{NoMem, Seq, Text};
use rpy_tree::{ClassId, SiteId};
use std::alloc::Global;

/// The type of a field: what is never there may have any.
pub fn field_type(kind: LlType) -> LlType
    ensures { result ≡ spec.field_type kind }
{
    match kind {
        LlType::Void => LlType::Bool,
        _ => kind,
    }
}

// Whether a field has the type of a part.
#[cycle(repr)]
fn is_field(layout: &Layout, part: &Element, field: LlType) -> bool
    ensures { result ≡ spec.is_field layout.now part.now field }
{
    field_type(repr(layout, part)) == field
}

#[cycle(repr)]
fn is_shape(layout: &Layout, parts: &[Element], fields: &[LlType]) -> bool
    ensures { result ≡ spec.are_same (spec.shape layout.now parts.now) fields.now }
{
    let mut rest = fields;
    for part in parts {
        match rest {
            [] => return false,
            [field, others @ ..] => {
                if !is_field(layout, part, *field) {
                    return false;
                }
                rest = others;
            }
        }
    }
    rest.is_empty()
}

// The place of a shape, where it is there.
#[cycle(repr)]
fn place_of(layout: &Layout, parts: &[Element]) -> Option<u64>
    ensures { result ≡ spec.shape_from 0 layout.now.shapes (spec.shape layout.now parts.now) }
{
    let mut place: usize = 0;
    for shape in layout.shapes.as_slice() {
        if is_shape(layout, parts, shape.as_slice()) {
            return Some(place as u64);
        }
        place += 1;
    }
    None
}

fn root_of(laid: Option<Laid>) -> LlType
    ensures { result ≡ spec.root_of laid }
{
    match laid {
        None => LlType::Void,
        Some(laid) => LlType::Ptr(laid.root),
    }
}

// Each place has so many structs from the first on.
fn pointer_to(first: u64, each: u64, place: Option<u64>) -> LlType
    ensures { result ≡ spec.pointer_to first each place }
{
    match place {
        None => LlType::Void,
        Some(place) => LlType::Ptr(first.saturating_add(place.saturating_mul(each))),
    }
}

/// The type of the values of an element. What has a kind that is not translated has none.
#[cycle(repr)]
#[tactic(auto, using(crate::proofs::Tuples::tuple_is))]
pub fn repr(layout: &Layout, element: &Element) -> LlType
    ensures { result ≡ spec.type_of layout.now element.now }
{
    match element {
        Element::Tuple(parts) => {
            pointer_to(layout.first_tuple, 1, place_of(layout, parts.as_slice()))
        }
        // Each class of sites has a struct, that of its arrays follows it.
        Element::List(site, _) => {
            let place = place_of_site(layout.lists.as_slice(), *site);
            pointer_to(layout.first_list, 2, place)
        }
        // Each class of sites has a struct, those of its two arrays follow it.
        Element::Dict(site, _) => {
            let place = place_of_site(layout.dicts.as_slice(), *site);
            pointer_to(layout.first_dict, 3, place)
        }
        Element::Instance(class, _) => root_of(layout.laid(*class)),
        Element::NoneOnly | Element::KnownTrue | Element::KnownFalse | Element::Bool => {
            LlType::Bool
        }
        Element::IntPos | Element::Int => LlType::Signed,
        Element::Char => LlType::Char,
        Element::Str | Element::StrOrNone => LlType::Ptr(0),
        Element::Func(_, _) => LlType::Fn,
        Element::Unreached | Element::Conflict(_, _) => LlType::Void,
    }
}

/// The type of what was seen; where nothing was, no value comes.
pub fn repr_seen(layout: &Layout, element: Option<&Element>) -> LlType
    ensures { result ≡ spec.type_seen layout.now (option_copied element.entry) }
{
    match element {
        None => LlType::Void,
        Some(element) => repr(layout, element),
    }
}

// ---- sites

fn place_of_site(sites: &[SiteId], site: SiteId) -> Option<u64>
    ensures { result ≡ spec.site_from 0 sites.now site }
{
    let mut place: usize = 0;
    for each in sites {
        if *each == site {
            return Some(place as u64);
        }
        place += 1;
    }
    None
}

fn push_site(site: SiteId, sites: &mut Seq<SiteId>) -> Result<(), NoMem>
    ensures { OnOk result (sites.new ≡ met.with_site sites.old site) }
{
    if place_of_site(sites.as_slice(), site).is_some() {
        return Ok(());
    }
    sites.push(site)
}

fn push_list_site(site: SiteId, of_dicts: bool, sites: &mut Seq<SiteId>) -> Result<(), NoMem>
    ensures { OnOk result (sites.new ≡ met.with_sites sites.old (met.list_site of_dicts site)) }
{
    if of_dicts {
        Ok(())
    } else {
        push_site(site, sites)
    }
}

fn push_dict_site(site: SiteId, of_dicts: bool, sites: &mut Seq<SiteId>) -> Result<(), NoMem>
    ensures { OnOk result (sites.new ≡ met.with_sites sites.old (met.dict_site of_dicts site)) }
{
    if of_dicts {
        push_site(site, sites)
    } else {
        Ok(())
    }
}

// The sites of lists, or of dicts, inside an element.
#[cycle(sites)]
#[tactic(auto, using(crate::proofs::Within::sites_of_tuple))]
fn push_sites(element: &Element, of_dicts: bool, sites: &mut Seq<SiteId>) -> Result<(), NoMem>
    ensures { OnOk result (sites.new ≡ met.with_sites sites.old (met.sites_of of_dicts element.now)) }
{
    match element {
        Element::Tuple(parts) => push_sites_in(parts.as_slice(), of_dicts, sites),
        Element::List(site, _) => push_list_site(*site, of_dicts, sites),
        Element::Dict(site, _) => push_dict_site(*site, of_dicts, sites),
        _ => Ok(()),
    }
}

/// The sites of lists, or of dicts, inside elements.
#[cycle(sites)]
pub fn push_sites_in(
    elements: &[Element],
    of_dicts: bool,
    sites: &mut Seq<SiteId>,
) -> Result<(), NoMem>
    ensures { OnOk result (sites.new ≡ met.sites_in of_dicts sites.old elements.now) }
{
    for element in elements {
        push_sites(element, of_dicts, sites)?;
    }
    Ok(())
}

/// The sites of lists, or of dicts, inside rows of elements.
pub fn push_all_sites(
    rows: &[Seq<Element>],
    of_dicts: bool,
    sites: &mut Seq<SiteId>,
) -> Result<(), NoMem>
    ensures { OnOk result (sites.new ≡ met.sites_in_rows of_dicts sites.old rows.now) }
{
    for row in rows {
        push_sites_in(row.as_slice(), of_dicts, sites)?;
    }
    Ok(())
}

/// The sites of lists, or of dicts, inside the elements of attributes.
pub fn push_attribute_sites(
    attributes: &[(ClassId, Text, Element)],
    of_dicts: bool,
    sites: &mut Seq<SiteId>,
) -> Result<(), NoMem>
    ensures { OnOk result (sites.new ≡ met.sites_in_attributes of_dicts sites.old attributes.now) }
{
    for attribute in attributes {
        push_sites(&attribute.2, of_dicts, sites)?;
    }
    Ok(())
}

// ---- shapes

fn shape_of(alloc: Global, layout: &Layout, parts: &[Element]) -> Result<Seq<LlType>, NoMem>
    ensures { IfOk result (λ fields. fields ≡ spec.shape layout.now parts.now) }
{
    let mut fields = Seq::new(alloc);
    for part in parts {
        fields.push(field_type(repr(layout, part)))?;
    }
    Ok(fields)
}

fn push_shape(alloc: Global, parts: &[Element], layout: &mut Layout) -> Result<(), NoMem>
    ensures { OnOk result (layout.new ≡ met.with_shape layout.old parts.now) }
{
    if place_of(layout, parts).is_some() {
        return Ok(());
    }
    let shape = shape_of(alloc, layout, parts)?;
    layout.shapes.push(shape)
}

// The shapes inside an element, the inner ones first.
#[cycle(shapes)]
#[tactic(auto, using(crate::proofs::Within::shapes_of_tuple))]
fn push_shapes(alloc: Global, element: &Element, layout: &mut Layout) -> Result<(), NoMem>
    ensures { OnOk result (layout.new ≡ met.with_shapes layout.old (met.tuples_of element.now)) }
{
    match element {
        Element::Tuple(parts) => {
            push_shapes_in(alloc, parts.as_slice(), layout)?;
            push_shape(alloc, parts.as_slice(), layout)
        }
        _ => Ok(()),
    }
}

/// The shapes inside elements.
#[cycle(shapes)]
pub fn push_shapes_in(alloc: Global, elements: &[Element], layout: &mut Layout) -> Result<(), NoMem>
    ensures { OnOk result (layout.new ≡ met.shapes_in layout.old elements.now) }
{
    for element in elements {
        push_shapes(alloc, element, layout)?;
    }
    Ok(())
}

/// The shapes inside rows of elements.
pub fn push_all_shapes(
    alloc: Global,
    rows: &[Seq<Element>],
    layout: &mut Layout,
) -> Result<(), NoMem>
    ensures { OnOk result (layout.new ≡ met.shapes_in_rows layout.old rows.now) }
{
    for row in rows {
        push_shapes_in(alloc, row.as_slice(), layout)?;
    }
    Ok(())
}

/// The shapes inside the elements of attributes.
pub fn push_attribute_shapes(
    alloc: Global,
    attributes: &[(ClassId, Text, Element)],
    layout: &mut Layout,
) -> Result<(), NoMem>
    ensures { OnOk result (layout.new ≡ met.shapes_in_attributes layout.old attributes.now) }
{
    for attribute in attributes {
        push_shapes(alloc, &attribute.2, layout)?;
    }
    Ok(())
}
