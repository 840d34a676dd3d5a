// Operations that modify lists and dicts.
ghost use Rattle.std.specs.Prelude.{◌≡◌, replicate, false, IfOk};
ghost use Rattle.std.specs.Option.{option_copied};
ghost use Rattle.rtyper_core.specs.Modify as spec;

use ann_element::{Element, Sites};
use flow_graph::{Op, VarId};
use rpy_base::{NoMem, Seq, Text};
use rpy_meaning::RowOp;
use rpy_tree::{Site, SiteId};
use std::alloc::Global;

/// The element of an operand, if it is there.
pub fn operand<'a>(elements: &'a [Element], args: &[VarId], place: usize) -> Option<&'a Element>
    ensures { option_copied result ≡ spec.operand elements.now args.now place }
{
    match args.get(place) {
        None => None,
        Some(variable) => elements.get(*variable as usize),
    }
}

/// There is no memory for 2 ^ 32 of anything.
pub fn narrow(place: usize) -> Result<u32, NoMem>
    ensures { IfOk result (λ number. number ≡ place) }
{
    if place < 4294967296 {
        Ok(place as u32)
    } else {
        Err(NoMem)
    }
}

fn unmarked(alloc: Global, count: usize) -> Result<Seq<bool>, NoMem>
    ensures { IfOk result (λ marks. marks ≡ replicate count false) }
{
    let mut marks = Seq::new(alloc);
    for _place in 0..count {
        marks.push(false)?;
    }
    Ok(marks)
}

fn set_mark(marks: &mut Seq<bool>, place: usize)
    ensures { marks.new ≡ spec.with_mark place marks.old }
{
    if place < marks.len() {
        marks.set(place, true);
    }
}

/// Whether a place is marked.
pub fn is_marked(marks: &[bool], place: usize) -> bool
    ensures { result ≡ spec.is_marked marks.now place }
{
    match marks.get(place) {
        None => false,
        Some(mark) => *mark,
    }
}

fn add_prebuilt(marks: &mut Seq<bool>, same: &Sites, number: SiteId, site: &Site)
    ensures { marks.new ≡ spec.with_prebuilt same.now number site.now marks.old }
{
    if site.prebuilt.is_some() {
        set_mark(marks, same.leader(number) as usize);
    }
}

/// The leaders of the classes of sites that hold a prebuilt one.
pub fn prebuilt_of(alloc: Global, same: &Sites, sites: &[Site]) -> Result<Seq<bool>, NoMem>
    ensures { IfOk result (λ marks. marks ≡ spec.prebuilt same.now sites.now) }
{
    let mut marks = unmarked(alloc, sites.len())?;
    for (number, site) in sites.iter().enumerate() {
        add_prebuilt(&mut marks, same, narrow(number)?, site);
    }
    Ok(marks)
}

fn is_prebuilt(prebuilt: &[bool], same: &Sites, site: SiteId) -> bool
    ensures { result ≡ spec.is_prebuilt prebuilt.now same.now site }
{
    is_marked(prebuilt, same.leader(site) as usize)
}

// Whether a list or dict may be a prebuilt one.
fn may_be_prebuilt(prebuilt: &[bool], same: &Sites, e: &Element) -> bool
    ensures { result ≡ spec.may_be_prebuilt prebuilt.now same.now e.now }
{
    match e {
        Element::List(site, _) => is_prebuilt(prebuilt, same, *site),
        Element::Dict(site, _) => is_prebuilt(prebuilt, same, *site),
        _ => false,
    }
}

fn is_list(e: &Element) -> bool
    ensures { result ≡ spec.is_list e.now }
{
    match e {
        Element::List(_, _) => true,
        _ => false,
    }
}

fn is_list_at(elements: &[Element], args: &[VarId], place: usize) -> bool
    ensures { result ≡ spec.is_list_at (spec.operand elements.now args.now place) }
{
    match operand(elements, args, place) {
        None => false,
        Some(e) => is_list(e),
    }
}

// Whether a method of lists modifies its list.
fn modifies_by(name: &Text, by_list: bool) -> bool
    ensures { result ≡ spec.modifies_by name.now by_list }
{
    let name = name.bytes();
    if name == b"extend".as_slice() {
        return by_list;
    }
    name == b"append".as_slice()
        || name == b"insert".as_slice()
        || name == b"reverse".as_slice()
        || name == b"pop".as_slice()
}

// Whether an operation modifies its first operand. The stores of a display are none of its own.
fn modifies(elements: &[Element], op: &Op) -> bool
    ensures { result ≡ spec.modifies elements.now op.now }
{
    let args = op.args.as_slice();
    match &op.op {
        RowOp::StoreIndex => op.value,
        RowOp::DeleteIndex => true,
        RowOp::AddTo => is_list_at(elements, args, 0) && is_list_at(elements, args, 1),
        RowOp::Method(name, _) => {
            is_list_at(elements, args, 0) && modifies_by(name, is_list_at(elements, args, 1))
        }
        _ => false,
    }
}

fn may_be_prebuilt_at(prebuilt: &[bool], same: &Sites, elements: &[Element], args: &[VarId]) -> bool
    ensures { result ≡ spec.may_be_prebuilt_at prebuilt.now same.now (spec.operand elements.now args.now 0) }
{
    match operand(elements, args, 0) {
        None => false,
        Some(e) => may_be_prebuilt(prebuilt, same, e),
    }
}

/// Whether an operation modifies a list or a dict that may be a prebuilt one.
pub fn modifies_prebuilt(prebuilt: &[bool], same: &Sites, elements: &[Element], op: &Op) -> bool
    ensures { result ≡ spec.modifies_prebuilt prebuilt.now same.now elements.now op.now }
{
    modifies(elements, op) && may_be_prebuilt_at(prebuilt, same, elements, op.args.as_slice())
}
