// Where instances of classes stand. Classes with a common base are a family: an instance is a struct
// that begins with that of its base, and the topmost one begins with a pointer to the vtable of the
// instance's class, which has the number of the class and then its methods, by name.
ghost use Rattle.std.specs.Prelude.{◌≡◌, ◌+◌, ◌<◌, ◌++◌, IfOk, OnOk, replicate, None, slice_get, length, [], true, false};
ghost use Rattle.std.specs.Option.{option_copied, option_map};
ghost use Rattle.rtyper_layout.specs.Families as spec;
ghost use Rattle.rtyper_layout.specs.Types as types;

use crate::layout::Layout;
use crate::shapes::{field_type, repr};
use ann_element::{Annotation, Element};
use class_desc::Classes;
use ll_code::{LlStruct, LlType};
use rpy_base::{NoMem, Seq, Text};
use rpy_resolved::{Class, Resolved};
use rpy_tree::ClassId;
use std::alloc::Global;

/// The structs of a class: that of its instances, that of the topmost class, and that of vtables; and
/// the place of the class among those that have structs.
#[derive(Clone, Copy, Debug, PartialEq, Eq)]
pub struct Laid {
    pub own: u64,
    pub root: u64,
    pub vtable: u64,
    pub place: u64,
}

/// The class at a place. There are fewer classes than a u32 counts.
pub fn class_at(place: usize) -> ClassId
    ensures { result ≡ spec.class_at place }
{
    if place <= 4294967295 {
        place as u32
    } else {
        4294967295
    }
}

/// The topmost class above a class.
#[tactic(auto, using(crate::proofs::Lines::next_top))]
pub fn top_of(classes: &Classes, class: ClassId) -> ClassId
    ensures { result ≡ spec.top_of classes.now.classes class }
{
    let mut at = class;
    for seen in 0..classes.len() {
        match classes.base(at) {
            None => return at,
            Some(base) => at = base,
        }
    }
    at
}

// ---- families

fn falses(alloc: Global, count: usize) -> Result<Seq<bool>, NoMem>
    ensures { IfOk result (λ marks. marks ≡ replicate count false) }
{
    let mut marks = Seq::new(alloc);
    for filled in 0..count {
        marks.push(false)?;
    }
    Ok(marks)
}

fn is_marked(marks: &[bool], class: ClassId) -> bool
    ensures { result ≡ spec.is_marked marks.now class }
{
    match marks.get(class as usize) {
        None => false,
        Some(marked) => *marked,
    }
}

fn mark(class: usize, marks: &mut Seq<bool>)
    ensures { marks.new ≡ spec.mark class marks.old }
{
    if class < marks.len() {
        marks.set(class, true);
    }
}

fn mark_if(made: bool, class: usize, marks: &mut Seq<bool>)
    ensures { marks.new ≡ spec.mark_if made class marks.old }
{
    if made {
        mark(class, marks);
    }
}

fn mark_made(classes: &Classes, made: &[bool], marks: &mut Seq<bool>)
    ensures { marks.new ≡ spec.mark_made classes.now.classes 0 marks.old made.now }
{
    let mut number: usize = 0;
    for is_made in made {
        mark_if(*is_made, top_of(classes, class_at(number)) as usize, marks);
        number += 1;
    }
}

// The topmost classes of the families of which instances are made. `Exception` is class 0.
fn families(
    alloc: Global,
    classes: &Classes,
    made: &[bool],
    raises: bool,
) -> Result<Seq<bool>, NoMem>
    ensures { IfOk result (λ tops. tops ≡ spec.families classes.now.classes made.now raises) }
{
    let mut marks = falses(alloc, classes.len())?;
    mark_if(raises, 0, &mut marks);
    mark_made(classes, made, &mut marks);
    Ok(marks)
}

// ---- order

fn no_classes(alloc: Global, count: usize) -> Result<Seq<Option<ClassId>>, NoMem>
    ensures { IfOk result (λ order. order ≡ replicate (count + 1) None) }
{
    let mut order = Seq::new(alloc);
    order.push(None)?;
    for filled in 0..count {
        order.push(None)?;
    }
    Ok(order)
}

fn place_class(place: usize, class: ClassId, order: &mut Seq<Option<ClassId>>)
    ensures { order.new ≡ spec.place_class place class order.old }
{
    if place < order.len() {
        order.set(place, Some(class));
    }
}

// The classes by their numbers: each behind its base.
fn order_of(alloc: Global, classes: &Classes) -> Result<Seq<Option<ClassId>>, NoMem>
    ensures { IfOk result (λ order. order ≡ spec.placed classes.now.classes (length classes.now.classes)) }
{
    let mut order = no_classes(alloc, classes.len())?;
    for number in 0..classes.len() {
        let class = class_at(number);
        place_class(classes.range(class).0 as usize, class, &mut order);
    }
    Ok(order)
}

fn push_laid(
    classes: &Classes,
    tops: &[bool],
    class: Option<ClassId>,
    laid: &mut Seq<ClassId>,
) -> Result<(), NoMem>
    ensures { OnOk result (laid.new ≡ laid.old ++ spec.in_family classes.now.classes tops.now class) }
{
    match class {
        None => Ok(()),
        Some(class) => {
            if is_marked(tops, top_of(classes, class)) {
                laid.push(class)
            } else {
                Ok(())
            }
        }
    }
}

fn in_families(
    alloc: Global,
    classes: &Classes,
    tops: &[bool],
    order: &[Option<ClassId>],
) -> Result<Seq<ClassId>, NoMem>
    ensures { IfOk result (λ laid. laid ≡ spec.in_families classes.now.classes tops.now order.now) }
{
    let mut laid = Seq::new(alloc);
    for class in order {
        push_laid(classes, tops, *class, &mut laid)?;
    }
    Ok(laid)
}

// The classes of these families, each behind its base.
pub fn laid_order(
    alloc: Global,
    classes: &Classes,
    made: &[bool],
    raises: bool,
) -> Result<Seq<ClassId>, NoMem>
    ensures { IfOk result (λ order. order ≡ spec.order classes.now.classes made.now raises) }
{
    let tops = families(alloc, classes, made, raises)?;
    let order = order_of(alloc, classes)?;
    in_families(alloc, classes, tops.as_slice(), order.as_slice())
}

// ---- numbers

fn nothing_laid(alloc: Global, count: usize) -> Result<Seq<Option<Laid>>, NoMem>
    ensures { IfOk result (λ laid. laid ≡ replicate count None) }
{
    let mut laid = Seq::new(alloc);
    for filled in 0..count {
        laid.push(None)?;
    }
    Ok(laid)
}

// One more, where there is no base.
fn one_more(base: Option<ClassId>, count: usize) -> usize
    requires { count + 1 < 18446744073709551616 }
    ensures { result ≡ spec.one_more base count }
{
    match base {
        None => count + 1,
        Some(_) => count,
    }
}

// How many of these classes are topmost.
fn count_tops(classes: &Classes, order: &[ClassId]) -> usize
    ensures { result ≡ spec.tops classes.now.classes order.now }
{
    let mut count: usize = 0;
    for class in order {
        count = one_more(classes.base(*class), count);
    }
    count
}

fn topmost(own: u64, vtable: u64, place: u64) -> Laid
    ensures { result ≡ spec.topmost own vtable place }
{
    Laid {
        own,
        root: own,
        vtable,
        place,
    }
}

fn under(own: u64, vtable: u64, place: u64, above: Option<Laid>) -> Laid
    ensures { result ≡ spec.under own vtable place above }
{
    match above {
        None => topmost(own, vtable, place),
        Some(above) => Laid {
            own,
            root: above.root,
            vtable: above.vtable,
            place,
        },
    }
}

/// The structs of a class, where it has some.
pub fn laid_in(laid: &[Option<Laid>], class: ClassId) -> Option<Laid>
    ensures { result ≡ types.laid_in laid.now class }
{
    match laid.get(class as usize) {
        None => None,
        Some(laid) => *laid,
    }
}

fn laid_of(base: Option<ClassId>, own: u64, place: u64, vtable: u64, above: &[Option<Laid>]) -> Laid
    ensures { result ≡ spec.laid_of base own place vtable above.now }
{
    match base {
        None => topmost(own, vtable, place),
        Some(base) => under(own, vtable, place, laid_in(above, base)),
    }
}

fn set_laid(class: ClassId, of: Laid, laid: &mut Seq<Option<Laid>>)
    ensures { laid.new ≡ spec.set_laid class of laid.old }
{
    if (class as usize) < laid.len() {
        laid.set(class as usize, Some(of));
    }
}

/// The structs of these classes: behind that of strings the vtables of the topmost ones, and then
/// one for each class.
pub fn laid_classes(
    alloc: Global,
    classes: &Classes,
    order: &[ClassId],
) -> Result<Seq<Option<Laid>>, NoMem>
    ensures { IfOk result (λ laid. laid ≡ spec.laid_classes classes.now.classes order.now) }
{
    let mut laid = nothing_laid(alloc, classes.len())?;
    let first = (count_tops(classes, order) as u64).saturating_add(1);
    let mut vtable: usize = 0;
    let mut place: usize = 0;
    for class in order {
        let base = classes.base(*class);
        vtable = one_more(base, vtable);
        let own = first.saturating_add(place as u64);
        let of = laid_of(base, own, place as u64, vtable as u64, laid.as_slice());
        set_laid(*class, of, &mut laid);
        place += 1;
    }
    Ok(laid)
}

// ---- attributes

/// The place of an attribute among those that its home declares, and its element.
pub fn attribute_place<'a>(
    attributes: &'a [(ClassId, Text, Element)],
    home: ClassId,
    name: &[u8],
) -> Option<(u64, &'a Element)>
    ensures { option_map (λ found. (found.0, found.1.now)) result ≡ spec.attribute_place attributes.now home name.now }
{
    let mut place: usize = 0;
    for attribute in attributes {
        if attribute.0 == home {
            if attribute.1.bytes() == name {
                return Some((place as u64, &attribute.2));
            }
            place += 1;
        }
    }
    None
}

fn push_attribute(
    layout: &Layout,
    attribute: &(ClassId, Text, Element),
    home: ClassId,
    fields: &mut Seq<LlType>,
) -> Result<(), NoMem>
    ensures { OnOk result (fields.new ≡ fields.old ++ spec.attribute_fields layout.now home attribute.now) }
{
    if attribute.0 == home {
        fields.push(field_type(repr(layout, &attribute.2)))?;
        fields.push(LlType::Bool)?;
    }
    Ok(())
}

// Each attribute, and whether it is set.
fn push_attributes(
    layout: &Layout,
    attributes: &[(ClassId, Text, Element)],
    home: ClassId,
    fields: &mut Seq<LlType>,
) -> Result<(), NoMem>
    ensures { OnOk result (fields.new ≡ fields.old ++ spec.own_fields layout.now home attributes.now) }
{
    for attribute in attributes {
        push_attribute(layout, attribute, home, fields)?;
    }
    Ok(())
}

fn own_struct(laid: Option<Laid>) -> Option<u64>
    ensures { result ≡ spec.own_struct laid }
{
    match laid {
        None => None,
        Some(laid) => Some(laid.own),
    }
}

fn struct_above(layout: &Layout, base: Option<ClassId>) -> Option<u64>
    ensures { result ≡ spec.struct_above layout.now base }
{
    match base {
        None => None,
        Some(base) => own_struct(layout.laid(base)),
    }
}

fn vtable_of(laid: Option<Laid>) -> u64
    ensures { result ≡ spec.vtable_of laid }
{
    match laid {
        None => 0,
        Some(laid) => laid.vtable,
    }
}

// What has no base begins with a pointer to its vtable.
fn first_fields(
    alloc: Global,
    layout: &Layout,
    class: ClassId,
    above: Option<u64>,
) -> Result<Seq<LlType>, NoMem>
    ensures { IfOk result (λ fields. fields ≡ spec.first_fields layout.now class above) }
{
    let mut fields = Seq::new(alloc);
    if above.is_none() {
        fields.push(LlType::Ptr(vtable_of(layout.laid(class))))?;
    }
    Ok(fields)
}

fn class_struct(
    alloc: Global,
    layout: &Layout,
    classes: &Classes,
    annotation: &Annotation,
    class: ClassId,
) -> Result<LlStruct, NoMem>
    ensures { IfOk result (λ s. s ≡ spec.class_struct layout.now classes.now.classes annotation.now.attributes class) }
{
    let base = struct_above(layout, classes.base(class));
    let mut fields = first_fields(alloc, layout, class, base)?;
    push_attributes(layout, annotation.attributes.as_slice(), class, &mut fields)?;
    Ok(LlStruct {
        base,
        fields,
        items: None,
    })
}

/// The structs of these classes.
pub fn push_class_structs(
    alloc: Global,
    layout: &Layout,
    classes: &Classes,
    annotation: &Annotation,
    order: &[ClassId],
    structs: &mut Seq<LlStruct>,
) -> Result<(), NoMem>
    ensures { OnOk result (structs.new ≡ structs.old ++ spec.class_structs layout.now classes.now.classes annotation.now.attributes order.now) }
{
    for class in order {
        structs.push(class_struct(alloc, layout, classes, annotation, *class)?)?;
    }
    Ok(())
}

// ---- vtables

pub fn has_name(names: &[Text], name: &[u8]) -> bool
    ensures { result ≡ spec.has_name names.now name.now }
{
    for each in names {
        if each.bytes() == name {
            return true;
        }
    }
    false
}

// What makes an instance is no method of a vtable.
fn push_method_name(alloc: Global, name: &Text, names: &mut Seq<Text>) -> Result<(), NoMem>
    ensures { OnOk result (names.new ≡ spec.with_name names.old name.now) }
{
    if name.bytes() == b"__init__".as_slice() {
        return Ok(());
    }
    if has_name(names.as_slice(), name.bytes()) {
        return Ok(());
    }
    names.push(name.copy(alloc)?)
}

fn push_method_names(alloc: Global, class: &Class, names: &mut Seq<Text>) -> Result<(), NoMem>
    ensures { OnOk result (names.new ≡ spec.with_names names.old class.now.methods) }
{
    for method in class.methods.as_slice() {
        push_method_name(alloc, &method.0, names)?;
    }
    Ok(())
}

fn push_names_of(alloc: Global, class: Option<&Class>, names: &mut Seq<Text>) -> Result<(), NoMem>
    ensures { OnOk result (names.new ≡ spec.with_class names.old (option_copied class.entry)) }
{
    match class {
        None => Ok(()),
        Some(class) => push_method_names(alloc, class, names),
    }
}

/// The names of the methods of a family, in the order of its classes.
pub fn method_names(
    alloc: Global,
    program: &Resolved,
    classes: &Classes,
    order: &[ClassId],
    top: ClassId,
) -> Result<Seq<Text>, NoMem>
    ensures { IfOk result (λ names. names ≡ spec.family_names classes.now.classes program.now.classes top [] order.now) }
{
    let mut names = Seq::new(alloc);
    for class in order {
        if top_of(classes, *class) == top {
            push_names_of(alloc, program.classes.get(*class as usize), &mut names)?;
        }
    }
    Ok(names)
}

/// The struct of vtables: the class's number, its methods, and the bytes of its name.
pub fn vtable_struct(alloc: Global, methods: usize) -> Result<LlStruct, NoMem>
    ensures { IfOk result (λ s. s ≡ spec.vtable_struct methods) }
{
    let mut fields = Seq::new(alloc);
    fields.push(LlType::Signed)?;
    for filled in 0..methods {
        fields.push(LlType::Fn)?;
    }
    Ok(LlStruct {
        base: None,
        fields,
        items: Some(LlType::Char),
    })
}
