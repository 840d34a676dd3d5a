// The lines of functions and attributes.
ghost use Rattle.std.specs.Prelude.{◌≡◌, ◌++◌, map, slice_get, IfOk, OnOk};
ghost use Rattle.rpy_tree.specs.declared.syntax.Member.{out-Member};
ghost use Rattle.ann_text.specs.AnnotationText as spec;
ghost use Rattle.ann_text.specs.PartText as part;

use crate::element::{put_element, put_name};
use ann_element::{Annotation, Element, Sites};
use rpy_base::{NoMem, Seq, Text};
use rpy_resolved::Labels;
use rpy_tree::{ClassId, Member, Module, Param};
use std::alloc::Global;

fn names_of(alloc: Global, params: &[Param]) -> Result<Seq<Text>, NoMem>
    ensures { IfOk result (λ names. names ≡ map spec.name_of params.now) }
{
    let mut names = Seq::new(alloc);
    for param in params {
        let name = param.name.copy(alloc)?;
        names.push(name)?;
    }
    Ok(names)
}

// The names of a function's parameters, after those of the functions before.
fn add_method(alloc: Global, member: &Member, lists: &mut Seq<Seq<Text>>) -> Result<(), NoMem>
    ensures { OnOk result (lists.new ≡ spec.with_method (out-Member member.now) lists.old) }
{
    match member {
        Member::Def(f) => {
            let names = names_of(alloc, f.params.as_slice())?;
            lists.push(names)
        }
        _ => Ok(()),
    }
}

fn add_methods(alloc: Global, members: &[Member], lists: &mut Seq<Seq<Text>>) -> Result<(), NoMem>
    ensures { OnOk result (lists.new ≡ spec.with_methods members.now lists.old) }
{
    for member in members {
        add_method(alloc, member, lists)?;
    }
    Ok(())
}

fn add_member(alloc: Global, member: &Member, lists: &mut Seq<Seq<Text>>) -> Result<(), NoMem>
    ensures { OnOk result (lists.new ≡ spec.with_member (out-Member member.now) lists.old) }
{
    match member {
        Member::Class(class) => add_methods(alloc, class.members.as_slice(), lists),
        _ => add_method(alloc, member, lists),
    }
}

fn add_members(alloc: Global, members: &[Member], lists: &mut Seq<Seq<Text>>) -> Result<(), NoMem>
    ensures { OnOk result (lists.new ≡ spec.with_members members.now lists.old) }
{
    for member in members {
        add_member(alloc, member, lists)?;
    }
    Ok(())
}

/// The names of the parameters of each function, in node order.
pub fn params_of(alloc: Global, modules: &[Module]) -> Result<Seq<Seq<Text>>, NoMem>
    ensures { IfOk result (λ lists. lists ≡ spec.params modules.now) }
{
    let mut lists = Seq::new(alloc);
    for module in modules {
        add_members(alloc, module.members.as_slice(), &mut lists)?;
    }
    Ok(lists)
}

fn put_comma(place: usize, text: &mut Text) -> Result<(), NoMem>
    ensures { OnOk result (text.new ≡ text.old ++ spec.comma place) }
{
    if place == 0 {
        Ok(())
    } else {
        text.append(b", ")
    }
}

fn put_named(
    alloc: Global,
    labels: &Labels,
    same: &Sites,
    name: &Text,
    e: &Element,
    text: &mut Text,
) -> Result<(), NoMem>
    ensures { OnOk result (text.new ≡ text.old ++ spec.named labels.now same.now name.now e.now) }
{
    text.append(name.bytes())?;
    text.append(b": ")?;
    put_element(alloc, labels, same, e, text)
}

fn put_placed(
    alloc: Global,
    labels: &Labels,
    same: &Sites,
    place: usize,
    name: &Text,
    e: &Element,
    text: &mut Text,
) -> Result<(), NoMem>
    ensures { OnOk result (text.new ≡ text.old ++ part.placed labels.now same.now place name.now e.now) }
{
    put_comma(place, text)?;
    put_named(alloc, labels, same, name, e, text)
}

// A parameter, at its place, with its element.
fn put_parameter(
    alloc: Global,
    labels: &Labels,
    same: &Sites,
    elements: &[Element],
    place: usize,
    name: &Text,
    text: &mut Text,
) -> Result<(), NoMem>
    ensures { OnOk result (text.new ≡ text.old ++ spec.parameter labels.now same.now elements.now place name.now) }
{
    match elements.get(place) {
        None => Ok(()),
        Some(e) => put_placed(alloc, labels, same, place, name, e, text),
    }
}

fn put_parameters(
    alloc: Global,
    labels: &Labels,
    same: &Sites,
    elements: &[Element],
    names: &[Text],
    text: &mut Text,
) -> Result<(), NoMem>
    ensures { OnOk result (text.new ≡ spec.onto (spec.parameter labels.now same.now elements.now) text.old 0 names.now) }
{
    for (place, name) in names.iter().enumerate() {
        put_parameter(alloc, labels, same, elements, place, name, text)?;
    }
    Ok(())
}

/// The element at a place of a table.
pub fn put_element_at(
    alloc: Global,
    labels: &Labels,
    same: &Sites,
    elements: &[Element],
    place: usize,
    text: &mut Text,
) -> Result<(), NoMem>
    ensures { OnOk result (text.new ≡ text.old ++ spec.element_text labels.now same.now (slice_get elements.now place)) }
{
    match elements.get(place) {
        None => text.append(b"unreached"),
        Some(e) => put_element(alloc, labels, same, e, text),
    }
}

fn elements_at(lists: &[Seq<Element>], place: usize) -> &[Element]
    ensures { result.now ≡ spec.elements_at lists.now place }
{
    match lists.get(place) {
        None => &[],
        Some(elements) => elements.as_slice(),
    }
}

fn is_reached(reached: &[bool], place: usize) -> bool
    ensures { result ≡ spec.is_marked reached.now place }
{
    match reached.get(place) {
        None => false,
        Some(mark) => *mark,
    }
}

// The line of a function.
fn put_signature(
    alloc: Global,
    labels: &Labels,
    annotation: &Annotation,
    number: usize,
    names: &[Text],
    text: &mut Text,
) -> Result<(), NoMem>
    ensures { OnOk result (text.new ≡ spec.with_signature labels.now annotation.now number names.now text.old) }
{
    let same = &annotation.same;
    let elements = elements_at(annotation.params.as_slice(), number);
    put_name(labels.functions.as_slice(), number, text)?;
    text.append(b"(")?;
    put_parameters(alloc, labels, same, elements, names, text)?;
    text.append(b") -> ")?;
    put_element_at(
        alloc,
        labels,
        same,
        annotation.results.as_slice(),
        number,
        text,
    )?;
    text.append(b"\n")
}

// The line of a function, if it is reached.
fn put_function(
    alloc: Global,
    labels: &Labels,
    annotation: &Annotation,
    number: usize,
    names: &[Text],
    text: &mut Text,
) -> Result<(), NoMem>
    ensures { OnOk result (text.new ≡ spec.with_function labels.now annotation.now number names.now text.old) }
{
    if is_reached(annotation.reached.as_slice(), number) {
        put_signature(alloc, labels, annotation, number, names, text)
    } else {
        Ok(())
    }
}

/// The lines of the functions that are reached.
pub fn put_functions(
    alloc: Global,
    labels: &Labels,
    annotation: &Annotation,
    lists: &[Seq<Text>],
    text: &mut Text,
) -> Result<(), NoMem>
    ensures { OnOk result (text.new ≡ spec.with_functions labels.now annotation.now 0 lists.now text.old) }
{
    for (number, names) in lists.iter().enumerate() {
        put_function(alloc, labels, annotation, number, names.as_slice(), text)?;
    }
    Ok(())
}

fn put_attribute(
    alloc: Global,
    labels: &Labels,
    same: &Sites,
    attribute: &(ClassId, Text, Element),
    text: &mut Text,
) -> Result<(), NoMem>
    ensures { OnOk result (text.new ≡ text.old ++ spec.attribute_line labels.now same.now attribute.now) }
{
    put_name(labels.classes.as_slice(), attribute.0 as usize, text)?;
    text.append(b".")?;
    text.append(attribute.1.bytes())?;
    text.append(b": ")?;
    put_element(alloc, labels, same, &attribute.2, text)?;
    text.append(b"\n")
}

/// The lines of the attributes, each at its home.
pub fn put_attributes(
    alloc: Global,
    labels: &Labels,
    same: &Sites,
    attributes: &[(ClassId, Text, Element)],
    text: &mut Text,
) -> Result<(), NoMem>
    ensures { OnOk result (text.new ≡ spec.attribute_lines labels.now same.now attributes.now text.old) }
{
    for attribute in attributes {
        put_attribute(alloc, labels, same, attribute, text)?;
    }
    Ok(())
}
