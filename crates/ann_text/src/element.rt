// The texts of elements.
ghost use Rattle.std.specs.Prelude.{◌≡◌, ◌++◌, OnOk};
ghost use Rattle.std.specs.Fmt.{decimal};
ghost use Rattle.std.specs.List.{flat_map};
ghost use Rattle.ann_text.specs.ElementText as spec;
ghost use Rattle.ann_text.specs.PartText as part;

use ann_element::{Element, Sites};
use rpy_base::{NoMem, Text, udecimal};
use rpy_resolved::Labels;
use rpy_tree::FunId;
use std::alloc::Global;

pub fn put_number(alloc: Global, number: u64, text: &mut Text) -> Result<(), NoMem>
    ensures { OnOk result (text.new ≡ text.old ++ decimal number) }
{
    let digits = udecimal(alloc, number)?;
    text.append(digits.bytes())
}

// The mark of a form that may also be `None`.
fn put_mark(none: bool, text: &mut Text) -> Result<(), NoMem>
    ensures { OnOk result (text.new ≡ text.old ++ spec.mark none) }
{
    if none { text.append(b"?") } else { Ok(()) }
}

/// The name with this number.
pub fn put_name(names: &[Text], number: usize, text: &mut Text) -> Result<(), NoMem>
    ensures { OnOk result (text.new ≡ text.old ++ spec.name_at names.now number) }
{
    match names.get(number) {
        None => Ok(()),
        Some(name) => text.append(name.bytes()),
    }
}

// A list or a dict, by the least site of its class.
fn put_site(alloc: Global, word: &[u8], site: u32, none: bool, text: &mut Text) -> Result<(), NoMem>
    ensures { OnOk result (text.new ≡ text.old ++ spec.site_text word.now site none) }
{
    text.append(word)?;
    put_number(alloc, u64::from(site), text)?;
    put_mark(none, text)
}

fn put_instance(labels: &Labels, class: u32, none: bool, text: &mut Text) -> Result<(), NoMem>
    ensures { OnOk result (text.new ≡ text.old ++ spec.instance_text labels.now class none) }
{
    put_name(labels.classes.as_slice(), class as usize, text)?;
    put_mark(none, text)
}

fn put_next_name(names: &[Text], number: FunId, text: &mut Text) -> Result<(), NoMem>
    ensures { OnOk result (text.new ≡ text.old ++ spec.next_name names.now number) }
{
    text.append(b", ")?;
    put_name(names, number as usize, text)
}

fn put_next_names(names: &[Text], numbers: &[FunId], text: &mut Text) -> Result<(), NoMem>
    ensures { OnOk result (text.new ≡ text.old ++ flat_map (spec.next_name names.now) numbers.now) }
{
    for number in numbers {
        put_next_name(names, *number, text)?;
    }
    Ok(())
}

// Names with a comma between.
fn put_names(names: &[Text], numbers: &[FunId], text: &mut Text) -> Result<(), NoMem>
    ensures { OnOk result (text.new ≡ text.old ++ spec.names_text names.now numbers.now) }
{
    match numbers {
        [] => Ok(()),
        [first, rest @ ..] => {
            put_name(names, *first as usize, text)?;
            put_next_names(names, rest, text)
        }
    }
}

fn put_functions(
    labels: &Labels,
    functions: &[FunId],
    none: bool,
    text: &mut Text,
) -> Result<(), NoMem>
    ensures { OnOk result (text.new ≡ text.old ++ spec.functions_text labels.now functions.now none) }
{
    text.append(b"func{")?;
    put_names(labels.functions.as_slice(), functions, text)?;
    text.append(b"}")?;
    put_mark(none, text)
}

/// An element, with sites by their leaders.
#[cycle(element)]
#[tactic(auto, using(crate::proofs::Tuples::tuple_is))]
pub fn put_element(
    alloc: Global,
    labels: &Labels,
    same: &Sites,
    e: &Element,
    text: &mut Text,
) -> Result<(), NoMem>
    ensures { OnOk result (text.new ≡ text.old ++ spec.element labels.now same.now e.now) }
{
    match e {
        Element::Unreached => text.append(b"unreached"),
        Element::NoneOnly => text.append(b"None"),
        Element::KnownTrue => text.append(b"True"),
        Element::KnownFalse => text.append(b"False"),
        Element::Bool => text.append(b"bool"),
        Element::IntPos => text.append(b"int+"),
        Element::Int => text.append(b"int"),
        Element::Char => text.append(b"char"),
        Element::Str => text.append(b"str"),
        Element::StrOrNone => text.append(b"str?"),
        Element::Tuple(parts) => put_tuple(alloc, labels, same, parts.as_slice(), text),
        Element::List(site, none) => put_site(alloc, b"list#", same.leader(*site), *none, text),
        Element::Dict(site, none) => put_site(alloc, b"dict#", same.leader(*site), *none, text),
        Element::Instance(class, none) => put_instance(labels, *class, *none, text),
        Element::Func(functions, none) => {
            put_functions(labels, functions.as_slice(), *none, text)
        }
        Element::Conflict(_, _) => text.append(b"conflict"),
    }
}

#[cycle(element)]
fn put_tuple(
    alloc: Global,
    labels: &Labels,
    same: &Sites,
    parts: &[Element],
    text: &mut Text,
) -> Result<(), NoMem>
    ensures { OnOk result (text.new ≡ text.old ++ part.tuple_text labels.now same.now parts.now) }
{
    text.append(b"tuple(")?;
    put_elements(alloc, labels, same, parts, text)?;
    text.append(b")")
}

// Elements with a comma between.
#[cycle(element)]
fn put_elements(
    alloc: Global,
    labels: &Labels,
    same: &Sites,
    parts: &[Element],
    text: &mut Text,
) -> Result<(), NoMem>
    ensures { OnOk result (text.new ≡ text.old ++ spec.elements labels.now same.now parts.now) }
{
    match parts {
        [] => Ok(()),
        [first, rest @ ..] => {
            put_element(alloc, labels, same, first, text)?;
            put_further(alloc, labels, same, rest, text)
        }
    }
}

#[cycle(element)]
fn put_further(
    alloc: Global,
    labels: &Labels,
    same: &Sites,
    parts: &[Element],
    text: &mut Text,
) -> Result<(), NoMem>
    ensures { OnOk result (text.new ≡ text.old ++ flat_map (spec.next_element labels.now same.now) parts.now) }
{
    for part in parts {
        text.append(b", ")?;
        put_element(alloc, labels, same, part, text)?;
    }
    Ok(())
}
