// Attributes.
ghost use Rattle.std.specs.Prelude.{◌≡◌, option_map, OnOk};
ghost use Rattle.rtyper_data.specs.Seen.{the_operand, the_place, writing, Leaves};
ghost use Rattle.rtyper_class.specs.Attributes as spec;
ghost use Rattle.rtyper_class.specs.Attributes.{the_standing};
ghost use Rattle.rtyper_class.specs.Seen.{the_world};

use crate::instance::fields_of;
use ann_element::Element;
use csub_tree::COperand;
use ll_code::{LlOp, LlType};
use rpy_base::{NoMem, Text};
use rpy_tree::ClassId;
use rtyper_data::{
    Around, Body, Found, Operand, Place, Small, by_small, flag, give, given, present, variable_of,
};
use rtyper_layout::{attribute_place, repr};
use rtyper_op::push_failure;
use std::alloc::Global;

// Where an attribute stands: the struct that declares it, its place there, and its element.
#[derive(Clone, Copy)]
struct Standing<'a> {
    own: u64,
    place: u64,
    element: &'a Element,
}

#[tactic(auto, unfolding(crate::specs::Attributes::place_in))]
fn place_in<'a>(around: Around<'a>, class: ClassId, name: &Text) -> Option<Standing<'a>>
    ensures { option_map the_standing result ≡ spec.place_in (the_world around.entry) class name.now }
{
    let home = around.classes.home(class, name)?;
    let laid = around.layout.laid(home)?;
    let (place, element) = attribute_place(around.attributes, home, name.bytes())?;
    Some(Standing {
        own: laid.own,
        place,
        element,
    })
}

/// Reads an attribute of an instance of the class, or `None`.
#[tactic(auto, unfolding(crate::specs::Attributes::read))]
pub fn push_read(
    alloc: Global,
    around: Around<'_>,
    place: Place<'_>,
    name: &Text,
    a: Operand<'_>,
    class: ClassId,
    or_none: bool,
    found: &mut Found,
    body: &mut Body,
) -> Result<(), NoMem>
    ensures { OnOk result (Leaves (spec.read (the_world around.entry) (the_place place.entry) name.now (the_operand a.entry) class or_none (writing found.old body.old)) found.new body.new) }
{
    let x = present(alloc, around, a, or_none, found, body)?;
    let Some(at) = place_in(around, class, name) else {
        return Ok(());
    };
    match repr(around.layout, at.element) {
        // Nothing ever sets it.
        LlType::Void => push_failure(alloc, around, place, found, body),
        kind => {
            let small = Small::Attribute(at.own, at.place, found.covered.attribute);
            let value = by_small(alloc, small, kind, [x], found, body)?;
            give(alloc, around, place, value, kind, found, body)
        }
    }
}

/// Sets an attribute. The result is the value.
#[tactic(auto, unfolding(crate::specs::Attributes::store))]
pub fn push_store(
    alloc: Global,
    around: Around<'_>,
    place: Place<'_>,
    name: &Text,
    a: Operand<'_>,
    b: Operand<'_>,
    class: ClassId,
    or_none: bool,
    found: &mut Found,
    body: &mut Body,
) -> Result<(), NoMem>
    ensures { OnOk result (Leaves (spec.store (the_world around.entry) (the_place place.entry) name.now (the_operand a.entry) (the_operand b.entry) class or_none (writing found.old body.old)) found.new body.new) }
{
    let x = present(alloc, around, a, or_none, found, body)?;
    let Some(at) = place_in(around, class, name) else {
        return Ok(());
    };
    let to = repr(around.layout, at.element);
    let value = given(alloc, around, b, to, found, body)?;
    let instance = variable_of(x, around.type_of(a), body)?;
    let (first, second) = fields_of(at.place);
    body.ops
        .push(LlOp::SetField(at.own, instance, first, value))?;
    body.ops
        .push(LlOp::SetField(at.own, instance, second, flag(true)))?;
    give(alloc, around, place, b.x, around.type_of(b), found, body)
}
