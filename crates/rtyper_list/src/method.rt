// Lists that change, and strings and lists.
ghost use Rattle.std.specs.Prelude.{◌≡◌, IfOk, OnOk};
ghost use Rattle.rtyper_data.specs.Seen.{the_around, the_operand, the_operands, the_place, writing, Leaves, Gives};
ghost use Rattle.rtyper_list.specs.Methods as spec;

use crate::item::{push_pop, shape_in};
use crate::operand::{give_listed, is_list, list_at, list_of, push_done, there};
use csub_tree::COperand;
use ll_code::LlType;
use rpy_base::NoMem;
use rtyper_data::{
    Around, Body, Found, Listed, Operand, Place, give, give_nothing, given, present, word,
};
use rtyper_layout::{Kind, kind_seen};
use rtyper_op::push_failure;
use std::alloc::Global;

const TEXT: LlType = LlType::Ptr(0);

// An operand as an item of a list.
#[tactic(auto, unfolding(crate::specs::Methods::item_given))]
fn item_given(
    alloc: Global,
    around: Around<'_>,
    a: Operand<'_>,
    b: Operand<'_>,
    found: &mut Found,
    body: &mut Body,
) -> Result<COperand, NoMem>
    ensures { IfOk result (λ y. Gives (spec.item_given (the_around around.entry) (the_operand a.entry) (the_operand b.entry) (writing found.old body.old)) y found.new body.new) }
{
    let shape = shape_in(around, a);
    given(alloc, around, b, shape.item, found, body)
}

/// One item more, at the end.
#[tactic(auto, unfolding(crate::specs::Methods::append))]
pub fn push_append(
    alloc: Global,
    around: Around<'_>,
    place: Place<'_>,
    a: Operand<'_>,
    b: Operand<'_>,
    found: &mut Found,
    body: &mut Body,
) -> Result<(), NoMem>
    ensures { OnOk result (Leaves (spec.append (the_around around.entry) (the_place place.entry) (the_operand a.entry) (the_operand b.entry) (writing found.old body.old)) found.new body.new) }
{
    let listed = Listed::Append(list_of(around, a));
    let x = there(alloc, around, a, found, body)?;
    let y = item_given(alloc, around, a, b, found, body)?;
    push_done(alloc, listed, [x, y], found, body)?;
    give_nothing(around, place, body)
}

// One item more, before a place.
#[tactic(auto, unfolding(crate::specs::Methods::insert))]
fn push_insert(
    alloc: Global,
    around: Around<'_>,
    place: Place<'_>,
    a: Operand<'_>,
    index: COperand,
    c: Operand<'_>,
    found: &mut Found,
    body: &mut Body,
) -> Result<(), NoMem>
    ensures { OnOk result (Leaves (spec.insert (the_around around.entry) (the_place place.entry) (the_operand a.entry) index (the_operand c.entry) (writing found.old body.old)) found.new body.new) }
{
    let listed = Listed::Insert(list_of(around, a));
    let x = there(alloc, around, a, found, body)?;
    let y = item_given(alloc, around, a, c, found, body)?;
    push_done(alloc, listed, [x, index, y], found, body)?;
    give_nothing(around, place, body)
}

#[tactic(auto, unfolding(crate::specs::Methods::extend_by))]
fn extend_by(
    alloc: Global,
    around: Around<'_>,
    place: Place<'_>,
    a: Operand<'_>,
    x: COperand,
    b: Operand<'_>,
    gives: bool,
    found: &mut Found,
    body: &mut Body,
) -> Result<(), NoMem>
    ensures { OnOk result (Leaves (spec.extend_by (the_around around.entry) (the_place place.entry) (the_operand a.entry) x (the_operand b.entry) gives (writing found.old body.old)) found.new body.new) }
{
    let listed = Listed::Extend(list_of(around, a), list_of(around, b));
    let y = there(alloc, around, b, found, body)?;
    push_done(alloc, listed, [x, y], found, body)?;
    if gives {
        give(alloc, around, place, x, around.type_of(a), found, body)
    } else {
        give_nothing(around, place, body)
    }
}

/// `extend`, and `+=`, which gives the list.
#[tactic(auto, unfolding(crate::specs::Methods::extend))]
pub fn push_extend(
    alloc: Global,
    around: Around<'_>,
    place: Place<'_>,
    a: Operand<'_>,
    b: Operand<'_>,
    gives: bool,
    found: &mut Found,
    body: &mut Body,
) -> Result<(), NoMem>
    ensures { OnOk result (Leaves (spec.extend (the_around around.entry) (the_place place.entry) (the_operand a.entry) (the_operand b.entry) gives (writing found.old body.old)) found.new body.new) }
{
    let x = there(alloc, around, a, found, body)?;
    if is_list(b) {
        extend_by(alloc, around, place, a, x, b, gives, found, body)
    } else {
        push_failure(alloc, around, place, found, body)
    }
}

#[tactic(auto, unfolding(crate::specs::Methods::reverse))]
fn push_reverse(
    alloc: Global,
    around: Around<'_>,
    place: Place<'_>,
    a: Operand<'_>,
    found: &mut Found,
    body: &mut Body,
) -> Result<(), NoMem>
    ensures { OnOk result (Leaves (spec.reverse (the_around around.entry) (the_place place.entry) (the_operand a.entry) (writing found.old body.old)) found.new body.new) }
{
    let listed = Listed::Reverse(list_of(around, a));
    let x = there(alloc, around, a, found, body)?;
    push_done(alloc, listed, [x], found, body)?;
    give_nothing(around, place, body)
}

// ---- methods of lists, by their names

#[tactic(auto, unfolding(crate::specs::Methods::of_one))]
fn of_one(
    alloc: Global,
    around: Around<'_>,
    place: Place<'_>,
    name: &[u8],
    a: Operand<'_>,
    found: &mut Found,
    body: &mut Body,
) -> Result<(), NoMem>
    ensures { OnOk result (Leaves (spec.of_one (the_around around.entry) (the_place place.entry) name.now (the_operand a.entry) (writing found.old body.old)) found.new body.new) }
{
    if name == b"pop".as_slice() {
        push_pop(alloc, around, place, a, word(-1), found, body)
    } else if name == b"reverse".as_slice() {
        push_reverse(alloc, around, place, a, found, body)
    } else {
        Ok(())
    }
}

#[tactic(auto, unfolding(crate::specs::Methods::of_two))]
fn of_two(
    alloc: Global,
    around: Around<'_>,
    place: Place<'_>,
    name: &[u8],
    a: Operand<'_>,
    b: Operand<'_>,
    found: &mut Found,
    body: &mut Body,
) -> Result<(), NoMem>
    ensures { OnOk result (Leaves (spec.of_two (the_around around.entry) (the_place place.entry) name.now (the_operand a.entry) (the_operand b.entry) (writing found.old body.old)) found.new body.new) }
{
    if name == b"append".as_slice() {
        push_append(alloc, around, place, a, b, found, body)
    } else if name == b"extend".as_slice() {
        push_extend(alloc, around, place, a, b, false, found, body)
    } else if name == b"pop".as_slice() {
        push_pop(alloc, around, place, a, b.x, found, body)
    } else {
        Ok(())
    }
}

#[tactic(auto, unfolding(crate::specs::Methods::of_three))]
fn of_three(
    alloc: Global,
    around: Around<'_>,
    place: Place<'_>,
    name: &[u8],
    a: Operand<'_>,
    b: Operand<'_>,
    c: Operand<'_>,
    found: &mut Found,
    body: &mut Body,
) -> Result<(), NoMem>
    ensures { OnOk result (Leaves (spec.of_three (the_around around.entry) (the_place place.entry) name.now (the_operand a.entry) (the_operand b.entry) (the_operand c.entry) (writing found.old body.old)) found.new body.new) }
{
    if name == b"insert".as_slice() {
        push_insert(alloc, around, place, a, b.x, c, found, body)
    } else {
        Ok(())
    }
}

/// A method of a list.
#[tactic(auto, unfolding(crate::specs::Methods::method))]
pub fn push_method(
    alloc: Global,
    around: Around<'_>,
    place: Place<'_>,
    name: &[u8],
    args: &[Operand<'_>],
    found: &mut Found,
    body: &mut Body,
) -> Result<(), NoMem>
    ensures { OnOk result (Leaves (spec.method (the_around around.entry) (the_place place.entry) name.now (the_operands args.now) (writing found.old body.old)) found.new body.new) }
{
    match args {
        [a] => of_one(alloc, around, place, name, *a, found, body),
        [a, b] => of_two(alloc, around, place, name, *a, *b, found, body),
        [a, b, c] => of_three(alloc, around, place, name, *a, *b, *c, found, body),
        _ => Ok(()),
    }
}

// ---- strings and lists

/// `join` of a string.
#[tactic(auto, unfolding(crate::specs::Methods::join))]
pub fn push_join(
    alloc: Global,
    around: Around<'_>,
    place: Place<'_>,
    a: Operand<'_>,
    b: Operand<'_>,
    found: &mut Found,
    body: &mut Body,
) -> Result<(), NoMem>
    ensures { OnOk result (Leaves (spec.join (the_around around.entry) (the_place place.entry) (the_operand a.entry) (the_operand b.entry) (writing found.old body.old)) found.new body.new) }
{
    let x = given(alloc, around, a, TEXT, found, body)?;
    let y = there(alloc, around, b, found, body)?;
    let listed = Listed::Join(list_of(around, b));
    give_listed(alloc, around, place, listed, TEXT, [x, y], found, body)
}

fn is_text_or_none(kind: Kind) -> bool
    ensures { result ≡ spec.of_text_or_none kind }
{
    match kind {
        Kind::MaybeText => true,
        _ => false,
    }
}

// The string itself; `None` fails.
#[tactic(auto, unfolding(crate::specs::Methods::text_there))]
fn text_there(
    alloc: Global,
    around: Around<'_>,
    a: Operand<'_>,
    found: &mut Found,
    body: &mut Body,
) -> Result<COperand, NoMem>
    ensures { IfOk result (λ x. Gives (spec.text_there (the_around around.entry) (the_operand a.entry) (writing found.old body.old)) x found.new body.new) }
{
    let or_none = is_text_or_none(kind_seen(a.element));
    let x = present(alloc, around, a, or_none, found, body)?;
    let operand = Operand {
        x,
        element: a.element,
    };
    given(alloc, around, operand, TEXT, found, body)
}

/// `split` of a string.
#[tactic(auto, unfolding(crate::specs::Methods::split))]
pub fn push_split(
    alloc: Global,
    around: Around<'_>,
    place: Place<'_>,
    a: Operand<'_>,
    byte: COperand,
    found: &mut Found,
    body: &mut Body,
) -> Result<(), NoMem>
    ensures { OnOk result (Leaves (spec.split (the_around around.entry) (the_place place.entry) (the_operand a.entry) byte (writing found.old body.old)) found.new body.new) }
{
    match list_at(around, place) {
        None => push_failure(alloc, around, place, found, body),
        Some(r) => {
            let x = text_there(alloc, around, a, found, body)?;
            let listed = Listed::Split(r);
            let gives = LlType::Ptr(r);
            give_listed(alloc, around, place, listed, gives, [x, byte], found, body)
        }
    }
}
