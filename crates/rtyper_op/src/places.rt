// Indices, lengths and walks.
ghost use Rattle.std.specs.Prelude.{◌≡◌, IfOk, OnOk};
ghost use Rattle.rtyper_op.specs.Placing as spec;
ghost use Rattle.rtyper_data.specs.Seen.{the_around, the_operand, the_operands, the_place, writing, Leaves, Gives, Writes, Asks};

use crate::text::{push_of_text, push_of_text_and_word, push_of_texts};
use csub_tree::CBinary;
use ll_build::Helper;
use ll_code::LlType;
use rpy_base::NoMem;
use rtyper_data::{
    Around, Body, Found, Operand, Place, give, give_binary, give_helped, give_nothing, length_of,
    place_of, push_item, push_range_advance, push_range_has, word,
};
use rtyper_layout::{Kind, is_text_or_none, kind_seen};
use std::alloc::Global;

const TEXT: LlType = LlType::Ptr(0);

/// The item at an index, with the literal that the index is.
#[tactic(auto, unfolding(crate::specs::Placing::index))]
pub fn push_index(
    alloc: Global,
    around: Around<'_>,
    place: Place<'_>,
    literal: Option<i64>,
    a: Operand<'_>,
    b: Operand<'_>,
    found: &mut Found,
    body: &mut Body,
) -> Result<(), NoMem>
    ensures { OnOk result (Leaves (spec.index (the_around around.entry) (the_place place.entry) literal (the_operand a.entry) (the_operand b.entry) (writing found.old body.old)) found.new body.new) }
{
    let kind = kind_seen(a.element);
    match (kind, literal) {
        (Kind::Tuple, Some(index)) => {
            let at = place_of(index, length_of(around, a));
            push_item(alloc, around, place, a, at, found, body)
        }
        _ => {
            if !is_text_or_none(kind) {
                return Ok(());
            }
            let helper = Helper::StrIndex;
            let byte = LlType::Char;
            push_of_text_and_word(alloc, around, place, helper, byte, a, b, found, body)
        }
    }
}

/// `len` of a value.
#[tactic(auto, unfolding(crate::specs::Placing::len))]
pub fn push_len(
    alloc: Global,
    around: Around<'_>,
    place: Place<'_>,
    a: Operand<'_>,
    found: &mut Found,
    body: &mut Body,
) -> Result<(), NoMem>
    ensures { OnOk result (Leaves (spec.len (the_around around.entry) (the_place place.entry) (the_operand a.entry) (writing found.old body.old)) found.new body.new) }
{
    let gives = LlType::Signed;
    match kind_seen(a.element) {
        Kind::Tuple => match i64::try_from(length_of(around, a)) {
            Ok(length) => give(alloc, around, place, word(length), gives, found, body),
            Err(_) => Err(NoMem),
        },
        kind => {
            if !is_text_or_none(kind) {
                return Ok(());
            }
            push_of_text(alloc, around, place, Helper::StrLen, gives, a, found, body)
        }
    }
}

/// What a `for` walks. A string of length one is there, and stays what it is.
#[tactic(auto, unfolding(crate::specs::Placing::walk))]
pub fn push_walk(
    alloc: Global,
    around: Around<'_>,
    place: Place<'_>,
    a: Operand<'_>,
    found: &mut Found,
    body: &mut Body,
) -> Result<(), NoMem>
    ensures { OnOk result (Leaves (spec.walk (the_around around.entry) (the_place place.entry) (the_operand a.entry) (writing found.old body.old)) found.new body.new) }
{
    match kind_seen(a.element) {
        Kind::Byte => give(alloc, around, place, a.x, LlType::Char, found, body),
        kind => {
            if !is_text_or_none(kind) {
                return give_nothing(around, place, body);
            }
            push_of_text(alloc, around, place, Helper::StrWalk, TEXT, a, found, body)
        }
    }
}

/// Whether an item is there.
#[tactic(auto, unfolding(crate::specs::Placing::has_item))]
pub fn push_has_item(
    alloc: Global,
    around: Around<'_>,
    place: Place<'_>,
    step: Option<i64>,
    a: Operand<'_>,
    b: Operand<'_>,
    found: &mut Found,
    body: &mut Body,
) -> Result<(), NoMem>
    ensures { OnOk result (Leaves (spec.has_item (the_around around.entry) (the_place place.entry) step (the_operand a.entry) (the_operand b.entry) (writing found.old body.old)) found.new body.new) }
{
    match step {
        Some(step) => push_range_has(alloc, around, place, step, a.x, b.x, found, body),
        None => {
            if !is_text_or_none(kind_seen(a.element)) {
                return give_nothing(around, place, body);
            }
            let helper = Helper::StrHasItem;
            let flag = LlType::Bool;
            push_of_text_and_word(alloc, around, place, helper, flag, a, b, found, body)
        }
    }
}

/// The item that is there.
#[tactic(auto, unfolding(crate::specs::Placing::walk_item))]
pub fn push_walk_item(
    alloc: Global,
    around: Around<'_>,
    place: Place<'_>,
    step: Option<i64>,
    a: Operand<'_>,
    b: Operand<'_>,
    found: &mut Found,
    body: &mut Body,
) -> Result<(), NoMem>
    ensures { OnOk result (Leaves (spec.walk_item (the_around around.entry) (the_place place.entry) step (the_operand a.entry) (the_operand b.entry) (writing found.old body.old)) found.new body.new) }
{
    match step {
        Some(_) => give(alloc, around, place, b.x, LlType::Signed, found, body),
        None => {
            if !is_text_or_none(kind_seen(a.element)) {
                return give_nothing(around, place, body);
            }
            let helper = Helper::StrItem;
            let byte = LlType::Char;
            push_of_text_and_word(alloc, around, place, helper, byte, a, b, found, body)
        }
    }
}

/// The next place of a walk.
#[tactic(auto, unfolding(crate::specs::Placing::advance))]
pub fn push_advance(
    alloc: Global,
    around: Around<'_>,
    place: Place<'_>,
    step: Option<i64>,
    a: Operand<'_>,
    b: Operand<'_>,
    found: &mut Found,
    body: &mut Body,
) -> Result<(), NoMem>
    ensures { OnOk result (Leaves (spec.advance (the_around around.entry) (the_place place.entry) step (the_operand a.entry) (the_operand b.entry) (writing found.old body.old)) found.new body.new) }
{
    match step {
        Some(step) => push_range_advance(alloc, around, place, step, a.x, b.x, found, body),
        None => {
            let add = CBinary::Add;
            let gives = LlType::Signed;
            give_binary(alloc, around, place, add, gives, b.x, word(1), found, body)
        }
    }
}

/// The sum or product of strings, and the operations on words.
#[tactic(auto, unfolding(crate::specs::Placing::sum))]
pub fn push_sum(
    alloc: Global,
    around: Around<'_>,
    place: Place<'_>,
    a: Operand<'_>,
    b: Operand<'_>,
    found: &mut Found,
    body: &mut Body,
) -> Result<(), NoMem>
    ensures { OnOk result (Leaves (spec.sum (the_around around.entry) (the_place place.entry) (the_operand a.entry) (the_operand b.entry) (writing found.old body.old)) found.new body.new) }
{
    match (kind_seen(a.element), kind_seen(b.element)) {
        (Kind::Word, Kind::Word) => {
            let add = CBinary::Add;
            let gives = LlType::Signed;
            give_binary(alloc, around, place, add, gives, a.x, b.x, found, body)
        }
        (s, t) => {
            if !is_text_or_none(s) || !is_text_or_none(t) {
                return Ok(());
            }
            let helper = Helper::StrAdd;
            push_of_texts(alloc, around, place, helper, TEXT, a, b, found, body)
        }
    }
}

#[tactic(auto, unfolding(crate::specs::Placing::product))]
pub fn push_product(
    alloc: Global,
    around: Around<'_>,
    place: Place<'_>,
    a: Operand<'_>,
    b: Operand<'_>,
    found: &mut Found,
    body: &mut Body,
) -> Result<(), NoMem>
    ensures { OnOk result (Leaves (spec.product (the_around around.entry) (the_place place.entry) (the_operand a.entry) (the_operand b.entry) (writing found.old body.old)) found.new body.new) }
{
    match kind_seen(a.element) {
        Kind::Word => {
            let mul = CBinary::Mul;
            let gives = LlType::Signed;
            give_binary(alloc, around, place, mul, gives, a.x, b.x, found, body)
        }
        s => {
            if !is_text_or_none(s) {
                return Ok(());
            }
            let helper = Helper::StrMul;
            push_of_text_and_word(alloc, around, place, helper, TEXT, a, b, found, body)
        }
    }
}
