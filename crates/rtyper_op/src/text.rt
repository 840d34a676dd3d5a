// Operations on strings, and the truth and the text of values.
ghost use Rattle.std.specs.Prelude.{◌≡◌, IfOk, OnOk};
ghost use Rattle.rtyper_op.specs.Texts as spec;
ghost use Rattle.rtyper_data.specs.Seen.{the_around, the_operand, the_operands, the_place, writing, Leaves, Gives, Writes, Asks};

use csub_tree::{CBinary, COperand, CUnary};
use ll_build::Helper;
use ll_code::{LlOp, LlType};
use rpy_base::NoMem;
use rtyper_data::{
    Around, Body, Found, Keyed, Listed, Operand, Place, Small, by_small, give, give_helped,
    give_nothing, give_unary, given, helped, helper_number, is_no_function, is_null, operand_at,
    operands, opposite_if, word,
};
use rtyper_layout::{Kind, is_text, is_text_or_none, kind_seen};
use std::alloc::Global;

const TEXT: LlType = LlType::Ptr(0);

// ---- truth

/// What a test comes to: it is known, or stands in a truth value.
#[derive(Clone, Copy)]
pub enum Test {
    Known(bool),
    By(COperand),
}

/// Whether a value counts as true.
#[tactic(auto, unfolding(crate::specs::Texts::truth_of))]
pub fn truth_of(
    alloc: Global,
    around: Around<'_>,
    a: Operand<'_>,
    found: &mut Found,
    body: &mut Body,
) -> Result<Test, NoMem>
    ensures { IfOk result (λ t. Gives (spec.truth_of (the_around around.entry) (the_operand a.entry) (writing found.old body.old)) t found.new body.new) }
{
    match kind_seen(a.element) {
        Kind::Word => {
            let v = body.fresh(LlType::Bool)?;
            body.ops.push(LlOp::Binary(v, CBinary::Ne, a.x, word(0)))?;
            Ok(Test::By(COperand::Var(v)))
        }
        Kind::Flag => Ok(Test::By(a.x)),
        Kind::Nothing => Ok(Test::Known(false)),
        Kind::Byte | Kind::Never => Ok(Test::Known(true)),
        Kind::Text | Kind::MaybeText => Ok(Test::By(helped(
            alloc,
            Helper::StrTruth,
            LlType::Bool,
            [a.x],
            found,
            body,
        )?)),
        Kind::Instance | Kind::Function => Ok(Test::Known(true)),
        Kind::MaybeInstance => {
            let null = is_null(a.x, body)?;
            Ok(Test::By(opposite_if(true, null, body)?))
        }
        Kind::MaybeFunction => {
            let null = is_no_function(a.x, body)?;
            Ok(Test::By(opposite_if(true, null, body)?))
        }
        Kind::List | Kind::MaybeList => match around.type_of(a) {
            LlType::Ptr(list) => {
                let small = Small::Listed(Listed::Truth(list));
                Ok(Test::By(by_small(alloc, small, LlType::Bool, [a.x], found, body)?))
            }
            _ => Ok(Test::Known(true)),
        },
        Kind::Dict | Kind::MaybeDict => match around.type_of(a) {
            LlType::Ptr(dict) => {
                let small = Small::Keyed(Keyed::Truth(dict));
                Ok(Test::By(by_small(alloc, small, LlType::Bool, [a.x], found, body)?))
            }
            _ => Ok(Test::Known(true)),
        },
        Kind::Tuple | Kind::Other => Ok(Test::Known(true)),
    }
}

/// The truth of a value, or the opposite.
pub fn push_truth(
    alloc: Global,
    around: Around<'_>,
    place: Place<'_>,
    a: Operand<'_>,
    reversed: bool,
    found: &mut Found,
    body: &mut Body,
) -> Result<(), NoMem>
    ensures { OnOk result (Leaves (spec.truth_to (the_around around.entry) (the_place place.entry) (the_operand a.entry) reversed (writing found.old body.old)) found.new body.new) }
{
    let flag = LlType::Bool;
    match truth_of(alloc, around, a, found, body)? {
        Test::Known(b) => {
            let x = rtyper_data::flag(b != reversed);
            give(alloc, around, place, x, flag, found, body)
        }
        Test::By(x) => {
            if reversed {
                give_unary(alloc, around, place, CUnary::Not, flag, x, found, body)
            } else {
                give(alloc, around, place, x, flag, found, body)
            }
        }
    }
}

// ---- printing

fn push_call(
    alloc: Global,
    helper: Helper,
    x: COperand,
    found: &mut Found,
    body: &mut Body,
) -> Result<(), NoMem>
    ensures { OnOk result (Leaves (spec.printed_by helper x (writing found.old body.old)) found.new body.new) }
{
    let number = helper_number(helper, found)?;
    let xs = operands(alloc, [x])?;
    body.ops.push(LlOp::Call(None, number, xs))
}

#[tactic(auto, unfolding(crate::specs::Texts::put))]
fn push_put(alloc: Global, a: Operand<'_>, found: &mut Found, body: &mut Body) -> Result<(), NoMem>
    ensures { OnOk result (Leaves (spec.put (the_operand a.entry) (writing found.old body.old)) found.new body.new) }
{
    match kind_seen(a.element) {
        Kind::Word => push_call(alloc, Helper::PrintWord, a.x, found, body),
        Kind::Flag => push_call(alloc, Helper::PrintBool, a.x, found, body),
        Kind::Byte => {
            let v = body.fresh(LlType::Signed)?;
            body.ops.push(LlOp::Unary(v, CUnary::C2S, a.x))?;
            body.ops.push(LlOp::Put(COperand::Var(v)))
        }
        Kind::Text => push_call(alloc, Helper::PrintStr, a.x, found, body),
        _ => Ok(()),
    }
}

// Each behind a space.
fn push_more(
    alloc: Global,
    args: &[Operand<'_>],
    found: &mut Found,
    body: &mut Body,
) -> Result<(), NoMem>
    ensures { OnOk result (Leaves (spec.put_more (the_operands args.now) (writing found.old body.old)) found.new body.new) }
{
    for operand in args {
        body.ops.push(LlOp::Put(word(32)))?;
        push_put(alloc, *operand, found, body)?;
    }
    Ok(())
}

/// The texts of the operands, with spaces between and a newline.
pub fn push_print(
    alloc: Global,
    args: &[Operand<'_>],
    found: &mut Found,
    body: &mut Body,
) -> Result<(), NoMem>
    ensures { OnOk result (Leaves (spec.print (the_operands args.now) (writing found.old body.old)) found.new body.new) }
{
    match args {
        [] => {}
        [first, more @ ..] => {
            push_put(alloc, *first, found, body)?;
            push_more(alloc, more, found, body)?;
        }
    }
    body.ops.push(LlOp::Put(word(10)))
}

// ---- strings

/// `str` of a value.
#[tactic(auto, unfolding(crate::specs::Texts::to_str))]
pub fn push_to_str(
    alloc: Global,
    around: Around<'_>,
    place: Place<'_>,
    a: Operand<'_>,
    found: &mut Found,
    body: &mut Body,
) -> Result<(), NoMem>
    ensures { OnOk result (Leaves (spec.to_str (the_around around.entry) (the_place place.entry) (the_operand a.entry) (writing found.old body.old)) found.new body.new) }
{
    match kind_seen(a.element) {
        Kind::Word => {
            give_helped(
                alloc,
                around,
                place,
                Helper::StrOfWord,
                TEXT,
                [a.x],
                found,
                body,
            )
        }
        Kind::Flag => {
            give_helped(
                alloc,
                around,
                place,
                Helper::StrOfBool,
                TEXT,
                [a.x],
                found,
                body,
            )
        }
        Kind::Byte => give(alloc, around, place, a.x, LlType::Char, found, body),
        Kind::Text => give(alloc, around, place, a.x, TEXT, found, body),
        _ => Ok(()),
    }
}

/// A helper of a string, or `None`.
#[tactic(auto, unfolding(crate::specs::Texts::of_text))]
pub fn push_of_text(
    alloc: Global,
    around: Around<'_>,
    place: Place<'_>,
    helper: Helper,
    gives: LlType,
    a: Operand<'_>,
    found: &mut Found,
    body: &mut Body,
) -> Result<(), NoMem>
    ensures { OnOk result (Leaves (spec.of_text (the_around around.entry) (the_place place.entry) helper gives (the_operand a.entry) (writing found.old body.old)) found.new body.new) }
{
    let x = given(alloc, around, a, TEXT, found, body)?;
    give_helped(alloc, around, place, helper, gives, [x], found, body)
}

/// A helper of two strings, the first of which may be `None`, or both.
#[tactic(auto, unfolding(crate::specs::Texts::of_texts))]
pub fn push_of_texts(
    alloc: Global,
    around: Around<'_>,
    place: Place<'_>,
    helper: Helper,
    gives: LlType,
    a: Operand<'_>,
    b: Operand<'_>,
    found: &mut Found,
    body: &mut Body,
) -> Result<(), NoMem>
    ensures { OnOk result (Leaves (spec.of_texts (the_around around.entry) (the_place place.entry) helper gives (the_operand a.entry) (the_operand b.entry) (writing found.old body.old)) found.new body.new) }
{
    let x = given(alloc, around, a, TEXT, found, body)?;
    let y = given(alloc, around, b, TEXT, found, body)?;
    give_helped(alloc, around, place, helper, gives, [x, y], found, body)
}

/// A helper of a string, or `None`, and a word.
#[tactic(auto, unfolding(crate::specs::Texts::of_text_and_word))]
pub fn push_of_text_and_word(
    alloc: Global,
    around: Around<'_>,
    place: Place<'_>,
    helper: Helper,
    gives: LlType,
    a: Operand<'_>,
    b: Operand<'_>,
    found: &mut Found,
    body: &mut Body,
) -> Result<(), NoMem>
    ensures { OnOk result (Leaves (spec.of_text_and_word (the_around around.entry) (the_place place.entry) helper gives (the_operand a.entry) (the_operand b.entry) (writing found.old body.old)) found.new body.new) }
{
    let x = given(alloc, around, a, TEXT, found, body)?;
    give_helped(alloc, around, place, helper, gives, [x, b.x], found, body)
}

// ---- slices

// An absent lower bound is the start, an absent upper one the end of any string.
fn bounds(low: bool, high: bool, args: &[Operand<'_>]) -> (COperand, COperand)
    ensures { result ≡ (spec.lower low (the_operands args.now), spec.upper low high (the_operands args.now)) }
{
    let first = operand_at(args, 1).x;
    match (low, high) {
        (false, false) => (word(0), word(i64::MAX)),
        (true, false) => (first, word(i64::MAX)),
        (false, true) => (word(0), first),
        (true, true) => (first, operand_at(args, 2).x),
    }
}

/// The slice of a string, or `None`.
pub fn push_slice(
    alloc: Global,
    around: Around<'_>,
    place: Place<'_>,
    low: bool,
    high: bool,
    args: &[Operand<'_>],
    found: &mut Found,
    body: &mut Body,
) -> Result<(), NoMem>
    ensures { OnOk result (Leaves (spec.slice (the_around around.entry) (the_place place.entry) low high (the_operands args.now) (writing found.old body.old)) found.new body.new) }
{
    let a = operand_at(args, 0);
    if !is_text_or_none(kind_seen(a.element)) {
        return Ok(());
    }
    let (from, to) = bounds(low, high, args);
    let x = given(alloc, around, a, TEXT, found, body)?;
    let xs = [x, from, to];
    give_helped(
        alloc,
        around,
        place,
        Helper::StrSlice,
        TEXT,
        xs,
        found,
        body,
    )
}

// ---- methods

// What a method of one byte asks.
#[tactic(auto, unfolding(crate::specs::Texts::of_byte))]
fn of_byte(name: &[u8]) -> Option<Helper>
    ensures { result ≡ spec.of_byte name.now }
{
    if name == b"isdigit".as_slice() {
        Some(Helper::IsDigit)
    } else if name == b"isalpha".as_slice() {
        Some(Helper::IsAlpha)
    } else if name == b"isspace".as_slice() {
        Some(Helper::IsSpace)
    } else {
        None
    }
}

#[tactic(auto, unfolding(crate::specs::Texts::of_two))]
fn of_texts(name: &[u8]) -> Option<(Helper, LlType)>
    ensures { result ≡ spec.of_two name.now }
{
    if name == b"find".as_slice() {
        Some((Helper::StrFind, LlType::Signed))
    } else if name == b"startswith".as_slice() {
        Some((Helper::StrStartsWith, LlType::Bool))
    } else if name == b"endswith".as_slice() {
        Some((Helper::StrEndsWith, LlType::Bool))
    } else {
        None
    }
}

#[tactic(auto, unfolding(crate::specs::Texts::byte_method))]
fn push_byte_method(
    alloc: Global,
    around: Around<'_>,
    place: Place<'_>,
    name: &[u8],
    a: Operand<'_>,
    found: &mut Found,
    body: &mut Body,
) -> Result<bool, NoMem>
    ensures { IfOk result (λ done. Gives (spec.byte_method (the_around around.entry) (the_place place.entry) name.now (the_operand a.entry) (writing found.old body.old)) done found.new body.new) }
{
    match (of_byte(name), kind_seen(a.element)) {
        (Some(helper), Kind::Byte) => {
            give_helped(
                alloc,
                around,
                place,
                helper,
                LlType::Bool,
                [a.x],
                found,
                body,
            )?;
            Ok(true)
        }
        _ => Ok(false),
    }
}

// A method of a string and another.
fn push_text_method(
    alloc: Global,
    around: Around<'_>,
    place: Place<'_>,
    name: &[u8],
    a: Operand<'_>,
    b: Operand<'_>,
    found: &mut Found,
    body: &mut Body,
) -> Result<(), NoMem>
    ensures { OnOk result (Leaves (spec.text_method (the_around around.entry) (the_place place.entry) name.now (the_operand a.entry) (the_operand b.entry) (writing found.old body.old)) found.new body.new) }
{
    let are_texts = is_text_or_none(kind_seen(a.element)) && is_text(kind_seen(b.element));
    match (of_texts(name), are_texts) {
        (Some((helper, gives)), true) => {
            push_of_texts(alloc, around, place, helper, gives, a, b, found, body)
        }
        _ => Ok(()),
    }
}

fn push_strip(
    alloc: Global,
    around: Around<'_>,
    place: Place<'_>,
    name: &[u8],
    a: Operand<'_>,
    found: &mut Found,
    body: &mut Body,
) -> Result<(), NoMem>
    ensures { OnOk result (Leaves (spec.strip (the_around around.entry) (the_place place.entry) name.now (the_operand a.entry) (writing found.old body.old)) found.new body.new) }
{
    if name == b"strip".as_slice() && is_text_or_none(kind_seen(a.element)) {
        return push_of_text(alloc, around, place, Helper::StrStrip, TEXT, a, found, body);
    }
    Ok(())
}

/// A method of a string.
pub fn push_method(
    alloc: Global,
    around: Around<'_>,
    place: Place<'_>,
    name: &[u8],
    args: &[Operand<'_>],
    found: &mut Found,
    body: &mut Body,
) -> Result<(), NoMem>
    ensures { OnOk result (Leaves (spec.method (the_around around.entry) (the_place place.entry) name.now (the_operands args.now) (writing found.old body.old)) found.new body.new) }
{
    match args {
        [a] => {
            if push_byte_method(alloc, around, place, name, *a, found, body)? {
                return Ok(());
            }
            push_strip(alloc, around, place, name, *a, found, body)
        }
        [a, b] => push_text_method(alloc, around, place, name, *a, *b, found, body),
        _ => Ok(()),
    }
}

/// `os.write(1, s)`.
pub fn push_write(
    alloc: Global,
    around: Around<'_>,
    place: Place<'_>,
    a: Operand<'_>,
    found: &mut Found,
    body: &mut Body,
) -> Result<(), NoMem>
    ensures { OnOk result (Leaves (spec.write (the_around around.entry) (the_place place.entry) (the_operand a.entry) (writing found.old body.old)) found.new body.new) }
{
    if !is_text(kind_seen(a.element)) {
        return give_nothing(around, place, body);
    }
    let word = LlType::Signed;
    push_of_text(alloc, around, place, Helper::StrWrite, word, a, found, body)
}
