// The table: what each operation gives for elements.
ghost use Rattle.std.specs.Prelude.{◌≡◌, map, IfOk, OnOk};
ghost use Rattle.ann_lattice.specs.Shape.{shape};
ghost use Rattle.ann_lattice.specs.Kind as kind;
ghost use Rattle.ann_lattice.specs.Methods as methods;
ghost use Rattle.ann_lattice.specs.Row as spec;

use crate::compare::{equal_row, is_row, less_row, negated, truth_of, within_row};
use crate::container::{
    binary_row, bounded_slice_row, delete_index_row, index_row, len_row, print_row, slice_row,
    store_index_row, tuple_row, unpack_row, write_row,
};
use crate::instance::{
    attribute_row, call_of_row, call_value_row, constant_row, drop_none_row, false_none_row,
    is_instance_row, lower_row, new_row, non_negative_row, raise_row, store_attribute_row,
};
use crate::kind::{conflict, is_int, is_list, is_unreached, known, single};
use crate::method::{Method, method_of, method_pieces};
use crate::number::{
    checked_row, chr_row, intmask_row, max_row, min_row, ord_row, text_row, to_int_row, to_str_row,
    unary_row, word_row,
};
use crate::upper::{is_clash, join};
use crate::walk::{advance_row, has_item_row, item_row, walk_row};
use ann_element::{Element, Sites, copy_element};
use class_desc::Classes;
use rpy_base::{NoMem, Seq, Text};
use rpy_meaning::RowOp;
use rpy_tree::CmpOp;
use std::alloc::Global;

fn some_unreached(xs: &[Element]) -> bool
    ensures { result ≡ kind.some_nothing (map shape xs.now) }
{
    match xs {
        [] => false,
        [x, xs @ ..] => is_unreached(x) || some_unreached(xs),
    }
}

fn some_conflict(xs: &[Element]) -> bool
    ensures { result ≡ kind.some_clash (map shape xs.now) }
{
    match xs {
        [] => false,
        [x, xs @ ..] => is_clash(x) || some_conflict(xs),
    }
}

// ---- operations without operands

fn leaf_row(alloc: Global, op: &RowOp) -> Result<Element, NoMem>
    ensures { IfOk result (λ e. shape e ≡ spec.of_none op.now) }
{
    match op {
        RowOp::Word(word) => Ok(word_row(*word)),
        RowOp::Str(text) => Ok(text_row(text.bytes().len())),
        RowOp::Bool(flag) => Ok(known(*flag)),
        RowOp::None => Ok(Element::NoneOnly),
        RowOp::Constant(value) => constant_row(alloc, value),
        RowOp::Dict(site) => Ok(Element::Dict(*site, false)),
        RowOp::Comprehension(site) => Ok(Element::List(*site, false)),
        RowOp::Turn => Ok(Element::NoneOnly),
        _ => Ok(conflict()),
    }
}

// ---- operations on one operand

fn one_row(
    alloc: Global,
    classes: &Classes,
    op: &RowOp,
    a: &Element,
    part: &Element,
) -> Result<Element, NoMem>
    ensures { IfOk result (λ e. shape e ≡ spec.of_one classes.now op.now (shape a.now) (shape part.now)) }
{
    match op {
        RowOp::Copy => copy_element(alloc, a),
        RowOp::Unary(op) => Ok(unary_row(*op, a)),
        RowOp::CheckedNeg => Ok(unary_row(rpy_tree::UnOp::Neg, a)),
        RowOp::Not => Ok(negated(truth_of(a))),
        RowOp::Truth => Ok(truth_of(a)),
        RowOp::Intmask => Ok(intmask_row(a)),
        RowOp::Len => Ok(len_row(a)),
        RowOp::Ord => Ok(ord_row(a)),
        RowOp::Chr => Ok(chr_row(a)),
        RowOp::ToStr => Ok(to_str_row(a)),
        RowOp::ToInt => Ok(to_int_row(a)),
        RowOp::IsInstance(class) => Ok(is_instance_row(classes, *class, a)),
        RowOp::Attr(name) => attribute_row(alloc, classes, name, a, part),
        RowOp::AllButLast(site) => Ok(slice_row(*site, a)),
        RowOp::Raise => Ok(raise_row(classes, a)),
        RowOp::Walk(site) => walk_row(alloc, *site, a),
        RowOp::Unpack(count, place) => unpack_row(alloc, *count, *place, a),
        other => narrowing_row(alloc, classes, other, a),
    }
}

fn narrowing_row(
    alloc: Global,
    classes: &Classes,
    op: &RowOp,
    a: &Element,
) -> Result<Element, NoMem>
    ensures { IfOk result (λ e. shape e ≡ spec.narrowed classes.now.classes op.now (shape a.now)) }
{
    match op {
        RowOp::DropNone => drop_none_row(alloc, a),
        RowOp::OnlyNone => Ok(Element::NoneOnly),
        RowOp::FalseNone => false_none_row(alloc, a),
        RowOp::Lower(class) => lower_row(alloc, classes, *class, a),
        _ => Ok(conflict()),
    }
}

// ---- operations on two operands

fn compare_row(classes: &Classes, op: CmpOp, a: &Element, b: &Element, part: &Element) -> Element
    ensures { shape result ≡ spec.compare classes.now.classes op (shape a.now) (shape b.now) (shape part.now) }
{
    match op {
        CmpOp::Lt => less_row(a, b),
        CmpOp::Le => less_row(a, b),
        CmpOp::Gt => less_row(a, b),
        CmpOp::Ge => less_row(a, b),
        CmpOp::Eq => equal_row(a, b),
        CmpOp::Ne => equal_row(a, b),
        CmpOp::Within => within_row(a, b, part),
        CmpOp::NotWithin => within_row(a, b, part),
        CmpOp::Is => is_row(classes, a, b),
        CmpOp::IsNot => negated(is_row(classes, a, b)),
    }
}

// An item that is added to the list of a comprehension.
fn add_item_row(list: &Element) -> Element
    ensures { shape result ≡ spec.add_item (shape list.now) }
{
    match list {
        Element::NoneOnly => Element::Unreached,
        Element::List(_, _) => Element::NoneOnly,
        _ => conflict(),
    }
}

fn two_row(
    alloc: Global,
    classes: &Classes,
    op: &RowOp,
    a: &Element,
    b: &Element,
    part: &Element,
) -> Result<Element, NoMem>
    ensures { IfOk result (λ e. shape e ≡ spec.of_two classes.now op.now (shape a.now) (shape b.now) (shape part.now)) }
{
    match op {
        RowOp::Binary(op, site) => Ok(binary_row(*op, *site, a, b)),
        RowOp::AddTo => Ok(binary_row(rpy_tree::BinOp::Add, None, a, b)),
        RowOp::Checked(op) => Ok(checked_row(*op, a, b)),
        RowOp::Compare(op) => Ok(compare_row(classes, *op, a, b, part)),
        RowOp::Min => Ok(min_row(a, b)),
        RowOp::Max => Ok(max_row(a, b)),
        RowOp::Write => Ok(write_row(b)),
        RowOp::Index(literal) => index_row(alloc, *literal, a, b, part),
        RowOp::DeleteIndex => Ok(delete_index_row(a, b)),
        RowOp::StoreAttr(name) => store_attribute_row(alloc, classes, name, a, b),
        RowOp::AddItem => Ok(add_item_row(a)),
        RowOp::HasItem(step) => Ok(has_item_row(*step, a, b)),
        RowOp::Item(step) => item_row(alloc, *step, a, b, part),
        RowOp::Advance(step) => Ok(advance_row(*step, a, b)),
        RowOp::NonNegative => non_negative_row(alloc, a, b),
        _ => Ok(conflict()),
    }
}

fn three_row(
    alloc: Global,
    op: &RowOp,
    a: &Element,
    i: &Element,
    value: &Element,
) -> Result<Element, NoMem>
    ensures { IfOk result (λ e. shape e ≡ spec.of_three op.now (shape a.now) (shape i.now) (shape value.now)) }
{
    match op {
        RowOp::StoreIndex => store_index_row(alloc, a, i, value),
        _ => Ok(conflict()),
    }
}

// ---- operations on any number of operands

// The row of an operation that takes as many operands as it says.
fn counted_row(
    alloc: Global,
    classes: &Classes,
    op: &RowOp,
    xs: &[Element],
    part: &Element,
) -> Result<Element, NoMem>
    ensures { IfOk result (λ e. shape e ≡ spec.counted classes.now op.now (map shape xs.now) (shape part.now)) }
{
    match xs {
        [] => leaf_row(alloc, op),
        [a] => one_row(alloc, classes, op, a, part),
        [a, b] => two_row(alloc, classes, op, a, b, part),
        [a, i, value] => three_row(alloc, op, a, i, value),
        _ => Ok(conflict()),
    }
}

fn fitting_pieces(
    alloc: Global,
    classes: &Classes,
    op: &RowOp,
    xs: &[Element],
    part: &Element,
) -> Result<Seq<Element>, NoMem>
    ensures { IfOk result (λ pieces. map shape pieces ≡ spec.fitting classes.now op.now (map shape xs.now) (shape part.now)) }
{
    match op {
        RowOp::Tuple => single(alloc, tuple_row(alloc, xs)?),
        RowOp::List(site) => single(alloc, Element::List(*site, false)),
        RowOp::Print => single(alloc, print_row(xs)),
        RowOp::Slice(site, _, _) => single(alloc, bounded_slice_row(*site, xs)),
        RowOp::Call(_) => single(alloc, copy_element(alloc, part)?),
        RowOp::CallOf(class, _) => { single(alloc, call_of_row(alloc, classes, *class, xs, part)?) }
        RowOp::CallValue => single(alloc, call_value_row(alloc, xs, part)?),
        RowOp::New(class) => single(alloc, new_row(classes, *class, xs)),
        RowOp::Method(name, site) => match xs {
            [receiver, args @ ..] => {
                method_pieces(alloc, classes, name, *site, receiver, args, part)
            }
            [] => single(alloc, conflict()),
        },
        _ => single(alloc, counted_row(alloc, classes, op, xs, part)?),
    }
}

/// What an operation asks its result to be above, for its operands: nothing with one that is unreached,
/// else a conflict with a conflict among them. Where the operation gives the item of a list, the value of
/// a dict, an attribute or the result of a function, that is the further part, and so is the item of a
/// list that `in` or `join` looks at. What no line of the table fits is a conflict.
pub fn pieces_of(
    alloc: Global,
    classes: &Classes,
    op: &RowOp,
    xs: &[Element],
    part: &Element,
) -> Result<Seq<Element>, NoMem>
    ensures { IfOk result (λ pieces. map shape pieces ≡ spec.pieces classes.now op.now (map shape xs.now) (shape part.now)) }
{
    if some_unreached(xs) {
        return Ok(Seq::new(alloc));
    }
    if some_conflict(xs) {
        return single(alloc, conflict());
    }
    fitting_pieces(alloc, classes, op, xs, part)
}

// A conflict that a row gives keeps no class of sites.
fn blunt(e: Element) -> Element
    ensures { shape result ≡ kind.blunt (shape e) }
{
    match e {
        Element::Conflict(_, _) => conflict(),
        other => other,
    }
}

// The result itself.
fn gathered(
    alloc: Global,
    classes: &Classes,
    same: &mut Sites,
    pieces: &[Element],
) -> Result<Element, NoMem>
    ensures row { IfOk result (λ e. shape e ≡ kind.gathered classes.now.classes (map shape pieces.now)) }
    ensures classes { OnOk result (same.new ≡ kind.classes_gathered classes.now.classes same.old (map shape pieces.now)) }
{
    match pieces {
        [] => Ok(Element::Unreached),
        [only] => copy_element(alloc, only),
        [a, b, ..] => Ok(blunt(join(alloc, classes, same, a, b)?)),
    }
}

// The further part, where there is one.
fn the_part<'a>(parts: &'a [Element], none: &'a Element) -> &'a Element
    requires { shape none.now ≡ kind.misfit }
    ensures { shape result.now ≡ spec.the_part (map shape parts.now) }
{
    match parts {
        [part] => part,
        _ => none,
    }
}

/// What an operation gives for its operands: the join of what it asks its result to be above
/// (`pieces_of`), `Unreached` where that is nothing. The further part is the one that is given, if one is.
/// Where the result is a join, the classes of sites that meet in it become one.
pub fn row_of(
    alloc: Global,
    classes: &Classes,
    same: &mut Sites,
    op: &RowOp,
    xs: &[Element],
    parts: &[Element],
) -> Result<Element, NoMem>
    ensures row { IfOk result (λ e. shape e ≡ kind.gathered classes.now.classes (spec.pieces classes.now op.now (map shape xs.now) (spec.the_part (map shape parts.now)))) }
    ensures classes { OnOk result (same.new ≡ kind.classes_gathered classes.now.classes same.old (spec.pieces classes.now op.now (map shape xs.now) (spec.the_part (map shape parts.now)))) }
{
    let none = conflict();
    let pieces = pieces_of(alloc, classes, op, xs, the_part(parts, &none))?;
    gathered(alloc, classes, same, pieces.as_slice())
}

// ---- operands and further parts in one list

fn second_is_list(xs: &[Element]) -> bool
    ensures { result ≡ spec.second_is_list (map shape xs.now) }
{
    match xs {
        [_first, second, _others @ ..] => is_list(second),
        _ => false,
    }
}

// Whether the last of the elements is no operand, where a method is called.
fn method_has_part(name: &Text, xs: &[Element]) -> bool
    ensures { result ≡ spec.method_has_part name.now (map shape xs.now) }
{
    let method = method_of(name);
    match xs {
        [Element::Instance(_, _), _others @ ..] => true,
        [Element::List(_, _), _others @ ..] => is_pop(method),
        [Element::Dict(_, _), _others @ ..] => is_get(method),
        [receiver, list, _others @ ..] => is_join(method) && is_list(list) && !is_int(receiver),
        _ => false,
    }
}

fn is_pop(method: Method) -> bool
    ensures { result ≡ methods.is_pop method }
{
    match method {
        Method::Pop => true,
        _ => false,
    }
}

fn is_get(method: Method) -> bool
    ensures { result ≡ methods.is_get method }
{
    match method {
        Method::Get => true,
        _ => false,
    }
}

fn is_join(method: Method) -> bool
    ensures { result ≡ methods.is_join method }
{
    match method {
        Method::Join => true,
        _ => false,
    }
}

fn compare_has_part(op: CmpOp, xs: &[Element]) -> bool
    ensures { result ≡ spec.compare_has_part op (map shape xs.now) }
{
    match op {
        CmpOp::Within => second_is_list(xs),
        CmpOp::NotWithin => second_is_list(xs),
        _ => false,
    }
}

fn first_holds_items(xs: &[Element]) -> bool
    ensures { result ≡ spec.first_holds_items (map shape xs.now) }
{
    match xs {
        [Element::List(_, _), _others @ ..] => true,
        [Element::Dict(_, _), _others @ ..] => true,
        _ => false,
    }
}

fn first_is_function(xs: &[Element]) -> bool
    ensures { result ≡ spec.first_is_function (map shape xs.now) }
{
    match xs {
        [Element::Func(_, _), _others @ ..] => true,
        _ => false,
    }
}

fn first_is_instance(xs: &[Element]) -> bool
    ensures { result ≡ spec.first_is_instance (map shape xs.now) }
{
    match xs {
        [Element::Instance(_, _), _others @ ..] => true,
        _ => false,
    }
}

// Whether the last of the elements is no operand.
fn has_part(op: &RowOp, xs: &[Element]) -> bool
    ensures { result ≡ spec.has_part op.now (map shape xs.now) }
{
    match op {
        RowOp::Compare(op) => compare_has_part(*op, xs),
        RowOp::Index(_) => first_holds_items(xs),
        RowOp::Item(None) => first_holds_items(xs),
        RowOp::Attr(_) => first_is_instance(xs),
        RowOp::Call(_) => true,
        RowOp::CallOf(_, _) => true,
        RowOp::CallValue => first_is_function(xs),
        RowOp::Method(name, _) => method_has_part(name, xs),
        _ => false,
    }
}

fn operand_count(op: &RowOp, xs: &[Element]) -> usize
    ensures { result ≡ spec.operand_count op.now (map shape xs.now) }
{
    if has_part(op, xs) {
        xs.len().saturating_sub(1)
    } else {
        xs.len()
    }
}

/// What an operation gives for its operands, with the further part behind them where `row_of` takes one.
pub fn row(
    alloc: Global,
    classes: &Classes,
    same: &mut Sites,
    op: &RowOp,
    elements: &[Element],
) -> Result<Element, NoMem>
    ensures row { IfOk result (λ e. shape e ≡ kind.gathered classes.now.classes (spec.asked classes.now op.now (map shape elements.now))) }
    ensures classes { OnOk result (same.new ≡ kind.classes_gathered classes.now.classes same.old (spec.asked classes.now op.now (map shape elements.now))) }
{
    let count = operand_count(op, elements).min(elements.len());
    let (xs, parts) = elements.split_at(count);
    row_of(alloc, classes, same, op, xs, parts)
}
