// What is read from a dict: values, and lists of the keys, the values or both.
ghost use Rattle.std.specs.Prelude.{◌≡◌, ◌++◌, IfOk, OnOk};
ghost use Rattle.rtyper_data.specs.Seen.{writing, Asks, Gives, Leaves, Writes};
ghost use Rattle.rtyper_dict.specs.Listing as spec;

use crate::parts::{
    BOOL, DictShape, ONE, SIGNED, ZERO, add, count, first, keyed_number, length, less, places,
    same, second, sub, unstored,
};
use csub_tree::COperand::Var;
use csub_tree::{CBinary, COperand};
use list_shape::{Shape, gives, number_of};
use ll_build::build::{answer, block, call_of, flag, fork, go, null, operations, types_of};
use ll_code::{LlBlock, LlExit, LlGraph, LlOp, LlType};
use rpy_base::{NoMem, Seq};
use rtyper_data::{Body, Found, Keyed, Listed, default_operand, graph_of, value_as};
use rtyper_layout::Layout;
use std::alloc::Global;

// ---- the value of an entry: 0 the dict, 1 the place of the entry, 2 the first array, 3 the second, 4 its length, 5 the
// number of places, 6 the length of the index, 7 where the value stands, 8 the value

#[tactic(auto, unfolding(crate::specs::Listing::value_types))]
fn value_types(alloc: Global, d: DictShape) -> Result<Seq<LlType>, NoMem>
    ensures { IfOk result (λ types. types ≡ spec.value_types d) }
{
    types_of(
        alloc,
        [
            LlType::Ptr(d.dict),
            SIGNED,
            LlType::Ptr(d.first),
            LlType::Ptr(d.second),
            SIGNED,
            SIGNED,
            SIGNED,
            SIGNED,
            d.stored_value,
        ],
    )
}

#[tactic(auto, unfolding(crate::specs::Listing::value_ops))]
fn value_ops(alloc: Global, d: DictShape) -> Result<Seq<LlOp>, NoMem>
    ensures { IfOk result (λ ops. ops ≡ spec.value_ops d) }
{
    if d.keys_last {
        let item = LlOp::GetItem(8, d.first, 2, Var(1));
        return operations(alloc, [first(2, d, 0), item]);
    }
    operations(
        alloc,
        [
            second(3, d, 0),
            length(4, d, 3),
            places(5, d, 0),
            sub(6, 4, Var(5)),
            add(7, 6, Var(1)),
            LlOp::GetItem(8, d.second, 3, Var(7)),
        ],
    )
}

#[tactic(auto, unfolding(crate::specs::Listing::value_read))]
fn value_read(alloc: Global, d: DictShape) -> Result<LlBlock, NoMem>
    ensures { IfOk result (λ made. made ≡ spec.value_read d) }
{
    let ops = value_ops(alloc, d)?;
    block(alloc, [0, 1], ops, LlExit::Return(Some(Var(8))))
}

/// The value of the entry at a place.
#[tactic(auto, unfolding(crate::specs::Listing::value))]
pub fn value(alloc: Global, d: DictShape) -> Result<LlGraph, NoMem>
    ensures { IfOk result (λ made. made ≡ spec.value d) }
{
    let mut blocks = Seq::new(alloc);
    blocks.push(value_read(alloc, d)?)?;
    let types = value_types(alloc, d)?;
    graph_of(alloc, b"dict_value", 2, d.stored_value, types, blocks)
}

// ---- the value of a key, or another: 0 the dict, 1 the key, 2 the other value, 3 the place of the entry, 4 a test, 5
// the value

#[tactic(auto, unfolding(crate::specs::Listing::get_types))]
fn get_types(alloc: Global, d: DictShape, kind: LlType) -> Result<Seq<LlType>, NoMem>
    ensures { IfOk result (λ types. types ≡ spec.get_types d kind) }
{
    let dict = LlType::Ptr(d.dict);
    types_of(
        alloc,
        [dict, d.stored_key, kind, SIGNED, BOOL, d.stored_value],
    )
}

// The value that is there, as one of the type that is asked.
#[tactic(auto, unfolding(crate::specs::Listing::got))]
fn got(
    alloc: Global,
    layout: &Layout,
    d: DictShape,
    kind: LlType,
    found: &mut Found,
    body: &mut Body,
) -> Result<COperand, NoMem>
    ensures { IfOk result (λ x. Gives (spec.got layout.now d kind (writing found.old body.old)) x found.new body.new) }
{
    let values = keyed_number(Keyed::Value(d.dict), found)?;
    body.ops
        .push(call_of(alloc, Some(5), values, [Var(0), Var(3)])?)?;
    let x = unstored(d.stored_value, d.value, Var(5), body)?;
    value_as(alloc, layout, x, d.value, kind, found, body)
}

#[tactic(auto, unfolding(crate::specs::Listing::get_asks))]
fn get_asks(alloc: Global, finds: u64) -> Result<LlBlock, NoMem>
    ensures { IfOk result (λ made. made ≡ spec.get_asks finds) }
{
    let find = call_of(alloc, Some(3), finds, [Var(0), Var(1)])?;
    let ops = operations(alloc, [find, less(4, 3, ZERO)])?;
    let exit = fork(alloc, 4, 1, [Var(2)], 2, [Var(0), Var(3)])?;
    block(alloc, [0, 1, 2], ops, exit)
}

#[tactic(auto, unfolding(crate::specs::Listing::get_given))]
fn get_given(alloc: Global, x: COperand, ops: Seq<LlOp>) -> Result<LlBlock, NoMem>
    ensures { IfOk result (λ made. made ≡ spec.get_given x ops) }
{
    block(alloc, [0, 3], ops, LlExit::Return(Some(x)))
}

#[tactic(auto, unfolding(crate::specs::Listing::get_blocks))]
fn get_blocks(alloc: Global, finds: u64, x: COperand, ops: Seq<LlOp>) -> Result<Seq<LlBlock>, NoMem>
    ensures { IfOk result (λ blocks. blocks ≡ spec.get_blocks finds x ops) }
{
    let mut blocks = Seq::new(alloc);
    blocks.push(get_asks(alloc, finds)?)?;
    blocks.push(gives(alloc, 2)?)?;
    blocks.push(get_given(alloc, x, ops)?)?;
    Ok(blocks)
}

#[tactic(auto, unfolding(crate::specs::Listing::get_graph))]
fn get_graph(
    alloc: Global,
    finds: u64,
    x: COperand,
    kind: LlType,
    body: Body,
) -> Result<LlGraph, NoMem>
    ensures { IfOk result (λ made. made ≡ spec.get_graph finds x kind body) }
{
    let Body { types, ops } = body;
    let blocks = get_blocks(alloc, finds, x, ops)?;
    graph_of(alloc, b"dict_get", 3, kind, types, blocks)
}

/// The value of a key, or another.
#[tactic(auto, unfolding(crate::specs::Listing::get))]
pub fn get(
    alloc: Global,
    layout: &Layout,
    d: DictShape,
    kind: LlType,
    found: &mut Found,
) -> Result<LlGraph, NoMem>
    ensures { IfOk result (λ made. Asks (spec.get layout.now d kind found.old) made found.new) }
{
    let mut body = Body {
        types: get_types(alloc, d, kind)?,
        ops: Seq::new(alloc),
    };
    let x = got(alloc, layout, d, kind, found, &mut body)?;
    let finds = keyed_number(Keyed::Find(d.dict), found)?;
    get_graph(alloc, finds, x, kind, body)
}

// ---- whether a dict, or `None`, has entries

#[tactic(auto, unfolding(crate::specs::Listing::truth_asks))]
fn truth_asks(alloc: Global) -> Result<LlBlock, NoMem>
    ensures { IfOk result (λ made. made ≡ spec.truth_asks) }
{
    let ops = operations(alloc, [LlOp::Binary(1, CBinary::Peq, Var(0), null())])?;
    let exit = fork(alloc, 1, 1, [], 2, [Var(0)])?;
    block(alloc, [0], ops, exit)
}

#[tactic(auto, unfolding(crate::specs::Listing::truth_counts))]
fn truth_counts(alloc: Global, d: DictShape) -> Result<LlBlock, NoMem>
    ensures { IfOk result (λ made. made ≡ spec.truth_counts d) }
{
    let any = LlOp::Binary(1, CBinary::Ne, Var(2), ZERO);
    let ops = operations(alloc, [count(2, d, 0), any])?;
    block(alloc, [0], ops, LlExit::Return(Some(Var(1))))
}

#[tactic(auto, unfolding(crate::specs::Listing::truth_blocks))]
fn truth_blocks(alloc: Global, d: DictShape) -> Result<Seq<LlBlock>, NoMem>
    ensures { IfOk result (λ blocks. blocks ≡ spec.truth_blocks d) }
{
    let mut blocks = Seq::new(alloc);
    blocks.push(truth_asks(alloc)?)?;
    blocks.push(answer(alloc, flag(false))?)?;
    blocks.push(truth_counts(alloc, d)?)?;
    Ok(blocks)
}

/// Whether a dict, or `None`, has entries.
#[tactic(auto, unfolding(crate::specs::Listing::truth))]
pub fn truth(alloc: Global, d: DictShape) -> Result<LlGraph, NoMem>
    ensures { IfOk result (λ made. made ≡ spec.truth d) }
{
    let blocks = truth_blocks(alloc, d)?;
    let types = types_of(alloc, [LlType::Ptr(d.dict), BOOL, SIGNED])?;
    graph_of(alloc, b"dict_truth", 1, BOOL, types, blocks)
}

// ---- lists: 0 the dict, 1 the number of entries, 2 the list, 3 its array, 4 a place, 5 a test, 6 the next place, 7 and 8
// the arrays of the dict, 9 the length of the second, 10 the number of places, 11 the length of the index, 12 where an
// entry stands in the second array

/// What the items of a list are.
#[derive(Clone, Copy)]
pub enum Part {
    Key,
    Value,
    Both,
}

#[tactic(auto, unfolding(crate::specs::Listing::list_types))]
fn list_types(alloc: Global, d: DictShape, to: Shape) -> Result<Seq<LlType>, NoMem>
    ensures { IfOk result (λ types. types ≡ spec.list_types d to) }
{
    types_of(
        alloc,
        [
            LlType::Ptr(d.dict),
            SIGNED,
            LlType::Ptr(to.list),
            LlType::Ptr(to.array),
            SIGNED,
            BOOL,
            SIGNED,
            LlType::Ptr(d.first),
            LlType::Ptr(d.second),
            SIGNED,
            SIGNED,
            SIGNED,
            SIGNED,
        ],
    )
}

// All is paid before: one step, and one for each item, or two where the items are tuples.
#[tactic(auto, unfolding(crate::specs::Listing::paid))]
fn paid(alloc: Global, part: Part, d: DictShape) -> Result<Seq<LlOp>, NoMem>
    ensures { IfOk result (λ ops. ops ≡ spec.paid part d) }
{
    let count = count(1, d, 0);
    let each = LlOp::Step(Var(1));
    match part {
        Part::Both => operations(alloc, [count, LlOp::Step(ONE), each, LlOp::Step(Var(1))]),
        _ => operations(alloc, [count, LlOp::Step(ONE), each]),
    }
}

#[tactic(auto, unfolding(crate::specs::Listing::list_makes))]
fn list_makes(
    alloc: Global,
    makes: u64,
    part: Part,
    d: DictShape,
    to: Shape,
) -> Result<LlBlock, NoMem>
    ensures { IfOk result (λ made. made ≡ spec.list_makes makes part d to) }
{
    let mut ops = paid(alloc, part, d)?;
    ops.push(call_of(alloc, Some(2), makes, [Var(1)])?)?;
    ops.push(LlOp::GetField(3, to.list, 2, 1))?;
    ops.push(same(5, 1, ZERO))?;
    let exit = fork(alloc, 5, 4, [Var(2)], 1, [Var(0), Var(1), Var(2), Var(3)])?;
    block(alloc, [0], ops, exit)
}

#[tactic(auto, unfolding(crate::specs::Listing::list_walks))]
fn list_walks(alloc: Global, d: DictShape) -> Result<LlBlock, NoMem>
    ensures { IfOk result (λ made. made ≡ spec.list_walks d) }
{
    let ops = operations(
        alloc,
        [
            first(7, d, 0),
            second(8, d, 0),
            length(9, d, 8),
            places(10, d, 0),
            sub(11, 9, Var(10)),
        ],
    )?;
    let all = [Var(1), Var(2), Var(3), Var(7), Var(8), Var(11), ZERO];
    let exit = go(alloc, 2, all)?;
    block(alloc, [0, 1, 2, 3], ops, exit)
}

#[tactic(auto, unfolding(crate::specs::Listing::list_asks))]
fn list_asks(alloc: Global) -> Result<LlBlock, NoMem>
    ensures { IfOk result (λ made. made ≡ spec.list_asks) }
{
    let ops = operations(alloc, [less(5, 4, Var(1))])?;
    let all = [Var(1), Var(2), Var(3), Var(7), Var(8), Var(11), Var(4)];
    let exit = fork(alloc, 5, 3, all, 4, [Var(2)])?;
    block(alloc, [1, 2, 3, 7, 8, 11, 4], ops, exit)
}

#[tactic(auto, unfolding(crate::specs::Listing::list_turn))]
fn list_turn(alloc: Global, ops: Seq<LlOp>) -> Result<LlBlock, NoMem>
    ensures { IfOk result (λ made. made ≡ spec.list_turn ops) }
{
    let next = [Var(1), Var(2), Var(3), Var(7), Var(8), Var(11), Var(6)];
    let exit = go(alloc, 2, next)?;
    block(alloc, [1, 2, 3, 7, 8, 11, 4], ops, exit)
}

fn array_item(in_second: bool, d: DictShape, into: u64) -> LlOp
    ensures { result ≡ spec.array_item in_second d into }
{
    if in_second {
        LlOp::GetItem(into, d.second, 8, Var(12))
    } else {
        LlOp::GetItem(into, d.first, 7, Var(4))
    }
}

// What stands in one of the arrays, as a value of this type.
#[tactic(auto, unfolding(crate::specs::Listing::read))]
fn read(
    in_second: bool,
    item: LlType,
    kind: LlType,
    d: DictShape,
    body: &mut Body,
) -> Result<COperand, NoMem>
    ensures { IfOk result (λ x. Writes (spec.read in_second item kind d body.old) x body.new) }
{
    let into = body.fresh(item)?;
    body.ops.push(array_item(in_second, d, into))?;
    unstored(item, kind, Var(into), body)
}

#[tactic(auto, unfolding(crate::specs::Listing::key_as))]
fn key_as(
    alloc: Global,
    layout: &Layout,
    d: DictShape,
    to: LlType,
    found: &mut Found,
    body: &mut Body,
) -> Result<COperand, NoMem>
    ensures { IfOk result (λ x. Gives (spec.key_as layout.now d to (writing found.old body.old)) x found.new body.new) }
{
    let x = read(d.keys_last, d.stored_key, d.key, d, body)?;
    value_as(alloc, layout, x, d.key, to, found, body)
}

#[tactic(auto, unfolding(crate::specs::Listing::value_of))]
fn value_of(
    alloc: Global,
    layout: &Layout,
    d: DictShape,
    to: LlType,
    found: &mut Found,
    body: &mut Body,
) -> Result<COperand, NoMem>
    ensures { IfOk result (λ x. Gives (spec.value_of layout.now d to (writing found.old body.old)) x found.new body.new) }
{
    let x = read(!d.keys_last, d.stored_value, d.value, d, body)?;
    value_as(alloc, layout, x, d.value, to, found, body)
}

fn field_at(layout: &Layout, n: u64, i: usize) -> LlType
    ensures { result ≡ spec.field_at layout.now n i }
{
    match layout.fields(n).get(i) {
        None => BOOL,
        Some(kind) => *kind,
    }
}

// A tuple of two.
#[tactic(auto, unfolding(crate::specs::Listing::tuple_of))]
fn tuple_of(n: u64, x: COperand, y: COperand, body: &mut Body) -> Result<COperand, NoMem>
    ensures { IfOk result (λ tuple. Writes (spec.tuple_of n x y body.old) tuple body.new) }
{
    let tuple = body.fresh(LlType::Ptr(n))?;
    body.ops.push(LlOp::New(tuple, n, n))?;
    body.ops.push(LlOp::SetField(n, tuple, 0, x))?;
    body.ops.push(LlOp::SetField(n, tuple, 1, y))?;
    Ok(Var(tuple))
}

#[tactic(auto, unfolding(crate::specs::Listing::pair))]
fn pair(
    alloc: Global,
    layout: &Layout,
    d: DictShape,
    n: u64,
    found: &mut Found,
    body: &mut Body,
) -> Result<COperand, NoMem>
    ensures { IfOk result (λ x. Gives (spec.pair layout.now d n (writing found.old body.old)) x found.new body.new) }
{
    let k = key_as(alloc, layout, d, field_at(layout, n, 0), found, body)?;
    let v = value_of(alloc, layout, d, field_at(layout, n, 1), found, body)?;
    tuple_of(n, k, v, body)
}

fn pair_as(
    alloc: Global,
    layout: &Layout,
    d: DictShape,
    to: LlType,
    found: &mut Found,
    body: &mut Body,
) -> Result<COperand, NoMem>
    ensures { IfOk result (λ x. Gives (spec.pair_as layout.now d to (writing found.old body.old)) x found.new body.new) }
{
    match to {
        LlType::Ptr(n) => pair(alloc, layout, d, n, found, body),
        _ => Ok(default_operand(to)),
    }
}

#[tactic(auto, unfolding(crate::specs::Listing::item_of))]
fn item_of(
    alloc: Global,
    layout: &Layout,
    d: DictShape,
    to: LlType,
    part: Part,
    found: &mut Found,
    body: &mut Body,
) -> Result<COperand, NoMem>
    ensures { IfOk result (λ x. Gives (spec.item_of layout.now d to part (writing found.old body.old)) x found.new body.new) }
{
    match part {
        Part::Key => key_as(alloc, layout, d, to, found, body),
        Part::Value => value_of(alloc, layout, d, to, found, body),
        Part::Both => pair_as(alloc, layout, d, to, found, body),
    }
}

#[tactic(auto, unfolding(crate::specs::Listing::list_reads))]
fn list_reads(alloc: Global) -> Result<Seq<LlOp>, NoMem>
    ensures { IfOk result (λ ops. ops ≡ spec.list_reads) }
{
    operations(alloc, [add(12, 11, Var(4)), add(6, 4, ONE)])
}

// An item is set.
#[tactic(auto, unfolding(crate::specs::Listing::item_set))]
fn push_item(
    alloc: Global,
    layout: &Layout,
    d: DictShape,
    to: Shape,
    part: Part,
    found: &mut Found,
    body: &mut Body,
) -> Result<(), NoMem>
    ensures { OnOk result (Leaves (spec.item_set layout.now d to part (writing found.old body.old)) found.new body.new) }
{
    let x = item_of(alloc, layout, d, to.item, part, found, body)?;
    body.ops.push(LlOp::SetItem(to.array, 3, Var(4), x))
}

#[tactic(auto, unfolding(crate::specs::Listing::list_blocks))]
fn list_blocks(
    alloc: Global,
    makes: u64,
    part: Part,
    d: DictShape,
    to: Shape,
    ops: Seq<LlOp>,
) -> Result<Seq<LlBlock>, NoMem>
    ensures { IfOk result (λ blocks. blocks ≡ spec.list_blocks makes part d to ops) }
{
    let mut blocks = Seq::new(alloc);
    blocks.push(list_makes(alloc, makes, part, d, to)?)?;
    blocks.push(list_walks(alloc, d)?)?;
    blocks.push(list_asks(alloc)?)?;
    blocks.push(list_turn(alloc, ops)?)?;
    blocks.push(gives(alloc, 2)?)?;
    Ok(blocks)
}

#[tactic(auto, unfolding(crate::specs::Listing::list_graph))]
fn list_graph(
    alloc: Global,
    makes: u64,
    part: Part,
    d: DictShape,
    to: Shape,
    body: Body,
) -> Result<LlGraph, NoMem>
    ensures { IfOk result (λ made. made ≡ spec.list_graph makes part d to body) }
{
    let Body { types, ops } = body;
    let blocks = list_blocks(alloc, makes, part, d, to, ops)?;
    let list = LlType::Ptr(to.list);
    graph_of(alloc, b"dict_list", 1, list, types, blocks)
}

/// A list of the keys, of the values, or of both.
#[tactic(auto, unfolding(crate::specs::Listing::list))]
pub fn list(
    alloc: Global,
    layout: &Layout,
    d: DictShape,
    to: Shape,
    part: Part,
    found: &mut Found,
) -> Result<LlGraph, NoMem>
    ensures { IfOk result (λ made. Asks (spec.list layout.now d to part found.old) made found.new) }
{
    let mut body = Body {
        types: list_types(alloc, d, to)?,
        ops: list_reads(alloc)?,
    };
    push_item(alloc, layout, d, to, part, found, &mut body)?;
    let makes = number_of(Listed::Make(to.list), found)?;
    list_graph(alloc, makes, part, d, to, body)
}
