// Small graphs that a program asks for by the shapes of its tuples.
ghost use Rattle.std.specs.Prelude.{◌≡◌, IfOk};
ghost use Rattle.rtyper_data.specs.Building as building;
ghost use Rattle.rtyper_data.specs.Finding as finding;
ghost use Rattle.rtyper_data.specs.Graphs as spec;
ghost use Rattle.rtyper_data.specs.Seen.{writing, Gives, Writes, Asks};
ghost use Rattle.rtyper_data.specs.Smalls as smalls;

use crate::body::Body;
use crate::checked::{checked_graph, checked_neg_graph};
use crate::compare::{binary, equal, field_of, unary};
use crate::convert::value_as;
use crate::found::{Found, small_number};
use crate::parse::int_graph;
use crate::tuple::push_fields;
use csub_tree::{CBinary, CConst, COperand, CUnary};
use ll_code::{LlBlock, LlExit, LlGraph, LlLink, LlOp, LlType, VarId};
use rpy_base::{NoMem, Seq, Text};
use rpy_tree::ClassId;
use rtyper_layout::Layout;
use std::alloc::Global;

/// The failure of what meets `None`, and of an attribute that is not set.
pub const ATTRIBUTE: u32 = 4;

/// A graph of lists. A number is that of the struct of a list, whose array follows it, but for those of
/// arrays as `Copy` and `MoveUp` have them.
#[derive(Clone, Copy, PartialEq, Eq)]
pub enum Listed {
    /// The place that an index names; outside it fails, or raises.
    Place(u64, bool),
    Remove(u64),
    /// Items of one array into another.
    Copy(u64, u64),
    /// Items of an array one place up.
    MoveUp(u64),
    /// Room for further items.
    Room(u64),
    Append(u64),
    Insert(u64),
    Extend(u64, u64),
    Reverse(u64),
    /// A list whose items are still to be set.
    Make(u64),
    /// Two lists, and the one that has the items of both.
    Concat(u64, u64, u64),
    /// A list, and the one that is it so many times.
    Repeat(u64, u64),
    /// A list, and one of a part of it.
    Slice(u64, u64),
    ButLast(u64, u64),
    /// Whether a value of this type is among the items.
    Contains(LlType, u64),
    Truth(u64),
    /// The list of the program's arguments.
    Arguments(u64),
    Join(u64),
    Split(u64),
    /// A part of a string, which costs nothing.
    Part,
}

/// A graph of dicts. The first number is that of the struct of a dict, those of whose arrays follow it; keys and
/// values are as they stand there.
#[derive(Clone, Copy, PartialEq, Eq)]
pub enum Keyed {
    /// The hash of a value of this type.
    Hash(LlType),
    /// A dict without entries and arrays.
    Make(u64),
    /// The length of an index for so many places.
    Size,
    /// The items of an array hold nothing, from a place on.
    Fill(u64),
    /// The place of the entry of a key, or -1.
    Find(u64),
    /// The same; a key that is missing raises.
    Entry(u64),
    /// The entries from a place on come into the index.
    Enter(u64),
    /// The index is made anew.
    Index(u64),
    /// The arrays are made anew for more entries.
    Grow(u64),
    /// An entry behind the last.
    Add(u64),
    Store(u64),
    /// The entry at a place is taken out.
    Remove(u64),
    /// The value at a place.
    Value(u64),
    /// The value of a key as one of this type, or another.
    Get(u64, LlType),
    Truth(u64),
    /// Lists of the keys, of the values and of both, as tuples.
    Keys(u64, u64),
    Values(u64, u64),
    Items(u64, u64),
}

/// A graph that a program asks for by its structs.
#[derive(Clone, Copy, PartialEq, Eq)]
pub enum Small {
    /// A tuple of one shape as one of another, where the same value may stand as both.
    Cast(u64, u64),
    /// Whether two tuples of these shapes are equal.
    Equal(u64, u64),
    /// What meets `None` fails, or raises.
    Fail(bool),
    /// A value of this type that is not `None`, as which it fails, or raises.
    Present(LlType, bool),
    /// A new instance of the class.
    New(ClassId),
    /// The attribute at a place of those that the struct declares; one that is not set fails, or
    /// raises.
    Attribute(u64, u64, bool),
    /// Raises the one instance of a builtin exception class.
    Raise(ClassId),
    /// An operation on two words whose result has to fit, or of one word whose opposite has to; a
    /// failure of the operation itself is raised, or is none.
    Checked(CBinary, bool),
    CheckedNeg,
    /// `int` of a string.
    IntOfText,
    Listed(Listed),
    Keyed(Keyed),
    /// Whether an instance, or `None`, of a family with this struct and these vtables is of a class
    /// with a number in this range.
    IsInstance(u64, u64, u32, u32),
}

/// Whether a small graph may raise.
pub fn small_raises(small: Small) -> bool {
    match small {
        Small::Fail(raises) | Small::Present(_, raises) | Small::Attribute(_, _, raises) => raises,
        Small::Raise(_) | Small::Checked(_, _) | Small::CheckedNeg | Small::IntOfText => true,
        Small::Listed(Listed::Place(_, raises)) => raises,
        Small::Keyed(Keyed::Entry(_)) => true,
        Small::Listed(_)
        | Small::Keyed(_)
        | Small::Cast(_, _)
        | Small::Equal(_, _)
        | Small::New(_)
        | Small::IsInstance(_, _, _, _) => false,
    }
}

/// Whether they are the same.
pub fn is_same_small(a: Small, b: Small) -> bool
    ensures { result ≡ finding.same_small a b }
{
    a == b
}

pub fn variables<const N: usize>(alloc: Global, items: [VarId; N]) -> Result<Seq<VarId>, NoMem>
    ensures { IfOk result (λ list. list ≡ items.entry) }
{
    let items = Vec::from_array(alloc, items)?;
    Ok(Seq::from_vec(items))
}

pub fn link<const N: usize>(alloc: Global, to: u64, args: [COperand; N]) -> Result<LlLink, NoMem>
    ensures { IfOk result (λ made. made ≡ building.link_to to args.entry) }
{
    let args = Vec::from_array(alloc, args)?;
    Ok(LlLink {
        to,
        args: Seq::from_vec(args),
    })
}

pub fn block<const N: usize>(
    alloc: Global,
    inputs: [VarId; N],
    ops: Seq<LlOp>,
    exit: LlExit,
) -> Result<LlBlock, NoMem>
    ensures { IfOk result (λ made. made ≡ building.block_with inputs.entry ops exit) }
{
    Ok(LlBlock {
        inputs: variables(alloc, inputs)?,
        ops,
        exit,
    })
}

// ---- casts

fn field_at(fields: &[LlType], i: usize) -> LlType
    ensures { result ≡ spec.field_at fields.now i }
{
    match fields.get(i) {
        None => LlType::Void,
        Some(field) => *field,
    }
}

// Of the fields of the one struct those at whose places the other has one too.
fn shared_fields<'a>(layout: &'a Layout, m: u64, n: u64) -> &'a [LlType]
    ensures { result.now ≡ spec.shared_fields layout.now m n }
{
    let fields = layout.fields(m);
    &fields[..fields.len().min(layout.fields(n).len())]
}

// The items of the tuple that is variable 0, as those of the other shape.
#[tactic(auto, unfolding(crate::specs::Graphs::cast_items))]
fn cast_items(
    alloc: Global,
    layout: &Layout,
    m: u64,
    n: u64,
    found: &mut Found,
    body: &mut Body,
) -> Result<Seq<COperand>, NoMem>
    ensures { IfOk result (λ items. Gives (spec.cast_items layout.now m n (writing found.old body.old)) items found.new body.new) }
{
    let from = shared_fields(layout, m, n);
    let to = layout.fields(n);
    let mut items = Seq::new(alloc);
    let mut i: usize = 0;
    for field in from {
        let item = field_of(m, 0, i as u64, *field, body)?;
        let kind = field_at(to, i);
        items.push(value_as(alloc, layout, item, *field, kind, found, body)?)?;
        i += 1;
    }
    Ok(items)
}

// The first block asks whether there is a tuple: a local that is not bound yet has none.
fn cast_blocks(alloc: Global, made: VarId, ops: Seq<LlOp>) -> Result<Seq<LlBlock>, NoMem>
    ensures { IfOk result (λ blocks. blocks ≡ spec.cast_blocks made ops) }
{
    let there = link(alloc, 1, [])?;
    let elsewhere = link(alloc, 2, [COperand::Var(0)])?;
    let null = Some(COperand::Const(CConst::Null));
    let mut blocks = Seq::new(alloc);
    blocks.push(block(
        alloc,
        [0],
        asks_null(alloc, LlType::Ptr(0))?,
        LlExit::If(1, there, elsewhere),
    )?)?;
    blocks.push(block(alloc, [], Seq::new(alloc), LlExit::Return(null))?)?;
    let given = Some(COperand::Var(made));
    blocks.push(block(alloc, [0], ops, LlExit::Return(given))?)?;
    Ok(blocks)
}

#[tactic(auto, unfolding(crate::specs::Graphs::cast_graph))]
fn cast_graph(alloc: Global, n: u64, made: VarId, body: Body) -> Result<LlGraph, NoMem>
    ensures { IfOk result (λ graph. graph ≡ spec.cast_graph n made body) }
{
    let Body { types, ops } = body;
    Ok(LlGraph {
        name: Text::from_bytes(alloc, b"tuple_as")?,
        params: variables(alloc, [0])?,
        result: LlType::Ptr(n),
        types,
        blocks: cast_blocks(alloc, made, ops)?,
    })
}

fn cast(alloc: Global, layout: &Layout, m: u64, n: u64, found: &mut Found) -> Result<LlGraph, NoMem>
    ensures { IfOk result (λ graph. Asks (spec.cast layout.now m n found.old) graph found.new) }
{
    let mut body = Body::new(alloc);
    body.types.push(LlType::Ptr(m))?;
    body.types.push(LlType::Bool)?;
    let items = cast_items(alloc, layout, m, n, found, &mut body)?;
    let made = body.fresh(LlType::Ptr(n))?;
    body.ops.push(LlOp::New(made, n, n))?;
    push_fields(n, made, items.as_slice(), &mut body)?;
    cast_graph(alloc, n, made, body)
}

// ---- equality

// A word that is not zero where the word is not, and the truth value holds.
fn and_word(all: COperand, same: COperand, body: &mut Body) -> Result<COperand, NoMem>
    ensures { IfOk result (λ x. Writes (spec.and_word all same body.old) x body.new) }
{
    let word = unary(CUnary::B2S, LlType::Signed, same, body)?;
    binary(CBinary::And, LlType::Signed, all, word, body)
}

// Whether the tuples that are variables 0 and 1 have equal items, as a word.
#[tactic(auto, unfolding(crate::specs::Graphs::equal_items))]
fn equal_items(
    alloc: Global,
    layout: &Layout,
    m: u64,
    n: u64,
    found: &mut Found,
    body: &mut Body,
) -> Result<COperand, NoMem>
    ensures { IfOk result (λ all. Gives (spec.equal_items layout.now m n (writing found.old body.old)) all found.new body.new) }
{
    let these = shared_fields(layout, m, n);
    let those = layout.fields(n);
    let mut all = COperand::Const(CConst::Word(1));
    let mut i: usize = 0;
    for field in these {
        let kind = field_at(those, i);
        let a = field_of(m, 0, i as u64, *field, body)?;
        let b = field_of(n, 1, i as u64, kind, body)?;
        let same = equal(alloc, layout, a, *field, b, kind, found, body)?;
        all = and_word(all, same, body)?;
        i += 1;
    }
    Ok(all)
}

#[tactic(auto, unfolding(crate::specs::Graphs::equality_graph))]
fn equality_graph(alloc: Global, answer: COperand, body: Body) -> Result<LlGraph, NoMem>
    ensures { IfOk result (λ graph. graph ≡ spec.equality_graph (answer, body)) }
{
    let Body { types, ops } = body;
    let mut blocks = Seq::new(alloc);
    blocks.push(block(alloc, [0, 1], ops, LlExit::Return(Some(answer)))?)?;
    Ok(LlGraph {
        name: Text::from_bytes(alloc, b"tuple_equal")?,
        params: variables(alloc, [0, 1])?,
        result: LlType::Bool,
        types,
        blocks,
    })
}

fn equality(
    alloc: Global,
    layout: &Layout,
    m: u64,
    n: u64,
    found: &mut Found,
) -> Result<LlGraph, NoMem>
    ensures { IfOk result (λ graph. Asks (spec.equality layout.now m n found.old) graph found.new) }
{
    let mut body = Body::new(alloc);
    body.types.push(LlType::Ptr(m))?;
    body.types.push(LlType::Ptr(n))?;
    let all = equal_items(alloc, layout, m, n, found, &mut body)?;
    let zero = COperand::Const(CConst::Word(0));
    let answer = binary(CBinary::Ne, LlType::Bool, all, zero, &mut body)?;
    equality_graph(alloc, answer, body)
}

// ---- failures

/// The class of the failure of what meets `None`.
pub const ATTRIBUTE_ERROR: ClassId = 9;

/// A block that fails, or raises the exception of the failure.
#[tactic(auto, unfolding(crate::specs::Graphs::failing))]
pub fn failing(
    alloc: Global,
    number: u32,
    class: ClassId,
    raises: bool,
    found: &mut Found,
) -> Result<LlBlock, NoMem>
    ensures { IfOk result (λ block. Asks (spec.failing number class raises found.old) block found.new) }
{
    let mut ops = Seq::new(alloc);
    if raises {
        let graph = small_number(Small::Raise(class), found)?;
        ops.push(LlOp::Call(None, graph, Seq::new(alloc)))?;
    }
    block(alloc, [], ops, LlExit::Fail(number))
}

fn failure(alloc: Global, raises: bool, found: &mut Found) -> Result<LlGraph, NoMem>
    ensures { IfOk result (λ graph. Asks (spec.failure raises found.old) graph found.new) }
{
    let mut blocks = Seq::new(alloc);
    blocks.push(failing(alloc, ATTRIBUTE, ATTRIBUTE_ERROR, raises, found)?)?;
    Ok(LlGraph {
        name: Text::from_bytes(alloc, b"fail")?,
        params: Seq::new(alloc),
        result: LlType::Void,
        types: Seq::new(alloc),
        blocks,
    })
}

// ---- what is not `None`

// Whether variable 0 is NULL, as variable 1.
pub fn asks_null(alloc: Global, kind: LlType) -> Result<Seq<LlOp>, NoMem>
    ensures { IfOk result (λ ops. ops ≡ spec.asks_null kind) }
{
    let op = if kind == LlType::Fn {
        CBinary::Feq
    } else {
        CBinary::Peq
    };
    let mut ops = Seq::new(alloc);
    let null = COperand::Const(CConst::Null);
    ops.push(LlOp::Binary(1, op, COperand::Var(0), null))?;
    Ok(ops)
}

fn present(alloc: Global, kind: LlType, raises: bool, found: &mut Found) -> Result<LlGraph, NoMem>
    ensures { IfOk result (λ graph. Asks (spec.present kind raises found.old) graph found.new) }
{
    let there = link(alloc, 1, [])?;
    let elsewhere = link(alloc, 2, [COperand::Var(0)])?;
    let mut blocks = Seq::new(alloc);
    let asked = asks_null(alloc, kind)?;
    blocks.push(block(alloc, [0], asked, LlExit::If(1, there, elsewhere))?)?;
    blocks.push(failing(alloc, ATTRIBUTE, ATTRIBUTE_ERROR, raises, found)?)?;
    let given = LlExit::Return(Some(COperand::Var(0)));
    blocks.push(block(alloc, [0], Seq::new(alloc), given)?)?;
    let mut types = Seq::new(alloc);
    types.push(kind)?;
    types.push(LlType::Bool)?;
    Ok(LlGraph {
        name: Text::from_bytes(alloc, b"present")?,
        params: variables(alloc, [0])?,
        result: kind,
        types,
        blocks,
    })
}

/// The graph of a small graph that asks nothing of classes.
pub fn small_graph(
    alloc: Global,
    layout: &Layout,
    small: Small,
    found: &mut Found,
) -> Result<LlGraph, NoMem>
    ensures { IfOk result (λ graph. Asks (smalls.small_graph layout.now small found.old) graph found.new) }
{
    match small {
        Small::Cast(m, n) => cast(alloc, layout, m, n, found),
        Small::Equal(m, n) => equality(alloc, layout, m, n, found),
        Small::Fail(raises) => failure(alloc, raises, found),
        Small::Present(kind, raises) => present(alloc, kind, raises, found),
        Small::Checked(op, raises) => checked_graph(alloc, op, raises, found),
        Small::CheckedNeg => checked_neg_graph(alloc, found),
        Small::IntOfText => int_graph(alloc, found),
        Small::New(_)
        | Small::Listed(_)
        | Small::Keyed(_)
        | Small::Attribute(_, _, _)
        | Small::Raise(_)
        | Small::IsInstance(_, _, _, _) => failure(alloc, false, found),
    }
}
