// The structs of a dict, and what its graphs are made of.
ghost use Rattle.std.specs.Prelude.{◌≡◌, IfOk, OnOk};
ghost use Rattle.rtyper_data.specs.Seen.{Asks, Writes};
ghost use Rattle.rtyper_dict.specs.Parts as spec;

use csub_tree::{CBinary, CConst, COperand, CUnary};
use ll_build::build::{call_of, word};
use ll_code::{LlOp, LlType, VarId};
use rpy_base::{NoMem, Seq};
use rtyper_data::compare::{binary, unary};
use rtyper_data::{Body, Found, Keyed, Small, small_number};
use rtyper_layout::{Layout, Mapping};
use std::alloc::Global;

pub const SIGNED: LlType = LlType::Signed;

pub const BOOL: LlType = LlType::Bool;

pub const ZERO: COperand = COperand::Const(CConst::Word(0));

pub const ONE: COperand = COperand::Const(CConst::Word(1));

/// The struct of a dict and those of its arrays; the types of keys and values, and those as which they stand in the
/// arrays; whether the second array holds the keys, and whether an index stands before it.
#[derive(Clone, Copy)]
pub struct DictShape {
    pub dict: u64,
    pub first: u64,
    pub second: u64,
    pub key: LlType,
    pub value: LlType,
    pub stored_key: LlType,
    pub stored_value: LlType,
    pub keys_last: bool,
    pub is_indexed: bool,
}

// ---- structs

#[tactic(auto, unfolding(crate::specs::Parts::shape_of))]
pub fn shape_of(m: Mapping) -> DictShape
    ensures { result ≡ spec.shape_of m }
{
    DictShape {
        dict: m.dict,
        first: m.first(),
        second: m.second(),
        key: m.key,
        value: m.value,
        stored_key: m.stored_key(),
        stored_value: m.stored_value(),
        keys_last: m.keys_last(),
        is_indexed: m.is_indexed(),
    }
}

/// The dict whose struct this is. No other number is asked for.
#[tactic(auto, unfolding(crate::specs::Parts::dict_at))]
pub fn dict_at(layout: &Layout, dict: u64) -> DictShape
    ensures { result ≡ spec.dict_at layout.now dict }
{
    match layout.mapping(dict) {
        None => shape_of(Mapping {
            dict,
            key: SIGNED,
            value: SIGNED,
        }),
        Some(mapping) => shape_of(mapping),
    }
}

impl DictShape {
    /// The type of the items of the first array.
    pub fn first_item(self) -> LlType
        ensures { result ≡ spec.first_item self }
    {
        if self.keys_last {
            self.stored_value
        } else {
            self.stored_key
        }
    }

    /// The type of the items of the second array.
    pub fn second_item(self) -> LlType
        ensures { result ≡ spec.second_item self }
    {
        if self.keys_last {
            self.stored_key
        } else {
            self.stored_value
        }
    }
}

// ---- the fields of a dict

pub fn count(into: VarId, d: DictShape, dict: VarId) -> LlOp
    ensures { result ≡ spec.count_read into d dict }
{
    LlOp::GetField(into, d.dict, dict, 0)
}

pub fn set_count(d: DictShape, dict: VarId, x: COperand) -> LlOp
    ensures { result ≡ spec.count_set d dict x }
{
    LlOp::SetField(d.dict, dict, 0, x)
}

pub fn places(into: VarId, d: DictShape, dict: VarId) -> LlOp
    ensures { result ≡ spec.places_read into d dict }
{
    LlOp::GetField(into, d.dict, dict, 1)
}

pub fn first(into: VarId, d: DictShape, dict: VarId) -> LlOp
    ensures { result ≡ spec.first_read into d dict }
{
    LlOp::GetField(into, d.dict, dict, 2)
}

pub fn second(into: VarId, d: DictShape, dict: VarId) -> LlOp
    ensures { result ≡ spec.second_read into d dict }
{
    LlOp::GetField(into, d.dict, dict, 3)
}

/// The length of a second array. The places for entries end there.
pub fn length(into: VarId, d: DictShape, second: VarId) -> LlOp
    ensures { result ≡ spec.length_read into d second }
{
    LlOp::GetField(into, d.second, second, 0)
}

/// The type of what stands for the first array, which is read where it holds the keys.
pub fn first_type(d: DictShape) -> LlType
    ensures { result ≡ spec.first_type d }
{
    if d.keys_last {
        SIGNED
    } else {
        LlType::Ptr(d.first)
    }
}

pub fn first_of_keys(into: VarId, d: DictShape, dict: VarId) -> LlOp
    ensures { result ≡ spec.first_of_keys into d dict }
{
    if d.keys_last {
        LlOp::Set(into, ZERO)
    } else {
        first(into, d, dict)
    }
}

/// The key that stands at a place of its array, which is one of these two.
pub fn key_of(into: VarId, d: DictShape, first: VarId, second: VarId, at: VarId) -> LlOp
    ensures { result ≡ spec.key_of into d first second at }
{
    if d.keys_last {
        LlOp::GetItem(into, d.second, second, COperand::Var(at))
    } else {
        LlOp::GetItem(into, d.first, first, COperand::Var(at))
    }
}

/// Where the key of an entry stands, from the entry's place and the length of the index.
pub fn key_at(into: VarId, d: DictShape, index: VarId, place: VarId) -> LlOp
    ensures { result ≡ spec.key_at into d index place }
{
    if d.keys_last {
        add(into, index, COperand::Var(place))
    } else {
        LlOp::Set(into, COperand::Var(place))
    }
}

// ---- words

pub fn add(into: VarId, v: VarId, x: COperand) -> LlOp
    ensures { result ≡ spec.add into v x }
{
    LlOp::Binary(into, CBinary::Add, COperand::Var(v), x)
}

pub fn sub(into: VarId, v: VarId, x: COperand) -> LlOp
    ensures { result ≡ spec.sub into v x }
{
    LlOp::Binary(into, CBinary::Sub, COperand::Var(v), x)
}

pub fn both(into: VarId, v: VarId, x: COperand) -> LlOp
    ensures { result ≡ spec.both into v x }
{
    LlOp::Binary(into, CBinary::And, COperand::Var(v), x)
}

pub fn less(into: VarId, v: VarId, x: COperand) -> LlOp
    ensures { result ≡ spec.less into v x }
{
    LlOp::Binary(into, CBinary::Lt, COperand::Var(v), x)
}

pub fn same(into: VarId, v: VarId, x: COperand) -> LlOp
    ensures { result ≡ spec.same into v x }
{
    LlOp::Binary(into, CBinary::Eq, COperand::Var(v), x)
}

// ---- calls

/// The number of a graph of dicts.
pub fn keyed_number(keyed: Keyed, found: &mut Found) -> Result<u64, NoMem>
    ensures { IfOk result (λ number. Asks (spec.keyed_number keyed found.old) number found.new) }
{
    small_number(Small::Keyed(keyed), found)
}

/// That of one that may not be needed.
#[tactic(auto, unfolding(crate::specs::Parts::number_if))]
pub fn number_if(needed: bool, keyed: Keyed, found: &mut Found) -> Result<Option<u64>, NoMem>
    ensures { IfOk result (λ number. Asks (spec.number_if needed keyed found.old) number found.new) }
{
    if needed {
        Ok(Some(keyed_number(keyed, found)?))
    } else {
        Ok(None)
    }
}

/// And a call of a graph that gives nothing, where there is one.
#[tactic(auto, unfolding(crate::specs::Parts::and_call))]
pub fn push_call<const N: usize>(
    alloc: Global,
    number: Option<u64>,
    xs: [COperand; N],
    ops: &mut Seq<LlOp>,
) -> Result<(), NoMem>
    ensures { OnOk result (ops.new ≡ spec.and_call number xs.entry ops.old) }
{
    match number {
        None => Ok(()),
        Some(number) => ops.push(call_of(alloc, None, number, xs)?),
    }
}

// ---- values as they stand in arrays

/// The value as one of an array, in which words stand for bools and chars.
#[tactic(auto, unfolding(crate::specs::Parts::stored))]
pub fn stored(kind: LlType, item: LlType, x: COperand, body: &mut Body) -> Result<COperand, NoMem>
    ensures { IfOk result (λ y. Writes (spec.stored kind item x body.old) y body.new) }
{
    if kind == item {
        return Ok(x);
    }
    match kind {
        LlType::Bool => unary(CUnary::B2S, SIGNED, x, body),
        _ => unary(CUnary::C2S, SIGNED, x, body),
    }
}

/// What stands in an array as a value of this type.
#[tactic(auto, unfolding(crate::specs::Parts::unstored))]
pub fn unstored(item: LlType, kind: LlType, x: COperand, body: &mut Body) -> Result<COperand, NoMem>
    ensures { IfOk result (λ y. Writes (spec.unstored item kind x body.old) y body.new) }
{
    if kind == item {
        return Ok(x);
    }
    match kind {
        LlType::Bool => binary(CBinary::Ne, BOOL, x, word(0), body),
        _ => unary(CUnary::S2C, kind, x, body),
    }
}
