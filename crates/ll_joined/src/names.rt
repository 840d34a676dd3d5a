// Operations with other names for their variables.
ghost use Rattle.std.specs.Prelude.{◌≡◌, ◌++◌, map, option_map, IfOk, OnOk};
ghost use Rattle.ll_joined.specs.Named as spec;

use csub_tree::COperand;
use ll_code::{LlExit, LlLink, LlOp, LlType, VarId};
use rpy_base::{NoMem, Seq};
use std::alloc::Global;

/// The names of variables: where one is the first of a pair, the second, or else its own; or what stands at its place.
/// Where a constant stands there, it takes the place of the variable where it can.
#[derive(Clone, Copy)]
pub enum Names<'a> {
    Pairs(&'a [(VarId, VarId)]),
    Places(&'a [VarId]),
    Values(&'a [COperand]),
}

fn by_pairs(pairs: &[(VarId, VarId)], v: VarId) -> VarId
    ensures { result ≡ spec.by_pairs pairs.now v }
{
    for pair in pairs {
        if pair.0 == v {
            return pair.1;
        }
    }
    v
}

impl<'a> Names<'a> {
    pub fn of(self, v: VarId) -> VarId
        ensures { result ≡ spec.name_of (spec.naming self.entry) v }
    {
        match self {
            Names::Pairs(pairs) => by_pairs(pairs, v),
            Names::Places(places) => match places.get(v as usize) {
                None => v,
                Some(place) => *place,
            },
            Names::Values(values) => match values.get(v as usize) {
                Some(COperand::Var(value)) => *value,
                _ => v,
            },
        }
    }

    fn value(self, v: VarId) -> COperand
        ensures { result ≡ spec.value_of (spec.naming self.entry) v }
    {
        match self {
            Names::Values(values) => match values.get(v as usize) {
                Some(value) => *value,
                None => COperand::Var(v),
            },
            names => COperand::Var(names.of(v)),
        }
    }

    pub fn operand(self, x: COperand) -> COperand
        ensures { result ≡ spec.operand_by (spec.naming self.entry) x }
    {
        match x {
            COperand::Var(v) => self.value(v),
            COperand::Const(c) => COperand::Const(c),
        }
    }
}

pub fn operands(alloc: Global, names: Names<'_>, xs: &[COperand]) -> Result<Seq<COperand>, NoMem>
    ensures { IfOk result (λ made. made ≡ map (spec.operand_by (spec.naming names.entry)) xs.now) }
{
    let mut named = Seq::new(alloc);
    for x in xs {
        named.push(names.operand(*x))?;
    }
    Ok(named)
}

pub fn variables(alloc: Global, names: Names<'_>, given: &[VarId]) -> Result<Seq<VarId>, NoMem>
    ensures { IfOk result (λ made. made ≡ map (spec.name_of (spec.naming names.entry)) given.now) }
{
    let mut named = Seq::new(alloc);
    for v in given {
        named.push(names.of(*v))?;
    }
    Ok(named)
}

/// The variables themselves.
pub fn copied(alloc: Global, given: &[VarId]) -> Result<Seq<VarId>, NoMem>
    ensures { IfOk result (λ made. made ≡ given.now) }
{
    let given = Vec::from_slice(alloc, given)?;
    Ok(Seq::from_vec(given))
}

// ---- operations

// One that calls nothing and reads or makes a block of memory, or else `ExcClear`.
fn of_memory(names: Names<'_>, op: &LlOp) -> LlOp
    ensures { result ≡ spec.of_memory (spec.naming names.entry) op.now }
{
    match op {
        LlOp::GetField(a, n, b, k) => LlOp::GetField(names.of(*a), *n, names.of(*b), *k),
        LlOp::SetField(n, b, k, x) => LlOp::SetField(*n, names.of(*b), *k, names.operand(*x)),
        LlOp::GetItem(a, n, b, i) => {
            LlOp::GetItem(names.of(*a), *n, names.of(*b), names.operand(*i))
        }
        LlOp::SetItem(n, b, i, x) => {
            LlOp::SetItem(*n, names.of(*b), names.operand(*i), names.operand(*x))
        }
        LlOp::New(a, m, n) => LlOp::New(names.of(*a), *m, *n),
        LlOp::NewArray(a, m, n, x) => LlOp::NewArray(names.of(*a), *m, *n, names.operand(*x)),
        LlOp::Free(a) => LlOp::Free(names.of(*a)),
        _ => LlOp::ExcClear,
    }
}

// One that calls nothing.
fn of_values(names: Names<'_>, op: &LlOp) -> LlOp
    ensures { result ≡ spec.of_values (spec.naming names.entry) op.now }
{
    match op {
        LlOp::Set(a, x) => LlOp::Set(names.of(*a), names.operand(*x)),
        LlOp::Unary(a, o, x) => LlOp::Unary(names.of(*a), *o, names.operand(*x)),
        LlOp::Binary(a, o, x, y) => {
            LlOp::Binary(names.of(*a), *o, names.operand(*x), names.operand(*y))
        }
        LlOp::Step(x) => LlOp::Step(names.operand(*x)),
        LlOp::ExcType(a, n) => LlOp::ExcType(names.of(*a), *n),
        LlOp::ExcValue(a, n) => LlOp::ExcValue(names.of(*a), *n),
        LlOp::ExcSet(a, b) => LlOp::ExcSet(names.of(*a), names.of(*b)),
        LlOp::Argc(a) => LlOp::Argc(names.of(*a)),
        LlOp::ArgLen(a, x) => LlOp::ArgLen(names.of(*a), names.operand(*x)),
        LlOp::Arg(a, x, y) => LlOp::Arg(names.of(*a), names.operand(*x), names.operand(*y)),
        LlOp::Put(x) => LlOp::Put(names.operand(*x)),
        LlOp::Raise(v) => LlOp::Raise(names.of(*v)),
        LlOp::GetField(_, _, _, _)
        | LlOp::SetField(_, _, _, _)
        | LlOp::GetItem(_, _, _, _)
        | LlOp::SetItem(_, _, _, _)
        | LlOp::New(_, _, _)
        | LlOp::NewArray(_, _, _, _)
        | LlOp::Free(_)
        | LlOp::Call(_, _, _)
        | LlOp::CallFn(_, _, _, _, _)
        | LlOp::ExcClear => of_memory(names, op),
    }
}

fn into(names: Names<'_>, a: Option<VarId>) -> Option<VarId>
    ensures { result ≡ option_map (spec.name_of (spec.naming names.entry)) a }
{
    match a {
        None => None,
        Some(a) => Some(names.of(a)),
    }
}

fn types(alloc: Global, kinds: &[LlType]) -> Result<Seq<LlType>, NoMem>
    ensures { IfOk result (λ made. made ≡ kinds.now) }
{
    let kinds = Vec::from_slice(alloc, kinds)?;
    Ok(Seq::from_vec(kinds))
}

/// An operation with these names.
pub fn named(alloc: Global, names: Names<'_>, op: &LlOp) -> Result<LlOp, NoMem>
    ensures { IfOk result (λ made. made ≡ spec.named (spec.naming names.entry) op.now) }
{
    match op {
        LlOp::Call(a, graph, xs) => {
            let xs = operands(alloc, names, xs.as_slice())?;
            Ok(LlOp::Call(into(names, *a), *graph, xs))
        }
        LlOp::CallFn(a, gives, takes, b, xs) => {
            let takes = types(alloc, takes.as_slice())?;
            let xs = operands(alloc, names, xs.as_slice())?;
            Ok(LlOp::CallFn(into(names, *a), *gives, takes, names.of(*b), xs))
        }
        _ => Ok(of_values(names, op)),
    }
}

/// These operations, behind those that are there.
pub fn push_named(
    alloc: Global,
    names: Names<'_>,
    ops: &[LlOp],
    all: &mut Seq<LlOp>,
) -> Result<(), NoMem>
    ensures { OnOk result (all.new ≡ all.old ++ map (spec.named (spec.naming names.entry)) ops.now) }
{
    for op in ops {
        all.push(named(alloc, names, op)?)?;
    }
    Ok(())
}

// ---- exits

/// The numbers of blocks: what stands at a number's place, or else that.
pub fn number_of(numbers: &[u64], to: u64) -> u64
    ensures { result ≡ spec.number_of numbers.now to }
{
    match numbers.get(to as usize) {
        None => to,
        Some(number) => *number,
    }
}

fn link(alloc: Global, names: Names<'_>, numbers: &[u64], given: &LlLink) -> Result<LlLink, NoMem>
    ensures { IfOk result (λ made. made ≡ spec.link_by (spec.naming names.entry) numbers.now given.now) }
{
    Ok(LlLink {
        to: number_of(numbers, given.to),
        args: operands(alloc, names, given.args.as_slice())?,
    })
}

fn link_or_none(
    alloc: Global,
    names: Names<'_>,
    numbers: &[u64],
    given: &Option<LlLink>,
) -> Result<Option<LlLink>, NoMem>
    ensures { IfOk result (λ made. made ≡ option_map (spec.link_by (spec.naming names.entry) numbers.now) given.now) }
{
    match given {
        None => Ok(None),
        Some(given) => Ok(Some(link(alloc, names, numbers, given)?)),
    }
}

/// An exit, which goes to blocks of these numbers.
pub fn exit(
    alloc: Global,
    names: Names<'_>,
    numbers: &[u64],
    given: &LlExit,
) -> Result<LlExit, NoMem>
    ensures { IfOk result (λ made. made ≡ spec.exit_by (spec.naming names.entry) numbers.now given.now) }
{
    match given {
        LlExit::Goto(to) => Ok(LlExit::Goto(link(alloc, names, numbers, to)?)),
        LlExit::If(v, there, elsewhere) => {
            let there = link(alloc, names, numbers, there)?;
            let elsewhere = link(alloc, names, numbers, elsewhere)?;
            Ok(LlExit::If(names.of(*v), there, elsewhere))
        }
        LlExit::OnRaise(v, caught, without) => {
            let caught = link_or_none(alloc, names, numbers, caught)?;
            let without = link(alloc, names, numbers, without)?;
            Ok(LlExit::OnRaise(names.of(*v), caught, without))
        }
        LlExit::Return(None) => Ok(LlExit::Return(None)),
        LlExit::Return(Some(x)) => Ok(LlExit::Return(Some(names.operand(*x)))),
        LlExit::Raise(v) => Ok(LlExit::Raise(names.of(*v))),
        LlExit::Fail(why) => Ok(LlExit::Fail(*why)),
        LlExit::Raised(v) => Ok(LlExit::Raised(names.of(*v))),
    }
}
