// What a test says of a local.
ghost use Rattle.std.specs.Prelude.{◌≡◌, ◌+◌, ◌||◌, ℕ, Bool, List, Some, IfOk};
ghost use Rattle.rpy_tree.specs.declared.program.Const.{Const as Literal};
ghost use Rattle.rpy_tree.specs.declared.program.Site.{Site};
ghost use Rattle.flow_trees.specs.Tells as tells;
ghost use Rattle.flow_trees.specs.Tree as tree;
ghost use Rattle.flow_space.specs.Trees.{expr_of, exprs_of, pairs_of, subject_of, condition_of, target_of, targets_of};
ghost use Rattle.flow_space.specs.Placed.{Part, NarrowedAt, AreArgs, narrowing_op, place_of, told_of, told_beside, local_in, jump_of};
ghost use Rattle.flow_space.specs.declared.narrow.Kind.TheVariants as kind;
ghost use Rattle.resolved_meaning.specs.Programs.{value_in};

use crate::code::{Code, Jump, Scope, jump_first, jump_stored, local_place, op_at};
use crate::places::{one, plus, two};
use rpy_base::{NoMem, Own, Seq};
use rpy_meaning::RowOp;
use rpy_resolved::{Expr, Subject, Target};
use rpy_tree::{ClassId, CmpOp, Const, NodeId};
use std::alloc::Global;

/// In a branch a local is what an operation gives of it, which is the same.
#[derive(Clone, Copy, Debug, PartialEq, Eq)]
pub struct Narrowing {
    pub kind: Kind,
    pub local: u32,
}

/// The operation. The last one has a side of a comparison beside the local.
#[derive(Clone, Copy, Debug, PartialEq, Eq)]
pub enum Kind {
    DropNone,
    OnlyNone,
    FalseNone,
    Lower(ClassId),
    NonNegative(Side),
}

#[derive(Clone, Copy, Debug, PartialEq, Eq)]
pub enum Side {
    Left,
    Right,
}

impl Kind {
    pub fn op(self) -> RowOp
        ensures { result ≡ narrowing_op self }
    {
        match self {
            Kind::DropNone => RowOp::DropNone,
            Kind::OnlyNone => RowOp::OnlyNone,
            Kind::FalseNone => RowOp::FalseNone,
            Kind::Lower(class) => RowOp::Lower(class),
            Kind::NonNegative(_) => RowOp::NonNegative,
        }
    }
}

fn local_of(e: &Expr) -> Option<u32>
    ensures { (sites : List Site) → result ≡ local_in (expr_of sites e.now) }
{
    match e {
        Expr::Local(_, local) => Some(*local),
        Expr::Constant(_, _) => None,
        Expr::Apply(_, _, _, _) => None,
        Expr::And(_, _, _) => None,
        Expr::Or(_, _, _) => None,
        Expr::Display(_, _, _) => None,
        Expr::Comprehension(_, _, _, _, _, _) => None,
    }
}

fn is_nothing(value: &Const) -> bool
    ensures { (sites : List Site) (node : ℕ) (whole : Literal) → result ≡ tells.is_none (tree.Constant node whole (value_in sites value.now)) }
{
    match value {
        Const::None => true,
        Const::Word(_) => false,
        Const::Bool(_) => false,
        Const::Str(_) => false,
        Const::Function(_) => false,
        Const::Tuple(_) => false,
        Const::List(_) => false,
        Const::Dict(_) => false,
    }
}

fn gives_none(op: &RowOp) -> bool
    ensures { (node : ℕ) (value : Bool) (es : tree.Exprs) → result ≡ tells.is_none (tree.Apply node value op.now es) }
{
    match op {
        RowOp::None => true,
        _ => false,
    }
}

fn is_none(e: &Expr) -> bool
    ensures { (sites : List Site) → result ≡ tells.is_none (expr_of sites e.now) }
{
    match e {
        Expr::Apply(_, _, op, _) => gives_none(op),
        Expr::Constant(_, value) => is_nothing(value),
        Expr::Local(_, _) => false,
        Expr::And(_, _, _) => false,
        Expr::Or(_, _, _) => false,
        Expr::Display(_, _, _) => false,
        Expr::Comprehension(_, _, _, _, _, _) => false,
    }
}

// ---- whether a comprehension in an expression binds a local

fn either(a: bool, b: bool) -> bool
    ensures { result ≡ (a || b) }
{
    a || b
}

#[cycle(binds)]
fn binds(e: &Expr, local: u32) -> bool
    ensures { (sites : List Site) → result ≡ tells.binds (expr_of sites e.now) local }
{
    match e {
        Expr::Local(_, _) => false,
        Expr::Constant(_, _) => false,
        Expr::Apply(_, _, _, es) => some_binds(es.as_slice(), local),
        Expr::And(_, a, b) => {
            let left = binds(a.get(), local);
            let right = binds(b.get(), local);
            either(left, right)
        }
        Expr::Or(_, a, b) => {
            let left = binds(a.get(), local);
            let right = binds(b.get(), local);
            either(left, right)
        }
        Expr::Display(_, _, pairs) => pairs_bind(pairs.as_slice(), local),
        Expr::Comprehension(_, _, item, target, subject, condition) => {
            let by_item = binds(item.get(), local);
            let by_target = target_binds(target.get(), local);
            let by_subject = subject_binds(subject.get(), local);
            let by_condition = condition_binds(condition, local);
            let walk = either(by_subject, by_condition);
            either(by_item, either(by_target, walk))
        }
    }
}

#[cycle(binds)]
fn some_binds(es: &[Expr], local: u32) -> bool
    ensures { (sites : List Site) → result ≡ tells.some_bind (exprs_of sites es.now) local }
{
    match es {
        [] => false,
        [e, rest @ ..] => {
            let first = binds(e, local);
            let others = some_binds(rest, local);
            either(first, others)
        }
    }
}

#[cycle(binds)]
fn pairs_bind(pairs: &[(Expr, Expr)], local: u32) -> bool
    ensures { (sites : List Site) → result ≡ tells.pairs_bind (pairs_of sites pairs.now) local }
{
    match pairs {
        [] => false,
        [pair, rest @ ..] => {
            let key = binds(&pair.0, local);
            let value = binds(&pair.1, local);
            let others = pairs_bind(rest, local);
            either(key, either(value, others))
        }
    }
}

#[cycle(binds)]
fn subject_binds(subject: &Subject, local: u32) -> bool
    ensures { (sites : List Site) → result ≡ tells.subject_binds (subject_of sites subject.now) local }
{
    match subject {
        Subject::Over(_, e) => binds(e, local),
        Subject::UpTo(e) => binds(e, local),
        Subject::FromTo(a, b, _) => {
            let left = binds(a, local);
            let right = binds(b, local);
            either(left, right)
        }
    }
}

#[cycle(binds)]
fn condition_binds(condition: &Option<Own<Expr>>, local: u32) -> bool
    ensures { (sites : List Site) → result ≡ tells.condition_binds (condition_of sites condition.now) local }
{
    match condition {
        None => false,
        Some(e) => binds(e.get(), local),
    }
}

#[cycle(binds)]
fn target_binds(target: &Target, local: u32) -> bool
    ensures { (sites : List Site) → result ≡ tells.target_binds (target_of sites target.now) local }
{
    match target {
        Target::Name(_, bound) => *bound == local,
        Target::Attr(_, e, _) => binds(e, local),
        Target::Item(_, a, i) => {
            let left = binds(a, local);
            let right = binds(i, local);
            either(left, right)
        }
        Target::Parts(_, parts) => parts_bind(parts.as_slice(), local),
    }
}

#[cycle(binds)]
fn parts_bind(parts: &[Target], local: u32) -> bool
    ensures { (sites : List Site) → result ≡ tells.targets_bind (targets_of sites parts.now) local }
{
    match parts {
        [] => false,
        [part, rest @ ..] => {
            let first = target_binds(part, local);
            let others = parts_bind(rest, local);
            either(first, others)
        }
    }
}

// ---- tests

fn says(kind: Kind, local: u32) -> Option<Narrowing>
    ensures { result ≡ Some (record { kind = kind; local = local }) }
{
    Some(Narrowing { kind, local })
}

// A local that is one side of a comparison is not below zero where the other side is not, which has
// bound it or not meanwhile.
fn beside_told(local: u32, side: Side, bound: bool) -> Option<Narrowing>
    ensures { told_of result ≡ told_beside local side bound }
{
    if bound {
        None
    } else {
        says(Kind::NonNegative(side), local)
    }
}

fn beside(local: &Expr, other: &Expr, side: Side) -> Option<Narrowing>
    ensures { (sites : List Site) → told_of result ≡ tells.at_least (expr_of sites local.now) (expr_of sites other.now) (place_of side) }
{
    match local_of(local) {
        None => None,
        Some(local) => beside_told(local, side, binds(other, local)),
    }
}

// Of `a < b` and `a <= b`, where true, the right side is the greater one; where false, the left. Of
// `a > b` and `a >= b` the other way round.
fn less(a: &Expr, b: &Expr, truth: bool) -> Option<Narrowing>
    ensures { (sites : List Site) → told_of result ≡ tells.of_less (expr_of sites a.now) (expr_of sites b.now) truth }
{
    if truth {
        beside(b, a, Side::Left)
    } else {
        beside(a, b, Side::Right)
    }
}

// `v is None`.
fn none_told(local: u32, named: bool, truth: bool) -> Option<Narrowing>
    ensures { told_of result ≡ tells.of_none (tree.Local 0 local) named truth }
{
    if !named {
        None
    } else if truth {
        says(Kind::OnlyNone, local)
    } else {
        says(Kind::DropNone, local)
    }
}

fn none_test(a: &Expr, b: &Expr, truth: bool) -> Option<Narrowing>
    ensures { (sites : List Site) → told_of result ≡ tells.of_none (expr_of sites a.now) (tells.is_none (expr_of sites b.now)) truth }
{
    match local_of(a) {
        None => None,
        Some(local) => none_told(local, is_none(b), truth),
    }
}

fn compared(op: CmpOp, a: &Expr, b: &Expr, truth: bool) -> Option<Narrowing>
    ensures { (sites : List Site) → told_of result ≡ tells.of_comparison op (expr_of sites a.now) (expr_of sites b.now) truth }
{
    match op {
        CmpOp::Lt => less(a, b, truth),
        CmpOp::Le => less(a, b, truth),
        CmpOp::Gt => less(a, b, !truth),
        CmpOp::Ge => less(a, b, !truth),
        CmpOp::Is => none_test(a, b, truth),
        CmpOp::IsNot => none_test(a, b, !truth),
        CmpOp::Eq => None,
        CmpOp::Ne => None,
        CmpOp::Within => None,
        CmpOp::NotWithin => None,
    }
}

// The truth of a local.
fn truth_test(local: u32, truth: bool) -> Option<Narrowing>
    ensures { told_of result ≡ tells.of_truth local truth }
{
    if truth {
        says(Kind::DropNone, local)
    } else {
        says(Kind::FalseNone, local)
    }
}

// `isinstance(v, C)`, where it is true.
fn class_told(class: u32, local: u32, truth: bool) -> Option<Narrowing>
    ensures { told_of result ≡ tells.of_class class (tree.Local 0 local) truth }
{
    if truth {
        says(Kind::Lower(class), local)
    } else {
        None
    }
}

fn instance_test(class: u32, a: &Expr, truth: bool) -> Option<Narrowing>
    ensures { (sites : List Site) → told_of result ≡ tells.of_class class (expr_of sites a.now) truth }
{
    match local_of(a) {
        None => None,
        Some(local) => class_told(class, local, truth),
    }
}

fn applied(op: &RowOp, es: &[Expr], truth: bool) -> Option<Narrowing>
    ensures { (sites : List Site) → told_of result ≡ tells.of_operation op.now (exprs_of sites es.now) truth }
{
    match op {
        RowOp::IsInstance(class) => match es {
            [a] => instance_test(*class, a, truth),
            _ => None,
        },
        RowOp::Compare(op) => match es {
            [a, b] => compared(*op, a, b, truth),
            _ => None,
        },
        _ => None,
    }
}

/// What a test says of a local in its branch, `not`, `and` and `or` aside.
pub fn narrowed(e: &Expr, truth: bool) -> Option<Narrowing>
    ensures { (sites : List Site) → told_of result ≡ tells.tells (expr_of sites e.now) truth }
{
    match e {
        Expr::Local(_, local) => truth_test(*local, truth),
        Expr::Apply(_, _, op, es) => applied(op, es.as_slice(), truth),
        Expr::Constant(_, _) => None,
        Expr::And(_, _, _) => None,
        Expr::Or(_, _, _) => None,
        Expr::Display(_, _, _) => None,
        Expr::Comprehension(_, _, _, _, _, _) => None,
    }
}

// ---- operations that narrow

fn has_side(narrowing: Option<Narrowing>) -> bool
    ensures { result ≡ tells.has_beside (told_of narrowing) }
{
    match narrowing {
        None => false,
        Some(narrowing) => match narrowing.kind {
            Kind::NonNegative(_) => true,
            Kind::DropNone => false,
            Kind::OnlyNone => false,
            Kind::FalseNone => false,
            Kind::Lower(_) => false,
        },
    }
}

// Whether what a test says needs a side of its comparison.
fn needs_side(e: &Expr, truth: bool) -> bool
    ensures { (sites : List Site) → result ≡ tells.has_beside (tells.tells (expr_of sites e.now) truth) }
{
    has_side(narrowed(e, truth))
}

// Whether the two sides of a comparison are needed after it.
pub fn needs_sides(e: &Expr) -> bool
    ensures { (sites : List Site) → result ≡ tells.asks_beside (expr_of sites e.now) }
{
    let there = needs_side(e, true);
    let elsewhere = needs_side(e, false);
    either(there, elsewhere)
}

// The place of a side of a comparison whose left side is at m.
fn side_place(m: usize, side: Side) -> Result<usize, NoMem>
    ensures { IfOk result (λ place. place ≡ m + place_of side) }
{
    match side {
        Side::Left => plus(m, 0),
        Side::Right => plus(m, 1),
    }
}

// The local and a side of a comparison, which stands before its value.
fn beside_args(
    alloc: Global,
    local: usize,
    side: Side,
    m: usize,
    value: usize,
) -> Result<Seq<usize>, NoMem>
    ensures { IfOk result (λ args. AreArgs (kind.NonNegative side) args local m value) }
{
    let place = side_place(m, side)?;
    if place <= value {
        two(alloc, local, place)
    } else {
        Err(NoMem)
    }
}

fn narrowing_args(
    alloc: Global,
    local: usize,
    kind: Kind,
    m: usize,
    value: usize,
) -> Result<Seq<usize>, NoMem>
    ensures { IfOk result (λ args. AreArgs kind args local m value) }
{
    match kind {
        Kind::NonNegative(side) => beside_args(alloc, local, side, m, value),
        Kind::DropNone => one(alloc, local),
        Kind::OnlyNone => one(alloc, local),
        Kind::FalseNone => one(alloc, local),
        Kind::Lower(_) => one(alloc, local),
    }
}

// A block in which the local is narrowed, where the value that was tested is at a place.
pub fn put_narrowing(
    alloc: Global,
    code: &mut Code,
    scope: &Scope,
    node: NodeId,
    narrowing: Narrowing,
    m: usize,
    value: usize,
    to: u64,
) -> Result<Jump, NoMem>
    ensures { IfOk result (λ jump. Part code.old.blocks code.new.blocks (NarrowedAt scope.now node narrowing m value to (jump_of jump))) }
{
    let count = plus(value, 1)?;
    let local = local_place(scope, narrowing.local)?;
    let args = narrowing_args(alloc, local, narrowing.kind, m, value)?;
    let jump = jump_stored(alloc, to, m, narrowing.local, count)?;
    let of = op_at(node, false, narrowing.kind.op());
    let block = code.put_op(alloc, scope, of, args, count, jump)?;
    jump_first(alloc, block, count)
}
