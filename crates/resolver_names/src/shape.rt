// What single forms of expressions and targets are made of.
ghost use Rattle.std.specs.Prelude.{◌≡◌, ℕ, ◌+◌, ◌<◌, ◌≤◌, [], ◌∷◌, true, sum_by, option_map, IfOk, IfSome};
ghost use Rattle.rpy_tree.specs.Size.{expr_nodes};
ghost use Rattle.rpy_tree.specs.declared.syntax.Expr.{out-Expr};
ghost use Rattle.rpy_meaning.specs.Resolved as meaning;
ghost use Rattle.resolver_names.specs.Nodes.{values, bound_values, one_at, node_at};
ghost use Rattle.resolver_names.specs.Told.{Knows, the_names, tree_of, aim_of};
ghost use Rattle.resolver_names.specs.Forms as form;

use crate::names::{Names, meaningless};
use rpy_base::{NoMem, Seq};
use rpy_meaning::RowOp;
use rpy_resolved::{Expr, Target};
use rpy_tree as syntax;
use rpy_tree::{BinOp, Builtin, ClassId, NodeId, UnOp, Use};
use std::alloc::Global;

/// The node of an expression.
pub fn node_of(e: &syntax::Expr) -> NodeId
    ensures { result ≡ meaning.node_of e.now }
{
    match e {
        syntax::Expr::Int(node, _) => *node,
        syntax::Expr::Str(node, _) => *node,
        syntax::Expr::Name(node, _) => *node,
        syntax::Expr::Unary(node, _, _) => *node,
        syntax::Expr::Binary(node, _, _, _) => *node,
        syntax::Expr::Compare(node, _, _, _) => *node,
        syntax::Expr::Logic(node, _, _, _) => *node,
        syntax::Expr::Not(node, _) => *node,
        syntax::Expr::Call(node, _, _) => *node,
        syntax::Expr::Attr(node, _, _) => *node,
        syntax::Expr::Index(node, _, _) => *node,
        syntax::Expr::Slice(node, _, _, _) => *node,
        syntax::Expr::Tuple(node, _) => *node,
        syntax::Expr::List(node, _) => *node,
        syntax::Expr::Dict(node, _) => *node,
        syntax::Expr::Comp(node, _, _, _, _) => *node,
    }
}

/// An operation on one operand.
pub fn one_of(alloc: Global, node: NodeId, op: RowOp, a: Expr) -> Result<Expr, NoMem>
    ensures { IfOk result (λ made. made ≡ Expr.Apply node true op (a ∷ [])) }
{
    let mut parts = Seq::new(alloc);
    parts.push(a)?;
    Ok(Expr::Apply(node, true, op, parts))
}

/// An operation on two operands.
pub fn two_of(alloc: Global, node: NodeId, op: RowOp, a: Expr, b: Expr) -> Result<Expr, NoMem>
    ensures { IfOk result (λ made. made ≡ Expr.Apply node true op (a ∷ b ∷ [])) }
{
    let mut parts = Seq::new(alloc);
    parts.push(a)?;
    parts.push(b)?;
    Ok(Expr::Apply(node, true, op, parts))
}

/// The site of a sum or product.
pub fn binary_of(names: &Names<'_>, node: NodeId, op: BinOp) -> RowOp
    requires { Knows names.now }
    ensures { result ≡ meaning.binary_of (the_names names.now) node op }
{
    match op {
        BinOp::Add => RowOp::Binary(op, names.site(node)),
        BinOp::Mul => RowOp::Binary(op, names.site(node)),
        _ => RowOp::Binary(op, None),
    }
}

/// The integer literal that an expression is.
pub fn literal_of(e: &syntax::Expr) -> Option<i64>
    ensures { result ≡ form.literal_in (out-Expr e.now) }
{
    match e {
        syntax::Expr::Int(_, word) => Some(*word),
        _ => None,
    }
}

/// Whether an expression is the negation of the literal one.
pub fn is_minus_one(e: &syntax::Expr) -> bool
    ensures { result ≡ form.minus_in (out-Expr e.now) }
{
    match e {
        syntax::Expr::Unary(_, UnOp::Neg, a) => literal_of(a.get()) == Some(1),
        _ => false,
    }
}

/// The operation that a builtin function is.
pub fn builtin_op(builtin: Builtin) -> Option<RowOp>
    ensures { result ≡ meaning.builtin_op builtin }
{
    match builtin {
        Builtin::Len => Some(RowOp::Len),
        Builtin::Ord => Some(RowOp::Ord),
        Builtin::Chr => Some(RowOp::Chr),
        Builtin::Str => Some(RowOp::ToStr),
        Builtin::Int => Some(RowOp::ToInt),
        Builtin::Bool => Some(RowOp::Truth),
        Builtin::Min => Some(RowOp::Min),
        Builtin::Max => Some(RowOp::Max),
        Builtin::Intmask => Some(RowOp::Intmask),
        Builtin::OsWrite => Some(RowOp::Write),
        _ => None,
    }
}

/// The call of a function by its name, perhaps as an attribute of a class.
pub fn function_op(class: Option<ClassId>, function: u32) -> RowOp
    ensures { result ≡ form.function_op class function }
{
    match class {
        None => RowOp::Call(function),
        Some(class) => RowOp::CallOf(class, function),
    }
}

// The operation of `ovfcheck` on this one.
fn checked_op(op: &RowOp) -> Option<RowOp>
    ensures { result ≡ form.checked_op op.now }
{
    match op {
        RowOp::Unary(UnOp::Neg) => Some(RowOp::CheckedNeg),
        RowOp::Binary(op, _) => Some(RowOp::Checked(*op)),
        _ => None,
    }
}

/// `ovfcheck` of an operation: that operation, whose failures have its own node, with its test.
#[tactic(auto, using(crate::proofs::Making::apply_made, crate::proofs::Plain::unchecked, crate::proofs::Plain::checking))]
pub fn checked(alloc: Global, names: &Names<'_>, node: NodeId, e: Expr) -> Result<Expr, NoMem>
    ensures tree { IfOk result (λ made. tree_of names.now made ≡ meaning.checked_of (tree_of names.now e)) }
    ensures nodes { IfOk result (λ made. (k : ℕ) → values k made ≤ one_at k node + values k e) }
{
    match e {
        Expr::Apply(inner, value, op, parts) => match checked_op(&op) {
            None => Ok(meaningless(alloc, node)),
            Some(op) => one_of(
                alloc,
                node,
                RowOp::Copy,
                Expr::Apply(inner, value, op, parts),
            ),
        },
        _ => Ok(meaningless(alloc, node)),
    }
}

/// Whether a callee is `range` or `xrange`.
pub fn is_range(names: &Names<'_>, callee: &syntax::Expr) -> bool
    requires { Knows names.now }
    ensures { result ≡ form.is_range (the_names names.now) (out-Expr callee.now) }
{
    match callee {
        syntax::Expr::Name(m, _) => match names.meant(*m) {
            Use::Builtin(Builtin::Range) => true,
            Use::Builtin(Builtin::Xrange) => true,
            _ => false,
        },
        _ => false,
    }
}

/// The arguments of a call of `range` or `xrange`.
pub fn range_args<'a>(names: &Names<'_>, e: &'a syntax::Expr) -> Option<&'a [syntax::Expr]>
    requires { Knows names.now }
    ensures args { option_map (λ args. args.now) result ≡ form.range_args (the_names names.now) (out-Expr e.now) }
    ensures smaller { IfSome result (λ args. sum_by expr_nodes args.now < expr_nodes e.now) }
{
    match e {
        syntax::Expr::Call(_, callee, args) => {
            if is_range(names, callee.get()) {
                Some(args.as_slice())
            } else {
                None
            }
        }
        _ => None,
    }
}

/// The local that a name is bound to.
pub fn bound_name(alloc: Global, names: &Names<'_>, n: NodeId) -> Target
    requires { Knows names.now }
    ensures aim { aim_of names.now result ≡ meaning.bound_name (the_names names.now) ((the_names names.now).meant n) }
    ensures nodes { (k : ℕ) → bound_values k result ≤ node_at k names.now.first n }
{
    match names.meant(n) {
        Use::Local(local) => Target::Name(names.node(n), *local),
        _ => Target::Parts(names.node(n), Seq::new(alloc)),
    }
}
