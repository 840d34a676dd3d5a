// Expressions and targets.
ghost use Rattle.std.specs.Prelude.{◌≡◌, ℕ, ◌+◌, ◌≤◌, ◌++◌, true, map, option_map, IfOk, OnOk};
ghost use Rattle.rpy_tree.specs.declared.syntax.Expr.{out-Expr};
ghost use Rattle.rpy_meaning.specs.Resolved as meaning;
ghost use Rattle.rpy_meaning.specs.Resolved.{expr_by, said_by, target_by};
ghost use Rattle.rpy_meaning.specs.declared.row.RowOp.TheVariants as row;
ghost use Rattle.rpy_meaning.specs.Tree as tree;
ghost use Rattle.resolved_laws.specs.Uncopied.{bare};
ghost use Rattle.resolver_names.specs.Told.{Knows, the_names, tree_of, walked_of, aim_of};
ghost use Rattle.resolver_names.specs.Forms.{both, range_or};
ghost use Rattle.resolver_names.specs.Nodes.{total, pair_total, if_some, values, walked_values, bound_values, node_at, nodes, nodes_if, target_nodes};
ghost use Rattle.rpy_tree.specs.declared.program.Builtin.TheVariants as builtin_of;
ghost use Rattle.resolved_meaning.specs.Trees.{pairs as pairs_tree, condition as condition_tree};
ghost use Rattle.rpy_resolver.specs.Parts.{parts, and_or};

use resolver_names::{
    Names, binary_of, bound_name, builtin_op, checked, function_op, is_minus_one, leaf, literal_of,
    meaningless, named_value, node_of, one_of, range_args, two_of,
};
use rpy_base::{NoMem, Own, Seq, Text};
use rpy_meaning::RowOp;
use rpy_resolved::{Expr, Subject, Target};
use rpy_tree as syntax;
use rpy_tree::{Builtin, ClassId, NodeId, Use};
use std::alloc::Global;

/// An expression of a module, with its names bound.
#[cycle(expr)]
pub fn resolve_expr(alloc: Global, names: &Names<'_>, e: &syntax::Expr) -> Result<Expr, NoMem>
    requires { Knows names.now }
    ensures tree { IfOk result (λ made. tree_of names.now made ≡ expr_by (the_names names.now) e.now) }
    ensures nodes { IfOk result (λ made. (k : ℕ) → values k made ≤ nodes k names.now.first e.now) }
{
    match e {
        syntax::Expr::Int(n, word) => Ok(leaf(alloc, names.node(*n), true, RowOp::Word(*word))),
        syntax::Expr::Str(n, text) => {
            Ok(leaf(alloc, names.node(*n), true, RowOp::Str(text.copy(alloc)?)))
        }
        syntax::Expr::Name(n, _) => named_value(alloc, names, names.node(*n), names.meant(*n)),
        syntax::Expr::Unary(n, op, a) => resolve_one(alloc, names, *n, RowOp::Unary(*op), a.get()),
        syntax::Expr::Binary(n, op, a, b) => {
            let op = binary_of(names, *n, *op);
            resolve_two(alloc, names, *n, op, a.get(), b.get())
        }
        syntax::Expr::Compare(n, op, a, b) => {
            resolve_two(alloc, names, *n, RowOp::Compare(*op), a.get(), b.get())
        }
        syntax::Expr::Logic(n, is_and, a, b) => {
            resolve_logic(alloc, names, *n, *is_and, a.get(), b.get())
        }
        syntax::Expr::Not(n, a) => resolve_one(alloc, names, *n, RowOp::Not, a.get()),
        syntax::Expr::Call(n, callee, args) => {
            resolve_call(alloc, names, *n, callee.get(), args.as_slice())
        }
        syntax::Expr::Attr(n, a, name) => resolve_attr(alloc, names, *n, a.get(), name),
        syntax::Expr::Index(n, a, i) => {
            let op = RowOp::Index(literal_of(i.get()));
            resolve_two(alloc, names, *n, op, a.get(), i.get())
        }
        syntax::Expr::Slice(n, a, low, high) => resolve_slice(alloc, names, *n, a.get(), low, high),
        syntax::Expr::Tuple(n, items) => {
            resolve_all(alloc, names, *n, RowOp::Tuple, items.as_slice())
        }
        syntax::Expr::List(n, items) => {
            let op = RowOp::List(names.made(*n));
            resolve_all(alloc, names, *n, op, items.as_slice())
        }
        syntax::Expr::Dict(n, pairs) => resolve_dict(alloc, names, *n, pairs.as_slice()),
        syntax::Expr::Comp(n, item, target, subject, condition) => {
            let target = target.get();
            resolve_comp(
                alloc,
                names,
                *n,
                item.get(),
                target,
                subject.get(),
                condition,
            )
        }
    }
}

#[cycle(expr)]
fn resolve_dict(
    alloc: Global,
    names: &Names<'_>,
    n: NodeId,
    pairs: &[(syntax::Expr, syntax::Expr)],
) -> Result<Expr, NoMem>
    requires { Knows names.now }
    ensures tree { IfOk result (λ made. tree_of names.now made ≡ tree.Display (meaning.made_at (the_names names.now) n) (pairs_tree (map (both (expr_by (the_names names.now))) pairs.now))) }
    ensures nodes { IfOk result (λ made. (k : ℕ) → values k made ≤ node_at k names.now.first n + pair_total (map (both (nodes k names.now.first)) pairs.now)) }
{
    let pairs = resolve_pairs(alloc, names, pairs)?;
    Ok(Expr::Display(names.node(n), names.made(n), pairs))
}

#[cycle(expr)]
fn resolve_comp(
    alloc: Global,
    names: &Names<'_>,
    n: NodeId,
    item: &syntax::Expr,
    target: &syntax::Target,
    subject: &syntax::Expr,
    condition: &Option<Own<syntax::Expr>>,
) -> Result<Expr, NoMem>
    requires { Knows names.now }
    ensures tree { IfOk result (λ made. tree_of names.now made ≡ tree.Comprehension (meaning.made_at (the_names names.now) n) (expr_by (the_names names.now) item.now) (target_by (the_names names.now) target.now) (meaning.subject_of ((the_names names.now).walk n) (said_by (the_names names.now) subject.now)) (condition_tree (option_map (expr_by (the_names names.now)) condition.now))) }
    ensures nodes { IfOk result (λ made. (k : ℕ) → values k made ≤ node_at k names.now.first n + nodes k names.now.first item.now + target_nodes k names.now.first target.now + nodes k names.now.first subject.now + nodes_if k names.now.first condition.now) }
{
    let item = resolve_own(alloc, names, item)?;
    let target = Own::new(alloc, resolve_target(alloc, names, target)?)?;
    let subject = Own::new(
        alloc,
        resolve_subject(alloc, names, names.walk(n), subject)?,
    )?;
    let condition = resolve_option(alloc, names, condition)?;
    Ok(Expr::Comprehension(
        names.node(n),
        names.made(n),
        item,
        target,
        subject,
        condition,
    ))
}

#[cycle(expr)]
fn resolve_own(alloc: Global, names: &Names<'_>, e: &syntax::Expr) -> Result<Own<Expr>, NoMem>
    requires { Knows names.now }
    ensures tree { IfOk result (λ made. tree_of names.now made ≡ expr_by (the_names names.now) e.now) }
    ensures nodes { IfOk result (λ made. (k : ℕ) → values k made ≤ nodes k names.now.first e.now) }
{
    let e = resolve_expr(alloc, names, e)?;
    Own::new(alloc, e)
}

#[cycle(expr)]
fn resolve_option(
    alloc: Global,
    names: &Names<'_>,
    e: &Option<Own<syntax::Expr>>,
) -> Result<Option<Own<Expr>>, NoMem>
    requires { Knows names.now }
    ensures tree { IfOk result (λ made. option_map (tree_of names.now) made ≡ option_map (expr_by (the_names names.now)) e.now) }
    ensures nodes { IfOk result (λ made. (k : ℕ) → if_some (option_map (values k) made) ≤ nodes_if k names.now.first e.now) }
{
    match e {
        None => Ok(None),
        Some(e) => Ok(Some(resolve_own(alloc, names, e.get())?)),
    }
}

#[cycle(expr)]
pub fn resolve_exprs(
    alloc: Global,
    names: &Names<'_>,
    es: &[syntax::Expr],
    parts: &mut Seq<Expr>,
) -> Result<(), NoMem>
    requires { Knows names.now }
    ensures tree { OnOk result (map (tree_of names.now) parts.new ≡ map (tree_of names.now) parts.old ++ map (expr_by (the_names names.now)) es.now) }
    ensures nodes { OnOk result ((k : ℕ) → total (map (values k) parts.new) ≤ total (map (values k) parts.old) + total (map (nodes k names.now.first) es.now)) }
{
    for e in es {
        let e = resolve_expr(alloc, names, e)?;
        parts.push(e)?;
    }
    Ok(())
}

#[cycle(expr)]
fn resolve_pair(
    alloc: Global,
    names: &Names<'_>,
    pair: &(syntax::Expr, syntax::Expr),
) -> Result<(Expr, Expr), NoMem>
    requires { Knows names.now }
    ensures tree { IfOk result (λ made. both (tree_of names.now) made ≡ both (expr_by (the_names names.now)) pair.now) }
    ensures nodes { IfOk result (λ made. (k : ℕ) → values k made.0 + values k made.1 ≤ nodes k names.now.first pair.now.0 + nodes k names.now.first pair.now.1) }
{
    let key = resolve_expr(alloc, names, &pair.0)?;
    let value = resolve_expr(alloc, names, &pair.1)?;
    Ok((key, value))
}

#[cycle(expr)]
fn resolve_pairs(
    alloc: Global,
    names: &Names<'_>,
    pairs: &[(syntax::Expr, syntax::Expr)],
) -> Result<Seq<(Expr, Expr)>, NoMem>
    requires { Knows names.now }
    ensures tree { IfOk result (λ made. map (both (tree_of names.now)) made ≡ map (both (expr_by (the_names names.now))) pairs.now) }
    ensures nodes { IfOk result (λ made. (k : ℕ) → pair_total (map (both (values k)) made) ≤ pair_total (map (both (nodes k names.now.first)) pairs.now)) }
{
    let mut parts = Seq::new(alloc);
    for pair in pairs {
        let pair = resolve_pair(alloc, names, pair)?;
        parts.push(pair)?;
    }
    Ok(parts)
}

#[cycle(expr)]
fn resolve_one(
    alloc: Global,
    names: &Names<'_>,
    n: NodeId,
    op: RowOp,
    a: &syntax::Expr,
) -> Result<Expr, NoMem>
    requires { Knows names.now }
    ensures tree { IfOk result (λ made. tree_of names.now made ≡ bare op (tree.more (expr_by (the_names names.now) a.now) tree.none)) }
    ensures nodes { IfOk result (λ made. (k : ℕ) → values k made ≤ node_at k names.now.first n + nodes k names.now.first a.now) }
{
    let a = resolve_expr(alloc, names, a)?;
    one_of(alloc, names.node(n), op, a)
}

#[cycle(expr)]
fn resolve_two(
    alloc: Global,
    names: &Names<'_>,
    n: NodeId,
    op: RowOp,
    a: &syntax::Expr,
    b: &syntax::Expr,
) -> Result<Expr, NoMem>
    requires { Knows names.now }
    ensures tree { IfOk result (λ made. tree_of names.now made ≡ bare op (tree.more (expr_by (the_names names.now) a.now) (tree.more (expr_by (the_names names.now) b.now) tree.none))) }
    ensures nodes { IfOk result (λ made. (k : ℕ) → values k made ≤ node_at k names.now.first n + nodes k names.now.first a.now + nodes k names.now.first b.now) }
{
    let a = resolve_expr(alloc, names, a)?;
    let b = resolve_expr(alloc, names, b)?;
    two_of(alloc, names.node(n), op, a, b)
}

#[cycle(expr)]
fn resolve_all(
    alloc: Global,
    names: &Names<'_>,
    n: NodeId,
    op: RowOp,
    es: &[syntax::Expr],
) -> Result<Expr, NoMem>
    requires { Knows names.now }
    ensures tree { IfOk result (λ made. tree_of names.now made ≡ bare op (meaning.exprs (map (expr_by (the_names names.now)) es.now))) }
    ensures nodes { IfOk result (λ made. (k : ℕ) → values k made ≤ node_at k names.now.first n + total (map (nodes k names.now.first) es.now)) }
{
    let mut parts = Seq::new(alloc);
    resolve_exprs(alloc, names, es, &mut parts)?;
    Ok(Expr::Apply(names.node(n), true, op, parts))
}

// An operation on a first operand and further ones.
#[cycle(expr)]
fn resolve_first(
    alloc: Global,
    names: &Names<'_>,
    n: NodeId,
    op: RowOp,
    first: &syntax::Expr,
    es: &[syntax::Expr],
) -> Result<Expr, NoMem>
    requires { Knows names.now }
    ensures tree { IfOk result (λ made. tree_of names.now made ≡ bare op (tree.more (expr_by (the_names names.now) first.now) (meaning.exprs (map (expr_by (the_names names.now)) es.now)))) }
    ensures nodes { IfOk result (λ made. (k : ℕ) → values k made ≤ node_at k names.now.first n + nodes k names.now.first first.now + total (map (nodes k names.now.first) es.now)) }
{
    let mut parts = Seq::new(alloc);
    let first = resolve_expr(alloc, names, first)?;
    parts.push(first)?;
    resolve_exprs(alloc, names, es, &mut parts)?;
    Ok(Expr::Apply(names.node(n), true, op, parts))
}

#[cycle(expr)]
fn resolve_logic(
    alloc: Global,
    names: &Names<'_>,
    n: NodeId,
    is_and: bool,
    a: &syntax::Expr,
    b: &syntax::Expr,
) -> Result<Expr, NoMem>
    requires { Knows names.now }
    ensures tree { IfOk result (λ made. tree_of names.now made ≡ and_or is_and (expr_by (the_names names.now) a.now) (expr_by (the_names names.now) b.now)) }
    ensures nodes { IfOk result (λ made. (k : ℕ) → values k made ≤ node_at k names.now.first n + nodes k names.now.first a.now + nodes k names.now.first b.now) }
{
    let a = resolve_own(alloc, names, a)?;
    let b = resolve_own(alloc, names, b)?;
    if is_and {
        Ok(Expr::And(names.node(n), a, b))
    } else {
        Ok(Expr::Or(names.node(n), a, b))
    }
}

// A name with a dot that stands for nothing is the reading of an attribute.
#[cycle(expr)]
fn resolve_attr(
    alloc: Global,
    names: &Names<'_>,
    n: NodeId,
    a: &syntax::Expr,
    name: &Text,
) -> Result<Expr, NoMem>
    requires { Knows names.now }
    ensures tree { IfOk result (λ made. tree_of names.now made ≡ meaning.attribute_value (the_names names.now) ((the_names names.now).meant n) (expr_by (the_names names.now) a.now) name.now) }
    ensures nodes { IfOk result (λ made. (k : ℕ) → values k made ≤ node_at k names.now.first n + nodes k names.now.first a.now) }
{
    match names.meant(n) {
        Use::Nothing => resolve_one(alloc, names, n, RowOp::Attr(name.copy(alloc)?), a),
        of => named_value(alloc, names, names.node(n), of),
    }
}

#[cycle(expr)]
fn resolve_slice(
    alloc: Global,
    names: &Names<'_>,
    n: NodeId,
    a: &syntax::Expr,
    low: &Option<Own<syntax::Expr>>,
    high: &Option<Own<syntax::Expr>>,
) -> Result<Expr, NoMem>
    requires { Knows names.now }
    ensures tree { IfOk result (λ made. tree_of names.now made ≡ meaning.slice_of (meaning.made_at (the_names names.now) n) (expr_by (the_names names.now) a.now) (option_map (expr_by (the_names names.now)) low.now) (option_map (expr_by (the_names names.now)) high.now)) }
    ensures nodes { IfOk result (λ made. (k : ℕ) → values k made ≤ node_at k names.now.first n + nodes k names.now.first a.now + nodes_if k names.now.first low.now + nodes_if k names.now.first high.now) }
{
    let site = names.made(n);
    match low {
        None => match high {
            None => resolve_one(alloc, names, n, RowOp::Slice(site, false, false), a),
            Some(high) => {
                if is_minus_one(high.get()) {
                    resolve_one(alloc, names, n, RowOp::AllButLast(site), a)
                } else {
                    resolve_two(
                        alloc,
                        names,
                        n,
                        RowOp::Slice(site, false, true),
                        a,
                        high.get(),
                    )
                }
            }
        },
        Some(low) => match high {
            None => resolve_two(
                alloc,
                names,
                n,
                RowOp::Slice(site, true, false),
                a,
                low.get(),
            ),
            Some(high) => resolve_part(alloc, names, n, a, low.get(), high.get()),
        },
    }
}

#[cycle(expr)]
fn resolve_part(
    alloc: Global,
    names: &Names<'_>,
    n: NodeId,
    a: &syntax::Expr,
    low: &syntax::Expr,
    high: &syntax::Expr,
) -> Result<Expr, NoMem>
    requires { Knows names.now }
    ensures tree { IfOk result (λ made. tree_of names.now made ≡ tree.Apply (row.Slice (meaning.made_at (the_names names.now) n) true true) (tree.more (expr_by (the_names names.now) a.now) (tree.more (expr_by (the_names names.now) low.now) (tree.more (expr_by (the_names names.now) high.now) tree.none)))) }
    ensures nodes { IfOk result (λ made. (k : ℕ) → values k made ≤ node_at k names.now.first n + nodes k names.now.first a.now + nodes k names.now.first low.now + nodes k names.now.first high.now) }
{
    let mut parts = Seq::new(alloc);
    let a = resolve_expr(alloc, names, a)?;
    parts.push(a)?;
    let low = resolve_expr(alloc, names, low)?;
    parts.push(low)?;
    let high = resolve_expr(alloc, names, high)?;
    parts.push(high)?;
    let op = RowOp::Slice(names.made(n), true, true);
    Ok(Expr::Apply(names.node(n), true, op, parts))
}

#[cycle(expr)]
fn resolve_call(
    alloc: Global,
    names: &Names<'_>,
    n: NodeId,
    callee: &syntax::Expr,
    args: &[syntax::Expr],
) -> Result<Expr, NoMem>
    requires { Knows names.now }
    ensures tree { IfOk result (λ made. tree_of names.now made ≡ meaning.call_by (the_names names.now) (out-Expr callee.now) n (expr_by (the_names names.now) callee.now) (parts (the_names names.now) args.now)) }
    ensures nodes { IfOk result (λ made. (k : ℕ) → values k made ≤ node_at k names.now.first n + nodes k names.now.first callee.now + total (map (nodes k names.now.first) args.now)) }
{
    match callee {
        syntax::Expr::Name(m, _) => {
            resolve_named(alloc, names, n, names.meant(*m), None, callee, args)
        }
        syntax::Expr::Attr(m, before, name) => match names.meant(*m) {
            Use::Nothing => {
                if names.is_method(name) {
                    let op = RowOp::Method(name.copy(alloc)?, names.site(n));
                    resolve_first(alloc, names, n, op, before.get(), args)
                } else {
                    resolve_first(alloc, names, n, RowOp::CallValue, callee, args)
                }
            }
            of => {
                let class = names.class(node_of(before.get()));
                resolve_named(alloc, names, n, of, class, callee, args)
            }
        },
        _ => resolve_first(alloc, names, n, RowOp::CallValue, callee, args),
    }
}

// A call by what the callee's name stands for: before its dot stands this class, if any.
#[cycle(expr)]
fn resolve_named(
    alloc: Global,
    names: &Names<'_>,
    n: NodeId,
    of: &Use,
    class: Option<ClassId>,
    callee: &syntax::Expr,
    args: &[syntax::Expr],
) -> Result<Expr, NoMem>
    requires { Knows names.now }
    ensures tree { IfOk result (λ made. tree_of names.now made ≡ meaning.named_call (the_names names.now) of.now class (expr_by (the_names names.now) callee.now) (parts (the_names names.now) args.now)) }
    ensures nodes { IfOk result (λ made. (k : ℕ) → values k made ≤ node_at k names.now.first n + nodes k names.now.first callee.now + total (map (nodes k names.now.first) args.now)) }
{
    match of {
        Use::Function(function) => {
            resolve_all(alloc, names, n, function_op(class, *function), args)
        }
        Use::Class(class) => resolve_all(alloc, names, n, RowOp::New(*class), args),
        Use::Builtin(builtin) => resolve_builtin(alloc, names, n, *builtin, args),
        Use::Module(_) => Ok(meaningless(alloc, names.node(n))),
        _ => resolve_first(alloc, names, n, RowOp::CallValue, callee, args),
    }
}

#[cycle(expr)]
fn resolve_builtin(
    alloc: Global,
    names: &Names<'_>,
    n: NodeId,
    builtin: Builtin,
    args: &[syntax::Expr],
) -> Result<Expr, NoMem>
    requires { Knows names.now }
    ensures tree { IfOk result (λ made. tree_of names.now made ≡ meaning.builtin_call (the_names names.now) builtin (parts (the_names names.now) args.now)) }
    ensures nodes { IfOk result (λ made. (k : ℕ) → values k made ≤ node_at k names.now.first n + total (map (nodes k names.now.first) args.now)) }
{
    match builtin {
        Builtin::IsInstance => resolve_isinstance(alloc, names, n, args),
        Builtin::Ovfcheck => resolve_ovfcheck(alloc, names, n, args),
        _ => match builtin_op(builtin) {
            None => Ok(meaningless(alloc, names.node(n))),
            Some(op) => resolve_all(alloc, names, n, op, args),
        },
    }
}

#[cycle(expr)]
fn resolve_isinstance(
    alloc: Global,
    names: &Names<'_>,
    n: NodeId,
    args: &[syntax::Expr],
) -> Result<Expr, NoMem>
    requires { Knows names.now }
    ensures tree { IfOk result (λ made. tree_of names.now made ≡ meaning.builtin_call (the_names names.now) builtin_of.IsInstance (parts (the_names names.now) args.now)) }
    ensures nodes { IfOk result (λ made. (k : ℕ) → values k made ≤ node_at k names.now.first n + total (map (nodes k names.now.first) args.now)) }
{
    match args {
        [] => Ok(meaningless(alloc, names.node(n))),
        [_] => Ok(meaningless(alloc, names.node(n))),
        [a, class] => match names.class(node_of(class)) {
            None => Ok(meaningless(alloc, names.node(n))),
            Some(class) => resolve_one(alloc, names, n, RowOp::IsInstance(class), a),
        },
        [_, _, _, ..] => Ok(meaningless(alloc, names.node(n))),
    }
}

#[cycle(expr)]
fn resolve_ovfcheck(
    alloc: Global,
    names: &Names<'_>,
    n: NodeId,
    args: &[syntax::Expr],
) -> Result<Expr, NoMem>
    requires { Knows names.now }
    ensures tree { IfOk result (λ made. tree_of names.now made ≡ meaning.builtin_call (the_names names.now) builtin_of.Ovfcheck (parts (the_names names.now) args.now)) }
    ensures nodes { IfOk result (λ made. (k : ℕ) → values k made ≤ node_at k names.now.first n + total (map (nodes k names.now.first) args.now)) }
{
    match args {
        [] => Ok(meaningless(alloc, names.node(n))),
        [a] => {
            let e = resolve_expr(alloc, names, a)?;
            checked(alloc, names, names.node(n), e)
        }
        [_, _, ..] => Ok(meaningless(alloc, names.node(n))),
    }
}

/// What is walked: the value of an expression, with the site of its walk, or a range.
#[cycle(expr)]
pub fn resolve_subject(
    alloc: Global,
    names: &Names<'_>,
    site: u32,
    e: &syntax::Expr,
) -> Result<Subject, NoMem>
    requires { Knows names.now }
    ensures tree { IfOk result (λ made. walked_of names.now made ≡ meaning.subject_of site (said_by (the_names names.now) e.now)) }
    ensures nodes { IfOk result (λ made. (k : ℕ) → walked_values k made ≤ nodes k names.now.first e.now) }
{
    match range_args(names, e) {
        None => {
            let e = resolve_expr(alloc, names, e)?;
            Ok(Subject::Over(site, e))
        }
        Some(args) => resolve_range(alloc, names, node_of(e), site, args),
    }
}

#[cycle(expr)]
fn resolve_range(
    alloc: Global,
    names: &Names<'_>,
    n: NodeId,
    site: u32,
    args: &[syntax::Expr],
) -> Result<Subject, NoMem>
    requires { Knows names.now }
    ensures tree { IfOk result (λ made. walked_of names.now made ≡ range_or site (meaning.range_of (the_names names.now) (parts (the_names names.now) args.now))) }
    ensures nodes { IfOk result (λ made. (k : ℕ) → walked_values k made ≤ node_at k names.now.first n + total (map (nodes k names.now.first) args.now)) }
{
    match args {
        [] => Ok(Subject::Over(site, meaningless(alloc, names.node(n)))),
        [end] => Ok(Subject::UpTo(resolve_expr(alloc, names, end)?)),
        [start, end] => resolve_from(alloc, names, start, end, 1),
        [start, end, step] => resolve_from(alloc, names, start, end, names.step(node_of(step))),
        [_, _, _, _, ..] => Ok(Subject::Over(site, meaningless(alloc, names.node(n)))),
    }
}

#[cycle(expr)]
fn resolve_from(
    alloc: Global,
    names: &Names<'_>,
    start: &syntax::Expr,
    end: &syntax::Expr,
    step: i64,
) -> Result<Subject, NoMem>
    requires { Knows names.now }
    ensures tree { IfOk result (λ made. walked_of names.now made ≡ tree.FromTo (expr_by (the_names names.now) start.now) (expr_by (the_names names.now) end.now) step) }
    ensures nodes { IfOk result (λ made. (k : ℕ) → walked_values k made ≤ nodes k names.now.first start.now + nodes k names.now.first end.now) }
{
    let start = resolve_expr(alloc, names, start)?;
    let end = resolve_expr(alloc, names, end)?;
    Ok(Subject::FromTo(start, end, step))
}

/// A target of a module, with its names bound.
#[cycle(expr)]
pub fn resolve_target(
    alloc: Global,
    names: &Names<'_>,
    target: &syntax::Target,
) -> Result<Target, NoMem>
    requires { Knows names.now }
    ensures tree { IfOk result (λ made. aim_of names.now made ≡ target_by (the_names names.now) target.now) }
    ensures nodes { IfOk result (λ made. (k : ℕ) → bound_values k made ≤ target_nodes k names.now.first target.now) }
{
    match target {
        syntax::Target::Name(n, _) => Ok(bound_name(alloc, names, *n)),
        syntax::Target::Attr(n, a, name) => {
            let a = resolve_expr(alloc, names, a)?;
            Ok(Target::Attr(names.node(*n), a, name.copy(alloc)?))
        }
        syntax::Target::Item(n, a, i) => {
            let a = resolve_expr(alloc, names, a)?;
            let i = resolve_expr(alloc, names, i)?;
            Ok(Target::Item(names.node(*n), a, i))
        }
        syntax::Target::Tuple(n, items) => {
            let parts = resolve_targets(alloc, names, items.as_slice())?;
            Ok(Target::Parts(names.node(*n), parts))
        }
    }
}

#[cycle(expr)]
pub fn resolve_targets(
    alloc: Global,
    names: &Names<'_>,
    targets: &[syntax::Target],
) -> Result<Seq<Target>, NoMem>
    requires { Knows names.now }
    ensures tree { IfOk result (λ made. map (aim_of names.now) made ≡ map (target_by (the_names names.now)) targets.now) }
    ensures nodes { IfOk result (λ made. (k : ℕ) → total (map (bound_values k) made) ≤ total (map (target_nodes k names.now.first) targets.now)) }
{
    let mut parts = Seq::new(alloc);
    for target in targets {
        let target = resolve_target(alloc, names, target)?;
        parts.push(target)?;
    }
    Ok(parts)
}
