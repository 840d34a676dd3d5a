// Statements without blocks.
ghost use Rattle.std.specs.Prelude.{◌≡◌, ℕ, ◌+◌, ◌≤◌, [], ◌∷◌, false, map, IfOk, OnOk};
ghost use Rattle.std.specs.Option.{option_copied};
ghost use Rattle.resolved_laws.specs.Uncopied.{bare};
ghost use Rattle.rpy_tree.specs.declared.syntax.Expr.{out-Expr};
ghost use Rattle.rpy_tree.specs.declared.syntax.Stmt.TheVariants as code;
ghost use Rattle.rpy_meaning.specs.Resolved as meaning;
ghost use Rattle.rpy_meaning.specs.Resolved.{expr_by, target_by, said_by, stmt_by, alone};
ghost use Rattle.rpy_meaning.specs.Tree as tree;
ghost use Rattle.resolved_laws.specs.Meant.{classes_of as classes_in, local_of as local_in};
ghost use Rattle.resolver_names.specs.Nodes.{total, given, values, walked_values, bound_values, done_values, nodes, nodes_if, target_nodes};
ghost use Rattle.resolver_names.specs.Told.{Knows, the_names, tree_of, walked_of, aim_of, stmt_tree, block_tree};
ghost use Rattle.rpy_resolver.specs.Parts.{Put};

use crate::expression::{
    resolve_expr, resolve_exprs, resolve_subject, resolve_target, resolve_targets,
};
use resolver_names::{Names, leaf, node_of};
use rpy_base::{NoMem, Own, Seq};
use rpy_meaning::RowOp;
use rpy_resolved::{Expr, Stmt, Subject, Target};
use rpy_tree as syntax;
use rpy_tree::{BinOp, ClassId, ClauseInfo, NodeId};
use std::alloc::Global;

/// The class `AssertionError`.
const ASSERTION_ERROR: ClassId = 10;

/// A block of one statement.
pub fn alone_in(alloc: Global, s: Stmt) -> Result<Seq<Stmt>, NoMem>
    ensures { IfOk result (λ block. block ≡ s ∷ []) }
{
    let mut block = Seq::new(alloc);
    block.push(s)?;
    Ok(block)
}

// An operation on one operand that is a statement.
#[tactic(auto, using(crate::proofs::Statements::done_whole))]
fn done_by(
    alloc: Global,
    names: &Names<'_>,
    node: NodeId,
    op: RowOp,
    a: Expr,
) -> Result<Stmt, NoMem>
    ensures tree { IfOk result (λ made. stmt_tree names.now made ≡ tree.Do (bare op (tree.more (tree_of names.now a) tree.none))) }
    ensures nodes { IfOk result (λ made. (k : ℕ) → done_values k made ≤ given k false op node + values k a) }
{
    let mut parts = Seq::new(alloc);
    parts.push(a)?;
    Ok(Stmt::Do(node, Expr::Apply(node, false, op, parts)))
}

pub fn return_of(
    alloc: Global,
    names: &Names<'_>,
    n: NodeId,
    e: &Option<syntax::Expr>,
) -> Result<Stmt, NoMem>
    requires { Knows names.now }
    ensures tree { IfOk result (λ made. alone (the_names names.now) (stmt_tree names.now made) ≡ stmt_by (the_names names.now) (code.Return n e.now)) }
    ensures nodes { IfOk result (λ made. (k : ℕ) → done_values k made ≤ nodes_if k names.now.first e.now) }
{
    let node = names.node(n);
    match e {
        None => Ok(Stmt::Return(node, leaf(alloc, node, false, RowOp::None))),
        Some(e) => Ok(Stmt::Return(node, resolve_expr(alloc, names, e)?)),
    }
}

// The class that is raised, which is called first.
fn class_raised(names: &Names<'_>, e: &syntax::Expr) -> Option<ClassId>
    requires { Knows names.now }
    ensures { result ≡ meaning.class_named (the_names names.now) (meaning.name_in (the_names names.now) (out-Expr e.now)) }
{
    match e {
        syntax::Expr::Name(n, _) => names.class(*n),
        syntax::Expr::Attr(n, _, _) => names.class(*n),
        _ => None,
    }
}

#[tactic(auto, using(crate::proofs::Statements::class_whole))]
fn raised(alloc: Global, names: &Names<'_>, e: &syntax::Expr) -> Result<Expr, NoMem>
    requires { Knows names.now }
    ensures tree { IfOk result (λ made. tree_of names.now made ≡ meaning.raised_by (the_names names.now) (meaning.class_named (the_names names.now) (meaning.name_in (the_names names.now) (out-Expr e.now))) (expr_by (the_names names.now) e.now)) }
    ensures nodes { IfOk result (λ made. (k : ℕ) → values k made ≤ nodes k names.now.first e.now) }
{
    match class_raised(names, e) {
        None => resolve_expr(alloc, names, e),
        Some(class) => Ok(leaf(alloc, names.node(node_of(e)), false, RowOp::New(class))),
    }
}

pub fn raise_of(
    alloc: Global,
    names: &Names<'_>,
    n: NodeId,
    e: &syntax::Expr,
) -> Result<Stmt, NoMem>
    requires { Knows names.now }
    ensures tree { IfOk result (λ made. alone (the_names names.now) (stmt_tree names.now made) ≡ stmt_by (the_names names.now) (code.Raise n e.now)) }
    ensures nodes { IfOk result (λ made. (k : ℕ) → done_values k made ≤ nodes k names.now.first e.now) }
{
    let e = raised(alloc, names, e)?;
    done_by(alloc, names, names.node(n), RowOp::Raise, e)
}

pub fn assert_of(
    alloc: Global,
    names: &Names<'_>,
    n: NodeId,
    e: &syntax::Expr,
) -> Result<Stmt, NoMem>
    requires { Knows names.now }
    ensures tree { IfOk result (λ made. alone (the_names names.now) (stmt_tree names.now made) ≡ stmt_by (the_names names.now) (code.Assert n e.now)) }
    ensures nodes { IfOk result (λ made. (k : ℕ) → done_values k made ≤ nodes k names.now.first e.now) }
{
    let node = names.node(n);
    let test = resolve_expr(alloc, names, e)?;
    let error = leaf(alloc, node, false, RowOp::New(ASSERTION_ERROR));
    let raise = done_by(alloc, names, node, RowOp::Raise, error)?;
    let other = alone_in(alloc, raise)?;
    Ok(Stmt::If(node, test, Seq::new(alloc), other))
}

pub fn del_of(
    alloc: Global,
    names: &Names<'_>,
    n: NodeId,
    a: &syntax::Expr,
    i: &syntax::Expr,
) -> Result<Stmt, NoMem>
    requires { Knows names.now }
    ensures tree { IfOk result (λ made. alone (the_names names.now) (stmt_tree names.now made) ≡ stmt_by (the_names names.now) (code.Del n a.now i.now)) }
    ensures nodes { IfOk result (λ made. (k : ℕ) → done_values k made ≤ nodes k names.now.first a.now + nodes k names.now.first i.now) }
{
    let node = names.node(n);
    let mut parts = Seq::new(alloc);
    let a = resolve_expr(alloc, names, a)?;
    parts.push(a)?;
    let i = resolve_expr(alloc, names, i)?;
    parts.push(i)?;
    Ok(Stmt::Do(node, Expr::Apply(node, false, RowOp::DeleteIndex, parts)))
}

pub fn print_of(
    alloc: Global,
    names: &Names<'_>,
    n: NodeId,
    es: &[syntax::Expr],
) -> Result<Stmt, NoMem>
    requires { Knows names.now }
    ensures tree { IfOk result (λ made. alone (the_names names.now) (stmt_tree names.now made) ≡ stmt_by (the_names names.now) (code.Print n es.now)) }
    ensures nodes { IfOk result (λ made. (k : ℕ) → done_values k made ≤ total (map (nodes k names.now.first) es.now)) }
{
    let node = names.node(n);
    let mut parts = Seq::new(alloc);
    resolve_exprs(alloc, names, es, &mut parts)?;
    Ok(Stmt::Do(node, Expr::Apply(node, false, RowOp::Print, parts)))
}

// The operation of an augmented assignment. `+=` makes no list of its own.
fn augmented(names: &Names<'_>, n: NodeId, op: BinOp) -> RowOp
    requires { Knows names.now }
    ensures { result ≡ meaning.augmented (the_names names.now) n op }
{
    match op {
        BinOp::Add => RowOp::AddTo,
        BinOp::Mul => RowOp::Binary(op, names.site(n)),
        _ => RowOp::Binary(op, None),
    }
}

pub fn aug_of(
    alloc: Global,
    names: &Names<'_>,
    n: NodeId,
    target: &syntax::Target,
    op: BinOp,
    e: &syntax::Expr,
) -> Result<Stmt, NoMem>
    requires { Knows names.now }
    ensures tree { IfOk result (λ made. alone (the_names names.now) (stmt_tree names.now made) ≡ stmt_by (the_names names.now) (code.Aug n target.now op e.now)) }
    ensures nodes { IfOk result (λ made. (k : ℕ) → done_values k made ≤ target_nodes k names.now.first target.now + nodes k names.now.first e.now) }
{
    let target = resolve_target(alloc, names, target)?;
    let e = resolve_expr(alloc, names, e)?;
    Ok(Stmt::Augment(names.node(n), target, augmented(names, n, op), e))
}

pub fn assign_of(
    alloc: Global,
    names: &Names<'_>,
    n: NodeId,
    targets: &[syntax::Target],
    e: &syntax::Expr,
) -> Result<Stmt, NoMem>
    requires { Knows names.now }
    ensures tree { IfOk result (λ made. alone (the_names names.now) (stmt_tree names.now made) ≡ stmt_by (the_names names.now) (code.Assign n targets.now e.now)) }
    ensures nodes { IfOk result (λ made. (k : ℕ) → done_values k made ≤ total (map (target_nodes k names.now.first) targets.now) + nodes k names.now.first e.now) }
{
    let targets = resolve_targets(alloc, names, targets)?;
    let e = resolve_expr(alloc, names, e)?;
    Ok(Stmt::Assign(names.node(n), targets, e))
}

pub fn do_of(alloc: Global, names: &Names<'_>, n: NodeId, e: &syntax::Expr) -> Result<Stmt, NoMem>
    requires { Knows names.now }
    ensures tree { IfOk result (λ made. alone (the_names names.now) (stmt_tree names.now made) ≡ stmt_by (the_names names.now) (code.Expr n e.now)) }
    ensures nodes { IfOk result (λ made. (k : ℕ) → done_values k made ≤ nodes k names.now.first e.now) }
{
    let e = resolve_expr(alloc, names, e)?;
    Ok(Stmt::Do(names.node(n), e))
}

pub fn own_target(
    alloc: Global,
    names: &Names<'_>,
    target: &syntax::Target,
) -> Result<Own<Target>, NoMem>
    requires { Knows names.now }
    ensures tree { IfOk result (λ made. aim_of names.now made ≡ target_by (the_names names.now) target.now) }
    ensures nodes { IfOk result (λ made. (k : ℕ) → bound_values k made ≤ target_nodes k names.now.first target.now) }
{
    let target = resolve_target(alloc, names, target)?;
    Own::new(alloc, target)
}

/// What a loop at this node walks.
pub fn own_subject(
    alloc: Global,
    names: &Names<'_>,
    n: NodeId,
    over: &syntax::Expr,
) -> Result<Own<Subject>, NoMem>
    requires { Knows names.now }
    ensures tree { IfOk result (λ made. walked_of names.now made ≡ meaning.subject_of ((the_names names.now).walk n) (said_by (the_names names.now) over.now)) }
    ensures nodes { IfOk result (λ made. (k : ℕ) → walked_values k made ≤ nodes k names.now.first over.now) }
{
    let subject = resolve_subject(alloc, names, names.walk(n), over)?;
    Own::new(alloc, subject)
}

fn copy_classes(alloc: Global, classes: &[ClassId]) -> Result<Seq<ClassId>, NoMem>
    ensures { IfOk result (λ copies. copies ≡ classes.now) }
{
    let mut copies = Seq::new(alloc);
    for class in classes {
        copies.push(*class)?;
    }
    Ok(copies)
}

/// The classes that the head of a clause names.
pub fn classes_of(alloc: Global, info: Option<&ClauseInfo>) -> Result<Seq<ClassId>, NoMem>
    ensures { IfOk result (λ classes. classes ≡ classes_in (option_copied info.entry)) }
{
    match info {
        None => Ok(Seq::new(alloc)),
        Some(info) => copy_classes(alloc, info.classes.as_slice()),
    }
}

/// The local that the head of a clause binds.
pub fn local_of(info: Option<&ClauseInfo>) -> Option<u32>
    ensures { result ≡ local_in (option_copied info.entry) }
{
    match info {
        None => None,
        Some(info) => info.local,
    }
}

/// One more statement, if it was made.
pub fn put(block: &mut Seq<Stmt>, made: Result<Stmt, NoMem>) -> Result<(), NoMem>
    ensures { OnOk result (Put made block.old block.new) }
{
    match made {
        Err(e) => Err(e),
        Ok(s) => block.push(s),
    }
}
