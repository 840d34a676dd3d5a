// Statements with blocks, and blocks.
ghost use Rattle.std.specs.Prelude.{◌≡◌, ℕ, ◌+◌, ◌≤◌, map, IfOk, OnOk};
ghost use Rattle.rpy_meaning.specs.Resolved as meaning;
ghost use Rattle.rpy_meaning.specs.Resolved.{expr_by, stmt_by, alone, onto, joined};
ghost use Rattle.rpy_tree.specs.declared.syntax.Stmt.TheVariants as code;
ghost use Rattle.rpy_meaning.specs.Tree as tree;
ghost use Rattle.resolver_names.specs.Nodes.{total, done_values, caught_values, block_values, nodes, target_nodes, stmt_nodes, clause_nodes, block_nodes, arm_nodes, last_nodes};
ghost use Rattle.resolver_names.specs.Told.{Knows, the_names, stmt_tree, block_tree, caught_tree, caught_by, arm_by};

use crate::expression::resolve_expr;
use crate::simple::{
    alone_in, assert_of, assign_of, aug_of, classes_of, del_of, do_of, local_of, own_subject,
    own_target, print_of, put, raise_of, return_of,
};
use resolver_names::Names;
use rpy_base::{NoMem, Seq};
use rpy_resolved::{Clause, Stmt};
use rpy_tree as syntax;
use rpy_tree::NodeId;
use std::alloc::Global;

/// A statement of a module, with its names bound, after those before it.
#[cycle(stmt)]
fn resolve_stmt(
    alloc: Global,
    names: &Names<'_>,
    s: &syntax::Stmt,
    block: &mut Seq<Stmt>,
) -> Result<(), NoMem>
    requires { Knows names.now }
    ensures tree { OnOk result (block_tree names.now block.new ≡ onto (the_names names.now) (block_tree names.now block.old) (stmt_by (the_names names.now) s.now)) }
    ensures nodes { OnOk result ((k : ℕ) → block_values k block.new ≤ block_values k block.old + stmt_nodes k names.now.first s.now) }
{
    match s {
        syntax::Stmt::Pass(n) => block.push(Stmt::Pass(names.node(*n))),
        syntax::Stmt::Break(n) => block.push(Stmt::Break(names.node(*n))),
        syntax::Stmt::Continue(n) => block.push(Stmt::Continue(names.node(*n))),
        syntax::Stmt::Return(n, e) => put(block, return_of(alloc, names, *n, e)),
        syntax::Stmt::Raise(n, e) => put(block, raise_of(alloc, names, *n, e)),
        syntax::Stmt::Assert(n, e) => put(block, assert_of(alloc, names, *n, e)),
        syntax::Stmt::Del(n, a, i) => put(block, del_of(alloc, names, *n, a, i)),
        syntax::Stmt::Print(n, es) => put(block, print_of(alloc, names, *n, es.as_slice())),
        syntax::Stmt::Assign(n, targets, e) => {
            put(block, assign_of(alloc, names, *n, targets.as_slice(), e))
        }
        syntax::Stmt::Aug(n, target, op, e) => put(block, aug_of(alloc, names, *n, target, *op, e)),
        syntax::Stmt::Expr(n, e) => put(block, do_of(alloc, names, *n, e)),
        syntax::Stmt::If(n, arms, other) => {
            resolve_branches(alloc, names, *n, arms.as_slice(), other.as_slice(), block)
        }
        syntax::Stmt::While(n, test, body) => {
            put(
                block,
                resolve_while(alloc, names, *n, test, body.as_slice()),
            )
        }
        syntax::Stmt::For(n, target, over, body) => {
            put(
                block,
                resolve_for(alloc, names, *n, target, over, body.as_slice()),
            )
        }
        syntax::Stmt::Try(n, body, clauses, other, last) => {
            let clauses = clauses.as_slice();
            resolve_tried(
                alloc,
                names,
                *n,
                body.as_slice(),
                clauses,
                other.as_slice(),
                last,
                block,
            )
        }
    }
}

// The arms of an `if`, which stands for its `else` where it has none.
#[cycle(stmt)]
fn resolve_branches(
    alloc: Global,
    names: &Names<'_>,
    n: NodeId,
    arms: &[(syntax::Expr, Seq<syntax::Stmt>)],
    other: &[syntax::Stmt],
    block: &mut Seq<Stmt>,
) -> Result<(), NoMem>
    requires { Knows names.now }
    ensures tree { OnOk result (block_tree names.now block.new ≡ onto (the_names names.now) (block_tree names.now block.old) (meaning.if_of (the_names names.now) (map (arm_by (the_names names.now)) arms.now) (map (stmt_by (the_names names.now)) other.now))) }
    ensures nodes { OnOk result ((k : ℕ) → block_values k block.new ≤ block_values k block.old + total (map (arm_nodes k names.now.first) arms.now) + block_nodes k names.now.first other.now) }
{
    match arms {
        [] => resolve_into(alloc, names, other, block),
        [arm, rest @ ..] => put(block, resolve_if(alloc, names, n, arm, rest, other)),
    }
}

#[cycle(stmt)]
fn resolve_while(
    alloc: Global,
    names: &Names<'_>,
    n: NodeId,
    test: &syntax::Expr,
    body: &[syntax::Stmt],
) -> Result<Stmt, NoMem>
    requires { Knows names.now }
    ensures tree { IfOk result (λ made. alone (the_names names.now) (stmt_tree names.now made) ≡ stmt_by (the_names names.now) (code.While n test.now body.now)) }
    ensures nodes { IfOk result (λ made. (k : ℕ) → done_values k made ≤ nodes k names.now.first test.now + block_nodes k names.now.first body.now) }
{
    let test = resolve_expr(alloc, names, test)?;
    let body = resolve_block(alloc, names, body)?;
    Ok(Stmt::While(names.node(n), test, body))
}

#[cycle(stmt)]
fn resolve_for(
    alloc: Global,
    names: &Names<'_>,
    n: NodeId,
    target: &syntax::Target,
    over: &syntax::Expr,
    body: &[syntax::Stmt],
) -> Result<Stmt, NoMem>
    requires { Knows names.now }
    ensures tree { IfOk result (λ made. alone (the_names names.now) (stmt_tree names.now made) ≡ stmt_by (the_names names.now) (code.For n target.now over.now body.now)) }
    ensures nodes { IfOk result (λ made. (k : ℕ) → done_values k made ≤ target_nodes k names.now.first target.now + nodes k names.now.first over.now + block_nodes k names.now.first body.now) }
{
    let target = own_target(alloc, names, target)?;
    let subject = own_subject(alloc, names, n, over)?;
    let body = resolve_block(alloc, names, body)?;
    Ok(Stmt::For(names.node(n), target, subject, body))
}

#[cycle(stmt)]
fn resolve_finally(
    alloc: Global,
    names: &Names<'_>,
    n: NodeId,
    tried: Seq<Stmt>,
    last: &[syntax::Stmt],
) -> Result<Stmt, NoMem>
    requires { Knows names.now }
    ensures tree { IfOk result (λ made. stmt_tree names.now made ≡ tree.Finally (block_tree names.now tried) (joined (the_names names.now) (map (stmt_by (the_names names.now)) last.now))) }
    ensures nodes { IfOk result (λ made. (k : ℕ) → done_values k made ≤ block_values k tried + block_nodes k names.now.first last.now) }
{
    let last = resolve_block(alloc, names, last)?;
    Ok(Stmt::Finally(names.node(n), tried, last))
}

// A `try`, with its `finally` if it has one.
#[cycle(stmt)]
fn resolve_tried(
    alloc: Global,
    names: &Names<'_>,
    n: NodeId,
    body: &[syntax::Stmt],
    clauses: &[syntax::Clause],
    other: &[syntax::Stmt],
    last: &Option<Seq<syntax::Stmt>>,
    block: &mut Seq<Stmt>,
) -> Result<(), NoMem>
    requires { Knows names.now }
    ensures tree { OnOk result (block_tree names.now block.new ≡ onto (the_names names.now) (block_tree names.now block.old) (stmt_by (the_names names.now) (code.Try n body.now clauses.now other.now last.now))) }
    ensures nodes { OnOk result ((k : ℕ) → block_values k block.new ≤ block_values k block.old + block_nodes k names.now.first body.now + total (map (clause_nodes k names.now.first) clauses.now) + block_nodes k names.now.first other.now + last_nodes k names.now.first last.now) }
{
    match last {
        None => resolve_try(alloc, names, n, body, clauses, other, block),
        Some(last) => {
            let mut tried = Seq::new(alloc);
            resolve_try(alloc, names, n, body, clauses, other, &mut tried)?;
            put(
                block,
                resolve_finally(alloc, names, n, tried, last.as_slice()),
            )
        }
    }
}

// A `try` aside from its `finally`. Without clauses the body stands for itself.
#[cycle(stmt)]
fn resolve_try(
    alloc: Global,
    names: &Names<'_>,
    n: NodeId,
    body: &[syntax::Stmt],
    clauses: &[syntax::Clause],
    other: &[syntax::Stmt],
    block: &mut Seq<Stmt>,
) -> Result<(), NoMem>
    requires { Knows names.now }
    ensures tree { OnOk result (block_tree names.now block.new ≡ onto (the_names names.now) (block_tree names.now block.old) (meaning.try_of (the_names names.now) (joined (the_names names.now) (map (stmt_by (the_names names.now)) body.now)) (map (caught_by (the_names names.now)) clauses.now) (joined (the_names names.now) (map (stmt_by (the_names names.now)) other.now)))) }
    ensures nodes { OnOk result ((k : ℕ) → block_values k block.new ≤ block_values k block.old + block_nodes k names.now.first body.now + total (map (clause_nodes k names.now.first) clauses.now) + block_nodes k names.now.first other.now) }
{
    match clauses {
        [] => resolve_into(alloc, names, body, block),
        [_, ..] => put(
            block,
            resolve_clauses_of(alloc, names, n, body, clauses, other),
        ),
    }
}

#[cycle(stmt)]
fn resolve_clauses_of(
    alloc: Global,
    names: &Names<'_>,
    n: NodeId,
    body: &[syntax::Stmt],
    clauses: &[syntax::Clause],
    other: &[syntax::Stmt],
) -> Result<Stmt, NoMem>
    requires { Knows names.now }
    ensures tree { IfOk result (λ made. stmt_tree names.now made ≡ tree.Try (joined (the_names names.now) (map (stmt_by (the_names names.now)) body.now)) (meaning.clauses_of (the_names names.now) (map (caught_by (the_names names.now)) clauses.now)) (joined (the_names names.now) (map (stmt_by (the_names names.now)) other.now))) }
    ensures nodes { IfOk result (λ made. (k : ℕ) → done_values k made ≤ block_nodes k names.now.first body.now + total (map (clause_nodes k names.now.first) clauses.now) + block_nodes k names.now.first other.now) }
{
    let body = resolve_block(alloc, names, body)?;
    let clauses = resolve_clauses(alloc, names, clauses)?;
    let other = resolve_block(alloc, names, other)?;
    Ok(Stmt::Try(names.node(n), body, clauses, other))
}

#[cycle(stmt)]
fn resolve_into(
    alloc: Global,
    names: &Names<'_>,
    body: &[syntax::Stmt],
    block: &mut Seq<Stmt>,
) -> Result<(), NoMem>
    requires { Knows names.now }
    ensures tree { OnOk result (block_tree names.now block.new ≡ onto (the_names names.now) (block_tree names.now block.old) (joined (the_names names.now) (map (stmt_by (the_names names.now)) body.now))) }
    ensures nodes { OnOk result ((k : ℕ) → block_values k block.new ≤ block_values k block.old + block_nodes k names.now.first body.now) }
{
    for s in body {
        resolve_stmt(alloc, names, s, block)?;
    }
    Ok(())
}

/// The statements of a block.
#[cycle(stmt)]
pub fn resolve_block(
    alloc: Global,
    names: &Names<'_>,
    body: &[syntax::Stmt],
) -> Result<Seq<Stmt>, NoMem>
    requires { Knows names.now }
    ensures tree { IfOk result (λ block. block_tree names.now block ≡ joined (the_names names.now) (map (stmt_by (the_names names.now)) body.now)) }
    ensures nodes { IfOk result (λ block. (k : ℕ) → block_values k block ≤ block_nodes k names.now.first body.now) }
{
    let mut block = Seq::new(alloc);
    resolve_into(alloc, names, body, &mut block)?;
    Ok(block)
}

// An `elif` with what follows it, which is an `if` in the `else` of what stands before it.
#[cycle(stmt)]
fn resolve_arm(
    alloc: Global,
    names: &Names<'_>,
    n: NodeId,
    arm: &(syntax::Expr, Seq<syntax::Stmt>),
    other: Seq<Stmt>,
) -> Result<Seq<Stmt>, NoMem>
    requires { Knows names.now }
    ensures tree { IfOk result (λ block. block_tree names.now block ≡ tree.line (tree.If (expr_by (the_names names.now) arm.now.0) (joined (the_names names.now) (map (stmt_by (the_names names.now)) arm.now.1)) (block_tree names.now other)) tree.done) }
    ensures nodes { IfOk result (λ block. (k : ℕ) → block_values k block ≤ arm_nodes k names.now.first arm.now + block_values k other) }
{
    let test = resolve_expr(alloc, names, &arm.0)?;
    let body = resolve_block(alloc, names, arm.1.as_slice())?;
    alone_in(alloc, Stmt::If(names.node(n), test, body, other))
}

#[cycle(stmt)]
fn resolve_arms(
    alloc: Global,
    names: &Names<'_>,
    n: NodeId,
    arms: &[(syntax::Expr, Seq<syntax::Stmt>)],
    other: &[syntax::Stmt],
) -> Result<Seq<Stmt>, NoMem>
    requires { Knows names.now }
    ensures tree { IfOk result (λ block. block_tree names.now block ≡ meaning.if_of (the_names names.now) (map (arm_by (the_names names.now)) arms.now) (map (stmt_by (the_names names.now)) other.now)) }
    ensures nodes { IfOk result (λ block. (k : ℕ) → block_values k block ≤ total (map (arm_nodes k names.now.first) arms.now) + block_nodes k names.now.first other.now) }
{
    let mut further = resolve_block(alloc, names, other)?;
    let mut left = arms.len();
    while left > 0 {
        left -= 1;
        further = resolve_arm(alloc, names, n, &arms[left], further)?;
    }
    Ok(further)
}

#[cycle(stmt)]
fn resolve_if(
    alloc: Global,
    names: &Names<'_>,
    n: NodeId,
    arm: &(syntax::Expr, Seq<syntax::Stmt>),
    rest: &[(syntax::Expr, Seq<syntax::Stmt>)],
    other: &[syntax::Stmt],
) -> Result<Stmt, NoMem>
    requires { Knows names.now }
    ensures tree { IfOk result (λ made. stmt_tree names.now made ≡ tree.If (expr_by (the_names names.now) arm.now.0) (joined (the_names names.now) (map (stmt_by (the_names names.now)) arm.now.1)) (meaning.if_of (the_names names.now) (map (arm_by (the_names names.now)) rest.now) (map (stmt_by (the_names names.now)) other.now))) }
    ensures nodes { IfOk result (λ made. (k : ℕ) → done_values k made ≤ arm_nodes k names.now.first arm.now + total (map (arm_nodes k names.now.first) rest.now) + block_nodes k names.now.first other.now) }
{
    let test = resolve_expr(alloc, names, &arm.0)?;
    let body = resolve_block(alloc, names, arm.1.as_slice())?;
    let further = resolve_arms(alloc, names, n, rest, other)?;
    Ok(Stmt::If(names.node(n), test, body, further))
}

#[cycle(stmt)]
fn resolve_clause(
    alloc: Global,
    names: &Names<'_>,
    clause: &syntax::Clause,
) -> Result<Clause, NoMem>
    requires { Knows names.now }
    ensures tree { IfOk result (λ made. caught_tree names.now made ≡ caught_by (the_names names.now) clause.now) }
    ensures nodes { IfOk result (λ made. (k : ℕ) → caught_values k made ≤ clause_nodes k names.now.first clause.now) }
{
    let info = names.clause(clause.node);
    let classes = classes_of(alloc, info)?;
    let local = local_of(info);
    let body = resolve_block(alloc, names, clause.body.as_slice())?;
    Ok(Clause {
        node: names.node(clause.node),
        bare: clause.bare,
        classes,
        local,
        body,
    })
}

#[cycle(stmt)]
fn resolve_clauses(
    alloc: Global,
    names: &Names<'_>,
    clauses: &[syntax::Clause],
) -> Result<Seq<Clause>, NoMem>
    requires { Knows names.now }
    ensures tree { IfOk result (λ made. map (caught_tree names.now) made ≡ map (caught_by (the_names names.now)) clauses.now) }
    ensures nodes { IfOk result (λ made. (k : ℕ) → total (map (caught_values k) made) ≤ total (map (clause_nodes k names.now.first) clauses.now)) }
{
    let mut resolved = Seq::new(alloc);
    for clause in clauses {
        let clause = resolve_clause(alloc, names, clause)?;
        resolved.push(clause)?;
    }
    Ok(resolved)
}
