// The walk over statements.
ghost use Rattle.std.specs.Prelude.{◌≡◌, ◌<◌, ◌^◌, OnOk, length};
ghost use Rattle.rpy_nodes.specs.Walk as spec;

use crate::event::Act;
use crate::expression::{walk_expr, walk_exprs, walk_target, walk_targets};
use crate::walk::Walk;
use rpy_base::{NoMem, Seq, Text};
use rpy_tree::{BinOp, Clause, Expr, Stmt, Target};
use std::alloc::Global;

// A statement with one expression.
fn with_expr(alloc: Global, walk: &mut Walk, e: &Expr) -> Result<(), NoMem>
    ensures { OnOk result (walk.new ≡ spec.with_expr e.now walk.old) }
{
    walk_expr(alloc, walk, e)?;
    walk.push(Act::Done(1))
}

fn walk_return(alloc: Global, walk: &mut Walk, e: &Option<Expr>) -> Result<(), NoMem>
    ensures { OnOk result (walk.new ≡ spec.return_expr e.now walk.old) }
{
    match e {
        None => walk.push(Act::Done(0)),
        Some(e) => with_expr(alloc, walk, e),
    }
}

fn walk_del(alloc: Global, walk: &mut Walk, a: &Expr, i: &Expr) -> Result<(), NoMem>
    ensures { OnOk result (walk.new ≡ spec.del_expr a.now i.now walk.old) }
{
    walk_expr(alloc, walk, a)?;
    walk_expr(alloc, walk, i)?;
    walk.push(Act::Done(2))
}

fn walk_print(alloc: Global, walk: &mut Walk, es: &[Expr]) -> Result<(), NoMem>
    ensures { OnOk result (walk.new ≡ spec.print_exprs es.now walk.old) }
{
    walk_exprs(alloc, walk, es)?;
    walk.push(Act::Done(es.len()))
}

fn walk_assign(alloc: Global, walk: &mut Walk, targets: &[Target], e: &Expr) -> Result<(), NoMem>
    requires { length targets.now < 2 ^ 63 }
    ensures { OnOk result (walk.new ≡ spec.assign targets.now e.now walk.old) }
{
    walk_targets(alloc, walk, targets)?;
    walk_expr(alloc, walk, e)?;
    walk.push(Act::Done(targets.len() + 1))
}

// What an augmented assignment does: `*=` makes a list, the others may not.
fn augmented(op: BinOp) -> Act
    ensures { result ≡ spec.augmented op }
{
    match op {
        BinOp::Mul => Act::Multiply,
        _ => Act::Done(2),
    }
}

fn walk_aug(
    alloc: Global,
    walk: &mut Walk,
    target: &Target,
    op: BinOp,
    e: &Expr,
) -> Result<(), NoMem>
    ensures { OnOk result (walk.new ≡ spec.aug target.now op e.now walk.old) }
{
    walk_target(alloc, walk, target)?;
    walk_expr(alloc, walk, e)?;
    walk.push(augmented(op))
}

fn walk_for(alloc: Global, walk: &mut Walk, target: &Target, over: &Expr) -> Result<(), NoMem>
    ensures { OnOk result (walk.new ≡ spec.for_head target.now over.now walk.old) }
{
    walk_target(alloc, walk, target)?;
    walk_expr(alloc, walk, over)?;
    walk.push(Act::For)
}

fn walk_elif(alloc: Global, walk: &mut Walk, test: &Expr) -> Result<(), NoMem>
    ensures { OnOk result (walk.new ≡ spec.elif_test test.now walk.old) }
{
    walk_expr(alloc, walk, test)?;
    walk.note(Act::Elif)
}

fn walk_further(alloc: Global, walk: &mut Walk, names: &[Text]) -> Result<(), NoMem>
    ensures { OnOk result (walk.new ≡ spec.further names.now walk.old) }
{
    for name in names {
        let name = walk.number(alloc, name)?;
        walk.note(Act::CaughtOf(name))?;
    }
    Ok(())
}

fn walk_caught(alloc: Global, walk: &mut Walk, path: &[Text]) -> Result<(), NoMem>
    ensures { OnOk result (walk.new ≡ spec.caught path.now walk.old) }
{
    match path {
        [] => Ok(()),
        [first, further @ ..] => {
            let name = walk.number(alloc, first)?;
            walk.note(Act::Caught(name))?;
            walk_further(alloc, walk, further)?;
            walk.note(Act::CaughtEnd)
        }
    }
}

fn walk_classes(alloc: Global, walk: &mut Walk, classes: &[Seq<Text>]) -> Result<(), NoMem>
    ensures { OnOk result (walk.new ≡ spec.classes classes.now walk.old) }
{
    for path in classes {
        walk_caught(alloc, walk, path.as_slice())?;
    }
    Ok(())
}

fn walk_catch(alloc: Global, walk: &mut Walk, bind: &Option<Text>) -> Result<(), NoMem>
    ensures { OnOk result (walk.new ≡ spec.catch_name bind.now walk.old) }
{
    match bind {
        None => Ok(()),
        Some(name) => {
            let name = walk.number(alloc, name)?;
            walk.note(Act::Catch(name))
        }
    }
}

fn walk_head(
    alloc: Global,
    walk: &mut Walk,
    classes: &[Seq<Text>],
    bind: &Option<Text>,
) -> Result<(), NoMem>
    ensures { OnOk result (walk.new ≡ spec.clause_head classes.now bind.now walk.old) }
{
    walk_classes(alloc, walk, classes)?;
    walk_catch(alloc, walk, bind)?;
    walk.push(Act::Clause)
}

#[cycle(stmt)]
fn walk_stmt(alloc: Global, walk: &mut Walk, s: &Stmt) -> Result<(), NoMem>
    ensures { OnOk result (walk.new ≡ spec.stmt s.now walk.old) }
{
    match s {
        Stmt::Pass(_) => walk.push(Act::Done(0)),
        Stmt::Break(_) => walk.push(Act::Done(0)),
        Stmt::Continue(_) => walk.push(Act::Done(0)),
        Stmt::Return(_, e) => walk_return(alloc, walk, e),
        Stmt::Raise(_, e) => with_expr(alloc, walk, e),
        Stmt::Assert(_, e) => with_expr(alloc, walk, e),
        Stmt::Del(_, a, i) => walk_del(alloc, walk, a, i),
        Stmt::Print(_, es) => walk_print(alloc, walk, es.as_slice()),
        Stmt::Assign(_, targets, e) => walk_assign(alloc, walk, targets.as_slice(), e),
        Stmt::Aug(_, target, op, e) => walk_aug(alloc, walk, target, *op, e),
        Stmt::Expr(_, e) => with_expr(alloc, walk, e),
        Stmt::If(_, arms, other) => {
            walk_arms(alloc, walk, arms.as_slice())?;
            walk_block(alloc, walk, other.as_slice())
        }
        Stmt::While(_, test, body) => {
            with_expr(alloc, walk, test)?;
            walk_block(alloc, walk, body.as_slice())
        }
        Stmt::For(_, target, over, body) => {
            walk_for(alloc, walk, target, over)?;
            walk_block(alloc, walk, body.as_slice())
        }
        Stmt::Try(_, body, clauses, other, last) => {
            walk.push(Act::Done(0))?;
            walk_block(alloc, walk, body.as_slice())?;
            walk_clauses(alloc, walk, clauses.as_slice())?;
            walk_block(alloc, walk, other.as_slice())?;
            walk_finally(alloc, walk, last)
        }
    }
}

#[cycle(stmt)]
pub fn walk_block(alloc: Global, walk: &mut Walk, body: &[Stmt]) -> Result<(), NoMem>
    ensures { OnOk result (walk.new ≡ spec.block body.now walk.old) }
{
    for s in body {
        walk_stmt(alloc, walk, s)?;
    }
    Ok(())
}

#[cycle(stmt)]
fn walk_finally(alloc: Global, walk: &mut Walk, last: &Option<Seq<Stmt>>) -> Result<(), NoMem>
    ensures { OnOk result (walk.new ≡ spec.finally last.now walk.old) }
{
    match last {
        None => Ok(()),
        Some(body) => walk_block(alloc, walk, body.as_slice()),
    }
}

#[cycle(stmt)]
fn walk_arms(alloc: Global, walk: &mut Walk, arms: &[(Expr, Seq<Stmt>)]) -> Result<(), NoMem>
    ensures { OnOk result (walk.new ≡ spec.arms arms.now walk.old) }
{
    match arms {
        [] => walk.push(Act::Done(0)),
        [first, rest @ ..] => {
            walk_first(alloc, walk, first)?;
            walk_elifs(alloc, walk, rest)
        }
    }
}

#[cycle(stmt)]
fn walk_first(alloc: Global, walk: &mut Walk, arm: &(Expr, Seq<Stmt>)) -> Result<(), NoMem>
    ensures { OnOk result (walk.new ≡ spec.first_arm arm.now walk.old) }
{
    with_expr(alloc, walk, &arm.0)?;
    walk_block(alloc, walk, arm.1.as_slice())
}

#[cycle(stmt)]
fn walk_other(alloc: Global, walk: &mut Walk, arm: &(Expr, Seq<Stmt>)) -> Result<(), NoMem>
    ensures { OnOk result (walk.new ≡ spec.other_arm arm.now walk.old) }
{
    walk_elif(alloc, walk, &arm.0)?;
    walk_block(alloc, walk, arm.1.as_slice())
}

#[cycle(stmt)]
fn walk_elifs(alloc: Global, walk: &mut Walk, arms: &[(Expr, Seq<Stmt>)]) -> Result<(), NoMem>
    ensures { OnOk result (walk.new ≡ spec.elifs arms.now walk.old) }
{
    for arm in arms {
        walk_other(alloc, walk, arm)?;
    }
    Ok(())
}

#[cycle(stmt)]
fn walk_clause(alloc: Global, walk: &mut Walk, clause: &Clause) -> Result<(), NoMem>
    ensures { OnOk result (walk.new ≡ spec.clause clause.now walk.old) }
{
    walk_head(alloc, walk, clause.classes.as_slice(), &clause.bind)?;
    walk_block(alloc, walk, clause.body.as_slice())
}

#[cycle(stmt)]
fn walk_clauses(alloc: Global, walk: &mut Walk, clauses: &[Clause]) -> Result<(), NoMem>
    ensures { OnOk result (walk.new ≡ spec.clauses clauses.now walk.old) }
{
    for clause in clauses {
        walk_clause(alloc, walk, clause)?;
    }
    Ok(())
}
