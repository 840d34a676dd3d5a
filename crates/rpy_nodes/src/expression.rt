// The walk over expressions and targets.
ghost use Rattle.std.specs.Prelude.{◌≡◌, OnOk};
ghost use Rattle.rpy_nodes.specs.Walk as spec;

use crate::event::Act;
use crate::walk::Walk;
use rpy_base::{NoMem, Own};
use rpy_tree::{Expr, Target};
use std::alloc::Global;

#[cycle(expr)]
#[tactic(auto, using(crate::proofs::Walks::walk_dict))]
pub fn walk_expr(alloc: Global, walk: &mut Walk, e: &Expr) -> Result<(), NoMem>
    ensures { OnOk result (walk.new ≡ spec.expr e.now walk.old) }
{
    match e {
        Expr::Int(_, value) => walk.push(Act::Int(*value)),
        Expr::Str(_, text) => {
            let name = walk.number(alloc, text)?;
            walk.push(Act::Str(name))
        }
        Expr::Name(_, name) => {
            let name = walk.number(alloc, name)?;
            walk.push(Act::Name(name))
        }
        Expr::Unary(_, op, a) => {
            walk_expr(alloc, walk, a.get())?;
            walk.push(Act::Unary(*op))
        }
        Expr::Binary(_, op, a, b) => {
            walk_expr(alloc, walk, a.get())?;
            walk_expr(alloc, walk, b.get())?;
            walk.push(Act::Binary(*op))
        }
        Expr::Compare(_, _, a, b) => {
            walk_expr(alloc, walk, a.get())?;
            walk_expr(alloc, walk, b.get())?;
            walk.push(Act::Other(2))
        }
        Expr::Logic(_, _, a, b) => {
            walk_expr(alloc, walk, a.get())?;
            walk_expr(alloc, walk, b.get())?;
            walk.push(Act::Other(2))
        }
        Expr::Not(_, a) => {
            walk_expr(alloc, walk, a.get())?;
            walk.push(Act::Other(1))
        }
        Expr::Call(_, callee, args) => {
            walk_expr(alloc, walk, callee.get())?;
            walk_exprs(alloc, walk, args.as_slice())?;
            walk.push(Act::Call(args.len()))
        }
        Expr::Attr(_, a, name) => {
            walk_expr(alloc, walk, a.get())?;
            let name = walk.number(alloc, name)?;
            walk.push(Act::Attr(name))
        }
        Expr::Index(_, a, i) => {
            walk_expr(alloc, walk, a.get())?;
            walk_expr(alloc, walk, i.get())?;
            walk.push(Act::Other(2))
        }
        Expr::Slice(_, a, from, to) => {
            walk_expr(alloc, walk, a.get())?;
            walk_option(alloc, walk, from)?;
            walk_option(alloc, walk, to)?;
            walk.push(Act::Slice(1 + count(from) + count(to)))
        }
        Expr::Tuple(_, items) => {
            walk_exprs(alloc, walk, items.as_slice())?;
            walk.push(Act::Tuple(items.len()))
        }
        Expr::List(_, items) => {
            walk_exprs(alloc, walk, items.as_slice())?;
            walk.push(Act::List(items.len()))
        }
        Expr::Dict(_, pairs) => {
            walk_pairs(alloc, walk, pairs.as_slice())?;
            walk.push(Act::Dict(pairs.len()))
        }
        Expr::Comp(_, item, target, over, test) => {
            walk_expr(alloc, walk, item.get())?;
            walk_target(alloc, walk, target.get())?;
            walk_expr(alloc, walk, over.get())?;
            walk_option(alloc, walk, test)?;
            walk.push(Act::Comp(3 + count(test)))
        }
    }
}

fn count(e: &Option<Own<Expr>>) -> usize
    ensures { result ≡ spec.count e.now }
{
    match e {
        None => 0,
        Some(_) => 1,
    }
}

#[cycle(expr)]
fn walk_option(alloc: Global, walk: &mut Walk, e: &Option<Own<Expr>>) -> Result<(), NoMem>
    ensures { OnOk result (walk.new ≡ spec.option_expr e.now walk.old) }
{
    match e {
        None => Ok(()),
        Some(e) => walk_expr(alloc, walk, e.get()),
    }
}

#[cycle(expr)]
pub fn walk_exprs(alloc: Global, walk: &mut Walk, es: &[Expr]) -> Result<(), NoMem>
    ensures { OnOk result (walk.new ≡ spec.exprs es.now walk.old) }
{
    for e in es {
        walk_expr(alloc, walk, e)?;
    }
    Ok(())
}

#[cycle(expr)]
fn walk_pair(alloc: Global, walk: &mut Walk, pair: &(Expr, Expr)) -> Result<(), NoMem>
    ensures { OnOk result (walk.new ≡ spec.pair pair.now walk.old) }
{
    walk_expr(alloc, walk, &pair.0)?;
    walk_expr(alloc, walk, &pair.1)
}

#[cycle(expr)]
fn walk_pairs(alloc: Global, walk: &mut Walk, pairs: &[(Expr, Expr)]) -> Result<(), NoMem>
    ensures { OnOk result (walk.new ≡ spec.pairs pairs.now walk.old) }
{
    for pair in pairs {
        walk_pair(alloc, walk, pair)?;
    }
    Ok(())
}

#[cycle(expr)]
pub fn walk_target(alloc: Global, walk: &mut Walk, target: &Target) -> Result<(), NoMem>
    ensures { OnOk result (walk.new ≡ spec.target target.now walk.old) }
{
    match target {
        Target::Name(_, name) => {
            let name = walk.number(alloc, name)?;
            walk.push(Act::Bind(name))
        }
        Target::Attr(_, a, name) => {
            walk_expr(alloc, walk, a)?;
            let name = walk.number(alloc, name)?;
            walk.push(Act::BindAttr(name))
        }
        Target::Item(_, a, i) => {
            walk_expr(alloc, walk, a)?;
            walk_expr(alloc, walk, i)?;
            walk.push(Act::Other(2))
        }
        Target::Tuple(_, parts) => {
            walk_targets(alloc, walk, parts.as_slice())?;
            walk.push(Act::Other(parts.len()))
        }
    }
}

#[cycle(expr)]
pub fn walk_targets(alloc: Global, walk: &mut Walk, targets: &[Target]) -> Result<(), NoMem>
    ensures { OnOk result (walk.new ≡ spec.targets targets.now walk.old) }
{
    for target in targets {
        walk_target(alloc, walk, target)?;
    }
    Ok(())
}
