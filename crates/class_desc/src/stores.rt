// The attributes of its first parameter that a function assigns to.
ghost use Rattle.std.specs.Prelude.{◌≡◌, OnOk, IfOk};
ghost use Rattle.class_desc.specs.Stores as spec;

use crate::names::Names;
use rpy_base::{NoMem, Own, Seq, Text};
use rpy_tree::{Clause, Expr, Param, Stmt, Target};
use std::alloc::Global;

/// Whether the expression that was read last is the first parameter alone, and the attributes so
/// far.
#[derive(Drop)]
pub struct Stores {
    pub at_first: bool,
    pub names: Names,
}

impl Stores {
    fn pass(&mut self) -> Result<(), NoMem>
        ensures { OnOk result (self.new ≡ spec.pass self.old) }
    {
        self.at_first = false;
        Ok(())
    }

    fn read(&mut self, first: &Text, name: &Text) -> Result<(), NoMem>
        ensures { OnOk result (self.new ≡ spec.read first.now name.now self.old) }
    {
        self.at_first = *name == *first;
        Ok(())
    }

    fn store(&mut self, alloc: Global, attribute: &Text) -> Result<(), NoMem>
        ensures { OnOk result (self.new ≡ spec.store attribute.now self.old) }
    {
        if self.at_first {
            self.names.add(alloc, attribute)?;
        }
        self.at_first = false;
        Ok(())
    }
}

#[cycle(expr)]
fn read_expr(alloc: Global, first: &Text, e: &Expr, stores: &mut Stores) -> Result<(), NoMem>
    ensures { OnOk result (stores.new ≡ spec.expr first.now e.now stores.old) }
{
    match e {
        Expr::Int(_, _) => stores.pass(),
        Expr::Str(_, _) => stores.pass(),
        Expr::Name(_, name) => stores.read(first, name),
        Expr::Unary(_, _, a) => read_one(alloc, first, a, stores),
        Expr::Binary(_, _, a, b) => read_two(alloc, first, a, b, stores),
        Expr::Compare(_, _, a, b) => read_two(alloc, first, a, b, stores),
        Expr::Logic(_, _, a, b) => read_two(alloc, first, a, b, stores),
        Expr::Not(_, a) => read_one(alloc, first, a, stores),
        Expr::Call(_, callee, args) => read_call(alloc, first, callee, args, stores),
        Expr::Attr(_, a, _) => read_one(alloc, first, a, stores),
        Expr::Index(_, a, i) => read_two(alloc, first, a, i, stores),
        Expr::Slice(_, a, from, to) => read_slice(alloc, first, a, from, to, stores),
        Expr::Tuple(_, items) => read_items(alloc, first, items, stores),
        Expr::List(_, items) => read_items(alloc, first, items, stores),
        Expr::Dict(_, pairs) => read_dict(alloc, first, pairs, stores),
        Expr::Comp(_, item, target, over, test) => {
            read_comp(alloc, first, item, target, over, test, stores)
        }
    }
}

// An expression with one part.
#[cycle(expr)]
fn read_one(alloc: Global, first: &Text, a: &Own<Expr>, stores: &mut Stores) -> Result<(), NoMem>
    ensures { OnOk result (stores.new ≡ spec.pass (spec.expr first.now a.now stores.old)) }
{
    read_expr(alloc, first, a.get(), stores)?;
    stores.pass()
}

// An expression with two parts.
#[cycle(expr)]
fn read_two(
    alloc: Global,
    first: &Text,
    a: &Own<Expr>,
    b: &Own<Expr>,
    stores: &mut Stores,
) -> Result<(), NoMem>
    ensures { OnOk result (stores.new ≡ spec.pass (spec.expr first.now b.now (spec.expr first.now a.now stores.old))) }
{
    read_expr(alloc, first, a.get(), stores)?;
    read_expr(alloc, first, b.get(), stores)?;
    stores.pass()
}

#[cycle(expr)]
fn read_call(
    alloc: Global,
    first: &Text,
    callee: &Own<Expr>,
    args: &Seq<Expr>,
    stores: &mut Stores,
) -> Result<(), NoMem>
    ensures { OnOk result (stores.new ≡ spec.pass (spec.exprs first.now args.now (spec.expr first.now callee.now stores.old))) }
{
    read_expr(alloc, first, callee.get(), stores)?;
    read_exprs(alloc, first, args.as_slice(), stores)?;
    stores.pass()
}

#[cycle(expr)]
fn read_slice(
    alloc: Global,
    first: &Text,
    a: &Own<Expr>,
    from: &Option<Own<Expr>>,
    to: &Option<Own<Expr>>,
    stores: &mut Stores,
) -> Result<(), NoMem>
    ensures { OnOk result (stores.new ≡ spec.pass (spec.option_expr first.now to.now (spec.option_expr first.now from.now (spec.expr first.now a.now stores.old)))) }
{
    read_expr(alloc, first, a.get(), stores)?;
    read_option(alloc, first, from, stores)?;
    read_option(alloc, first, to, stores)?;
    stores.pass()
}

// The elements of a display.
#[cycle(expr)]
fn read_items(
    alloc: Global,
    first: &Text,
    items: &Seq<Expr>,
    stores: &mut Stores,
) -> Result<(), NoMem>
    ensures { OnOk result (stores.new ≡ spec.pass (spec.exprs first.now items.now stores.old)) }
{
    read_exprs(alloc, first, items.as_slice(), stores)?;
    stores.pass()
}

#[cycle(expr)]
fn read_dict(
    alloc: Global,
    first: &Text,
    entries: &Seq<(Expr, Expr)>,
    stores: &mut Stores,
) -> Result<(), NoMem>
    ensures { OnOk result (stores.new ≡ spec.pass (spec.pairs first.now entries.now stores.old)) }
{
    read_pairs(alloc, first, entries.as_slice(), stores)?;
    stores.pass()
}

#[cycle(expr)]
fn read_comp(
    alloc: Global,
    first: &Text,
    item: &Own<Expr>,
    target: &Own<Target>,
    over: &Own<Expr>,
    test: &Option<Own<Expr>>,
    stores: &mut Stores,
) -> Result<(), NoMem>
    ensures { OnOk result (stores.new ≡ spec.pass (spec.option_expr first.now test.now (spec.expr first.now over.now (spec.target first.now target.now (spec.expr first.now item.now stores.old))))) }
{
    read_expr(alloc, first, item.get(), stores)?;
    read_target(alloc, first, target.get(), stores)?;
    read_expr(alloc, first, over.get(), stores)?;
    read_option(alloc, first, test, stores)?;
    stores.pass()
}

#[cycle(expr)]
fn read_option(
    alloc: Global,
    first: &Text,
    e: &Option<Own<Expr>>,
    stores: &mut Stores,
) -> Result<(), NoMem>
    ensures { OnOk result (stores.new ≡ spec.option_expr first.now e.now stores.old) }
{
    match e {
        None => Ok(()),
        Some(e) => read_expr(alloc, first, e.get(), stores),
    }
}

#[cycle(expr)]
fn read_exprs(alloc: Global, first: &Text, es: &[Expr], stores: &mut Stores) -> Result<(), NoMem>
    ensures { OnOk result (stores.new ≡ spec.exprs first.now es.now stores.old) }
{
    for e in es {
        read_expr(alloc, first, e, stores)?;
    }
    Ok(())
}

#[cycle(expr)]
fn read_pair(
    alloc: Global,
    first: &Text,
    pair: &(Expr, Expr),
    stores: &mut Stores,
) -> Result<(), NoMem>
    ensures { OnOk result (stores.new ≡ spec.pair first.now pair.now stores.old) }
{
    read_expr(alloc, first, &pair.0, stores)?;
    read_expr(alloc, first, &pair.1, stores)
}

#[cycle(expr)]
fn read_pairs(
    alloc: Global,
    first: &Text,
    pairs: &[(Expr, Expr)],
    stores: &mut Stores,
) -> Result<(), NoMem>
    ensures { OnOk result (stores.new ≡ spec.pairs first.now pairs.now stores.old) }
{
    for pair in pairs {
        read_pair(alloc, first, pair, stores)?;
    }
    Ok(())
}

#[cycle(expr)]
fn read_target(
    alloc: Global,
    first: &Text,
    target: &Target,
    stores: &mut Stores,
) -> Result<(), NoMem>
    ensures { OnOk result (stores.new ≡ spec.target first.now target.now stores.old) }
{
    match target {
        Target::Name(_, _) => Ok(()),
        Target::Attr(_, a, name) => {
            read_expr(alloc, first, a, stores)?;
            stores.store(alloc, name)
        }
        Target::Item(_, a, i) => {
            read_expr(alloc, first, a, stores)?;
            read_expr(alloc, first, i, stores)
        }
        Target::Tuple(_, parts) => read_targets(alloc, first, parts.as_slice(), stores),
    }
}

#[cycle(expr)]
fn read_targets(
    alloc: Global,
    first: &Text,
    targets: &[Target],
    stores: &mut Stores,
) -> Result<(), NoMem>
    ensures { OnOk result (stores.new ≡ spec.targets first.now targets.now stores.old) }
{
    for target in targets {
        read_target(alloc, first, target, stores)?;
    }
    Ok(())
}

fn read_return(
    alloc: Global,
    first: &Text,
    e: &Option<Expr>,
    stores: &mut Stores,
) -> Result<(), NoMem>
    ensures { OnOk result (stores.new ≡ spec.return_expr first.now e.now stores.old) }
{
    match e {
        None => Ok(()),
        Some(e) => read_expr(alloc, first, e, stores),
    }
}

fn read_del(
    alloc: Global,
    first: &Text,
    a: &Expr,
    i: &Expr,
    stores: &mut Stores,
) -> Result<(), NoMem>
    ensures { OnOk result (stores.new ≡ spec.expr first.now i.now (spec.expr first.now a.now stores.old)) }
{
    read_expr(alloc, first, a, stores)?;
    read_expr(alloc, first, i, stores)
}

fn read_assign(
    alloc: Global,
    first: &Text,
    targets: &Seq<Target>,
    e: &Expr,
    stores: &mut Stores,
) -> Result<(), NoMem>
    ensures { OnOk result (stores.new ≡ spec.expr first.now e.now (spec.targets first.now targets.now stores.old)) }
{
    read_targets(alloc, first, targets.as_slice(), stores)?;
    read_expr(alloc, first, e, stores)
}

// A target, and what its values are taken from.
fn read_aimed(
    alloc: Global,
    first: &Text,
    target: &Target,
    e: &Expr,
    stores: &mut Stores,
) -> Result<(), NoMem>
    ensures { OnOk result (stores.new ≡ spec.expr first.now e.now (spec.target first.now target.now stores.old)) }
{
    read_target(alloc, first, target, stores)?;
    read_expr(alloc, first, e, stores)
}

#[cycle(stmt)]
fn read_stmt(alloc: Global, first: &Text, s: &Stmt, stores: &mut Stores) -> Result<(), NoMem>
    ensures { OnOk result (stores.new ≡ spec.stmt first.now s.now stores.old) }
{
    match s {
        Stmt::Pass(_) => Ok(()),
        Stmt::Break(_) => Ok(()),
        Stmt::Continue(_) => Ok(()),
        Stmt::Return(_, e) => read_return(alloc, first, e, stores),
        Stmt::Raise(_, e) => read_expr(alloc, first, e, stores),
        Stmt::Assert(_, e) => read_expr(alloc, first, e, stores),
        Stmt::Del(_, a, i) => read_del(alloc, first, a, i, stores),
        Stmt::Print(_, es) => read_exprs(alloc, first, es.as_slice(), stores),
        Stmt::Assign(_, targets, e) => read_assign(alloc, first, targets, e, stores),
        Stmt::Aug(_, target, _, e) => read_aimed(alloc, first, target, e, stores),
        Stmt::Expr(_, e) => read_expr(alloc, first, e, stores),
        Stmt::If(_, arms, other) => read_if(alloc, first, arms, other, stores),
        Stmt::While(_, test, body) => read_tested(alloc, first, test, body, stores),
        Stmt::For(_, target, over, body) => read_for(alloc, first, target, over, body, stores),
        Stmt::Try(_, body, clauses, other, last) => {
            read_try(alloc, first, body, clauses, other, last, stores)
        }
    }
}

// A test, and the block that is run after it.
#[cycle(stmt)]
fn read_tested(
    alloc: Global,
    first: &Text,
    test: &Expr,
    body: &Seq<Stmt>,
    stores: &mut Stores,
) -> Result<(), NoMem>
    ensures { OnOk result (stores.new ≡ spec.block first.now body.now (spec.expr first.now test.now stores.old)) }
{
    read_expr(alloc, first, test, stores)?;
    read_block(alloc, first, body.as_slice(), stores)
}

#[cycle(stmt)]
fn read_if(
    alloc: Global,
    first: &Text,
    branches: &Seq<(Expr, Seq<Stmt>)>,
    other: &Seq<Stmt>,
    stores: &mut Stores,
) -> Result<(), NoMem>
    ensures { OnOk result (stores.new ≡ spec.block first.now other.now (spec.arms first.now branches.now stores.old)) }
{
    read_arms(alloc, first, branches.as_slice(), stores)?;
    read_block(alloc, first, other.as_slice(), stores)
}

#[cycle(stmt)]
fn read_for(
    alloc: Global,
    first: &Text,
    target: &Target,
    over: &Expr,
    body: &Seq<Stmt>,
    stores: &mut Stores,
) -> Result<(), NoMem>
    ensures { OnOk result (stores.new ≡ spec.block first.now body.now (spec.expr first.now over.now (spec.target first.now target.now stores.old))) }
{
    read_aimed(alloc, first, target, over, stores)?;
    read_block(alloc, first, body.as_slice(), stores)
}

#[cycle(stmt)]
fn read_try(
    alloc: Global,
    first: &Text,
    body: &Seq<Stmt>,
    clauses: &Seq<Clause>,
    other: &Seq<Stmt>,
    last: &Option<Seq<Stmt>>,
    stores: &mut Stores,
) -> Result<(), NoMem>
    ensures { OnOk result (stores.new ≡ spec.finally first.now last.now (spec.block first.now other.now (spec.clauses first.now clauses.now (spec.block first.now body.now stores.old)))) }
{
    read_block(alloc, first, body.as_slice(), stores)?;
    read_clauses(alloc, first, clauses.as_slice(), stores)?;
    read_block(alloc, first, other.as_slice(), stores)?;
    read_finally(alloc, first, last, stores)
}

#[cycle(stmt)]
fn read_block(alloc: Global, first: &Text, body: &[Stmt], stores: &mut Stores) -> Result<(), NoMem>
    ensures { OnOk result (stores.new ≡ spec.block first.now body.now stores.old) }
{
    for s in body {
        read_stmt(alloc, first, s, stores)?;
    }
    Ok(())
}

#[cycle(stmt)]
fn read_finally(
    alloc: Global,
    first: &Text,
    last: &Option<Seq<Stmt>>,
    stores: &mut Stores,
) -> Result<(), NoMem>
    ensures { OnOk result (stores.new ≡ spec.finally first.now last.now stores.old) }
{
    match last {
        None => Ok(()),
        Some(body) => read_block(alloc, first, body.as_slice(), stores),
    }
}

#[cycle(stmt)]
fn read_arm(
    alloc: Global,
    first: &Text,
    arm: &(Expr, Seq<Stmt>),
    stores: &mut Stores,
) -> Result<(), NoMem>
    ensures { OnOk result (stores.new ≡ spec.arm first.now arm.now stores.old) }
{
    read_tested(alloc, first, &arm.0, &arm.1, stores)
}

#[cycle(stmt)]
fn read_arms(
    alloc: Global,
    first: &Text,
    arms: &[(Expr, Seq<Stmt>)],
    stores: &mut Stores,
) -> Result<(), NoMem>
    ensures { OnOk result (stores.new ≡ spec.arms first.now arms.now stores.old) }
{
    for arm in arms {
        read_arm(alloc, first, arm, stores)?;
    }
    Ok(())
}

#[cycle(stmt)]
fn read_clause(
    alloc: Global,
    first: &Text,
    clause: &Clause,
    stores: &mut Stores,
) -> Result<(), NoMem>
    ensures { OnOk result (stores.new ≡ spec.clause first.now clause.now stores.old) }
{
    read_block(alloc, first, clause.body.as_slice(), stores)
}

#[cycle(stmt)]
fn read_clauses(
    alloc: Global,
    first: &Text,
    clauses: &[Clause],
    stores: &mut Stores,
) -> Result<(), NoMem>
    ensures { OnOk result (stores.new ≡ spec.clauses first.now clauses.now stores.old) }
{
    for clause in clauses {
        read_clause(alloc, first, clause, stores)?;
    }
    Ok(())
}

/// The attributes of its first parameter that a function assigns to, after those before.
pub fn add_stored(
    alloc: Global,
    params: &[Param],
    body: &[Stmt],
    names: Names,
) -> Result<Names, NoMem>
    ensures { IfOk result (λ all. all ≡ spec.stored params.now body.now names) }
{
    match params {
        [] => Ok(names),
        [first, ..] => {
            let mut stores = Stores {
                at_first: false,
                names,
            };
            read_block(alloc, &first.name, body, &mut stores)?;
            Ok(stores.names)
        }
    }
}
