// Which kind of expression or statement has a number, in the bodies of functions.
ghost use Rattle.std.specs.Prelude.{◌≡◌};
ghost use Rattle.rpy_kinds.specs.Search as spec;
ghost use Rattle.rpy_kinds.specs.declared.kind.Kind.TheVariants as kinds;

use crate::kind::Kind;
use rpy_base::{Own, Seq};
use rpy_tree::{Clause, Expr, Stmt, Target};

/// The node of the expression that was read last, whether that is a plain name, and what was found.
#[derive(Clone, Copy)]
pub struct Search {
    pub last: u64,
    pub named: bool,
    pub found: Option<Kind>,
}

fn found_at(node: u64, n: u64, kind: Kind, found: Option<Kind>) -> Option<Kind>
    ensures { result ≡ spec.found_at node n kind found }
{
    match found {
        Some(other) => Some(other),
        None => { if n == node { Some(kind) } else { None } }
    }
}

impl Search {
    fn note(&mut self, node: u64, n: u32, kind: Kind)
        ensures { self.new ≡ spec.note node n kind self.old }
    {
        self.found = found_at(node, u64::from(n), kind, self.found);
        self.last = u64::from(n);
        self.named = false;
    }

    fn note_name(&mut self, node: u64, n: u32)
        ensures { self.new ≡ spec.note_name node n self.old }
    {
        self.found = found_at(node, u64::from(n), Kind::Name, self.found);
        self.last = u64::from(n);
        self.named = true;
    }

    fn note_logic(&mut self, node: u64, n: u32, left: u64)
        ensures { self.new ≡ spec.note_logic node n left self.old }
    {
        let right = self.last;
        self.note(node, n, Kind::Logic(left, right));
    }
}

#[cycle(expr)]
fn read_expr(node: u64, e: &Expr, search: &mut Search)
    ensures { search.new ≡ spec.expr node e.now search.old }
{
    match e {
        Expr::Int(n, _) => search.note(node, *n, Kind::Int),
        Expr::Str(n, _) => search.note(node, *n, Kind::Str),
        Expr::Name(n, _) => search.note_name(node, *n),
        Expr::Unary(n, _, a) => read_one(node, *n, a, Kind::Unary, search),
        Expr::Binary(n, _, a, b) => read_two(node, *n, a, b, Kind::Binary, search),
        Expr::Compare(n, _, a, b) => read_two(node, *n, a, b, Kind::Compare, search),
        Expr::Logic(n, _, a, b) => read_logic(node, *n, a, b, search),
        Expr::Not(n, a) => read_one(node, *n, a, Kind::Not, search),
        Expr::Call(n, callee, args) => read_call(node, *n, callee, args, search),
        Expr::Attr(n, a, _) => read_one(node, *n, a, Kind::Attr, search),
        Expr::Index(n, a, i) => read_two(node, *n, a, i, Kind::Index, search),
        Expr::Slice(n, a, from, to) => read_slice(node, *n, a, from, to, search),
        Expr::Tuple(n, items) => read_items(node, *n, items, Kind::Tuple, search),
        Expr::List(n, items) => read_items(node, *n, items, Kind::List, search),
        Expr::Dict(n, pairs) => read_dict(node, *n, pairs, search),
        Expr::Comp(n, item, target, over, test) => {
            read_comp(node, *n, item, target, over, test, search)
        }
    }
}

// One part of an expression, a target or a statement.
#[cycle(expr)]
fn read_alone(node: u64, n: u32, a: &Expr, kind: Kind, search: &mut Search)
    ensures { search.new ≡ spec.note node n kind (spec.expr node a.now search.old) }
{
    read_expr(node, a, search);
    search.note(node, n, kind);
}

// An expression with one part.
#[cycle(expr)]
fn read_one(node: u64, n: u32, a: &Own<Expr>, kind: Kind, search: &mut Search)
    ensures { search.new ≡ spec.note node n kind (spec.expr node a.now search.old) }
{
    read_alone(node, n, a.get(), kind, search)
}

// Two parts of an expression, a target or a statement.
#[cycle(expr)]
fn read_both(node: u64, n: u32, a: &Expr, b: &Expr, kind: Kind, search: &mut Search)
    ensures { search.new ≡ spec.note node n kind (spec.expr node b.now (spec.expr node a.now search.old)) }
{
    read_expr(node, a, search);
    read_expr(node, b, search);
    search.note(node, n, kind);
}

// An expression with two parts.
#[cycle(expr)]
fn read_two(node: u64, n: u32, a: &Own<Expr>, b: &Own<Expr>, kind: Kind, search: &mut Search)
    ensures { search.new ≡ spec.note node n kind (spec.expr node b.now (spec.expr node a.now search.old)) }
{
    read_both(node, n, a.get(), b.get(), kind, search)
}

#[cycle(expr)]
fn read_logic(node: u64, n: u32, a: &Own<Expr>, b: &Own<Expr>, search: &mut Search)
    ensures { search.new ≡ spec.note_logic node n (spec.expr node a.now search.old).last (spec.expr node b.now (spec.expr node a.now search.old)) }
{
    read_expr(node, a.get(), search);
    let left = search.last;
    read_expr(node, b.get(), search);
    search.note_logic(node, n, left);
}

#[cycle(expr)]
fn read_call(node: u64, n: u32, callee: &Own<Expr>, args: &Seq<Expr>, search: &mut Search)
    ensures { search.new ≡ spec.note node n (kinds.Call (spec.expr node callee.now search.old).named) (spec.exprs node args.now (spec.expr node callee.now search.old)) }
{
    read_expr(node, callee.get(), search);
    let named = search.named;
    read_exprs(node, args.as_slice(), search);
    search.note(node, n, Kind::Call(named));
}

#[cycle(expr)]
fn read_slice(
    node: u64,
    n: u32,
    a: &Own<Expr>,
    from: &Option<Own<Expr>>,
    to: &Option<Own<Expr>>,
    search: &mut Search,
)
    ensures { search.new ≡ spec.note node n kinds.Slice (spec.option_expr node to.now (spec.option_expr node from.now (spec.expr node a.now search.old))) }
{
    read_expr(node, a.get(), search);
    read_option(node, from, search);
    read_option(node, to, search);
    search.note(node, n, Kind::Slice);
}

// The elements of a display, or what is printed.
#[cycle(expr)]
fn read_items(node: u64, n: u32, items: &Seq<Expr>, kind: Kind, search: &mut Search)
    ensures { search.new ≡ spec.note node n kind (spec.exprs node items.now search.old) }
{
    read_exprs(node, items.as_slice(), search);
    search.note(node, n, kind);
}

#[cycle(expr)]
fn read_dict(node: u64, n: u32, entries: &Seq<(Expr, Expr)>, search: &mut Search)
    ensures { search.new ≡ spec.note node n kinds.Dict (spec.pairs node entries.now search.old) }
{
    read_pairs(node, entries.as_slice(), search);
    search.note(node, n, Kind::Dict);
}

#[cycle(expr)]
fn read_comp(
    node: u64,
    n: u32,
    item: &Own<Expr>,
    target: &Own<Target>,
    over: &Own<Expr>,
    test: &Option<Own<Expr>>,
    search: &mut Search,
)
    ensures { search.new ≡ spec.note node n kinds.Comp (spec.option_expr node test.now (spec.expr node over.now (spec.target node target.now kinds.Comp (spec.expr node item.now search.old)))) }
{
    read_expr(node, item.get(), search);
    read_target(node, target.get(), Kind::Comp, search);
    read_expr(node, over.get(), search);
    read_option(node, test, search);
    search.note(node, n, Kind::Comp);
}

#[cycle(expr)]
fn read_option(node: u64, e: &Option<Own<Expr>>, search: &mut Search)
    ensures { search.new ≡ spec.option_expr node e.now search.old }
{
    match e {
        None => {}
        Some(e) => read_expr(node, e.get(), search),
    }
}

#[cycle(expr)]
fn read_exprs(node: u64, es: &[Expr], search: &mut Search)
    ensures { search.new ≡ spec.exprs node es.now search.old }
{
    for e in es {
        read_expr(node, e, search);
    }
}

#[cycle(expr)]
fn read_pair(node: u64, pair: &(Expr, Expr), search: &mut Search)
    ensures { search.new ≡ spec.pair node pair.now search.old }
{
    read_expr(node, &pair.0, search);
    read_expr(node, &pair.1, search)
}

#[cycle(expr)]
fn read_pairs(node: u64, pairs: &[(Expr, Expr)], search: &mut Search)
    ensures { search.new ≡ spec.pairs node pairs.now search.old }
{
    for pair in pairs {
        read_pair(node, pair, search);
    }
}

#[cycle(expr)]
fn read_target(node: u64, target: &Target, kind: Kind, search: &mut Search)
    ensures { search.new ≡ spec.target node target.now kind search.old }
{
    match target {
        Target::Name(n, _) => search.note(node, *n, kind),
        Target::Attr(n, a, _) => read_alone(node, *n, a, kind, search),
        Target::Item(n, a, i) => read_both(node, *n, a, i, kind, search),
        Target::Tuple(n, parts) => {
            read_targets(node, parts.as_slice(), kind, search);
            search.note(node, *n, kind);
        }
    }
}

#[cycle(expr)]
fn read_targets(node: u64, targets: &[Target], kind: Kind, search: &mut Search)
    ensures { search.new ≡ spec.targets node targets.now kind search.old }
{
    for target in targets {
        read_target(node, target, kind, search);
    }
}

fn read_return(node: u64, e: &Option<Expr>, search: &mut Search)
    ensures { search.new ≡ spec.return_expr node e.now search.old }
{
    match e {
        None => {}
        Some(e) => read_expr(node, e, search),
    }
}

// A target, and what its values are taken from.
fn read_aimed(node: u64, target: &Target, e: &Expr, kind: Kind, search: &mut Search)
    ensures { search.new ≡ spec.expr node e.now (spec.target node target.now kind search.old) }
{
    read_target(node, target, kind, search);
    read_expr(node, e, search);
}

fn read_assign(node: u64, n: u32, targets: &Seq<Target>, e: &Expr, search: &mut Search)
    ensures { search.new ≡ spec.note node n kinds.Assign (spec.expr node e.now (spec.targets node targets.now kinds.Assign search.old)) }
{
    read_targets(node, targets.as_slice(), Kind::Assign, search);
    read_expr(node, e, search);
    search.note(node, n, Kind::Assign);
}

#[cycle(stmt)]
fn read_stmt(node: u64, s: &Stmt, search: &mut Search)
    ensures { search.new ≡ spec.stmt node s.now search.old }
{
    match s {
        Stmt::Pass(n) => search.note(node, *n, Kind::Pass),
        Stmt::Break(n) => search.note(node, *n, Kind::Break),
        Stmt::Continue(n) => search.note(node, *n, Kind::Continue),
        Stmt::Return(n, e) => {
            read_return(node, e, search);
            search.note(node, *n, Kind::Return);
        }
        Stmt::Raise(n, e) => read_alone(node, *n, e, Kind::Raise, search),
        Stmt::Assert(n, e) => read_alone(node, *n, e, Kind::Assert, search),
        Stmt::Del(n, a, i) => read_both(node, *n, a, i, Kind::Del, search),
        Stmt::Print(n, es) => read_items(node, *n, es, Kind::Print, search),
        Stmt::Assign(n, targets, e) => read_assign(node, *n, targets, e, search),
        Stmt::Aug(n, target, _, e) => {
            read_aimed(node, target, e, Kind::Aug, search);
            search.note(node, *n, Kind::Aug);
        }
        Stmt::Expr(n, e) => read_alone(node, *n, e, Kind::Expr, search),
        Stmt::If(n, arms, other) => read_if(node, *n, arms, other, search),
        Stmt::While(n, test, body) => {
            read_tested(node, test, body, search);
            search.note(node, *n, Kind::While);
        }
        Stmt::For(n, target, over, body) => read_for(node, *n, target, over, body, search),
        Stmt::Try(n, body, clauses, other, last) => {
            read_try(node, *n, body, clauses, other, last, search)
        }
    }
}

// A test, and the block that is run after it.
#[cycle(stmt)]
fn read_tested(node: u64, test: &Expr, body: &Seq<Stmt>, search: &mut Search)
    ensures { search.new ≡ spec.block node body.now (spec.expr node test.now search.old) }
{
    read_expr(node, test, search);
    read_block(node, body.as_slice(), search);
}

#[cycle(stmt)]
fn read_if(
    node: u64,
    n: u32,
    branches: &Seq<(Expr, Seq<Stmt>)>,
    other: &Seq<Stmt>,
    search: &mut Search,
)
    ensures { search.new ≡ spec.note node n kinds.If (spec.block node other.now (spec.arms node branches.now search.old)) }
{
    read_arms(node, branches.as_slice(), search);
    read_block(node, other.as_slice(), search);
    search.note(node, n, Kind::If);
}

#[cycle(stmt)]
fn read_for(node: u64, n: u32, target: &Target, over: &Expr, body: &Seq<Stmt>, search: &mut Search)
    ensures { search.new ≡ spec.note node n kinds.For (spec.block node body.now (spec.expr node over.now (spec.target node target.now kinds.For search.old))) }
{
    read_aimed(node, target, over, Kind::For, search);
    read_block(node, body.as_slice(), search);
    search.note(node, n, Kind::For);
}

#[cycle(stmt)]
fn read_try(
    node: u64,
    n: u32,
    body: &Seq<Stmt>,
    clauses: &Seq<Clause>,
    other: &Seq<Stmt>,
    last: &Option<Seq<Stmt>>,
    search: &mut Search,
)
    ensures { search.new ≡ spec.note node n kinds.Try (spec.finally node last.now (spec.block node other.now (spec.clauses node clauses.now (spec.block node body.now search.old)))) }
{
    read_block(node, body.as_slice(), search);
    read_clauses(node, clauses.as_slice(), search);
    read_block(node, other.as_slice(), search);
    read_finally(node, last, search);
    search.note(node, n, Kind::Try);
}

#[cycle(stmt)]
pub fn read_block(node: u64, body: &[Stmt], search: &mut Search)
    ensures { search.new ≡ spec.block node body.now search.old }
{
    for s in body {
        read_stmt(node, s, search);
    }
}

#[cycle(stmt)]
fn read_finally(node: u64, last: &Option<Seq<Stmt>>, search: &mut Search)
    ensures { search.new ≡ spec.finally node last.now search.old }
{
    match last {
        None => {}
        Some(body) => read_block(node, body.as_slice(), search),
    }
}

#[cycle(stmt)]
fn read_arm(node: u64, arm: &(Expr, Seq<Stmt>), search: &mut Search)
    ensures { search.new ≡ spec.arm node arm.now search.old }
{
    read_tested(node, &arm.0, &arm.1, search)
}

#[cycle(stmt)]
fn read_arms(node: u64, arms: &[(Expr, Seq<Stmt>)], search: &mut Search)
    ensures { search.new ≡ spec.arms node arms.now search.old }
{
    for arm in arms {
        read_arm(node, arm, search);
    }
}

#[cycle(stmt)]
fn read_clause(node: u64, clause: &Clause, search: &mut Search)
    ensures { search.new ≡ spec.clause node clause.now search.old }
{
    read_block(node, clause.body.as_slice(), search)
}

#[cycle(stmt)]
fn read_clauses(node: u64, clauses: &[Clause], search: &mut Search)
    ensures { search.new ≡ spec.clauses node clauses.now search.old }
{
    for clause in clauses {
        read_clause(node, clause, search);
    }
}
