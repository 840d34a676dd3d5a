// Statements to blocks.
ghost use Rattle.std.specs.Prelude.{◌≡◌, ◌+◌, false, List, ◌++◌, ◌∷◌, [], IfOk, OnOk, Option};
ghost use Rattle.rpy_tree.specs.declared.program.Site.{Site};
ghost use Rattle.rpy_meaning.specs.declared.row.RowOp.TheVariants as row;
ghost use Rattle.flow_stands.specs.Places.{first as on_first, first_and as on_first_and, Go};
ghost use Rattle.flow_stands.specs.Stands as stands;
ghost use Rattle.flow_trees.specs.Tree as tree;
ghost use Rattle.flow_space.specs.Trees.{stmt_of};
ghost use Rattle.flow_space.specs.Placed.{Part, ShapeAt, ActsAt, MarkAt, SeenAt, BackAt, ReturnAt, DoAt, BindsAt, AssignAt, NewAt, AugmentNameAt, AugmentAttrAt, AugmentItemAt, AugmentAt, SimpleAt, StmtAt, BlockAt, IfAt, WhileAt, ForAt, TryAt, FinallyAt, LeftAt, RaisedAt, ClausesAt, aim_of, hands_of};

use crate::code::{Aim, Code, Hand, Scope, jump_and, jump_first, jump_stored, local_place, op_at};
use crate::copy::copy_op;
use crate::covers::covers_of;
use crate::expression::{put_bind, put_expr, put_subject, put_test};
use crate::places::{one, plus, three, two};
use crate::walk::{Walk, put_advance, put_turn, step_of};
use crate::{NEVER, RETURN};
use rpy_base::{NoMem, Seq, Text};
use rpy_meaning::{Covers, RowOp};
use rpy_resolved::{Clause, Expr, Resolved, Stmt, Subject, Target};
use rpy_tree::NodeId;
use std::alloc::Global;

/// Where a statement goes on to: `norm` and the others with so many of the first variables, `ret`
/// with the returned value besides.
#[derive(Clone, Copy, Debug, PartialEq, Eq)]
pub struct Ways {
    pub norm: u64,
    pub brk: Aim,
    pub cont: Aim,
    pub ret: Aim,
}

impl Ways {
    fn on(self, norm: u64) -> Ways
        ensures { result ≡ record { norm = norm; brk = self.brk; cont = self.cont; ret = self.ret } }
    {
        Ways {
            norm,
            brk: self.brk,
            cont: self.cont,
            ret: self.ret,
        }
    }

    // In the body of a loop.
    fn within(self, next: Aim, after: Aim) -> Ways
        ensures { result ≡ record { norm = next.to; brk = after; cont = next; ret = self.ret } }
    {
        Ways {
            norm: next.to,
            brk: after,
            cont: next,
            ret: self.ret,
        }
    }
}

// On with the first variables at once.
fn put_aim(alloc: Global, code: &mut Code, m: usize, aim: Aim) -> Result<u64, NoMem>
    ensures { IfOk result (λ b. Part code.old.blocks code.new.blocks (ShapeAt b m (Go (on_first aim.to aim.keep)))) }
{
    let jump = jump_first(alloc, aim.to, aim.keep)?;
    code.put_jump(alloc, m, jump)
}

// On with the first variables and the last of m + 1.
fn put_aim_and(alloc: Global, code: &mut Code, m: usize, aim: Aim) -> Result<u64, NoMem>
    ensures { IfOk result (λ b. Part code.old.blocks code.new.blocks (ShapeAt b (m + 1) (Go (on_first_and aim.to aim.keep m)))) }
{
    let more = plus(m, 1)?;
    let jump = jump_and(alloc, aim.to, aim.keep, m)?;
    code.put_jump(alloc, more, jump)
}

// In the body of a `try` a handler sees the locals between any two statements: a block whose
// operation cannot raise stands there.
fn put_mark(
    alloc: Global,
    code: &mut Code,
    scope: &Scope,
    node: NodeId,
    m: usize,
    norm: u64,
) -> Result<u64, NoMem>
    ensures { IfOk result (λ b. Part code.old.blocks code.new.blocks (MarkAt scope.now node b m norm)) }
{
    if scope.tried {
        let none: Seq<usize> = Seq::new(alloc);
        let jump = jump_first(alloc, norm, m)?;
        code.put_op(alloc, scope, op_at(node, false, RowOp::None), none, m, jump)
    } else {
        Ok(norm)
    }
}

/// The node of a statement.
fn node_of(s: &Stmt) -> NodeId
    ensures { (sites : List Site) → result ≡ tree.node_of (stmt_of sites s.now) }
{
    match s {
        Stmt::Pass(node) => *node,
        Stmt::Break(node) => *node,
        Stmt::Continue(node) => *node,
        Stmt::Return(node, _) => *node,
        Stmt::Do(node, _) => *node,
        Stmt::Assign(node, _, _) => *node,
        Stmt::Augment(node, _, _, _) => *node,
        Stmt::If(node, _, _, _) => *node,
        Stmt::While(node, _, _) => *node,
        Stmt::For(node, _, _, _) => *node,
        Stmt::Try(node, _, _, _) => *node,
        Stmt::Finally(node, _, _) => *node,
    }
}

// A value goes back to a `finally`, which is passed first. It is seen where values return: by a copy,
// whose way by exception, which is never gone, leads there.
fn put_seen(
    alloc: Global,
    code: &mut Code,
    scope: &Scope,
    node: NodeId,
    m: usize,
    ret: Aim,
) -> Result<u64, NoMem>
    ensures { IfOk result (λ b. Part code.old.blocks code.new.blocks (SeenAt scope.now node b m (aim_of ret))) }
{
    let more = plus(m, 1)?;
    let args = one(alloc, m)?;
    let seen = jump_and(alloc, RETURN, 0, m)?;
    let jump = jump_and(alloc, ret.to, ret.keep, m)?;
    let of = op_at(node, false, RowOp::Copy);
    code.put_aside(alloc, scope.covers, of, args, more, seen, jump)
}

// The last of m + 1 variables goes back.
fn put_back(
    alloc: Global,
    code: &mut Code,
    scope: &Scope,
    node: NodeId,
    m: usize,
    ret: Aim,
) -> Result<u64, NoMem>
    ensures { IfOk result (λ b. Part code.old.blocks code.new.blocks (BackAt scope.now node b m (aim_of ret))) }
{
    if ret.to == RETURN {
        put_aim_and(alloc, code, m, ret)
    } else {
        put_seen(alloc, code, scope, node, m, ret)
    }
}

fn put_return(
    alloc: Global,
    code: &mut Code,
    scope: &Scope,
    node: NodeId,
    e: &Expr,
    m: usize,
    t: Ways,
) -> Result<u64, NoMem>
    ensures { IfOk result (λ b. Part code.old.blocks code.new.blocks (ReturnAt scope.now node e.now b m t)) }
{
    let out = put_back(alloc, code, scope, node, m, t.ret)?;
    put_expr(alloc, code, scope, e, m, out)
}

fn put_do(
    alloc: Global,
    code: &mut Code,
    scope: &Scope,
    e: &Expr,
    m: usize,
    norm: u64,
) -> Result<u64, NoMem>
    ensures { IfOk result (λ b. Part code.old.blocks code.new.blocks (DoAt scope.now e.now b m norm)) }
{
    let more = plus(m, 1)?;
    let jump = jump_first(alloc, norm, m)?;
    let drop = code.put_jump(alloc, more, jump)?;
    put_expr(alloc, code, scope, e, m, drop)
}

// The targets take the value at m, which goes on as long as one is left.
fn put_targets(
    alloc: Global,
    code: &mut Code,
    scope: &Scope,
    targets: &[Target],
    m: usize,
    norm: u64,
) -> Result<u64, NoMem>
    ensures { IfOk result (λ b. Part code.old.blocks code.new.blocks (BindsAt scope.now targets.now b m norm)) }
{
    let more = plus(m, 1)?;
    match targets {
        [] => {
            let jump = jump_first(alloc, norm, m)?;
            code.put_jump(alloc, more, jump)
        }
        [target] => put_bind(alloc, code, scope, target, m, more, m, norm),
        [target, rest @ ..] => {
            let next = put_targets(alloc, code, scope, rest, m, norm)?;
            put_bind(alloc, code, scope, target, m, more, more, next)
        }
    }
}

fn put_assign(
    alloc: Global,
    code: &mut Code,
    scope: &Scope,
    targets: &[Target],
    e: &Expr,
    m: usize,
    norm: u64,
) -> Result<u64, NoMem>
    ensures { IfOk result (λ b. Part code.old.blocks code.new.blocks (AssignAt scope.now targets.now e.now b m norm)) }
{
    let bind = put_targets(alloc, code, scope, targets, m, norm)?;
    put_expr(alloc, code, scope, e, m, bind)
}

// ---- augmented assignments

// The operation on the old value and the right side, the last two of m + 2 variables.
fn put_new(
    alloc: Global,
    code: &mut Code,
    scope: &Scope,
    node: NodeId,
    op: &RowOp,
    m: usize,
    norm: u64,
) -> Result<u64, NoMem>
    ensures { IfOk result (λ b. Part code.old.blocks code.new.blocks (NewAt scope.now node op.now b m norm)) }
{
    let right = plus(m, 1)?;
    let all = plus(m, 2)?;
    let of = op_at(node, false, copy_op(alloc, op)?);
    let args = two(alloc, m, right)?;
    let jump = jump_and(alloc, norm, m, all)?;
    code.put_op(alloc, scope, of, args, all, jump)
}

fn put_augment_name(
    alloc: Global,
    code: &mut Code,
    scope: &Scope,
    node: NodeId,
    at: NodeId,
    local: u32,
    op: &RowOp,
    e: &Expr,
    m: usize,
    norm: u64,
) -> Result<u64, NoMem>
    ensures { IfOk result (λ b. Part code.old.blocks code.new.blocks (AugmentNameAt scope.now node at local op.now e.now b m norm)) }
{
    let more = plus(m, 1)?;
    let place = local_place(scope, local)?;
    let args = one(alloc, m)?;
    let jump = jump_stored(alloc, norm, m, local, more)?;
    let of = op_at(at, true, RowOp::Copy);
    let store = code.put_op(alloc, scope, of, args, more, jump)?;
    let new = put_new(alloc, code, scope, node, op, m, store)?;
    let right = put_expr(alloc, code, scope, e, more, new)?;
    let args = one(alloc, place)?;
    let jump = jump_and(alloc, right, m, m)?;
    let of = op_at(at, false, RowOp::Copy);
    code.put_op(alloc, scope, of, args, m, jump)
}

fn put_augment_attr(
    alloc: Global,
    code: &mut Code,
    scope: &Scope,
    node: NodeId,
    at: NodeId,
    a: &Expr,
    name: &Text,
    op: &RowOp,
    e: &Expr,
    m: usize,
    norm: u64,
) -> Result<u64, NoMem>
    ensures { IfOk result (λ b. Part code.old.blocks code.new.blocks (AugmentAttrAt scope.now node at a.now name.now op.now e.now b m norm)) }
{
    let old = plus(m, 1)?;
    let right = plus(m, 2)?;
    let jump = jump_first(alloc, norm, m)?;
    let args = two(alloc, m, old)?;
    let of = op_at(at, true, RowOp::StoreAttr(name.copy(alloc)?));
    let store = code.put_op(alloc, scope, of, args, right, jump)?;
    let new = put_new(alloc, code, scope, node, op, old, store)?;
    let value = put_expr(alloc, code, scope, e, right, new)?;
    let jump = jump_and(alloc, value, old, old)?;
    let args = one(alloc, m)?;
    let of = op_at(at, false, RowOp::Attr(name.copy(alloc)?));
    let read = code.put_op(alloc, scope, of, args, old, jump)?;
    put_expr(alloc, code, scope, a, m, read)
}

fn put_augment_item(
    alloc: Global,
    code: &mut Code,
    scope: &Scope,
    node: NodeId,
    at: NodeId,
    a: &Expr,
    i: &Expr,
    op: &RowOp,
    e: &Expr,
    m: usize,
    norm: u64,
) -> Result<u64, NoMem>
    ensures { IfOk result (λ b. Part code.old.blocks code.new.blocks (AugmentItemAt scope.now node at a.now i.now op.now e.now b m norm)) }
{
    let index = plus(m, 1)?;
    let old = plus(m, 2)?;
    let right = plus(m, 3)?;
    let jump = jump_first(alloc, norm, m)?;
    let args = three(alloc, m, index, old)?;
    let of = op_at(at, true, RowOp::StoreIndex);
    let store = code.put_op(alloc, scope, of, args, right, jump)?;
    let new = put_new(alloc, code, scope, node, op, old, store)?;
    let value = put_expr(alloc, code, scope, e, right, new)?;
    let jump = jump_and(alloc, value, old, old)?;
    let args = two(alloc, m, index)?;
    let of = op_at(at, false, RowOp::Index(None));
    let read = code.put_op(alloc, scope, of, args, old, jump)?;
    let place = put_expr(alloc, code, scope, i, index, read)?;
    put_expr(alloc, code, scope, a, m, place)
}

fn put_augment(
    alloc: Global,
    code: &mut Code,
    scope: &Scope,
    node: NodeId,
    target: &Target,
    op: &RowOp,
    e: &Expr,
    m: usize,
    norm: u64,
) -> Result<u64, NoMem>
    ensures { IfOk result (λ b. Part code.old.blocks code.new.blocks (AugmentAt scope.now node target.now op.now e.now b m norm)) }
{
    match target {
        Target::Name(at, local) => {
            put_augment_name(alloc, code, scope, node, *at, *local, op, e, m, norm)
        }
        Target::Attr(at, a, name) => {
            put_augment_attr(alloc, code, scope, node, *at, a, name, op, e, m, norm)
        }
        Target::Item(at, a, i) => {
            put_augment_item(alloc, code, scope, node, *at, a, i, op, e, m, norm)
        }
        Target::Parts(at, _) => {
            let none: Seq<usize> = Seq::new(alloc);
            let jump = jump_first(alloc, norm, m)?;
            code.put_op(alloc, scope, op_at(*at, true, RowOp::Copy), none, m, jump)
        }
    }
}

// ---- loops

// A step for the turn, and on to the body.
fn put_pay(
    alloc: Global,
    code: &mut Code,
    scope: &Scope,
    node: NodeId,
    m: usize,
    norm: u64,
) -> Result<u64, NoMem>
    ensures { IfOk result (λ b. Part code.old.blocks code.new.blocks (ActsAt scope.now b node false row.Turn [] m (on_first norm m))) }
{
    let none: Seq<usize> = Seq::new(alloc);
    let jump = jump_first(alloc, norm, m)?;
    code.put_op(alloc, scope, op_at(node, false, RowOp::Turn), none, m, jump)
}

#[cycle(stmt)]
fn put_while(
    alloc: Global,
    code: &mut Code,
    program: &Resolved,
    scope: &Scope,
    node: NodeId,
    test: &Expr,
    body: &[Stmt],
    m: usize,
    t: Ways,
) -> Result<u64, NoMem>
    ensures { IfOk result (λ b. Part code.old.blocks code.new.blocks (WhileAt scope.now program.now node test.now body.now b m t)) }
{
    let head = code.put_head(alloc, m)?;
    let next = Aim {
        to: head.number,
        keep: m,
    };
    let after = Aim {
        to: t.norm,
        keep: m,
    };
    let begin = put_block(alloc, code, program, scope, body, m, t.within(next, after))?;
    let turn = put_pay(alloc, code, scope, node, m, begin)?;
    let asked = put_test(alloc, code, scope, test, node, m, turn, t.norm)?;
    code.aim(alloc, head, asked)?;
    Ok(head.number)
}

#[cycle(stmt)]
fn put_for(
    alloc: Global,
    code: &mut Code,
    program: &Resolved,
    scope: &Scope,
    node: NodeId,
    target: &Target,
    subject: &Subject,
    body: &[Stmt],
    m: usize,
    t: Ways,
) -> Result<u64, NoMem>
    ensures { IfOk result (λ b. Part code.old.blocks code.new.blocks (ForAt scope.now program.now node target.now subject.now body.now b m t)) }
{
    let walk = Walk {
        node,
        step: step_of(subject),
        over: m,
        all: plus(m, 2)?,
    };
    let head = code.put_head(alloc, walk.all)?;
    let advance = put_advance(alloc, code, scope, walk, head)?;
    let next = Aim {
        to: advance,
        keep: walk.all,
    };
    let after = Aim {
        to: t.norm,
        keep: m,
    };
    let begin = put_block(
        alloc,
        code,
        program,
        scope,
        body,
        walk.all,
        t.within(next, after),
    )?;
    let more = plus(walk.all, 1)?;
    let bind = put_bind(alloc, code, scope, target, walk.all, more, walk.all, begin)?;
    let done = jump_first(alloc, t.norm, m)?;
    let asked = put_turn(alloc, code, scope, walk, bind, done)?;
    code.aim(alloc, head, asked)?;
    put_subject(alloc, code, scope, subject, node, m, head.number)
}

// ---- exceptions

// Where the exceptions of a `try` body go: the hands of the clauses, in their order, then those
// around, and where other exceptions go.
#[derive(Drop)]
struct Caught {
    hands: Seq<Hand>,
    default: Aim,
}

fn copy_hands(hands: Seq<Hand>, around: &[Hand]) -> Result<Seq<Hand>, NoMem>
    ensures { IfOk result (λ all. all ≡ hands ++ around.now) }
{
    let mut hands = hands;
    for hand in around {
        hands.push(*hand)?;
    }
    Ok(hands)
}

// A hand for each class of a clause, before others.
fn add_hands(
    alloc: Global,
    classes: &[u32],
    local: Option<u32>,
    aim: Aim,
    others: &[Hand],
) -> Result<Seq<Hand>, NoMem>
    ensures { IfOk result (λ all. hands_of all ≡ stands.hands_of local (aim_of aim) classes.now (hands_of others.now)) }
{
    let mut hands = Seq::new(alloc);
    for class in classes {
        hands.push(Hand {
            class: *class,
            local,
            aim,
        })?;
    }
    copy_hands(hands, others)
}

// The local that a clause binds is one of the function's.
fn bound(scope: &Scope, local: Option<u32>) -> Result<Option<u32>, NoMem>
    ensures same { IfOk result (λ bound. bound ≡ local) }
    ensures within { OnOk result (stands.LocalIn scope.now.locals local) }
{
    match local {
        None => Ok(None),
        Some(local) => {
            let _place = local_place(scope, local)?;
            Ok(Some(local))
        }
    }
}

// A bare clause drops the exception. The grammar has none that binds it.
fn put_bare(
    alloc: Global,
    code: &mut Code,
    local: Option<u32>,
    m: usize,
    begin: u64,
) -> Result<Caught, NoMem>
    ensures { IfOk result (λ caught. (caught.hands ≡ []) × (caught.default.keep ≡ m) × (local ≡ Option.None) × Part code.old.blocks code.new.blocks (ShapeAt caught.default.to (m + 1) (Go (on_first begin m)))) }
{
    match local {
        Some(_) => Err(NoMem),
        None => {
            let more = plus(m, 1)?;
            let to = put_aim(alloc, code, more, Aim { to: begin, keep: m })?;
            Ok(Caught {
                hands: Seq::new(alloc),
                default: Aim { to, keep: m },
            })
        }
    }
}

// The hands of a clause before those of others.
fn with_clause(
    alloc: Global,
    scope: &Scope,
    clause: &Clause,
    aim: Aim,
    others: Caught,
) -> Result<Caught, NoMem>
    ensures { IfOk result (λ caught. (hands_of caught.hands ≡ stands.hands_of clause.now.local (aim_of aim) clause.now.classes (hands_of others.hands)) × (caught.default ≡ others.default) × stands.LocalIn scope.now.locals clause.now.local) }
{
    let local = bound(scope, clause.local)?;
    let Caught { hands, default } = others;
    let hands = add_hands(
        alloc,
        clause.classes.as_slice(),
        local,
        aim,
        hands.as_slice(),
    )?;
    Ok(Caught { hands, default })
}

#[cycle(stmt)]
fn put_clause(
    alloc: Global,
    code: &mut Code,
    program: &Resolved,
    scope: &Scope,
    clause: &Clause,
    m: usize,
    t: Ways,
) -> Result<u64, NoMem>
    ensures { IfOk result (λ b. Part code.old.blocks code.new.blocks (BlockAt scope.now program.now clause.now.body b m t)) }
{
    put_block(alloc, code, program, scope, clause.body.as_slice(), m, t)
}

// Nothing comes after a bare clause.
#[cycle(stmt)]
fn put_clauses(
    alloc: Global,
    code: &mut Code,
    program: &Resolved,
    scope: &Scope,
    clauses: &[Clause],
    m: usize,
    t: Ways,
) -> Result<Caught, NoMem>
    ensures { IfOk result (λ caught. Part code.old.blocks code.new.blocks (ClausesAt scope.now program.now clauses.now m t (hands_of caught.hands) (aim_of caught.default))) }
{
    match clauses {
        [] => {
            let hands = copy_hands(Seq::new(alloc), scope.hands.as_slice())?;
            Ok(Caught {
                hands,
                default: scope.default,
            })
        }
        [clause, rest @ ..] => {
            let begin = put_clause(alloc, code, program, scope, clause, m, t)?;
            if clause.bare {
                put_bare(alloc, code, clause.local, m, begin)
            } else {
                let others = put_clauses(alloc, code, program, scope, rest, m, t)?;
                let aim = Aim { to: begin, keep: m };
                with_clause(alloc, scope, clause, aim, others)
            }
        }
    }
}

#[cycle(stmt)]
fn put_try(
    alloc: Global,
    code: &mut Code,
    program: &Resolved,
    scope: &Scope,
    body: &[Stmt],
    clauses: &[Clause],
    other: &[Stmt],
    m: usize,
    t: Ways,
) -> Result<u64, NoMem>
    ensures { IfOk result (λ b. Part code.old.blocks code.new.blocks (TryAt scope.now program.now body.now clauses.now other.now b m t)) }
{
    let after = put_block(alloc, code, program, scope, other, m, t)?;
    let caught = put_clauses(alloc, code, program, scope, clauses, m, t)?;
    let Caught { hands, default } = caught;
    let inner = Scope {
        locals: scope.locals,
        hands,
        default,
        covers: covers_of(program, clauses, scope.covers),
        tried: true,
    };
    put_block(alloc, code, program, &inner, body, m, t.on(after))
}

// The last part, where one of the other ways was taken with m variables.
#[cycle(stmt)]
fn put_left(
    alloc: Global,
    code: &mut Code,
    program: &Resolved,
    scope: &Scope,
    last: &[Stmt],
    m: usize,
    t: Ways,
    aim: Aim,
) -> Result<Aim, NoMem>
    ensures { IfOk result (λ begin. (begin.keep ≡ m) × Part code.old.blocks code.new.blocks (LeftAt scope.now program.now last.now begin.to m (on_first aim.to aim.keep) t)) }
{
    let out = put_aim(alloc, code, m, aim)?;
    let begin = put_block(alloc, code, program, scope, last, m, t.on(out))?;
    Ok(Aim { to: begin, keep: m })
}

// The last part, where a value was returned, which is held meanwhile.
#[cycle(stmt)]
fn put_returned(
    alloc: Global,
    code: &mut Code,
    program: &Resolved,
    scope: &Scope,
    last: &[Stmt],
    m: usize,
    t: Ways,
) -> Result<Aim, NoMem>
    ensures { IfOk result (λ begin. (begin.keep ≡ m) × Part code.old.blocks code.new.blocks (LeftAt scope.now program.now last.now begin.to (m + 1) (on_first_and t.ret.to t.ret.keep m) t)) }
{
    let more = plus(m, 1)?;
    let out = put_aim_and(alloc, code, m, t.ret)?;
    let begin = put_block(alloc, code, program, scope, last, more, t.on(out))?;
    Ok(Aim { to: begin, keep: m })
}

// The last part, where an exception came, which is held meanwhile and then raised again.
#[cycle(stmt)]
fn put_raised(
    alloc: Global,
    code: &mut Code,
    program: &Resolved,
    scope: &Scope,
    node: NodeId,
    last: &[Stmt],
    m: usize,
    t: Ways,
) -> Result<Aim, NoMem>
    ensures { IfOk result (λ begin. (begin.keep ≡ m) × Part code.old.blocks code.new.blocks (RaisedAt scope.now program.now node last.now begin.to m t)) }
{
    let more = plus(m, 1)?;
    let jump = jump_first(alloc, NEVER, 0)?;
    let of = op_at(node, false, RowOp::Raise);
    let args = one(alloc, m)?;
    let out = code.put_op(alloc, scope, of, args, more, jump)?;
    let begin = put_block(alloc, code, program, scope, last, more, t.on(out))?;
    Ok(Aim { to: begin, keep: m })
}

// The last part stands once for each way out of the body.
#[cycle(stmt)]
fn put_finally(
    alloc: Global,
    code: &mut Code,
    program: &Resolved,
    scope: &Scope,
    node: NodeId,
    body: &[Stmt],
    last: &[Stmt],
    m: usize,
    t: Ways,
) -> Result<u64, NoMem>
    ensures { IfOk result (λ b. Part code.old.blocks code.new.blocks (FinallyAt scope.now program.now node body.now last.now b m t)) }
{
    let norm = put_block(alloc, code, program, scope, last, m, t)?;
    let brk = put_left(alloc, code, program, scope, last, m, t, t.brk)?;
    let cont = put_left(alloc, code, program, scope, last, m, t, t.cont)?;
    let ret = put_returned(alloc, code, program, scope, last, m, t)?;
    let default = put_raised(alloc, code, program, scope, node, last, m, t)?;
    let inner = Scope {
        locals: scope.locals,
        hands: Seq::new(alloc),
        default,
        covers: scope.covers,
        tried: true,
    };
    let ways = Ways {
        norm,
        brk,
        cont,
        ret,
    };
    put_block(alloc, code, program, &inner, body, m, ways)
}

// ---- all statements

#[cycle(stmt)]
fn put_if(
    alloc: Global,
    code: &mut Code,
    program: &Resolved,
    scope: &Scope,
    node: NodeId,
    test: &Expr,
    body: &[Stmt],
    other: &[Stmt],
    m: usize,
    t: Ways,
) -> Result<u64, NoMem>
    ensures { IfOk result (λ b. Part code.old.blocks code.new.blocks (IfAt scope.now program.now node test.now body.now other.now b m t)) }
{
    let no = put_block(alloc, code, program, scope, other, m, t)?;
    let yes = put_block(alloc, code, program, scope, body, m, t)?;
    put_test(alloc, code, scope, test, node, m, yes, no)
}

// A statement without blocks of its own.
fn put_simple(
    alloc: Global,
    code: &mut Code,
    scope: &Scope,
    s: &Stmt,
    m: usize,
    t: Ways,
) -> Result<u64, NoMem>
    ensures { IfOk result (λ b. Part code.old.blocks code.new.blocks (SimpleAt scope.now s.now b m t)) }
{
    match s {
        Stmt::Break(_) => put_aim(alloc, code, m, t.brk),
        Stmt::Continue(_) => put_aim(alloc, code, m, t.cont),
        Stmt::Return(node, e) => put_return(alloc, code, scope, *node, e, m, t),
        Stmt::Do(_, e) => put_do(alloc, code, scope, e, m, t.norm),
        Stmt::Assign(_, targets, e) => {
            put_assign(alloc, code, scope, targets.as_slice(), e, m, t.norm)
        }
        Stmt::Augment(node, target, op, e) => {
            put_augment(alloc, code, scope, *node, target, op, e, m, t.norm)
        }
        Stmt::Pass(_) => Ok(t.norm),
        // Those with blocks are put elsewhere.
        _ => Err(NoMem),
    }
}

#[cycle(stmt)]
fn put_stmt(
    alloc: Global,
    code: &mut Code,
    program: &Resolved,
    scope: &Scope,
    s: &Stmt,
    m: usize,
    t: Ways,
) -> Result<u64, NoMem>
    ensures { IfOk result (λ b. Part code.old.blocks code.new.blocks (StmtAt scope.now program.now s.now b m t)) }
{
    match s {
        Stmt::If(node, test, body, other) => put_if(
            alloc,
            code,
            program,
            scope,
            *node,
            test,
            body.as_slice(),
            other.as_slice(),
            m,
            t,
        ),
        Stmt::While(node, test, body) => {
            put_while(
                alloc,
                code,
                program,
                scope,
                *node,
                test,
                body.as_slice(),
                m,
                t,
            )
        }
        Stmt::For(node, target, subject, body) => put_for(
            alloc,
            code,
            program,
            scope,
            *node,
            target.get(),
            subject.get(),
            body.as_slice(),
            m,
            t,
        ),
        Stmt::Try(_, body, clauses, other) => put_try(
            alloc,
            code,
            program,
            scope,
            body.as_slice(),
            clauses.as_slice(),
            other.as_slice(),
            m,
            t,
        ),
        Stmt::Finally(node, body, last) => put_finally(
            alloc,
            code,
            program,
            scope,
            *node,
            body.as_slice(),
            last.as_slice(),
            m,
            t,
        ),
        _ => put_simple(alloc, code, scope, s, m, t),
    }
}

/// Blocks that do what the statements do where m variables are there, and the first of them.
#[cycle(stmt)]
pub fn put_block(
    alloc: Global,
    code: &mut Code,
    program: &Resolved,
    scope: &Scope,
    body: &[Stmt],
    m: usize,
    t: Ways,
) -> Result<u64, NoMem>
    ensures { IfOk result (λ b. Part code.old.blocks code.new.blocks (BlockAt scope.now program.now body.now b m t)) }
{
    match body {
        [] => Ok(t.norm),
        [s, rest @ ..] => {
            let next = put_block(alloc, code, program, scope, rest, m, t)?;
            let next = put_mark(alloc, code, scope, node_of(s), m, next)?;
            let begin = put_stmt(alloc, code, program, scope, s, m, t.on(next))?;
            put_mark(alloc, code, scope, node_of(s), m, begin)
        }
    }
}
