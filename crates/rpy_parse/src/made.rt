// Statements are numbered and put together.
ghost use Rattle.std.specs.Prelude.{◌≡◌, [], MatchResult};
ghost use Rattle.rpy_parse.specs.Build as spec;

use crate::fault::Stop;
use crate::found::{
    Aims, Arm, Arms, Assigned, Body, Got, Handled, Head, Headed, Indexed, Listed, Made, Place,
    Tried,
};
use crate::node::numbered;
use crate::target::target_of;
use rpy_base::Seq;
use rpy_tree::{BinOp, Clause, Expr, NodeId, Stmt, Target};
use std::alloc::Global;

pub fn passed(lines: Seq<u32>, line: u32) -> Result<Made, Stop>
    ensures { MatchResult result (λ new. new ≡ spec.passed lines line) (λ e. e ≡ Stop.NoMem) }
{
    let new = numbered(lines, line)?;
    Ok(Made {
        stmt: Stmt::Pass(new.node),
        lines: new.lines,
    })
}

pub fn broken(lines: Seq<u32>, line: u32) -> Result<Made, Stop>
    ensures { MatchResult result (λ new. new ≡ spec.broken lines line) (λ e. e ≡ Stop.NoMem) }
{
    let new = numbered(lines, line)?;
    Ok(Made {
        stmt: Stmt::Break(new.node),
        lines: new.lines,
    })
}

pub fn continued(lines: Seq<u32>, line: u32) -> Result<Made, Stop>
    ensures { MatchResult result (λ new. new ≡ spec.continued lines line) (λ e. e ≡ Stop.NoMem) }
{
    let new = numbered(lines, line)?;
    Ok(Made {
        stmt: Stmt::Continue(new.node),
        lines: new.lines,
    })
}

pub fn returned(lines: Seq<u32>, line: u32) -> Result<Made, Stop>
    ensures { MatchResult result (λ new. new ≡ spec.returned lines line) (λ e. e ≡ Stop.NoMem) }
{
    let new = numbered(lines, line)?;
    Ok(Made {
        stmt: Stmt::Return(new.node, None),
        lines: new.lines,
    })
}

pub fn returned_value(line: u32, a: Got) -> Result<Made, Stop>
    ensures { MatchResult result (λ new. new ≡ spec.returned_value line a) (λ e. e ≡ Stop.NoMem) }
{
    let new = numbered(a.lines, line)?;
    Ok(Made {
        stmt: Stmt::Return(new.node, Some(a.tree)),
        lines: new.lines,
    })
}

pub fn raised(line: u32, a: Got) -> Result<Made, Stop>
    ensures { MatchResult result (λ new. new ≡ spec.raised line a) (λ e. e ≡ Stop.NoMem) }
{
    let new = numbered(a.lines, line)?;
    Ok(Made {
        stmt: Stmt::Raise(new.node, a.tree),
        lines: new.lines,
    })
}

pub fn asserted(line: u32, a: Got) -> Result<Made, Stop>
    ensures { MatchResult result (λ new. new ≡ spec.asserted line a) (λ e. e ≡ Stop.NoMem) }
{
    let new = numbered(a.lines, line)?;
    Ok(Made {
        stmt: Stmt::Assert(new.node, a.tree),
        lines: new.lines,
    })
}

pub fn deleted(line: u32, x: Indexed) -> Result<Made, Stop>
    ensures { MatchResult result (λ new. new ≡ spec.deleted line x) (λ e. e ≡ Stop.NoMem) }
{
    let new = numbered(x.lines, line)?;
    Ok(Made {
        stmt: Stmt::Del(new.node, x.of, x.index),
        lines: new.lines,
    })
}

pub fn printed(x: Listed) -> Result<Made, Stop>
    ensures { MatchResult result (λ new. new ≡ spec.printed x) (λ e. e ≡ Stop.NoMem) }
{
    let new = numbered(x.lines, x.line)?;
    Ok(Made {
        stmt: Stmt::Print(new.node, x.trees),
        lines: new.lines,
    })
}

/// The first target of an assignment.
pub fn assigned(alloc: Global, a: Got) -> Result<Aims, Stop>
    ensures { MatchResult result (λ new. new ≡ spec.aims (spec.aimed a)) (λ e. e ≡ Stop.NoMem) }
{
    let mut targets = Seq::new(alloc);
    targets.push(target_of(alloc, a.tree)?)?;
    Ok(Aims {
        targets,
        lines: a.lines,
        line: a.line,
    })
}

/// The targets of an assignment, with its value so far as one more.
pub fn assigned_too(alloc: Global, x: Assigned) -> Result<Aims, Stop>
    ensures { MatchResult result (λ new. new ≡ spec.more_aims x.targets x.line (spec.aimed x.value)) (λ e. e ≡ Stop.NoMem) }
{
    let Assigned {
        targets,
        line,
        value,
    } = x;
    let mut targets = targets;
    targets.push(target_of(alloc, value.tree)?)?;
    Ok(Aims {
        targets,
        lines: value.lines,
        line,
    })
}

pub fn goals(targets: Seq<Target>, line: u32, value: Got) -> Assigned
    ensures { result ≡ spec.goals targets line value }
{
    Assigned {
        targets,
        line,
        value,
    }
}

pub fn assignment(x: Assigned) -> Result<Made, Stop>
    ensures { MatchResult result (λ new. new ≡ spec.assignment x) (λ e. e ≡ Stop.NoMem) }
{
    let Assigned {
        targets,
        line,
        value,
    } = x;
    let new = numbered(value.lines, line)?;
    Ok(Made {
        stmt: Stmt::Assign(new.node, targets, value.tree),
        lines: new.lines,
    })
}

pub fn changed(target: Target, line: u32, op: BinOp, value: Got) -> Result<Made, Stop>
    ensures { MatchResult result (λ new. new ≡ spec.changed target line op value) (λ e. e ≡ Stop.NoMem) }
{
    let new = numbered(value.lines, line)?;
    Ok(Made {
        stmt: Stmt::Aug(new.node, target, op, value.tree),
        lines: new.lines,
    })
}

pub fn evaluated(a: Got) -> Result<Made, Stop>
    ensures { MatchResult result (λ new. new ≡ spec.evaluated a) (λ e. e ≡ Stop.NoMem) }
{
    let new = numbered(a.lines, a.line)?;
    Ok(Made {
        stmt: Stmt::Expr(new.node, a.tree),
        lines: new.lines,
    })
}

pub fn pushed(stmts: Seq<Stmt>, made: Made) -> Result<Body, Stop>
    ensures { MatchResult result (λ new. new ≡ spec.pushed stmts made) (λ e. e ≡ Stop.NoMem) }
{
    let mut stmts = stmts;
    stmts.push(made.stmt)?;
    Ok(Body {
        stmts,
        lines: made.lines,
    })
}

/// The expression of a header, after which the statement is numbered.
pub fn headed(test: Got, line: u32) -> Result<Headed, Stop>
    ensures { MatchResult result (λ new. new ≡ spec.headed test line) (λ e. e ≡ Stop.NoMem) }
{
    let new = numbered(test.lines, line)?;
    Ok(Headed {
        node: new.node,
        tree: test.tree,
        lines: new.lines,
    })
}

pub fn arm(test: Expr, body: Body) -> Arm
    ensures { result ≡ spec.arm test body }
{
    Arm {
        test,
        body: body.stmts,
        lines: body.lines,
    }
}

pub fn more_arms(node: NodeId, arms: Seq<(Expr, Seq<Stmt>)>, arm: Arm) -> Result<Arms, Stop>
    ensures { MatchResult result (λ new. new ≡ spec.more_arms node arms arm) (λ e. e ≡ Stop.NoMem) }
{
    let mut arms = arms;
    arms.push((arm.test, arm.body))?;
    Ok(Arms {
        node,
        arms,
        lines: arm.lines,
    })
}

pub fn with_lines(node: NodeId, arms: Seq<(Expr, Seq<Stmt>)>, lines: Seq<u32>) -> Arms
    ensures { result ≡ spec.with_lines node arms lines }
{
    Arms { node, arms, lines }
}

pub fn chosen(x: Arms, other: Seq<Stmt>) -> Made
    ensures { result ≡ spec.chosen x other }
{
    Made {
        stmt: Stmt::If(x.node, x.arms, other),
        lines: x.lines,
    }
}

pub fn repeated(node: NodeId, test: Expr, turn: Body) -> Made
    ensures { result ≡ spec.repeated node test turn }
{
    Made {
        stmt: Stmt::While(node, test, turn.stmts),
        lines: turn.lines,
    }
}

pub fn walked(node: NodeId, target: Target, subject: Expr, turn: Body) -> Made
    ensures { result ≡ spec.walked node target subject turn }
{
    Made {
        stmt: Stmt::For(node, target, subject, turn.stmts),
        lines: turn.lines,
    }
}

/// The body of a loop.
pub fn in_loop(place: Place) -> Place
    ensures { result ≡ spec.in_loop place }
{
    Place {
        looped: true,
        last: place.last,
    }
}

/// The body of a `finally`.
pub fn in_finally() -> Place
    ensures { result ≡ spec.in_finally }
{
    Place {
        looped: false,
        last: true,
    }
}

pub fn tried_of(
    node: NodeId,
    body: Seq<Stmt>,
    clauses: Seq<Clause>,
    bare: bool,
    lines: Seq<u32>,
) -> Tried
    ensures { result ≡ spec.tried_of node body clauses bare lines }
{
    Tried {
        node,
        body,
        clauses,
        bare,
        lines,
    }
}

pub fn no_clauses(alloc: Global, node: NodeId, body: Body) -> Tried
    ensures { result ≡ spec.no_clauses node body }
{
    tried_of(node, body.stmts, Seq::new(alloc), false, body.lines)
}

pub fn handled(node: NodeId, head: Head, body: Body) -> Handled
    ensures { result ≡ spec.handled node head body }
{
    Handled {
        clause: Clause {
            node,
            classes: head.classes,
            bare: head.bare,
            bind: head.bind,
            body: body.stmts,
        },
        lines: body.lines,
    }
}

pub fn more_clauses(
    node: NodeId,
    body: Seq<Stmt>,
    clauses: Seq<Clause>,
    next: Handled,
) -> Result<Tried, Stop>
    ensures { MatchResult result (λ new. new ≡ spec.more_clauses node body clauses next) (λ e. e ≡ Stop.NoMem) }
{
    let mut clauses = clauses;
    let bare = next.clause.bare;
    clauses.push(next.clause)?;
    Ok(tried_of(node, body, clauses, bare, next.lines))
}

pub fn finished(x: Tried, other: Seq<Stmt>, last: Option<Seq<Stmt>>) -> Made
    ensures { result ≡ spec.finished x other last }
{
    Made {
        stmt: Stmt::Try(x.node, x.body, x.clauses, other, last),
        lines: x.lines,
    }
}
