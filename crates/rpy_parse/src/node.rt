// Nodes are numbered and put together.
ghost use Rattle.std.specs.Prelude.{◌≡◌, MatchResult};
ghost use Rattle.rpy_parse.specs.Build as spec;

use crate::fault::Stop;
use crate::found::{Aimed, Aims, Got, Indexed, Listed, Numbered, Pairs, Sliced, Walk, Walking};
use rpy_base::{Own, Seq, Text};
use rpy_tree::{BinOp, CmpOp, Expr, Target, UnOp};
use std::alloc::Global;

/// The next node, which begins on this line.
pub fn numbered(lines: Seq<u32>, line: u32) -> Result<Numbered, Stop>
    ensures { MatchResult result (λ new. new ≡ spec.numbered lines line) (λ e. e ≡ Stop.NoMem) }
{
    let Ok(node) = u32::try_from(lines.len()) else {
        return Err(Stop::NoMem);
    };
    let mut lines = lines;
    lines.push(line)?;
    Ok(Numbered { node, lines })
}

/// An expression that is no target.
fn value(tree: Expr, lines: Seq<u32>, line: u32) -> Got
    ensures { result ≡ spec.value tree lines line }
{
    Got {
        tree,
        lines,
        line,
        goal: false,
        place: false,
    }
}

/// An expression that is a place.
fn place(tree: Expr, lines: Seq<u32>, line: u32) -> Got
    ensures { result ≡ spec.place tree lines line }
{
    Got {
        tree,
        lines,
        line,
        goal: true,
        place: true,
    }
}

pub fn int(lines: Seq<u32>, line: u32, number: i64) -> Result<Got, Stop>
    ensures { MatchResult result (λ new. new ≡ spec.int lines line number) (λ e. e ≡ Stop.NoMem) }
{
    let new = numbered(lines, line)?;
    Ok(value(Expr::Int(new.node, number), new.lines, line))
}

pub fn string(lines: Seq<u32>, line: u32, text: Text) -> Result<Got, Stop>
    ensures { MatchResult result (λ new. new ≡ spec.string lines line text) (λ e. e ≡ Stop.NoMem) }
{
    let new = numbered(lines, line)?;
    Ok(value(Expr::Str(new.node, text), new.lines, line))
}

pub fn name(alloc: Global, lines: Seq<u32>, line: u32, text: &Text) -> Result<Got, Stop>
    ensures { MatchResult result (λ new. new ≡ spec.name lines line text.now) (λ e. e ≡ Stop.NoMem) }
{
    let new = numbered(lines, line)?;
    let tree = Expr::Name(new.node, text.copy(alloc)?);
    Ok(place(tree, new.lines, line))
}

pub fn unary(alloc: Global, op: UnOp, line: u32, a: Got) -> Result<Got, Stop>
    ensures { MatchResult result (λ new. new ≡ spec.unary op line a) (λ e. e ≡ Stop.NoMem) }
{
    let new = numbered(a.lines, line)?;
    let tree = Expr::Unary(new.node, op, Own::new(alloc, a.tree)?);
    Ok(value(tree, new.lines, line))
}

pub fn negated(alloc: Global, line: u32, a: Got) -> Result<Got, Stop>
    ensures { MatchResult result (λ new. new ≡ spec.negated line a) (λ e. e ≡ Stop.NoMem) }
{
    let new = numbered(a.lines, line)?;
    let tree = Expr::Not(new.node, Own::new(alloc, a.tree)?);
    Ok(value(tree, new.lines, line))
}

pub fn binary(alloc: Global, op: BinOp, a: Expr, line: u32, b: Got) -> Result<Got, Stop>
    ensures { MatchResult result (λ new. new ≡ spec.binary op a line b) (λ e. e ≡ Stop.NoMem) }
{
    let new = numbered(b.lines, line)?;
    let tree = Expr::Binary(new.node, op, Own::new(alloc, a)?, Own::new(alloc, b.tree)?);
    Ok(value(tree, new.lines, line))
}

pub fn compare(alloc: Global, op: CmpOp, a: Expr, line: u32, b: Got) -> Result<Got, Stop>
    ensures { MatchResult result (λ new. new ≡ spec.compare op a line b) (λ e. e ≡ Stop.NoMem) }
{
    let new = numbered(b.lines, line)?;
    let tree = Expr::Compare(new.node, op, Own::new(alloc, a)?, Own::new(alloc, b.tree)?);
    Ok(value(tree, new.lines, line))
}

/// `and` or `or`.
pub fn logic(alloc: Global, and: bool, a: Expr, line: u32, b: Got) -> Result<Got, Stop>
    ensures { MatchResult result (λ new. new ≡ spec.logic and a line b) (λ e. e ≡ Stop.NoMem) }
{
    let new = numbered(b.lines, line)?;
    let tree = Expr::Logic(new.node, and, Own::new(alloc, a)?, Own::new(alloc, b.tree)?);
    Ok(value(tree, new.lines, line))
}

pub fn attribute(alloc: Global, a: Got, text: &Text) -> Result<Got, Stop>
    ensures { MatchResult result (λ new. new ≡ spec.attribute a text.now) (λ e. e ≡ Stop.NoMem) }
{
    let new = numbered(a.lines, a.line)?;
    let tree = Expr::Attr(new.node, Own::new(alloc, a.tree)?, text.copy(alloc)?);
    Ok(place(tree, new.lines, a.line))
}

/// No expressions yet.
pub fn no_items(alloc: Global, lines: Seq<u32>, line: u32) -> Listed
    ensures { result ≡ spec.no_items lines line }
{
    Listed {
        trees: Seq::new(alloc),
        lines,
        line,
        goal: true,
    }
}

pub fn call(alloc: Global, callee: Expr, arguments: Listed) -> Result<Got, Stop>
    ensures { MatchResult result (λ new. new ≡ spec.call callee arguments) (λ e. e ≡ Stop.NoMem) }
{
    let new = numbered(arguments.lines, arguments.line)?;
    let tree = Expr::Call(new.node, Own::new(alloc, callee)?, arguments.trees);
    Ok(value(tree, new.lines, arguments.line))
}

pub fn index(alloc: Global, x: Indexed) -> Result<Got, Stop>
    ensures { MatchResult result (λ new. new ≡ spec.index x) (λ e. e ≡ Stop.NoMem) }
{
    let new = numbered(x.lines, x.line)?;
    let tree = Expr::Index(new.node, Own::new(alloc, x.of)?, Own::new(alloc, x.index)?);
    Ok(place(tree, new.lines, x.line))
}

pub fn indexed(of: Expr, line: u32, i: Got) -> Indexed
    ensures { result ≡ spec.indexed of line i }
{
    Indexed {
        of,
        index: i.tree,
        lines: i.lines,
        line,
    }
}

/// The expression before a slice that begins at its start.
pub fn sliced(alloc: Global, of: Expr, lines: Seq<u32>, line: u32) -> Result<Sliced, Stop>
    ensures { MatchResult result (λ new. new ≡ spec.sliced of lines line) (λ e. e ≡ Stop.NoMem) }
{
    Ok(Sliced {
        of: Own::new(alloc, of)?,
        from: None,
        lines,
        line,
    })
}

/// The expression before a slice, and where that begins.
pub fn sliced_from(alloc: Global, of: Expr, line: u32, from: Got) -> Result<Sliced, Stop>
    ensures { MatchResult result (λ new. new ≡ spec.sliced_from of line from) (λ e. e ≡ Stop.NoMem) }
{
    Ok(Sliced {
        of: Own::new(alloc, of)?,
        from: Some(Own::new(alloc, from.tree)?),
        lines: from.lines,
        line,
    })
}

/// A slice to the end.
pub fn slice_open(x: Sliced) -> Result<Got, Stop>
    ensures { MatchResult result (λ new. new ≡ spec.slice_open x) (λ e. e ≡ Stop.NoMem) }
{
    let new = numbered(x.lines, x.line)?;
    let tree = Expr::Slice(new.node, x.of, x.from, None);
    Ok(value(tree, new.lines, x.line))
}

pub fn slice(
    alloc: Global,
    of: Own<Expr>,
    from: Option<Own<Expr>>,
    line: u32,
    to: Got,
) -> Result<Got, Stop>
    ensures { MatchResult result (λ new. new ≡ spec.slice of from line to) (λ e. e ≡ Stop.NoMem) }
{
    let new = numbered(to.lines, line)?;
    let tree = Expr::Slice(new.node, of, from, Some(Own::new(alloc, to.tree)?));
    Ok(value(tree, new.lines, line))
}

/// One expression, with which a list begins.
pub fn listed(alloc: Global, a: Got, line: u32) -> Result<Listed, Stop>
    ensures { MatchResult result (λ new. new ≡ spec.listed a line) (λ e. e ≡ Stop.NoMem) }
{
    let mut trees = Seq::new(alloc);
    trees.push(a.tree)?;
    Ok(Listed {
        trees,
        lines: a.lines,
        line,
        goal: a.goal,
    })
}

/// A list with one more expression.
pub fn longer(trees: Seq<Expr>, line: u32, goal: bool, a: Got) -> Result<Listed, Stop>
    ensures { MatchResult result (λ new. new ≡ spec.longer trees line goal a) (λ e. e ≡ Stop.NoMem) }
{
    let mut trees = trees;
    trees.push(a.tree)?;
    Ok(Listed {
        trees,
        lines: a.lines,
        line,
        goal: goal && a.goal,
    })
}

pub fn tuple(x: Listed) -> Result<Got, Stop>
    ensures { MatchResult result (λ new. new ≡ spec.tuple x) (λ e. e ≡ Stop.NoMem) }
{
    let new = numbered(x.lines, x.line)?;
    Ok(Got {
        tree: Expr::Tuple(new.node, x.trees),
        lines: new.lines,
        line: x.line,
        goal: x.goal,
        place: false,
    })
}

pub fn empty_tuple(alloc: Global, lines: Seq<u32>, line: u32) -> Result<Got, Stop>
    ensures { MatchResult result (λ new. new ≡ spec.empty_tuple lines line) (λ e. e ≡ Stop.NoMem) }
{
    let new = numbered(lines, line)?;
    Ok(value(Expr::Tuple(new.node, Seq::new(alloc)), new.lines, line))
}

/// An expression in brackets, which begins at the bracket.
pub fn bracketed(a: Got, line: u32) -> Got
    ensures { result ≡ spec.bracketed a line }
{
    Got {
        tree: a.tree,
        lines: a.lines,
        line,
        goal: a.goal,
        place: false,
    }
}

pub fn list(x: Listed) -> Result<Got, Stop>
    ensures { MatchResult result (λ new. new ≡ spec.list x) (λ e. e ≡ Stop.NoMem) }
{
    let new = numbered(x.lines, x.line)?;
    Ok(value(Expr::List(new.node, x.trees), new.lines, x.line))
}

/// A comprehension up to its `in`.
pub fn walking(alloc: Global, item: Own<Expr>, line: u32, aim: Aimed) -> Result<Walking, Stop>
    ensures { MatchResult result (λ new. new ≡ spec.walking item line aim) (λ e. e ≡ Stop.NoMem) }
{
    let Aimed { target, lines, .. } = aim;
    Ok(Walking {
        item,
        target: Own::new(alloc, target)?,
        lines,
        line,
    })
}

pub fn walk(
    alloc: Global,
    item: Own<Expr>,
    target: Own<Target>,
    line: u32,
    subject: Got,
) -> Result<Walk, Stop>
    ensures { MatchResult result (λ new. new ≡ spec.walk item target line subject) (λ e. e ≡ Stop.NoMem) }
{
    Ok(Walk {
        item,
        target,
        subject: Own::new(alloc, subject.tree)?,
        lines: subject.lines,
        line,
    })
}

/// A comprehension without a condition.
pub fn walk_all(x: Walk) -> Result<Got, Stop>
    ensures { MatchResult result (λ new. new ≡ spec.walk_all x) (λ e. e ≡ Stop.NoMem) }
{
    let new = numbered(x.lines, x.line)?;
    let tree = Expr::Comp(new.node, x.item, x.target, x.subject, None);
    Ok(value(tree, new.lines, x.line))
}

pub fn walk_some(
    alloc: Global,
    item: Own<Expr>,
    target: Own<Target>,
    subject: Own<Expr>,
    line: u32,
    condition: Got,
) -> Result<Got, Stop>
    ensures { MatchResult result (λ new. new ≡ spec.walk_some item target subject line condition) (λ e. e ≡ Stop.NoMem) }
{
    let new = numbered(condition.lines, line)?;
    let condition = Own::new(alloc, condition.tree)?;
    let tree = Expr::Comp(new.node, item, target, subject, Some(condition));
    Ok(value(tree, new.lines, line))
}

pub fn no_pairs(alloc: Global, lines: Seq<u32>, line: u32) -> Pairs
    ensures { result ≡ spec.no_pairs lines line }
{
    Pairs {
        pairs: Seq::new(alloc),
        lines,
        line,
    }
}

pub fn more_pairs(pairs: Seq<(Expr, Expr)>, line: u32, key: Expr, value: Got) -> Result<Pairs, Stop>
    ensures { MatchResult result (λ new. new ≡ spec.more_pairs pairs line key value) (λ e. e ≡ Stop.NoMem) }
{
    let mut pairs = pairs;
    pairs.push((key, value.tree))?;
    Ok(Pairs {
        pairs,
        lines: value.lines,
        line,
    })
}

pub fn dict(x: Pairs) -> Result<Got, Stop>
    ensures { MatchResult result (λ new. new ≡ spec.dict x) (λ e. e ≡ Stop.NoMem) }
{
    let new = numbered(x.lines, x.line)?;
    Ok(value(Expr::Dict(new.node, x.pairs), new.lines, x.line))
}

/// One target, with which a list begins.
pub fn aims(alloc: Global, a: Aimed) -> Result<Aims, Stop>
    ensures { MatchResult result (λ new. new ≡ spec.aims a) (λ e. e ≡ Stop.NoMem) }
{
    let mut targets = Seq::new(alloc);
    targets.push(a.target)?;
    Ok(Aims {
        targets,
        lines: a.lines,
        line: a.line,
    })
}

pub fn more_aims(targets: Seq<Target>, line: u32, a: Aimed) -> Result<Aims, Stop>
    ensures { MatchResult result (λ new. new ≡ spec.more_aims targets line a) (λ e. e ≡ Stop.NoMem) }
{
    let mut targets = targets;
    targets.push(a.target)?;
    Ok(Aims {
        targets,
        lines: a.lines,
        line,
    })
}

pub fn tuple_of_targets(x: Aims) -> Result<Aimed, Stop>
    ensures { MatchResult result (λ new. new ≡ spec.tuple_of_targets x) (λ e. e ≡ Stop.NoMem) }
{
    let new = numbered(x.lines, x.line)?;
    Ok(Aimed {
        target: Target::Tuple(new.node, x.targets),
        lines: new.lines,
        line: x.line,
    })
}
