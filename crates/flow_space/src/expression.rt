// Expressions to blocks. What comes after a part is put first, so each block goes on to blocks with
// known numbers. Where a part begins, the first variables of a block are the function's locals, and
// those that enclosing parts hold stand behind them. A part's value is one more.
ghost use Rattle.std.specs.Prelude.{◌≡◌, ◌+◌, false, ◌∷◌, ◌++◌, [], pos, IfOk};
ghost use Rattle.rpy_meaning.specs.declared.row.RowOp.TheVariants as row;
ghost use Rattle.flow_stands.specs.Places.{range, first_and as on_first_and, Go};
ghost use Rattle.flow_stands.specs.Stands as stands;
ghost use Rattle.flow_space.specs.Placed.{Part, ShapeAt, ActsAt, ExprAt, ExprsAt, ApplyAt, NotAt, LogicAt, TestAt, WayAt, TruthAt, WholeAt, AsksAt, SidesAt, AppliedAt, DisplayAt, PairsAt, PairAt, SubjectAt, GatherAt, ComprehensionAt, BindAt, TakeAt, ItemAt, PartsAt, ItemsAt, branch_of, jump_of};

use crate::code::{Code, Jump, Scope, jump_and, jump_first, jump_stored, local_place, op_at};
use crate::copy::copy_op;
use crate::narrow::{narrowed, needs_sides, put_narrowing};
use crate::negated::{by_ways, negates};
use crate::operation::{put_copy, put_last, put_leaf, put_meeting};
use crate::places::{narrow, one, plus, range, three, two};
use crate::source::{
    Source, TupleItem, item_of, place_taken, put_name, put_store, put_there, put_tuple, variable,
};
use crate::walk::{Walk, put_advance, put_turn, step_of};
use rpy_base::{NoMem, Own};
use rpy_copies::copy_const;
use rpy_meaning::RowOp;
use rpy_resolved::{Expr, Subject, Target};
use rpy_tree::{CmpOp, NodeId, SiteId};
use std::alloc::Global;

/// Blocks that evaluate an expression where m variables are there, and the first of them. They go on
/// to `norm` with its value as one more variable.
#[cycle(expr)]
pub fn put_expr(
    alloc: Global,
    code: &mut Code,
    scope: &Scope,
    e: &Expr,
    m: usize,
    norm: u64,
) -> Result<u64, NoMem>
    ensures { IfOk result (λ b. Part code.old.blocks code.new.blocks (ExprAt scope.now e.now b m norm)) }
{
    match e {
        Expr::Local(node, local) => {
            let place = local_place(scope, *local)?;
            put_copy(alloc, code, scope, *node, place, m, norm)
        }
        Expr::Constant(node, value) => {
            let op = RowOp::Constant(copy_const(alloc, value)?);
            put_leaf(alloc, code, scope, op_at(*node, true, op), m, norm)
        }
        Expr::Apply(node, value, op, es) => {
            put_apply(
                alloc,
                code,
                scope,
                *node,
                *value,
                op,
                es.as_slice(),
                m,
                norm,
            )
        }
        Expr::And(node, a, b) => {
            put_logic(alloc, code, scope, *node, true, a.get(), b.get(), m, norm)
        }
        Expr::Or(node, a, b) => {
            put_logic(alloc, code, scope, *node, false, a.get(), b.get(), m, norm)
        }
        Expr::Display(node, site, pairs) => {
            put_display(alloc, code, scope, *node, *site, pairs.as_slice(), m, norm)
        }
        Expr::Comprehension(node, site, item, target, subject, condition) => put_comprehension(
            alloc,
            code,
            scope,
            *node,
            *site,
            item.get(),
            target.get(),
            subject.get(),
            condition,
            m,
            norm,
        ),
    }
}

// The operands from left to right, each one more variable.
#[cycle(expr)]
fn put_exprs(
    alloc: Global,
    code: &mut Code,
    scope: &Scope,
    es: &[Expr],
    m: usize,
    norm: u64,
) -> Result<u64, NoMem>
    ensures { IfOk result (λ b. Part code.old.blocks code.new.blocks (ExprsAt scope.now es.now b m norm)) }
{
    match es {
        [] => Ok(norm),
        [e, rest @ ..] => {
            let more = plus(m, 1)?;
            let next = put_exprs(alloc, code, scope, rest, more, norm)?;
            put_expr(alloc, code, scope, e, m, next)
        }
    }
}

#[cycle(expr)]
fn put_apply(
    alloc: Global,
    code: &mut Code,
    scope: &Scope,
    node: NodeId,
    value: bool,
    op: &RowOp,
    es: &[Expr],
    m: usize,
    norm: u64,
) -> Result<u64, NoMem>
    ensures { IfOk result (λ b. Part code.old.blocks code.new.blocks (ApplyAt scope.now node value op.now es.now b m norm)) }
{
    match es {
        [] => put_operation(alloc, code, scope, node, value, op, es, m, norm),
        [a, rest @ ..] => {
            if by_ways(op, a, rest) {
                put_not(alloc, code, scope, node, a, m, norm)
            } else {
                put_operation(alloc, code, scope, node, value, op, es, m, norm)
            }
        }
    }
}

#[cycle(expr)]
fn put_operation(
    alloc: Global,
    code: &mut Code,
    scope: &Scope,
    node: NodeId,
    value: bool,
    op: &RowOp,
    es: &[Expr],
    m: usize,
    norm: u64,
) -> Result<u64, NoMem>
    ensures { IfOk result (λ b. Part code.old.blocks code.new.blocks (AppliedAt scope.now node value op.now es.now b m norm)) }
{
    let op = copy_op(alloc, op)?;
    let last = put_last(
        alloc,
        code,
        scope,
        op_at(node, value, op),
        m,
        es.len(),
        norm,
    )?;
    put_exprs(alloc, code, scope, es, m, last)
}

// `not` of a test: its operand's ways lead to the two answers.
#[cycle(expr)]
fn put_not(
    alloc: Global,
    code: &mut Code,
    scope: &Scope,
    node: NodeId,
    a: &Expr,
    m: usize,
    norm: u64,
) -> Result<u64, NoMem>
    ensures { IfOk result (λ b. Part code.old.blocks code.new.blocks (NotAt scope.now node a.now b m norm)) }
{
    let meet = put_meeting(alloc, code, scope, node, m, norm)?;
    let no = put_leaf(
        alloc,
        code,
        scope,
        op_at(node, false, RowOp::Bool(true)),
        m,
        meet,
    )?;
    let yes = put_leaf(
        alloc,
        code,
        scope,
        op_at(node, false, RowOp::Bool(false)),
        m,
        meet,
    )?;
    put_test(alloc, code, scope, a, node, m, yes, no)
}

// `and` and `or` as a value: the right operand where it is needed, else the left one's value.
#[cycle(expr)]
fn put_logic(
    alloc: Global,
    code: &mut Code,
    scope: &Scope,
    node: NodeId,
    is_and: bool,
    a: &Expr,
    b: &Expr,
    m: usize,
    norm: u64,
) -> Result<u64, NoMem>
    ensures { IfOk result (λ begin. Part code.old.blocks code.new.blocks (LogicAt scope.now node is_and a.now b.now begin m norm)) }
{
    let meet = put_meeting(alloc, code, scope, node, m, norm)?;
    let right = put_expr(alloc, code, scope, b, m, meet)?;
    let go = Branch {
        to: right,
        value: false,
    };
    let stay = Branch {
        to: meet,
        value: true,
    };
    if is_and {
        put_simple(alloc, code, scope, a, node, m, go, stay)
    } else {
        put_simple(alloc, code, scope, a, node, m, stay, go)
    }
}

// ---- tests

// Where a test leads, and whether with the value that was tested. Without it what the test says of a
// local counts there.
#[derive(Clone, Copy, Debug, PartialEq, Eq)]
struct Branch {
    to: u64,
    value: bool,
}

/// Blocks that go on by the truth of an expression, with m variables.
#[cycle(expr)]
pub fn put_test(
    alloc: Global,
    code: &mut Code,
    scope: &Scope,
    e: &Expr,
    node: NodeId,
    m: usize,
    yes: u64,
    no: u64,
) -> Result<u64, NoMem>
    ensures { IfOk result (λ b. Part code.old.blocks code.new.blocks (TestAt scope.now node e.now b m yes no)) }
{
    match e {
        Expr::And(inner, a, b) => {
            let right = put_test(alloc, code, scope, b.get(), *inner, m, yes, no)?;
            put_test(alloc, code, scope, a.get(), *inner, m, right, no)
        }
        Expr::Or(inner, a, b) => {
            let right = put_test(alloc, code, scope, b.get(), *inner, m, yes, no)?;
            put_test(alloc, code, scope, a.get(), *inner, m, yes, right)
        }
        Expr::Apply(inner, _, op, es) => match es.as_slice() {
            [] => put_branches(alloc, code, scope, e, node, m, yes, no),
            [a, rest @ ..] => {
                if negates(op, rest) {
                    put_test(alloc, code, scope, a, *inner, m, no, yes)
                } else {
                    put_branches(alloc, code, scope, e, node, m, yes, no)
                }
            }
        },
        Expr::Local(_, _) => put_branches(alloc, code, scope, e, node, m, yes, no),
        Expr::Constant(_, _) => put_branches(alloc, code, scope, e, node, m, yes, no),
        Expr::Display(_, _, _) => put_branches(alloc, code, scope, e, node, m, yes, no),
        Expr::Comprehension(_, _, _, _, _, _) => {
            put_branches(alloc, code, scope, e, node, m, yes, no)
        }
    }
}

#[cycle(expr)]
fn put_branches(
    alloc: Global,
    code: &mut Code,
    scope: &Scope,
    e: &Expr,
    node: NodeId,
    m: usize,
    yes: u64,
    no: u64,
) -> Result<u64, NoMem>
    ensures { IfOk result (λ b. Part code.old.blocks code.new.blocks (AsksAt scope.now node e.now b m (stands.plainly yes) (stands.plainly no))) }
{
    let yes = Branch {
        to: yes,
        value: false,
    };
    let no = Branch {
        to: no,
        value: false,
    };
    put_simple(alloc, code, scope, e, node, m, yes, no)
}

// On to a branch with the first m variables, perhaps with the value at a place.
fn put_branch(
    alloc: Global,
    code: &mut Code,
    scope: &Scope,
    e: &Expr,
    node: NodeId,
    truth: bool,
    m: usize,
    value: usize,
    branch: Branch,
) -> Result<Jump, NoMem>
    ensures { IfOk result (λ jump. Part code.old.blocks code.new.blocks (WayAt scope.now node e.now truth m value (branch_of branch) (jump_of jump))) }
{
    if branch.value {
        jump_and(alloc, branch.to, m, value)
    } else {
        match narrowed(e, truth) {
            None => jump_first(alloc, branch.to, m),
            Some(narrowing) => {
                put_narrowing(alloc, code, scope, node, narrowing, m, value, branch.to)
            }
        }
    }
}

// The truth of the value at a place, the last one, and the ways on.
fn put_truth(
    alloc: Global,
    code: &mut Code,
    scope: &Scope,
    e: &Expr,
    node: NodeId,
    m: usize,
    value: usize,
    yes: Branch,
    no: Branch,
) -> Result<u64, NoMem>
    ensures { IfOk result (λ b. Part code.old.blocks code.new.blocks (TruthAt scope.now node e.now b m value (branch_of yes) (branch_of no))) }
{
    let truth = plus(value, 1)?;
    let all = plus(truth, 1)?;
    let yes = put_branch(alloc, code, scope, e, node, true, m, value, yes)?;
    let no = put_branch(alloc, code, scope, e, node, false, m, value, no)?;
    let fork = code.put_fork(alloc, all, truth, yes, no)?;
    let args = one(alloc, value)?;
    let jump = jump_and(alloc, fork, truth, truth)?;
    code.put_op(
        alloc,
        scope,
        op_at(node, false, RowOp::Truth),
        args,
        truth,
        jump,
    )
}

// An expression and the truth of its value, where nothing stands beside a local.
#[cycle(expr)]
fn put_whole(
    alloc: Global,
    code: &mut Code,
    scope: &Scope,
    e: &Expr,
    node: NodeId,
    m: usize,
    yes: Branch,
    no: Branch,
) -> Result<u64, NoMem>
    ensures { IfOk result (λ b. Part code.old.blocks code.new.blocks (WholeAt scope.now node e.now b m (branch_of yes) (branch_of no))) }
{
    let truth = put_truth(alloc, code, scope, e, node, m, m, yes, no)?;
    put_expr(alloc, code, scope, e, m, truth)
}

// A test that is neither `not` nor `and` nor `or`.
#[cycle(expr)]
fn put_simple(
    alloc: Global,
    code: &mut Code,
    scope: &Scope,
    e: &Expr,
    node: NodeId,
    m: usize,
    yes: Branch,
    no: Branch,
) -> Result<u64, NoMem>
    ensures { IfOk result (λ b. Part code.old.blocks code.new.blocks (AsksAt scope.now node e.now b m (branch_of yes) (branch_of no))) }
{
    if needs_sides(e) {
        put_beside(alloc, code, scope, e, node, m, yes, no)
    } else {
        put_whole(alloc, code, scope, e, node, m, yes, no)
    }
}

// A comparison and its truth, where a side stands beside a local. No other test has sides.
#[cycle(expr)]
fn put_beside(
    alloc: Global,
    code: &mut Code,
    scope: &Scope,
    e: &Expr,
    node: NodeId,
    m: usize,
    yes: Branch,
    no: Branch,
) -> Result<u64, NoMem>
    ensures { IfOk result (λ b. Part code.old.blocks code.new.blocks (AsksAt scope.now node e.now b m (branch_of yes) (branch_of no))) }
{
    match e {
        Expr::Apply(inner, value, op, es) => match op {
            RowOp::Compare(op) => {
                let place = plus(m, es.len())?;
                let truth = put_truth(alloc, code, scope, e, node, m, place, yes, no)?;
                let es = es.as_slice();
                put_sides(alloc, code, scope, *inner, *value, *op, es, m, truth)
            }
            _ => Err(NoMem),
        },
        _ => Err(NoMem),
    }
}

// A comparison whose sides go on before its result.
#[cycle(expr)]
fn put_sides(
    alloc: Global,
    code: &mut Code,
    scope: &Scope,
    node: NodeId,
    value: bool,
    op: CmpOp,
    es: &[Expr],
    m: usize,
    norm: u64,
) -> Result<u64, NoMem>
    ensures { IfOk result (λ b. Part code.old.blocks code.new.blocks (SidesAt scope.now node value (row.Compare op) es.now b m norm)) }
{
    let count = es.len();
    let args = range(alloc, m, count)?;
    let last = plus(m, count)?;
    let jump = jump_and(alloc, norm, last, last)?;
    let block = code.put_op(
        alloc,
        scope,
        op_at(node, value, RowOp::Compare(op)),
        args,
        last,
        jump,
    )?;
    put_exprs(alloc, code, scope, es, m, block)
}

// ---- displays of dicts: an empty dict, the stores to it, and then the value of the display

#[cycle(expr)]
fn put_display(
    alloc: Global,
    code: &mut Code,
    scope: &Scope,
    node: NodeId,
    site: SiteId,
    pairs: &[(Expr, Expr)],
    m: usize,
    norm: u64,
) -> Result<u64, NoMem>
    ensures { IfOk result (λ b. Part code.old.blocks code.new.blocks (DisplayAt scope.now node site pairs.now b m norm)) }
{
    let whole = put_meeting(alloc, code, scope, node, m, norm)?;
    let next = put_pairs(alloc, code, scope, node, pairs, m, whole)?;
    put_leaf(
        alloc,
        code,
        scope,
        op_at(node, false, RowOp::Dict(site)),
        m,
        next,
    )
}

// The stores of pairs to the dict at m.
#[cycle(expr)]
fn put_pairs(
    alloc: Global,
    code: &mut Code,
    scope: &Scope,
    node: NodeId,
    pairs: &[(Expr, Expr)],
    m: usize,
    norm: u64,
) -> Result<u64, NoMem>
    ensures { IfOk result (λ b. Part code.old.blocks code.new.blocks (PairsAt scope.now node pairs.now b m norm)) }
{
    match pairs {
        [] => Ok(norm),
        [pair, rest @ ..] => {
            let next = put_pairs(alloc, code, scope, node, rest, m, norm)?;
            put_pair(alloc, code, scope, node, pair, m, next)
        }
    }
}

#[cycle(expr)]
fn put_pair(
    alloc: Global,
    code: &mut Code,
    scope: &Scope,
    node: NodeId,
    pair: &(Expr, Expr),
    m: usize,
    norm: u64,
) -> Result<u64, NoMem>
    ensures { IfOk result (λ b. Part code.old.blocks code.new.blocks (PairAt scope.now node pair.now b m norm)) }
{
    let key = plus(m, 1)?;
    let value = plus(m, 2)?;
    let all = plus(m, 3)?;
    let args = three(alloc, m, key, value)?;
    let jump = jump_first(alloc, norm, key)?;
    let store = op_at(node, false, RowOp::StoreIndex);
    let stored = code.put_op(alloc, scope, store, args, all, jump)?;
    let right = put_expr(alloc, code, scope, &pair.1, value, stored)?;
    put_expr(alloc, code, scope, &pair.0, key, right)
}

// ---- walks

/// What is walked, as two more variables: the value and the place, or the end of a range and its
/// first number.
#[cycle(expr)]
pub fn put_subject(
    alloc: Global,
    code: &mut Code,
    scope: &Scope,
    subject: &Subject,
    node: NodeId,
    m: usize,
    norm: u64,
) -> Result<u64, NoMem>
    ensures { IfOk result (λ b. Part code.old.blocks code.new.blocks (SubjectAt scope.now node subject.now b m norm)) }
{
    match subject {
        Subject::Over(site, e) => {
            let zero = put_zero(alloc, code, scope, node, m, norm)?;
            let walk = op_at(node, false, RowOp::Walk(*site));
            let walk = put_last(alloc, code, scope, walk, m, 1, zero)?;
            put_expr(alloc, code, scope, e, m, walk)
        }
        Subject::UpTo(e) => {
            let zero = put_zero(alloc, code, scope, node, m, norm)?;
            put_expr(alloc, code, scope, e, m, zero)
        }
        Subject::FromTo(a, b, _) => {
            let swap = put_swap(alloc, code, m, norm)?;
            let right = put_second(alloc, code, scope, b, m, swap)?;
            put_expr(alloc, code, scope, a, m, right)
        }
    }
}

// An expression where one more variable is there.
#[cycle(expr)]
fn put_second(
    alloc: Global,
    code: &mut Code,
    scope: &Scope,
    e: &Expr,
    m: usize,
    norm: u64,
) -> Result<u64, NoMem>
    ensures { IfOk result (λ b. Part code.old.blocks code.new.blocks (ExprAt scope.now e.now b (m + 1) norm)) }
{
    let more = plus(m, 1)?;
    put_expr(alloc, code, scope, e, more, norm)
}

// The place 0, after what is walked.
fn put_zero(
    alloc: Global,
    code: &mut Code,
    scope: &Scope,
    node: NodeId,
    m: usize,
    norm: u64,
) -> Result<u64, NoMem>
    ensures { IfOk result (λ b. Part code.old.blocks code.new.blocks (ActsAt scope.now b node false (row.Word (pos 0)) [] (m + 1) (on_first_and norm (m + 1) (m + 1)))) }
{
    let more = plus(m, 1)?;
    put_leaf(
        alloc,
        code,
        scope,
        op_at(node, false, RowOp::Word(0)),
        more,
        norm,
    )
}

// The two variables at m the other way round.
fn put_swap(alloc: Global, code: &mut Code, m: usize, norm: u64) -> Result<u64, NoMem>
    ensures { IfOk result (λ b. Part code.old.blocks code.new.blocks (ShapeAt b (m + 2) (Go (record { to = norm; places = (range 0 m ++ (m + 1) ∷ []) ++ m ∷ [] })))) }
{
    let second = plus(m, 1)?;
    let all = plus(m, 2)?;
    let mut jump = jump_and(alloc, norm, m, second)?;
    jump.places.push(m)?;
    code.put_jump(alloc, all, jump)
}

// ---- comprehensions

// What a comprehension does with the item that it binds: perhaps a test, then what it adds to the
// list at m.
#[cycle(expr)]
fn put_gather(
    alloc: Global,
    code: &mut Code,
    scope: &Scope,
    item: &Expr,
    condition: &Option<Own<Expr>>,
    list: usize,
    walk: Walk,
    advance: u64,
) -> Result<u64, NoMem>
    ensures { IfOk result (λ b. Part code.old.blocks code.new.blocks (GatherAt scope.now walk.node item.now condition.now list walk.all advance b)) }
{
    let more = plus(walk.all, 1)?;
    let args = two(alloc, list, walk.all)?;
    let jump = jump_first(alloc, advance, walk.all)?;
    let of = op_at(walk.node, false, RowOp::AddItem);
    let add = code.put_op(alloc, scope, of, args, more, jump)?;
    let begin = put_expr(alloc, code, scope, item, walk.all, add)?;
    match condition {
        None => Ok(begin),
        Some(e) => {
            put_test(
                alloc,
                code,
                scope,
                e.get(),
                walk.node,
                walk.all,
                begin,
                advance,
            )
        }
    }
}

#[cycle(expr)]
fn put_comprehension(
    alloc: Global,
    code: &mut Code,
    scope: &Scope,
    node: NodeId,
    site: SiteId,
    item: &Expr,
    target: &Target,
    subject: &Subject,
    condition: &Option<Own<Expr>>,
    m: usize,
    norm: u64,
) -> Result<u64, NoMem>
    ensures { IfOk result (λ b. Part code.old.blocks code.new.blocks (ComprehensionAt scope.now node site item.now target.now subject.now condition.now b m norm)) }
{
    let over = plus(m, 1)?;
    let walk = Walk {
        node,
        step: step_of(subject),
        over,
        all: plus(over, 2)?,
    };
    let head = code.put_head(alloc, walk.all)?;
    let advance = put_advance(alloc, code, scope, walk, head)?;
    let gather = put_gather(alloc, code, scope, item, condition, m, walk, advance)?;
    let more = plus(walk.all, 1)?;
    let bind = put_bind(alloc, code, scope, target, walk.all, more, walk.all, gather)?;
    let whole = put_meeting(alloc, code, scope, node, m, norm)?;
    let done = jump_first(alloc, whole, over)?;
    let asked = put_turn(alloc, code, scope, walk, bind, done)?;
    code.aim(alloc, head, asked)?;
    let begin = put_subject(alloc, code, scope, subject, node, over, head.number)?;
    let of = op_at(node, false, RowOp::Comprehension(site));
    put_leaf(alloc, code, scope, of, m, begin)
}

// ---- targets

/// Blocks that bind a target to the value at a place, where m variables are there, and go on with the
/// first ones.
#[cycle(expr)]
pub fn put_bind(
    alloc: Global,
    code: &mut Code,
    scope: &Scope,
    target: &Target,
    value: usize,
    m: usize,
    keep: usize,
    norm: u64,
) -> Result<u64, NoMem>
    ensures { IfOk result (λ b. Part code.old.blocks code.new.blocks (BindAt scope.now target.now value m keep b norm)) }
{
    let source = variable(alloc, value);
    put_take(alloc, code, scope, target, &source, m, keep, norm)
}

// The same for what stands in tuples, too. An item of a tuple is taken when the parts of the target are
// evaluated, so that it is not held before.
#[cycle(expr)]
fn put_take(
    alloc: Global,
    code: &mut Code,
    scope: &Scope,
    target: &Target,
    source: &Source,
    m: usize,
    keep: usize,
    norm: u64,
) -> Result<u64, NoMem>
    ensures { IfOk result (λ b. Part code.old.blocks code.new.blocks (TakeAt scope.now target.now source.now m keep b norm)) }
{
    match target {
        Target::Name(node, local) => {
            let _place = local_place(scope, *local)?;
            put_name(alloc, code, scope, *node, *local, source, m, keep, norm)
        }
        Target::Attr(node, e, name) => {
            let more = plus(m, 1)?;
            let op = RowOp::StoreAttr(name.copy(alloc)?);
            let args = two(alloc, m, place_taken(source, more))?;
            let store = put_store(
                alloc, code, scope, *node, op, args, source, more, keep, norm,
            )?;
            let begin = put_expr(alloc, code, scope, e, m, store)?;
            put_there(alloc, code, scope, source, m, begin)
        }
        Target::Item(node, a, i) => {
            put_item(alloc, code, scope, *node, a, i, source, m, keep, norm)
        }
        Target::Parts(node, parts) => {
            put_parts(
                alloc,
                code,
                scope,
                *node,
                parts.as_slice(),
                source,
                m,
                keep,
                norm,
            )
        }
    }
}

#[cycle(expr)]
fn put_item(
    alloc: Global,
    code: &mut Code,
    scope: &Scope,
    node: NodeId,
    a: &Expr,
    i: &Expr,
    source: &Source,
    m: usize,
    keep: usize,
    norm: u64,
) -> Result<u64, NoMem>
    ensures { IfOk result (λ b. Part code.old.blocks code.new.blocks (ItemAt scope.now node a.now i.now source.now m keep b norm)) }
{
    let index = plus(m, 1)?;
    let all = plus(m, 2)?;
    let args = three(alloc, m, index, place_taken(source, all))?;
    let op = RowOp::StoreIndex;
    let store = put_store(alloc, code, scope, node, op, args, source, all, keep, norm)?;
    let right = put_expr(alloc, code, scope, i, index, store)?;
    let begin = put_expr(alloc, code, scope, a, m, right)?;
    put_there(alloc, code, scope, source, m, begin)
}

// The parts of a tuple's target take its items one after the other.
#[cycle(expr)]
fn put_parts(
    alloc: Global,
    code: &mut Code,
    scope: &Scope,
    node: NodeId,
    parts: &[Target],
    source: &Source,
    m: usize,
    keep: usize,
    norm: u64,
) -> Result<u64, NoMem>
    ensures { IfOk result (λ b. Part code.old.blocks code.new.blocks (PartsAt scope.now node parts.now source.now m keep b norm)) }
{
    let end = jump_first(alloc, norm, keep)?;
    let end = code.put_jump(alloc, m, end)?;
    let count = parts.len();
    let begin = put_items(alloc, code, scope, node, parts, count, 0, source, m, end)?;
    put_tuple(alloc, code, scope, node, source, m, begin)
}

// The parts of a tuple's target from a place on, of which there are `count`.
#[cycle(expr)]
fn put_items(
    alloc: Global,
    code: &mut Code,
    scope: &Scope,
    node: NodeId,
    parts: &[Target],
    count: usize,
    place: usize,
    source: &Source,
    m: usize,
    norm: u64,
) -> Result<u64, NoMem>
    ensures { IfOk result (λ b. Part code.old.blocks code.new.blocks (ItemsAt scope.now node parts.now count place source.now m b norm)) }
{
    match parts {
        [] => Ok(norm),
        [part, rest @ ..] => {
            let later = plus(place, 1)?;
            let next = put_items(
                alloc, code, scope, node, rest, count, later, source, m, norm,
            )?;
            let item = TupleItem {
                node,
                count: narrow(count)?,
                place: narrow(place)?,
            };
            let inner = item_of(alloc, source, item)?;
            put_take(alloc, code, scope, part, &inner, m, m, next)
        }
    }
}
