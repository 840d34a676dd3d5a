// `not` of a test: which operands are tested part by part.
ghost use Rattle.std.specs.Prelude.{◌≡◌, ◌&&◌, ℕ, Bool, List};
ghost use Rattle.rpy_tree.specs.declared.program.Site.{Site};
ghost use Rattle.flow_trees.specs.Tree as tree;
ghost use Rattle.flow_trees.specs.Tells as tells;
ghost use Rattle.flow_space.specs.Trees.{expr_of, exprs_of};

use rpy_meaning::RowOp;
use rpy_resolved::Expr;

fn denies(op: &RowOp) -> bool
    ensures { (node : ℕ) (value : Bool) (es : tree.Exprs) → result ≡ tells.has_ways (tree.Apply node value op.now es) }
{
    match op {
        RowOp::Not => true,
        _ => false,
    }
}

// Whether an operand's own parts stand in a test.
fn has_ways(e: &Expr) -> bool
    ensures { (sites : List Site) → result ≡ tells.has_ways (expr_of sites e.now) }
{
    match e {
        Expr::And(_, _, _) => true,
        Expr::Or(_, _, _) => true,
        Expr::Apply(_, _, op, _) => denies(op),
        Expr::Local(_, _) => false,
        Expr::Constant(_, _) => false,
        Expr::Display(_, _, _) => false,
        Expr::Comprehension(_, _, _, _, _, _) => false,
    }
}

fn both(a: bool, b: bool) -> bool
    ensures { result ≡ (a && b) }
{
    a && b
}

/// Whether this is `not` of one operand, of which there are no others.
pub fn negates(op: &RowOp, others: &[Expr]) -> bool
    ensures { (sites : List Site) (a : tree.Expr) → result ≡ tells.negates op.now (tree.more a (exprs_of sites others.now)) }
{
    match others {
        [] => denies(op),
        [_, ..] => false,
    }
}

/// Whether this is `not` of one operand whose own parts stand in a test.
pub fn by_ways(op: &RowOp, a: &Expr, others: &[Expr]) -> bool
    ensures { (sites : List Site) → result ≡ tells.by_ways op.now (tree.more (expr_of sites a.now) (exprs_of sites others.now)) }
{
    match others {
        [] => {
            let by_op = denies(op);
            let by_operand = has_ways(a);
            both(by_op, by_operand)
        }
        [_, ..] => false,
    }
}
