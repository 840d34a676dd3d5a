// Expressions that are targets.
ghost use Rattle.std.specs.Prelude.{◌≡◌, [], MatchResult, map, reverse};
ghost use Rattle.rpy_parse.specs.Build as spec;

use crate::fault::Stop;
use crate::found::{Aimed, Got};
use rpy_base::{Seq, Text};
use rpy_tree::{Expr, Target};
use std::alloc::Global;

/// The items, last first.
fn reversed<T: Drop>(alloc: Global, items: Seq<T>) -> Result<Seq<T>, Stop>
    ensures { MatchResult result (λ turned. turned ≡ reverse items) (λ e. e ≡ Stop.NoMem) }
{
    let mut items = items;
    let mut turned = Seq::new(alloc);
    while let Some(item) = items.pop() {
        turned.push(item)?;
    }
    Ok(turned)
}

fn none(alloc: Global) -> Target
    ensures { result ≡ Target.Name 0 [] }
{
    Target::Name(0, Text::new(alloc))
}

/// The target that the tokens of an expression are. Only names, attributes, indexed expressions
/// and tuples of targets are some.
#[cycle(target)]
#[tactic(auto, using(crate::proofs::Goals::goal_name, crate::proofs::Goals::goal_attr, crate::proofs::Goals::goal_index, crate::proofs::Goals::goal_tuple, crate::proofs::Goals::goal_int, crate::proofs::Goals::goal_str, crate::proofs::Goals::goal_unary, crate::proofs::Goals::goal_binary, crate::proofs::Goals::goal_compare, crate::proofs::Goals::goal_logic, crate::proofs::Goals::goal_not, crate::proofs::Goals::goal_call, crate::proofs::Goals::goal_slice, crate::proofs::Goals::goal_list, crate::proofs::Goals::goal_dict, crate::proofs::Goals::goal_comp))]
pub fn target_of(alloc: Global, tree: Expr) -> Result<Target, Stop>
    ensures { MatchResult result (λ new. new ≡ spec.goal_of tree) (λ e. e ≡ Stop.NoMem) }
{
    match tree {
        Expr::Name(node, name) => Ok(Target::Name(node, name)),
        Expr::Attr(node, of, name) => Ok(Target::Attr(node, of.into_inner(), name)),
        Expr::Index(node, of, index) => {
            Ok(Target::Item(node, of.into_inner(), index.into_inner()))
        }
        Expr::Tuple(node, trees) => Ok(Target::Tuple(node, targets_of(alloc, trees)?)),
        Expr::Int(_, _) => Ok(none(alloc)),
        Expr::Str(_, _) => Ok(none(alloc)),
        Expr::Unary(_, _, _) => Ok(none(alloc)),
        Expr::Binary(_, _, _, _) => Ok(none(alloc)),
        Expr::Compare(_, _, _, _) => Ok(none(alloc)),
        Expr::Logic(_, _, _, _) => Ok(none(alloc)),
        Expr::Not(_, _) => Ok(none(alloc)),
        Expr::Call(_, _, _) => Ok(none(alloc)),
        Expr::Slice(_, _, _, _) => Ok(none(alloc)),
        Expr::List(_, _) => Ok(none(alloc)),
        Expr::Dict(_, _) => Ok(none(alloc)),
        Expr::Comp(_, _, _, _, _) => Ok(none(alloc)),
    }
}

#[cycle(target)]
#[tactic(auto, using(crate::proofs::Turned::size_turned, crate::proofs::Turned::turned_step, crate::proofs::Turned::turned_back))]
fn targets_of(alloc: Global, trees: Seq<Expr>) -> Result<Seq<Target>, Stop>
    ensures { MatchResult result (λ new. new ≡ map spec.goal_of trees) (λ e. e ≡ Stop.NoMem) }
{
    let mut trees = reversed(alloc, trees)?;
    let mut targets = Seq::new(alloc);
    while let Some(tree) = trees.pop() {
        targets.push(target_of(alloc, tree)?)?;
    }
    Ok(targets)
}

pub fn aimed(alloc: Global, a: Got) -> Result<Aimed, Stop>
    ensures { MatchResult result (λ new. new ≡ spec.aimed a) (λ e. e ≡ Stop.NoMem) }
{
    Ok(Aimed {
        target: target_of(alloc, a.tree)?,
        lines: a.lines,
        line: a.line,
    })
}
