// The turns of a walk over a range, or over what has items.
ghost use Rattle.std.specs.Prelude.{◌≡◌, ◌+◌, false, List, ◌∷◌, [], IfOk};
ghost use Rattle.rpy_tree.specs.declared.program.Site.{Site};
ghost use Rattle.rpy_meaning.specs.declared.row.RowOp.TheVariants as row;
ghost use Rattle.flow_stands.specs.Places.{first_and as on_first_and};
ghost use Rattle.flow_stands.specs.Stands as stands;
ghost use Rattle.flow_space.specs.Placed.{Part, ActsAt, TurnAt, jump_of};
ghost use Rattle.resolved_meaning.specs.Trees.{subject_of};

use crate::code::{Code, Head, Jump, Scope, jump_and, jump_first, op_at};
use crate::places::{plus, two};
use rpy_base::{NoMem, Seq};
use rpy_meaning::RowOp;
use rpy_resolved::Subject;
use rpy_tree::NodeId;
use std::alloc::Global;

/// The step of a walk over a range.
pub fn step_of(subject: &Subject) -> Option<i64>
    ensures { (sites : List Site) → result ≡ stands.step_of (subject_of sites subject.now) }
{
    match subject {
        Subject::Over(_, _) => None,
        Subject::UpTo(_) => Some(1),
        Subject::FromTo(_, _, step) => Some(*step),
    }
}

/// A walk: its node and step, the place of what is walked, and the number of variables while no item
/// is there.
#[derive(Clone, Copy, Debug, PartialEq, Eq)]
pub struct Walk {
    pub node: NodeId,
    pub step: Option<i64>,
    pub over: usize,
    pub all: usize,
}

/// On to the next place, and to the head.
pub fn put_advance(
    alloc: Global,
    code: &mut Code,
    scope: &Scope,
    walk: Walk,
    head: Head,
) -> Result<u64, NoMem>
    ensures { IfOk result (λ b. Part code.old.blocks code.new.blocks (ActsAt scope.now b walk.node false (row.Advance walk.step) (walk.over ∷ (walk.over + 1) ∷ []) walk.all (on_first_and head.number (walk.over + 1) walk.all))) }
{
    let at = plus(walk.over, 1)?;
    let args = two(alloc, walk.over, at)?;
    let jump = jump_and(alloc, head.number, at, walk.all)?;
    let of = op_at(walk.node, false, RowOp::Advance(walk.step));
    code.put_op(alloc, scope, of, args, walk.all, jump)
}

/// A turn of a walk: where an item is there, a step is paid and it goes on to `turn` with the item as
/// one more variable, else to `done`.
pub fn put_turn(
    alloc: Global,
    code: &mut Code,
    scope: &Scope,
    walk: Walk,
    turn: u64,
    done: Jump,
) -> Result<u64, NoMem>
    ensures { IfOk result (λ b. Part code.old.blocks code.new.blocks (TurnAt scope.now walk.node walk.step walk.over walk.all turn (jump_of done) b)) }
{
    let more = plus(walk.all, 1)?;
    let at = plus(walk.over, 1)?;
    let args = two(alloc, walk.over, at)?;
    let jump = jump_and(alloc, turn, walk.all, walk.all)?;
    let of = op_at(walk.node, false, RowOp::Item(walk.step));
    let item = code.put_op(alloc, scope, of, args, walk.all, jump)?;
    let none: Seq<usize> = Seq::new(alloc);
    let jump = jump_first(alloc, item, walk.all)?;
    let of = op_at(walk.node, false, RowOp::Turn);
    let paid = code.put_op(alloc, scope, of, none, walk.all, jump)?;
    let yes = jump_first(alloc, paid, walk.all)?;
    let fork = code.put_fork(alloc, more, walk.all, yes, done)?;
    let args = two(alloc, walk.over, at)?;
    let jump = jump_and(alloc, fork, walk.all, walk.all)?;
    let of = op_at(walk.node, false, RowOp::HasItem(walk.step));
    code.put_op(alloc, scope, of, args, walk.all, jump)
}
