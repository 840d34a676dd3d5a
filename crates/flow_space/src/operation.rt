// Single operations as blocks.
ghost use Rattle.std.specs.Prelude.{◌≡◌, true, ◌≤◌, ◌+◌, ◌∷◌, [], IfOk};
ghost use Rattle.rpy_meaning.specs.declared.row.RowOp.TheVariants as row;
ghost use Rattle.flow_stands.specs.Places.{range, first_and as on_first_and, Go};
ghost use Rattle.flow_stands.specs.Stands as stands;
ghost use Rattle.flow_space.specs.Placed.{Part, ShapeAt, ActsAt, MeetsAt, jump_of};

use crate::NEVER;
use crate::code::{Act, Code, Jump, Scope, jump_and, jump_first, op_at};
use crate::places::{one, plus, range};
use rpy_base::NoMem;
use rpy_meaning::RowOp;
use rpy_tree::NodeId;
use std::alloc::Global;

// Nothing follows what raises.
pub fn onward(alloc: Global, op: &RowOp, norm: u64, m: usize, last: usize) -> Result<Jump, NoMem>
    ensures { IfOk result (λ jump. jump_of jump ≡ stands.onward op.now norm m last) }
{
    match op {
        RowOp::Raise => jump_first(alloc, NEVER, 0),
        _ => jump_and(alloc, norm, m, last),
    }
}

// An operation on the last of m + count variables, in whose place its result goes on.
pub fn put_last(
    alloc: Global,
    code: &mut Code,
    scope: &Scope,
    of: Act,
    m: usize,
    count: usize,
    norm: u64,
) -> Result<u64, NoMem>
    ensures { IfOk result (λ b. Part code.old.blocks code.new.blocks (ActsAt scope.now b of.node of.value of.op (range m count) (m + count) (stands.onward of.op norm m (m + count)))) }
{
    let args = range(alloc, m, count)?;
    let last = plus(m, count)?;
    let jump = onward(alloc, &of.op, norm, m, last)?;
    code.put_op(alloc, scope, of, args, last, jump)
}

// An operation without operands.
pub fn put_leaf(
    alloc: Global,
    code: &mut Code,
    scope: &Scope,
    of: Act,
    m: usize,
    norm: u64,
) -> Result<u64, NoMem>
    ensures { IfOk result (λ b. Part code.old.blocks code.new.blocks (ActsAt scope.now b of.node of.value of.op [] m (stands.onward of.op norm m m))) }
{
    put_last(alloc, code, scope, of, m, 0, norm)
}

// A copy of the variable at a place.
pub fn put_copy(
    alloc: Global,
    code: &mut Code,
    scope: &Scope,
    node: NodeId,
    place: usize,
    m: usize,
    norm: u64,
) -> Result<u64, NoMem>
    ensures { IfOk result (λ b. Part code.old.blocks code.new.blocks (ActsAt scope.now b node true row.Copy (place ∷ []) m (on_first_and norm m m))) }
{
    let args = one(alloc, place)?;
    let jump = jump_and(alloc, norm, m, m)?;
    code.put_op(alloc, scope, op_at(node, true, RowOp::Copy), args, m, jump)
}

// The meeting of the ways of `and` and `or`, and the end of a dict's display and of a comprehension: the
// value is the last of m + 1 variables.
pub fn put_meeting(
    alloc: Global,
    code: &mut Code,
    scope: &Scope,
    node: NodeId,
    m: usize,
    norm: u64,
) -> Result<u64, NoMem>
    ensures { IfOk result (λ b. Part code.old.blocks code.new.blocks (MeetsAt scope.now node b m norm)) }
{
    put_last(
        alloc,
        code,
        scope,
        op_at(node, true, RowOp::Copy),
        m,
        1,
        norm,
    )
}
