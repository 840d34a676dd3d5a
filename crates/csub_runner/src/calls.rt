// Variables of a call, and who waits.
ghost use Rattle.std.specs.Prelude.{◌≡◌, ◌++◌, ◌-◌, take, length, map, replicate, IfOk, IsSome};
ghost use Rattle.std.specs.Option.{IfNone};
ghost use Rattle.csub_tree.specs.Statement.{any_unset as any_is_unset, operands};
ghost use Rattle.csub_runner.specs.Erased.{erase_all, raw_operand};
ghost use Rattle.csub_runner.specs.Waiting.{raw_last, raw_taken};
ghost use Rattle.csub_runner.specs.declared.val.Val.{Val};

use crate::heap::put;
use crate::val::{Frame, Val, is_unset, operand};
use csub_tree::COperand;
use rpy_base::NoMem;
use std::alloc::Global;

pub fn any_unset(vars: &Vec<Val>, xs: &[COperand]) -> bool
    ensures { result ≡ any_is_unset (operands (erase_all vars.now.items) xs.now) }
{
    for x in xs {
        if is_unset(operand(vars, x)) {
            return true;
        }
    }
    false
}

/// The values of the operands, and then so many unset ones.
pub fn fresh_vars(
    alloc: Global,
    vars: &Vec<Val>,
    xs: &[COperand],
    locals: usize,
) -> Result<Vec<Val>, NoMem>
    ensures { IfOk result (λ fresh. fresh.items ≡ map (raw_operand vars.now.items) xs.now ++ replicate locals Val.Unset) }
{
    let mut fresh = Vec::with_capacity(alloc, xs.len().saturating_add(locals))?;
    for x in xs {
        fresh.push(operand(vars, x))?;
    }
    push_unset(&mut fresh, locals)?;
    Ok(fresh)
}

fn push_unset(vars: &mut Vec<Val>, count: usize) -> Result<(), NoMem>
    ensures { IfOk result (λ _. vars.new.items ≡ vars.old.items ++ replicate count Val.Unset) }
{
    for _ in 0..count {
        vars.push(Val::Unset)?;
    }
    Ok(())
}

/// Takes the innermost caller.
pub fn pop_caller(callers: &mut Vec<Frame>) -> Option<Frame>
    ensures last { result ≡ raw_last callers.old.items }
    ensures rest { IsSome result → callers.new.items ≡ take (length callers.old.items - 1) callers.old.items }
    ensures none { IfNone result (callers.new.items ≡ callers.old.items) }
{
    callers.pop()
}

/// The variables, of which one takes a value, if any does.
pub fn taken_by(vars: Vec<Val>, into: Option<u64>, value: Val) -> Vec<Val>
    ensures { result.items ≡ raw_taken vars.items into value }
{
    let mut vars = vars;
    if let Some(a) = into {
        put(&mut vars, a, value);
    }
    vars
}
