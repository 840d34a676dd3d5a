// One step of a run.
use crate::device::fail;
use crate::machine::{Code, Machine, Next, block_at};
use crate::val::{Val, is_unset};
use csub_tree::{COperand, StuckReason};
use ll_code::{LlExit, LlLink, LlOp, VarId};
use rpy_base::NoMem;
use std::alloc::Global;

impl Machine {
    /// One operation or exit.
    pub fn step(&mut self, alloc: Global, code: Code<'_>) -> Result<Next, NoMem> {
        let Some(block) = block_at(code.program, self.graph, self.block) else {
            return Ok(Next::Stuck(StuckReason::Outside));
        };
        match block.ops.get(self.at) {
            None => self.leave(alloc, code, &block.exit),
            Some(operation) => {
                self.at = self.at.saturating_add(1);
                self.operate(alloc, code, operation)
            }
        }
    }

    fn operate(&mut self, alloc: Global, code: Code<'_>, operation: &LlOp) -> Result<Next, NoMem> {
        match operation {
            LlOp::Set(a, x) => Ok(self.set(*a, self.value(x))),
            LlOp::Unary(a, o, x) => Ok(self.unary(*a, *o, self.value(x))),
            LlOp::Binary(a, o, x, y) => Ok(self.binary(*a, *o, self.value(x), self.value(y))),
            LlOp::Step(x) => Ok(self.pay(self.value(x))),
            LlOp::Call(into, g, xs) => self.call(alloc, code, *into, *g, xs.as_slice()),
            LlOp::CallFn(_, _, _, _, _) => self.call_value(alloc, code, operation),
            LlOp::Put(x) => Ok(self.put_byte(self.value(x))),
            LlOp::Raise(a) => self.raise(code, self.variable(*a)),
            LlOp::Argc(a) => Ok(self.arg_count(code, *a)),
            LlOp::ArgLen(a, x) => Ok(self.arg_len(code, *a, self.value(x))),
            LlOp::Arg(a, x, y) => Ok(self.arg(code, *a, self.value(x), self.value(y))),
            _ => self.operate_on_memory(alloc, code, operation),
        }
    }

    fn operate_on_memory(
        &mut self,
        alloc: Global,
        code: Code<'_>,
        operation: &LlOp,
    ) -> Result<Next, NoMem> {
        match operation {
            LlOp::GetField(a, n, b, k) => Ok(self.get_field(code, *a, *n, self.variable(*b), *k)),
            LlOp::SetField(n, b, k, x) => {
                Ok(self.set_field(code, *n, self.variable(*b), *k, self.value(x)))
            }
            LlOp::GetItem(a, n, b, i) => {
                Ok(self.get_item(code, *a, *n, self.variable(*b), self.value(i)))
            }
            LlOp::SetItem(n, b, i, x) => {
                Ok(self.set_item(code, *n, self.variable(*b), self.value(i), self.value(x)))
            }
            LlOp::New(a, _, n) => self.new_block(alloc, code, *a, *n, 0),
            LlOp::NewArray(a, _, n, x) => self.new_array(alloc, code, *a, *n, self.value(x)),
            LlOp::Free(a) => Ok(self.free(self.variable(*a))),
            LlOp::ExcType(a, _) => Ok(self.assign(*a, self.exc_type)),
            LlOp::ExcValue(a, _) => Ok(self.assign(*a, self.exc_value)),
            LlOp::ExcSet(a, b) => Ok(self.exc_set(self.variable(*a), self.variable(*b))),
            LlOp::ExcClear => Ok(self.exc_clear()),
            _ => Ok(Next::Stuck(StuckReason::Outside)),
        }
    }

    fn branch(
        &mut self,
        code: Code<'_>,
        a: VarId,
        there: &LlLink,
        elsewhere: &LlLink,
    ) -> Result<Next, NoMem> {
        match self.test(a) {
            None => Ok(Next::Stuck(StuckReason::Unset)),
            Some(true) => self.jump(code, there),
            Some(false) => self.jump(code, elsewhere),
        }
    }

    fn give_back_operand(&mut self, x: &COperand) -> Next {
        let value = self.value(x);
        if is_unset(value) {
            return Next::Stuck(StuckReason::Unset);
        }
        self.give_back(value)
    }

    fn leave(&mut self, alloc: Global, code: Code<'_>, exit: &LlExit) -> Result<Next, NoMem> {
        match exit {
            LlExit::Goto(link) => self.jump(code, link),
            LlExit::If(a, there, elsewhere) => self.branch(code, *a, there, elsewhere),
            LlExit::OnRaise(_, _, without) => self.jump(code, without),
            LlExit::Return(None) => Ok(self.give_back(Val::Unset)),
            LlExit::Return(Some(x)) => Ok(self.give_back_operand(x)),
            LlExit::Raise(a) => {
                let value = self.variable(*a);
                if is_unset(value) {
                    return Ok(Next::Stuck(StuckReason::Unset));
                }
                Ok(Next::Throws(value))
            }
            LlExit::Fail(number) => Ok(fail(*number)),
            LlExit::Raised(a) => self.raised(alloc, code, *a),
        }
    }
}
