// One statement of a run.
ghost use Rattle.std.specs.Prelude.{◌≡◌, ◌+◌, ◌<◌, ◌^◌, IfOk};
ghost use Rattle.csub_tree.specs.Layout.{shapes_of};
ghost use Rattle.csub_tree.specs.Machine.{step as steps_to, does};
ghost use Rattle.csub_runner.specs.Core.{core_of, MachineOk, IsStep};

use crate::code::{statement, type_in};
use crate::machine::{Machine, Next};
use crate::shape::Shape;
use crate::val::Val;
use csub_tree::{CFile, CStmt, StuckReason};
use rpy_base::{NoMem, Text};
use std::alloc::Global;

impl Machine {
    /// One statement.
    pub fn step(
        &mut self,
        alloc: Global,
        file: &CFile,
        shapes: &Vec<Shape>,
        args: &[Text],
    ) -> Result<Next, NoMem>
        requires ok { MachineOk self.old }
        requires shapes { shapes.now.items ≡ shapes_of file.now.structs }
        ensures ok { IfOk result (λ _. MachineOk self.new) }
        ensures step { IfOk result (λ next. IsStep (core_of self.old) (steps_to file.now args.now (core_of self.old)) next (core_of self.new)) }
    {
        match statement(file, self.function, self.block, self.at) {
            Some(stmt) => self.carry_out(alloc, file, shapes, args, stmt),
            None => Ok(Next::Stuck(StuckReason::Outside)),
        }
    }

    // The statement at the machine's place.
    fn carry_out(
        &mut self,
        alloc: Global,
        file: &CFile,
        shapes: &Vec<Shape>,
        args: &[Text],
        stmt: &CStmt,
    ) -> Result<Next, NoMem>
        requires at { self.old.at + 1 < 2 ^ 64 }
        requires ok { MachineOk self.old }
        requires shapes { shapes.now.items ≡ shapes_of file.now.structs }
        ensures ok { IfOk result (λ _. MachineOk self.new) }
        ensures step { IfOk result (λ next. IsStep (core_of self.old) (does file.now args.now (core_of self.old) stmt.now) next (core_of self.new)) }
    {
        match stmt {
            CStmt::Set(a, x) => Ok(self.set(*a, self.value(x))),
            CStmt::Unary(a, op, x) => Ok(self.unary(*a, *op, self.value(x))),
            CStmt::Binary(a, op, x, y) => { Ok(self.binary(*a, *op, self.value(x), self.value(y))) }
            CStmt::GetField(a, kind, b, k) => {
                Ok(self.get_field(shapes, *a, *kind, self.variable(*b), *k))
            }
            CStmt::SetField(kind, b, k, x) => {
                Ok(self.set_field(shapes, *kind, self.variable(*b), *k, self.value(x)))
            }
            CStmt::GetItem(a, kind, b, i) => {
                Ok(self.get_item(shapes, *a, *kind, self.variable(*b), self.value(i)))
            }
            CStmt::SetItem(kind, b, i, x) => {
                Ok(self.set_item(
                    shapes,
                    *kind,
                    self.variable(*b),
                    self.value(i),
                    self.value(x),
                ))
            }
            CStmt::New(a, _, kind) => self.new_block(alloc, shapes, *a, *kind, 0),
            CStmt::NewArray(a, _, kind, x) => {
                self.new_array(alloc, shapes, *a, *kind, self.value(x))
            }
            CStmt::Free(a) => Ok(self.free(self.variable(*a))),
            CStmt::Step(x) => Ok(self.pay(self.value(x))),
            CStmt::Call(into, f, xs) => self.call(alloc, file, *into, *f, xs.as_slice()),
            CStmt::CallFn(into, result_type, params, b, xs) => self.call_fn(
                alloc,
                file,
                *into,
                *result_type,
                params.as_slice(),
                self.variable(*b),
                xs.as_slice(),
            ),
            CStmt::ExcType(a, _) => Ok(self.assign(*a, self.exc_type)),
            CStmt::ExcValue(a, _) => Ok(self.assign(*a, self.exc_value)),
            CStmt::ExcSet(a, b) => Ok(self.exc_set(self.variable(*a), self.variable(*b))),
            CStmt::ExcClear => Ok(self.exc_clear()),
            CStmt::Argc(a) => Ok(self.assign(*a, Val::Word(args.len() as i64))),
            CStmt::ArgLen(a, x) => Ok(self.arg_len(args, *a, self.value(x))),
            CStmt::Arg(a, x, y) => Ok(self.arg(args, *a, self.value(x), self.value(y))),
            CStmt::Put(x) => Ok(self.put_byte(self.value(x))),
            CStmt::Goto(block) => Ok(self.goes_to(*block)),
            CStmt::If(a, there, elsewhere) => {
                Ok(self.branch(self.variable(*a), *there, *elsewhere))
            }
            CStmt::Return(x) => Ok(self.give_back(x)),
            CStmt::Fail(number) => Ok(self.fail(*number)),
            CStmt::Raised(a) => {
                let kind = type_in(file, self.function, *a);
                self.raised(alloc, shapes, kind, self.variable(*a))
            }
        }
    }
}
