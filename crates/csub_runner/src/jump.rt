// Calls, returns and jumps.
ghost use Rattle.std.specs.Prelude.{◌≡◌, ◌+◌, ◌<◌, ◌^◌, ◌-◌, length, slice_get, IfOk, OnOk, All, map, ◌++◌, replicate};
ghost use Rattle.csub_tree.specs.Statement.{operands, entered, enter as enters, call as calls, call_fn as calls_fn, enter_as as enters_as, last_of, ended as ends, back_to as goes_back, back_with as goes_back_with, give_back as gives_back, goes_to as goes_to_block, branch as branches};
ghost use Rattle.csub_runner.specs.Erased.{erase};
ghost use Rattle.csub_runner.specs.Heap.{ValOk};
ghost use Rattle.csub_runner.specs.Core.{core_of, MachineOk, IsStep};
ghost use Rattle.csub_runner.specs.declared.machine.Next.{Next};

use crate::calls::{any_unset, fresh_vars, pop_caller, taken_by};
use crate::code::{function_at, same_result, same_types};
use crate::machine::{Machine, Next};
use crate::val::{Frame, Val, flag_in, fun_in, is_unset, word_in};
use csub_tree::{CFile, CFunction, COperand, CType, StuckReason};
use rpy_base::{NoMem, Outcome};
use std::alloc::Global;
use std::mem;

impl Machine {
    fn enter(
        &mut self,
        alloc: Global,
        into: Option<u64>,
        number: u64,
        xs: &[COperand],
        function: &CFunction,
    ) -> Result<Next, NoMem>
        requires at { self.old.at + 1 < 2 ^ 64 }
        requires ok { MachineOk self.old }
        ensures ok { IfOk result (λ _. MachineOk self.new) }
        ensures next { IfOk result (λ next. next ≡ Next.Goes) }
        ensures core { IfOk result (λ _. core_of self.new ≡ entered (core_of self.old) into number (operands (core_of self.old).vars xs.now) function.now) }
    {
        let fresh = fresh_vars(alloc, &self.vars, xs, function.locals.len())?;
        let waiting = Frame {
            function: self.function,
            block: self.block,
            at: self.at + 1,
            vars: mem::replace(&mut self.vars, fresh),
            into,
        };
        self.callers.push(waiting)?;
        self.function = number;
        self.block = 0;
        self.at = 0;
        Ok(Next::Goes)
    }

    pub fn call(
        &mut self,
        alloc: Global,
        file: &CFile,
        into: Option<u64>,
        number: u64,
        xs: &[COperand],
    ) -> Result<Next, NoMem>
        requires at { self.old.at + 1 < 2 ^ 64 }
        requires ok { MachineOk self.old }
        ensures ok { IfOk result (λ _. MachineOk self.new) }
        ensures step { IfOk result (λ next. IsStep (core_of self.old) (calls (core_of self.old) into number (operands (core_of self.old).vars xs.now) (slice_get file.now.functions number)) next (core_of self.new)) }
    {
        if any_unset(&self.vars, xs) {
            return Ok(Next::Stuck(StuckReason::Unset));
        }
        match function_at(file, number) {
            None => Ok(Next::Stuck(StuckReason::Outside)),
            Some(function) => self.enter(alloc, into, number, xs, function),
        }
    }

    pub fn call_fn(
        &mut self,
        alloc: Global,
        file: &CFile,
        into: Option<u64>,
        gives: Option<CType>,
        params: &[CType],
        called: Val,
        xs: &[COperand],
    ) -> Result<Next, NoMem>
        requires at { self.old.at + 1 < 2 ^ 64 }
        requires ok { MachineOk self.old }
        ensures ok { IfOk result (λ _. MachineOk self.new) }
        ensures step { IfOk result (λ next. IsStep (core_of self.old) (calls_fn file.now.functions (core_of self.old) into gives params.now (erase called) (operands (core_of self.old).vars xs.now)) next (core_of self.new)) }
    {
        if is_unset(called) || any_unset(&self.vars, xs) {
            return Ok(Next::Stuck(StuckReason::Unset));
        }
        match fun_in(called) {
            None => Ok(Next::Stuck(StuckReason::Signature)),
            Some(number) => self.enter_as(alloc, file, into, gives, params, number, xs),
        }
    }

    // A call of a function that is to have this signature.
    fn enter_as(
        &mut self,
        alloc: Global,
        file: &CFile,
        into: Option<u64>,
        gives: Option<CType>,
        params: &[CType],
        number: u64,
        xs: &[COperand],
    ) -> Result<Next, NoMem>
        requires at { self.old.at + 1 < 2 ^ 64 }
        requires ok { MachineOk self.old }
        ensures ok { IfOk result (λ _. MachineOk self.new) }
        ensures step { IfOk result (λ next. IsStep (core_of self.old) (enters_as (core_of self.old) into gives params.now number (operands (core_of self.old).vars xs.now) (slice_get file.now.functions number)) next (core_of self.new)) }
    {
        match function_at(file, number) {
            None => Ok(Next::Stuck(StuckReason::Signature)),
            Some(function) => {
                if same_result(function.result, gives)
                    && same_types(function.params.as_slice(), params)
                {
                    self.enter(alloc, into, number, xs, function)
                } else {
                    Ok(Next::Stuck(StuckReason::Signature))
                }
            }
        }
    }

    fn back_to(&mut self, value: Val) -> Next
        requires ok { MachineOk self.old }
        requires value { ValOk self.old.heap value }
        ensures ok { MachineOk self.new }
        ensures step { IsStep (core_of self.old) (goes_back (core_of self.old) (erase value) (last_of (core_of self.old).callers)) result (core_of self.new) }
    {
        match pop_caller(&mut self.callers) {
            Some(waiting) => {
                let Frame {
                    function,
                    block,
                    at,
                    vars,
                    into,
                } = waiting;
                self.vars = taken_by(vars, into, value);
                self.function = function;
                self.block = block;
                self.at = at;
                Next::Goes
            }
            None => self.ended(value),
        }
    }

    // Out of the first call, which ends the run.
    fn ended(&mut self, value: Val) -> Next
        requires ok { MachineOk self.old }
        ensures ok { MachineOk self.new }
        ensures step { IsStep (core_of self.old) (ends (core_of self.old) (erase value)) result (core_of self.new) }
    {
        match word_in(value) {
            Some(word) => {
                self.vars.clear();
                Next::Ends(Outcome::Returned(word))
            }
            None => Next::Stuck(StuckReason::Unset),
        }
    }

    fn back_with(&mut self, value: Val) -> Next
        requires ok { MachineOk self.old }
        requires value { ValOk self.old.heap value }
        ensures ok { MachineOk self.new }
        ensures step { IsStep (core_of self.old) (goes_back_with (core_of self.old) (erase value)) result (core_of self.new) }
    {
        if is_unset(value) {
            return Next::Stuck(StuckReason::Unset);
        }
        self.back_to(value)
    }

    pub fn give_back(&mut self, x: &Option<COperand>) -> Next
        requires ok { MachineOk self.old }
        ensures ok { MachineOk self.new }
        ensures step { IsStep (core_of self.old) (gives_back (core_of self.old) x.now) result (core_of self.new) }
    {
        match x {
            None => self.back_to(Val::Unset),
            Some(x) => {
                let value = self.value(x);
                self.back_with(value)
            }
        }
    }

    #[inline(always)]
    pub fn goes_to(&mut self, block: u64) -> Next
        requires ok { MachineOk self.old }
        ensures ok { MachineOk self.new }
        ensures step { IsStep (core_of self.old) (goes_to_block (core_of self.old) block) result (core_of self.new) }
    {
        self.block = block;
        self.at = 0;
        Next::Goes
    }

    #[inline(always)]
    pub fn branch(&mut self, test: Val, there: u64, elsewhere: u64) -> Next
        requires ok { MachineOk self.old }
        ensures ok { MachineOk self.new }
        ensures step { IsStep (core_of self.old) (branches (core_of self.old) (erase test) there elsewhere) result (core_of self.new) }
    {
        match flag_in(test) {
            Some(true) => self.goes_to(there),
            Some(false) => self.goes_to(elsewhere),
            None => Next::Stuck(StuckReason::Unset),
        }
    }
}
