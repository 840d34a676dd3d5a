// Steps, exception slots, arguments, output, and ends of a run.
ghost use Rattle.std.specs.Prelude.{◌≡◌, ◌+◌, ◌<◌, ◌^◌, IfOk};
ghost use Rattle.csub_tree.specs.Statement.{pay as pays, exc_set as sets_exc, exc_clear as clears_exc, arg_len as gets_arg_len, arg as gets_arg, put_byte as puts_byte, fail as fails, fail_name_of, raised as raises};
ghost use Rattle.csub_runner.specs.Erased.{erase};
ghost use Rattle.csub_runner.specs.Heap.{ValOk};
ghost use Rattle.csub_runner.specs.Core.{core_of, MachineOk, IsStep};

use crate::machine::{Machine, Next};
use crate::outside::{argument, argument_byte, bytes_in, fail_name};
use crate::shape::Shape;
use crate::val::{Val, is_unset, word_in};
use csub_tree::{CType, StuckReason};
use rpy_base::{NoMem, Outcome, Text};
use std::alloc::Global;

impl Machine {
    pub fn pay(&mut self, cost: Val) -> Next
        requires at { self.old.at + 1 < 2 ^ 64 }
        requires ok { MachineOk self.old }
        ensures ok { MachineOk self.new }
        ensures step { IsStep (core_of self.old) (pays (core_of self.old) (erase cost)) result (core_of self.new) }
    {
        match word_in(cost) {
            None => Next::Stuck(StuckReason::Unset),
            Some(cost) => {
                if cost < 0 {
                    Next::Stuck(StuckReason::Cost)
                } else if cost as u64 <= self.steps {
                    self.steps -= cost as u64;
                    self.at += 1;
                    Next::Goes
                } else {
                    Next::Ends(Outcome::Running)
                }
            }
        }
    }

    pub fn exc_set(&mut self, kind: Val, value: Val) -> Next
        requires at { self.old.at + 1 < 2 ^ 64 }
        requires ok { MachineOk self.old }
        requires kind { ValOk self.old.heap kind }
        requires value { ValOk self.old.heap value }
        ensures ok { MachineOk self.new }
        ensures step { IsStep (core_of self.old) (sets_exc (core_of self.old) (erase kind) (erase value)) result (core_of self.new) }
    {
        if is_unset(kind) || is_unset(value) {
            return Next::Stuck(StuckReason::Unset);
        }
        self.exc_type = kind;
        self.exc_value = value;
        self.at += 1;
        Next::Goes
    }

    pub fn exc_clear(&mut self) -> Next
        requires at { self.old.at + 1 < 2 ^ 64 }
        requires ok { MachineOk self.old }
        ensures ok { MachineOk self.new }
        ensures step { IsStep (core_of self.old) (clears_exc (core_of self.old)) result (core_of self.new) }
    {
        self.exc_type = Val::Null;
        self.exc_value = Val::Null;
        self.at += 1;
        Next::Goes
    }

    pub fn arg_len(&mut self, args: &[Text], a: u64, i: Val) -> Next
        requires at { self.old.at + 1 < 2 ^ 64 }
        requires ok { MachineOk self.old }
        ensures ok { MachineOk self.new }
        ensures step { IsStep (core_of self.old) (gets_arg_len (core_of self.old) args.now a (erase i)) result (core_of self.new) }
    {
        let Some(i) = word_in(i) else {
            return Next::Stuck(StuckReason::Unset);
        };
        match argument(args, i) {
            Some(text) => self.assign(a, Val::Word(text.bytes().len() as i64)),
            None => Next::Stuck(StuckReason::Argument),
        }
    }

    pub fn arg(&mut self, args: &[Text], a: u64, i: Val, j: Val) -> Next
        requires at { self.old.at + 1 < 2 ^ 64 }
        requires ok { MachineOk self.old }
        ensures ok { MachineOk self.new }
        ensures step { IsStep (core_of self.old) (gets_arg (core_of self.old) args.now a (erase i) (erase j)) result (core_of self.new) }
    {
        let Some(i) = word_in(i) else {
            return Next::Stuck(StuckReason::Unset);
        };
        let Some(j) = word_in(j) else {
            return Next::Stuck(StuckReason::Unset);
        };
        let Some(text) = argument(args, i) else {
            return Next::Stuck(StuckReason::Argument);
        };
        match argument_byte(text, j) {
            Some(byte) => self.assign(a, Val::Word(byte as i64)),
            None => Next::Stuck(StuckReason::Argument),
        }
    }

    pub fn put_byte(&mut self, x: Val) -> Next
        requires at { self.old.at + 1 < 2 ^ 64 }
        requires ok { MachineOk self.old }
        ensures ok { MachineOk self.new }
        ensures step { IsStep (core_of self.old) (puts_byte (core_of self.old) (erase x)) result (core_of self.new) }
    {
        match word_in(x) {
            None => Next::Stuck(StuckReason::Unset),
            Some(byte) => {
                if byte < 0 || 255 < byte {
                    return Next::Stuck(StuckReason::Word);
                }
                self.at += 1;
                Next::Puts(byte as u8)
            }
        }
    }

    pub fn fail(&mut self, number: u32) -> Next
        requires ok { MachineOk self.old }
        ensures ok { MachineOk self.new }
        ensures step { IsStep (core_of self.old) (fails (core_of self.old) (fail_name_of number)) result (core_of self.new) }
    {
        match fail_name(number) {
            Some(name) => Next::Ends(Outcome::Failed(name)),
            None => Next::Stuck(StuckReason::Outside),
        }
    }

    pub fn raised(
        &mut self,
        alloc: Global,
        shapes: &Vec<Shape>,
        kind: Option<CType>,
        pointer: Val,
    ) -> Result<Next, NoMem>
        requires ok { MachineOk self.old }
        requires pointer { ValOk self.old.heap pointer }
        ensures ok { IfOk result (λ _. MachineOk self.new) }
        ensures step { IfOk result (λ next. IsStep (core_of self.old) (raises (core_of self.old) shapes.now.items kind (erase pointer)) next (core_of self.new)) }
    {
        let Some(CType::Ptr(kind)) = kind else {
            return Ok(Next::Stuck(StuckReason::Outside));
        };
        match self.reached(shapes, kind, pointer) {
            Err(reason) => Ok(Next::Stuck(reason)),
            Ok(cells) => match bytes_in(alloc, &cells.elements)? {
                Some(name) => Ok(Next::Ends(Outcome::Raised(name))),
                None => Ok(Next::Stuck(StuckReason::Unset)),
            },
        }
    }
}
