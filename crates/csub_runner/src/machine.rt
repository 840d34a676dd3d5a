// The machine's state, what it reads, and how a variable takes a value.
ghost use Rattle.std.specs.Prelude.{◌≡◌, ◌+◌, ◌<◌, ◌^◌, ℕ, Ok, Err, IfOk, IfErr, IfSome, option_map, replicate, map, All, [], length};
ghost use Rattle.std.specs.Option.{option_copied};
ghost use Rattle.csub_tree.specs.State.{Value as ValueOf};
ghost use Rattle.csub_tree.specs.Statement.{read as read_value, operand as operand_value, block_at as block_of, reached as reaches, onward as goes_onward, assigned, set as sets, answered, unary as unary_does, binary as binary_does};
ghost use Rattle.csub_runner.specs.Erased.{erase, erase_cells, erase_answer};
ghost use Rattle.csub_runner.specs.Heap.{ValOk, CellsOk};
ghost use Rattle.csub_runner.specs.Core.{core_of, MachineOk, IsStep, new_core};
ghost use Rattle.csub_runner.specs.declared.heap.Heap.{Heap};

use crate::heap::{Heap, put, unset_values};
use crate::operation::{binary, unary};
use crate::shape::{Shape, begins_with};
use crate::statics::static_at;
use crate::val::{Cells, Frame, Val, is_unset, operand, read};
use csub_tree::{CBinary, COperand, CUnary, StuckReason};
use rpy_base::{NoMem, Outcome};
use std::alloc::Global;

/// What a statement leads to.
#[derive(Drop)]
pub enum Next {
    Goes,
    Puts(u8),
    Made(u64, u64, u64),
    Freed(u64),
    Ends(Outcome),
    Stuck(StuckReason),
}

/// The function that runs, its label and place there, and its variables; who waits; the blocks, the
/// statics and the two exception slots; the steps left.
#[derive(Drop)]
pub struct Machine {
    pub function: u64,
    pub block: u64,
    pub at: u64,
    pub vars: Vec<Val>,
    pub callers: Vec<Frame>,
    pub heap: Heap,
    pub statics: Vec<Cells>,
    pub exc_type: Val,
    pub exc_value: Val,
    pub steps: u64,
}

impl Machine {
    /// At the start of a function with so many variables, with no block.
    pub fn new(
        alloc: Global,
        function: u64,
        locals: u64,
        statics: Vec<Cells>,
        steps: u64,
    ) -> Result<Machine, NoMem>
        requires { (h : Heap) → All (CellsOk h) statics.items }
        ensures ok { IfOk result MachineOk }
        ensures core { IfOk result (λ machine. core_of machine ≡ new_core function locals (map erase_cells statics.items) steps) }
    {
        Ok(Machine {
            function,
            block: 0,
            at: 0,
            vars: unset_values(alloc, locals)?,
            callers: Vec::new(alloc),
            heap: Heap::new(alloc),
            statics,
            exc_type: Val::Null,
            exc_value: Val::Null,
            steps,
        })
    }

    #[inline(always)]
    pub fn variable(&self, a: u64) -> Val
        requires ok { MachineOk self.now }
        ensures is { erase result ≡ read_value (core_of self.now).vars a }
        ensures ok { ValOk self.now.heap result }
    {
        read(&self.vars, a)
    }

    #[inline(always)]
    pub fn value(&self, x: &COperand) -> Val
        requires ok { MachineOk self.now }
        ensures is { erase result ≡ operand_value (core_of self.now).vars x.now }
        ensures ok { ValOk self.now.heap result }
    {
        operand(&self.vars, x)
    }

    // The block or static that a pointer names, where it is there.
    #[inline(always)]
    fn block_at(&self, pointer: Val) -> Option<&Cells>
        requires ok { MachineOk self.now }
        requires pointer { ValOk self.now.heap pointer }
        ensures is { option_map erase_cells (option_copied result) ≡ block_of (core_of self.now) (erase pointer) }
        ensures ok { IfSome result (λ cells. CellsOk self.now.heap cells.now) }
    {
        match pointer {
            Val::Ptr(ptr) => self.heap.block(ptr),
            Val::Static(number) => static_at(&self.statics, number),
            Val::Unset | Val::Word(_) | Val::Byte(_) | Val::Flag(_) | Val::Fun(_) | Val::Null =>
                None,
        }
    }

    /// The block that a pointer names, seen as a struct.
    #[inline(always)]
    pub fn reached(
        &self,
        shapes: &Vec<Shape>,
        kind: u64,
        pointer: Val,
    ) -> Result<&Cells, StuckReason>
        requires ok { MachineOk self.now }
        requires pointer { ValOk self.now.heap pointer }
        ensures found { IfOk result (λ cells. Ok (erase_cells cells.now) ≡ reaches (core_of self.now) shapes.now.items kind (erase pointer)) }
        ensures stuck { IfErr result (λ reason. Err reason ≡ reaches (core_of self.now) shapes.now.items kind (erase pointer)) }
        ensures ok { IfOk result (λ cells. CellsOk self.now.heap cells.now) }
    {
        if is_unset(pointer) {
            return Err(StuckReason::Unset);
        }
        match self.block_at(pointer) {
            None => Err(StuckReason::Gone),
            Some(cells) => {
                if begins_with(shapes, cells.kind, kind) {
                    Ok(cells)
                } else {
                    Err(StuckReason::Kind)
                }
            }
        }
    }

    #[inline(always)]
    pub fn assign(&mut self, a: u64, value: Val) -> Next
        requires at { self.old.at + 1 < 2 ^ 64 }
        requires ok { MachineOk self.old }
        requires value { ValOk self.old.heap value }
        ensures ok { MachineOk self.new }
        ensures step { IsStep (core_of self.old) (assigned (core_of self.old) a (erase value)) result (core_of self.new) }
    {
        put(&mut self.vars, a, value);
        self.at += 1;
        Next::Goes
    }

    #[inline(always)]
    pub fn set(&mut self, a: u64, value: Val) -> Next
        requires at { self.old.at + 1 < 2 ^ 64 }
        requires ok { MachineOk self.old }
        requires value { ValOk self.old.heap value }
        ensures ok { MachineOk self.new }
        ensures step { IsStep (core_of self.old) (sets (core_of self.old) a (erase value)) result (core_of self.new) }
    {
        if is_unset(value) {
            return Next::Stuck(StuckReason::Unset);
        }
        self.assign(a, value)
    }

    #[inline(always)]
    fn answer(&mut self, a: u64, answer: Result<Val, StuckReason>) -> Next
        requires at { self.old.at + 1 < 2 ^ 64 }
        requires ok { MachineOk self.old }
        requires value { IfOk answer (ValOk self.old.heap) }
        ensures ok { MachineOk self.new }
        ensures step { IsStep (core_of self.old) (answered (core_of self.old) a (erase_answer answer)) result (core_of self.new) }
    {
        match answer {
            Ok(value) => self.assign(a, value),
            Err(reason) => Next::Stuck(reason),
        }
    }

    pub fn unary(&mut self, a: u64, op: CUnary, x: Val) -> Next
        requires at { self.old.at + 1 < 2 ^ 64 }
        requires ok { MachineOk self.old }
        ensures ok { MachineOk self.new }
        ensures step { IsStep (core_of self.old) (unary_does (core_of self.old) a op (erase x)) result (core_of self.new) }
    {
        self.answer(a, unary(op, x))
    }

    #[inline(always)]
    pub fn binary(&mut self, a: u64, op: CBinary, x: Val, y: Val) -> Next
        requires at { self.old.at + 1 < 2 ^ 64 }
        requires ok { MachineOk self.old }
        ensures ok { MachineOk self.new }
        ensures step { IsStep (core_of self.old) (binary_does (core_of self.old) a op (erase x) (erase y)) result (core_of self.new) }
    {
        self.answer(a, binary(op, x, y))
    }
}
