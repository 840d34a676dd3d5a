// Blocks that are made and freed.
ghost use Rattle.std.specs.Prelude.{◌≡◌, ◌+◌, ◌<◌, ◌^◌, IfOk};
ghost use Rattle.csub_tree.specs.Statement.{new_block as makes, new_array as makes_array, new_items as makes_items, free as frees};
ghost use Rattle.csub_runner.specs.Erased.{erase};
ghost use Rattle.csub_runner.specs.Heap.{ValOk};
ghost use Rattle.csub_runner.specs.Core.{core_of, MachineOk, IsStep};

use crate::heap::put;
use crate::machine::{Machine, Next};
use crate::shape::{Shape, size_of};
use crate::val::{Val, word_in};
use csub_tree::StuckReason;
use rpy_base::NoMem;
use std::alloc::Global;

impl Machine {
    pub fn new_block(
        &mut self,
        alloc: Global,
        shapes: &Vec<Shape>,
        a: u64,
        kind: u64,
        items: u64,
    ) -> Result<Next, NoMem>
        requires at { self.old.at + 1 < 2 ^ 64 }
        requires ok { MachineOk self.old }
        ensures ok { IfOk result (λ _. MachineOk self.new) }
        ensures step { IfOk result (λ next. IsStep (core_of self.old) (makes (core_of self.old) shapes.now.items a kind items) next (core_of self.new)) }
    {
        let number = self.heap.made();
        if number >= MOST_BLOCKS {
            return Err(NoMem);
        }
        let fields = size_of(shapes, kind);
        let Some(cells) = fields.checked_add(items) else {
            return Err(NoMem);
        };
        let ptr = self.heap.make(alloc, kind, fields, items)?;
        put(&mut self.vars, a, Val::Ptr(ptr));
        self.at += 1;
        Ok(Next::Made(number, kind, cells))
    }

    pub fn new_array(
        &mut self,
        alloc: Global,
        shapes: &Vec<Shape>,
        a: u64,
        kind: u64,
        count: Val,
    ) -> Result<Next, NoMem>
        requires at { self.old.at + 1 < 2 ^ 64 }
        requires ok { MachineOk self.old }
        ensures ok { IfOk result (λ _. MachineOk self.new) }
        ensures step { IfOk result (λ next. IsStep (core_of self.old) (makes_array (core_of self.old) shapes.now.items a kind (erase count)) next (core_of self.new)) }
    {
        match word_in(count) {
            None => Ok(Next::Stuck(StuckReason::Unset)),
            Some(count) => self.new_items(alloc, shapes, a, kind, count),
        }
    }

    fn new_items(
        &mut self,
        alloc: Global,
        shapes: &Vec<Shape>,
        a: u64,
        kind: u64,
        count: i64,
    ) -> Result<Next, NoMem>
        requires at { self.old.at + 1 < 2 ^ 64 }
        requires ok { MachineOk self.old }
        ensures ok { IfOk result (λ _. MachineOk self.new) }
        ensures step { IfOk result (λ next. IsStep (core_of self.old) (makes_items (core_of self.old) shapes.now.items a kind count) next (core_of self.new)) }
    {
        if count < 0 {
            return Ok(Next::Stuck(StuckReason::Length));
        }
        self.new_block(alloc, shapes, a, kind, count as u64)
    }

    pub fn free(&mut self, pointer: Val) -> Next
        requires at { self.old.at + 1 < 2 ^ 64 }
        requires ok { MachineOk self.old }
        requires pointer { ValOk self.old.heap pointer }
        ensures ok { MachineOk self.new }
        ensures step { IsStep (core_of self.old) (frees (core_of self.old) (erase pointer)) result (core_of self.new) }
    {
        match pointer {
            Val::Unset => Next::Stuck(StuckReason::Unset),
            Val::Ptr(ptr) => {
                if self.heap.free(ptr) {
                    self.at += 1;
                    Next::Freed(ptr.number)
                } else {
                    Next::Stuck(StuckReason::BadFree)
                }
            }
            Val::Word(_) | Val::Byte(_) | Val::Flag(_) | Val::Fun(_) | Val::Null | Val::Static(_) =>
                { Next::Stuck(StuckReason::BadFree) }
        }
    }
}

const MOST_BLOCKS: u64 = 1 << 62;
