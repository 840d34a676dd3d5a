// Fields and items.
ghost use Rattle.std.specs.Prelude.{◌≡◌, ◌+◌, ◌<◌, ◌^◌, Some, length};
ghost use Rattle.csub_tree.specs.State.{Block};
ghost use Rattle.csub_tree.specs.Statement.{block_at, stored, get_field as gets_field, set_field as sets_field, get_item as gets_item, set_item as sets_item};
ghost use Rattle.csub_runner.specs.Erased.{erase};
ghost use Rattle.csub_runner.specs.Heap.{ValOk, with_field, with_item, index_at};
ghost use Rattle.csub_runner.specs.Core.{core_of, MachineOk, IsStep};

use crate::machine::{Machine, Next};
use crate::shape::{Shape, place};
use crate::statics::{put_static_field, put_static_item};
use crate::val::{Val, is_unset, read, word_in};
use csub_tree::StuckReason;

// The place of an item, where there is one of that index.
fn index_in(i: i64, items: &Vec<Val>) -> Option<u64>
    ensures { result ≡ index_at i (length items.now.items) }
{
    if i < 0 {
        return None;
    }
    let at = i as u64;
    if at < items.len() as u64 {
        Some(at)
    } else {
        None
    }
}

impl Machine {
    #[inline(always)]
    pub fn get_field(
        &mut self,
        shapes: &Vec<Shape>,
        a: u64,
        kind: u64,
        pointer: Val,
        k: u64,
    ) -> Next
        requires at { self.old.at + 1 < 2 ^ 64 }
        requires ok { MachineOk self.old }
        requires pointer { ValOk self.old.heap pointer }
        ensures ok { MachineOk self.new }
        ensures step { IsStep (core_of self.old) (gets_field (core_of self.old) shapes.now.items a kind (erase pointer) k) result (core_of self.new) }
    {
        let value = match self.reached(shapes, kind, pointer) {
            Ok(cells) => read(&cells.fields, place(shapes, kind, k, &cells.fields)),
            Err(reason) => return Next::Stuck(reason),
        };
        self.set(a, value)
    }

    // Writes a field of the block that a pointer names.
    #[inline(always)]
    fn store_field(&mut self, pointer: Val, at: u64, value: Val) -> Next
        requires at { self.old.at + 1 < 2 ^ 64 }
        requires ok { MachineOk self.old }
        requires pointer { ValOk self.old.heap pointer }
        requires value { ValOk self.old.heap value }
        ensures ok { MachineOk self.new }
        ensures step { (block : Block) → block_at (core_of self.old) (erase pointer) ≡ Some block → IsStep (core_of self.old) (stored (core_of self.old) (erase pointer) (with_field at (erase value) block)) result (core_of self.new) }
    {
        match pointer {
            Val::Ptr(ptr) => {
                self.heap.set_field(ptr, at, value);
                self.at += 1;
                Next::Goes
            }
            Val::Static(number) => {
                put_static_field(&mut self.statics, number, at, value);
                self.at += 1;
                Next::Goes
            }
            Val::Unset | Val::Word(_) | Val::Byte(_) | Val::Flag(_) | Val::Fun(_) | Val::Null => {
                Next::Stuck(StuckReason::Gone)
            }
        }
    }

    fn store_item(&mut self, pointer: Val, at: u64, value: Val) -> Next
        requires at { self.old.at + 1 < 2 ^ 64 }
        requires ok { MachineOk self.old }
        requires pointer { ValOk self.old.heap pointer }
        requires value { ValOk self.old.heap value }
        ensures ok { MachineOk self.new }
        ensures step { (block : Block) → block_at (core_of self.old) (erase pointer) ≡ Some block → IsStep (core_of self.old) (stored (core_of self.old) (erase pointer) (with_item at (erase value) block)) result (core_of self.new) }
    {
        match pointer {
            Val::Ptr(ptr) => {
                self.heap.set_item(ptr, at, value);
                self.at += 1;
                Next::Goes
            }
            Val::Static(number) => {
                put_static_item(&mut self.statics, number, at, value);
                self.at += 1;
                Next::Goes
            }
            Val::Unset | Val::Word(_) | Val::Byte(_) | Val::Flag(_) | Val::Fun(_) | Val::Null => {
                Next::Stuck(StuckReason::Gone)
            }
        }
    }

    #[inline(always)]
    pub fn set_field(
        &mut self,
        shapes: &Vec<Shape>,
        kind: u64,
        pointer: Val,
        k: u64,
        value: Val,
    ) -> Next
        requires at { self.old.at + 1 < 2 ^ 64 }
        requires ok { MachineOk self.old }
        requires pointer { ValOk self.old.heap pointer }
        requires value { ValOk self.old.heap value }
        ensures ok { MachineOk self.new }
        ensures step { IsStep (core_of self.old) (sets_field (core_of self.old) shapes.now.items kind (erase pointer) k (erase value)) result (core_of self.new) }
    {
        if is_unset(value) {
            return Next::Stuck(StuckReason::Unset);
        }
        let at = match self.reached(shapes, kind, pointer) {
            Ok(cells) => place(shapes, kind, k, &cells.fields),
            Err(reason) => return Next::Stuck(reason),
        };
        self.store_field(pointer, at, value)
    }

    pub fn get_item(
        &mut self,
        shapes: &Vec<Shape>,
        a: u64,
        kind: u64,
        pointer: Val,
        index: Val,
    ) -> Next
        requires at { self.old.at + 1 < 2 ^ 64 }
        requires ok { MachineOk self.old }
        requires pointer { ValOk self.old.heap pointer }
        ensures ok { MachineOk self.new }
        ensures step { IsStep (core_of self.old) (gets_item (core_of self.old) shapes.now.items a kind (erase pointer) (erase index)) result (core_of self.new) }
    {
        let Some(i) = word_in(index) else {
            return Next::Stuck(StuckReason::Unset);
        };
        let value = match self.reached(shapes, kind, pointer) {
            Ok(cells) => match index_in(i, &cells.elements) {
                Some(at) => read(&cells.elements, at),
                None => return Next::Stuck(StuckReason::Outside),
            },
            Err(reason) => return Next::Stuck(reason),
        };
        self.set(a, value)
    }

    pub fn set_item(
        &mut self,
        shapes: &Vec<Shape>,
        kind: u64,
        pointer: Val,
        index: Val,
        value: Val,
    ) -> Next
        requires at { self.old.at + 1 < 2 ^ 64 }
        requires ok { MachineOk self.old }
        requires pointer { ValOk self.old.heap pointer }
        requires value { ValOk self.old.heap value }
        ensures ok { MachineOk self.new }
        ensures step { IsStep (core_of self.old) (sets_item (core_of self.old) shapes.now.items kind (erase pointer) (erase index) (erase value)) result (core_of self.new) }
    {
        if is_unset(value) {
            return Next::Stuck(StuckReason::Unset);
        }
        let Some(i) = word_in(index) else {
            return Next::Stuck(StuckReason::Unset);
        };
        let at = match self.reached(shapes, kind, pointer) {
            Ok(cells) => match index_in(i, &cells.elements) {
                Some(at) => at,
                None => return Next::Stuck(StuckReason::Outside),
            },
            Err(reason) => return Next::Stuck(reason),
        };
        self.store_item(pointer, at, value)
    }
}
