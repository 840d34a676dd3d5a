// The blocks, in a slab. Contracts see them by number, whatever their keys are.
ghost use Rattle.std.specs.Prelude.{◌≡◌, ◌<◌, ◌^◌, ◌++◌, ◌∷◌, [], Option, slice_index_or, slice_set, replicate, option_map, IfOk, IfSome};
ghost use Rattle.std.specs.Option.{option_copied};
ghost use Rattle.csub_tree.specs.State.{Value};
ghost use Rattle.csub_runner.specs.Erased.{erase, erase_cells};
ghost use Rattle.csub_runner.specs.Heap.{IsSound, PtrOk, ValOk, CellsOk, blocks_of, Frees, IsLive, HasKind, with_field, with_item};
ghost use Rattle.csub_runner.specs.declared.val.Ptr.{Ptr};
ghost use Rattle.csub_runner.specs.declared.val.Val.{Val};

use crate::val::{Cells, Ptr, Val};
use rpy_base::NoMem;
use slab::Slab;
use std::alloc::Global;

/// A block with its number.
#[derive(Drop)]
pub struct Entry {
    number: u64,
    cells: Cells,
}

#[derive(Drop)]
pub struct Heap {
    slots: Slab<Entry>,
    made: u64,
}

impl Heap {
    pub fn new(alloc: Global) -> Heap
        ensures sound { IsSound result }
        ensures blocks { blocks_of result ≡ [] }
    {
        Heap {
            slots: Slab::new(alloc),
            made: 0,
        }
    }

    pub fn made(&self) -> u64
        ensures { result ≡ self.now.made }
    {
        self.made
    }

    /// A new block of unset cells, with the next number.
    pub fn make(
        &mut self,
        alloc: Global,
        kind: u64,
        fields: u64,
        elements: u64,
    ) -> Result<Ptr, NoMem>
        requires sound { IsSound self.old }
        requires few { self.old.made < 2 ^ 63 }
        ensures sound { IsSound self.new }
        ensures number { IfOk result (λ ptr. ptr.number ≡ self.old.made) }
        ensures blocks { IfOk result (λ ptr. blocks_of self.new ≡ blocks_of self.old ++ Option.Some (record { kind = kind; fields = replicate fields Value.Unset; items = replicate elements Value.Unset }) ∷ []) }
        ensures ptr { IfOk result (λ ptr. PtrOk self.new ptr) }
        ensures pointers { (p : Ptr) → PtrOk self.old p → PtrOk self.new p }
    {
        let number = self.made;
        let fields = unset_values(alloc, fields)?;
        let elements = unset_values(alloc, elements)?;
        let cells = Cells {
            kind,
            fields,
            elements,
        };
        let key = self.slots.insert(Entry { number, cells })?;
        self.made += 1;
        Ok(Ptr { key, number })
    }

    /// The block, where it is there still.
    #[inline(always)]
    pub fn block(&self, ptr: Ptr) -> Option<&Cells>
        requires sound { IsSound self.now }
        requires ptr { PtrOk self.now ptr }
        ensures is { option_map erase_cells (option_copied result) ≡ slice_index_or (blocks_of self.now) ptr.number Option.None }
        ensures ok { IfSome result (λ cells. CellsOk self.now cells.now) }
    {
        match self.slots.get(ptr.key) {
            Some(entry) => {
                if entry.number == ptr.number {
                    Some(&entry.cells)
                } else {
                    None
                }
            }
            None => None,
        }
    }

    /// Whether the block is there still and is of this very struct.
    #[inline(always)]
    pub fn has_kind(&self, ptr: Ptr, kind: u64) -> bool
        requires sound { IsSound self.now }
        requires ptr { PtrOk self.now ptr }
        ensures { HasKind result kind (slice_index_or (blocks_of self.now) ptr.number Option.None) }
    {
        match self.block(ptr) {
            Some(cells) => cells.kind == kind,
            None => false,
        }
    }

    /// Writes a field of a block, where the block is there still and has it.
    #[inline(always)]
    pub fn set_field(&mut self, ptr: Ptr, at: u64, value: Val)
        requires sound { IsSound self.old }
        requires ptr { PtrOk self.old ptr }
        requires value { ValOk self.old value }
        ensures sound { IsSound self.new }
        ensures blocks { blocks_of self.new ≡ slice_set (blocks_of self.old) ptr.number (option_map (with_field at (erase value)) (slice_index_or (blocks_of self.old) ptr.number Option.None)) }
        ensures pointers { (p : Ptr) → PtrOk self.old p → PtrOk self.new p }
    {
        if !self.is_live(ptr) {
            return;
        }
        match self.slots.get_mut(ptr.key) {
            Some(entry) => put(&mut entry.cells.fields, at, value),
            None => {}
        }
    }

    /// Writes an item of a block, where the block is there still and has it.
    pub fn set_item(&mut self, ptr: Ptr, at: u64, value: Val)
        requires sound { IsSound self.old }
        requires ptr { PtrOk self.old ptr }
        requires value { ValOk self.old value }
        ensures sound { IsSound self.new }
        ensures blocks { blocks_of self.new ≡ slice_set (blocks_of self.old) ptr.number (option_map (with_item at (erase value)) (slice_index_or (blocks_of self.old) ptr.number Option.None)) }
        ensures pointers { (p : Ptr) → PtrOk self.old p → PtrOk self.new p }
    {
        if !self.is_live(ptr) {
            return;
        }
        match self.slots.get_mut(ptr.key) {
            Some(entry) => put(&mut entry.cells.elements, at, value),
            None => {}
        }
    }

    // Whether the block is there still.
    #[inline(always)]
    fn is_live(&self, ptr: Ptr) -> bool
        requires { PtrOk self.now ptr }
        ensures { IsLive result self.now ptr }
    {
        match self.slots.get(ptr.key) {
            Some(entry) => entry.number == ptr.number,
            None => false,
        }
    }

    /// Frees the block, if it is there still; whether it was.
    pub fn free(&mut self, ptr: Ptr) -> bool
        requires sound { IsSound self.old }
        requires ptr { PtrOk self.old ptr }
        ensures sound { IsSound self.new }
        ensures blocks { Frees result ptr.number (slice_index_or (blocks_of self.old) ptr.number Option.None) (blocks_of self.old) (blocks_of self.new) }
        ensures pointers { (p : Ptr) → PtrOk self.old p → PtrOk self.new p }
    {
        if !self.is_live(ptr) {
            return false;
        }
        let _ = self.slots.try_remove(ptr.key);
        true
    }
}

pub fn unset_values(alloc: Global, count: u64) -> Result<Vec<Val>, NoMem>
    ensures { IfOk result (λ values. values.items ≡ replicate count Val.Unset) }
{
    let values = vec![in alloc; Val::Unset; count as usize]?;
    Ok(values)
}

/// Writes the value at a place, where there is one.
#[inline(always)]
pub fn put(values: &mut Vec<Val>, at: u64, value: Val)
    ensures { values.new.items ≡ slice_set values.old.items at value }
{
    if (at as usize) < values.len() {
        values[at as usize] = value;
    }
}
