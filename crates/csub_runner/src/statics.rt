// Writes to statics.
ghost use Rattle.std.specs.Prelude.{◌≡◌, map, All, slice_get};
ghost use Rattle.std.specs.Option.{option_copied};
ghost use Rattle.csub_runner.specs.Erased.{erase, erase_cells};
ghost use Rattle.csub_runner.specs.Heap.{ValOk, CellsOk, with_field, with_item, at_static};
ghost use Rattle.csub_runner.specs.declared.heap.Heap.{Heap};

use crate::heap::put;
use crate::val::{Cells, Val};

/// The static of a number.
pub fn static_at(statics: &Vec<Cells>, number: u64) -> Option<&Cells>
    ensures { option_copied result ≡ slice_get statics.now.items number }
{
    statics.get(number as usize)
}

pub fn put_static_field(statics: &mut Vec<Cells>, number: u64, at: u64, value: Val)
    ensures is { map erase_cells statics.new.items ≡ at_static (with_field at (erase value)) number (map erase_cells statics.old.items) }
    ensures ok { (h : Heap) → ValOk h value → All (CellsOk h) statics.old.items → All (CellsOk h) statics.new.items }
{
    if (number as usize) < statics.len() {
        put(&mut statics[number as usize].fields, at, value);
    }
}

pub fn put_static_item(statics: &mut Vec<Cells>, number: u64, at: u64, value: Val)
    ensures is { map erase_cells statics.new.items ≡ at_static (with_item at (erase value)) number (map erase_cells statics.old.items) }
    ensures ok { (h : Heap) → ValOk h value → All (CellsOk h) statics.old.items → All (CellsOk h) statics.new.items }
{
    if (number as usize) < statics.len() {
        put(&mut statics[number as usize].elements, at, value);
    }
}
