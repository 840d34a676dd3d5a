// Statics.
ghost use Rattle.std.specs.Prelude.{◌≡◌, suc, Some};
ghost use Rattle.csub_tree.specs.Checked as spec;
ghost use Rattle.csub_tree.specs.Levels as level;

use crate::check::operands::is_of;
use crate::tree::{CCell, CFile, CStatic, CStruct, CType};

fn is_plain(file: &CFile, n: u64, kind: CType, cell: &CCell) -> bool
    ensures { result ≡ spec.is_plain file.now n kind (spec.plain_cell cell.now) }
{
    match cell {
        CCell::Const(constant) => is_of(file, n, kind, *constant),
        CCell::Braces(_) => false,
    }
}

fn all_plain(file: &CFile, n: u64, kind: CType, cells: &[CCell]) -> bool
    ensures { result ≡ spec.all_plain file.now n kind (spec.plain_cells cells.now) }
{
    for cell in cells {
        if !is_plain(file, n, kind, cell) {
            return false;
        }
    }
    true
}

fn braced_ok(file: &CFile, n: u64, kind: CType, cell: &CCell) -> bool
    ensures { result ≡ spec.items_ok file.now n (Some kind) (spec.then_cell (spec.plain_cell cell.now) spec.end) }
{
    match cell {
        CCell::Const(_) => false,
        CCell::Braces(listed) => all_plain(file, n, kind, listed.as_slice()),
    }
}

fn listed_ok(file: &CFile, n: u64, kind: CType, cells: &[CCell]) -> bool
    ensures { result ≡ spec.items_ok file.now n (Some kind) (spec.plain_cells cells.now) }
{
    match cells {
        [] => false,
        [cell] => braced_ok(file, n, kind, cell),
        [_, _, ..] => false,
    }
}

fn items_ok(file: &CFile, n: u64, items: Option<CType>, cells: &[CCell]) -> bool
    ensures { result ≡ spec.items_ok file.now n items (spec.plain_cells cells.now) }
{
    match items {
        None => match cells {
            [] => true,
            [_, ..] => false,
        },
        Some(kind) => listed_ok(file, n, kind, cells),
    }
}

// A constant for each field, and then the items.
fn fields_ok(file: &CFile, n: u64, kinds: &[CType], items: Option<CType>, cells: &[CCell]) -> bool
    ensures { result ≡ spec.fields_ok file.now n kinds.now items (spec.plain_cells cells.now) }
{
    for i in 0..kinds.len() {
        if i >= cells.len() || !is_plain(file, n, kinds[i], &cells[i]) {
            return false;
        }
    }
    items_ok(file, n, items, &cells[kinds.len()..])
}

fn own_fields_ok(file: &CFile, n: u64, item: &CStruct, cells: &[CCell]) -> bool
    ensures { result ≡ spec.fields_ok file.now n item.now.fields item.now.items (spec.plain_cells cells.now) }
{
    fields_ok(file, n, item.fields.as_slice(), item.items, cells)
}

fn is_braced(cell: &CCell) -> bool
    ensures { result ≡ level.is_braced (spec.plain_cell cell.now) }
{
    match cell {
        CCell::Const(_) => false,
        CCell::Braces(_) => true,
    }
}

// With a base, its cells come first, in braces.
fn own_ok(file: &CFile, n: u64, item: &CStruct, cells: &[CCell]) -> bool
    ensures { result ≡ level.own_ok file.now n item.now item.now.base (spec.plain_cells cells.now) }
{
    match item.base {
        None => own_fields_ok(file, n, item, cells),
        Some(_) => match cells {
            [] => false,
            [first, own @ ..] => is_braced(first) && own_fields_ok(file, n, item, own),
        },
    }
}

fn cells_in(cell: &CCell) -> &[CCell]
    ensures { spec.plain_cells result.now ≡ level.cells_in (spec.plain_cell cell.now) }
{
    match cell {
        CCell::Const(_) => &[],
        CCell::Braces(cells) => cells.as_slice(),
    }
}

fn base_cells(cells: &[CCell]) -> &[CCell]
    ensures { spec.plain_cells result.now ≡ level.base_cells (spec.plain_cells cells.now) }
{
    match cells {
        [] => cells,
        [first, ..] => cells_in(first),
    }
}

fn without_base_ok(file: &CFile, n: u64, kind: u64, cells: &[CCell]) -> bool
    ensures { result ≡ spec.cells_within file.now n 1 kind (spec.plain_cells cells.now) }
{
    let Some(item) = file.structs.get(kind as usize) else {
        return false;
    };
    match item.base {
        None => own_ok(file, n, item, cells),
        Some(_) => false,
    }
}

// A struct and then its base, as often as there can be one.
fn cells_within(file: &CFile, n: u64, kind: u64, cells: &[CCell]) -> bool
    ensures { result ≡ spec.cells_within file.now n (suc kind) kind (spec.plain_cells cells.now) }
{
    let mut at = kind;
    let mut rest = cells;
    for _i in 0..kind {
        let Some(item) = file.structs.get(at as usize) else {
            return false;
        };
        if !own_ok(file, n, item, rest) {
            return false;
        }
        match item.base {
            None => return true,
            Some(base) => {
                at = base;
                rest = base_cells(rest);
            }
        }
    }
    without_base_ok(file, n, at, rest)
}

pub fn static_ok(file: &CFile, n: u64, item: &CStatic) -> bool
    ensures { result ≡ spec.static_ok file.now n item.now }
{
    cells_within(file, n, item.kind, item.cells.as_slice())
}
