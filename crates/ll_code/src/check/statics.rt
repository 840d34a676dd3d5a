// Statics.
ghost use Rattle.std.specs.Prelude.{◌≡◌, suc, Some};
ghost use Rattle.csub_tree.specs.Checked.{plain_cell, plain_cells, then_cell, end};
ghost use Rattle.csub_tree.specs.Levels.{is_braced as is_braced_cell, cells_in as cells_inside, base_cells as cells_of_base};
ghost use Rattle.ll_code.specs.Typed as spec;
ghost use Rattle.ll_code.specs.Levels as level;

use crate::check::operands::is_of;
use crate::program::{LlProgram, LlStatic, LlStruct, LlType};
use csub_tree::CCell;

fn is_plain(program: &LlProgram, n: u64, kind: LlType, cell: &CCell) -> bool
    ensures { result ≡ spec.is_plain program.now n kind (plain_cell cell.now) }
{
    match cell {
        CCell::Const(constant) => is_of(program, n, kind, *constant),
        CCell::Braces(_) => false,
    }
}

fn all_plain(program: &LlProgram, n: u64, kind: LlType, cells: &[CCell]) -> bool
    ensures { result ≡ spec.all_plain program.now n kind (plain_cells cells.now) }
{
    for cell in cells {
        if !is_plain(program, n, kind, cell) {
            return false;
        }
    }
    true
}

fn braced_ok(program: &LlProgram, n: u64, kind: LlType, cell: &CCell) -> bool
    ensures { result ≡ spec.items_ok program.now n (Some kind) (then_cell (plain_cell cell.now) end) }
{
    match cell {
        CCell::Const(_) => false,
        CCell::Braces(listed) => all_plain(program, n, kind, listed.as_slice()),
    }
}

fn listed_ok(program: &LlProgram, n: u64, kind: LlType, cells: &[CCell]) -> bool
    ensures { result ≡ spec.items_ok program.now n (Some kind) (plain_cells cells.now) }
{
    match cells {
        [] => false,
        [cell] => braced_ok(program, n, kind, cell),
        [_, _, ..] => false,
    }
}

fn items_ok(program: &LlProgram, n: u64, items: Option<LlType>, cells: &[CCell]) -> bool
    ensures { result ≡ spec.items_ok program.now n items (plain_cells cells.now) }
{
    match items {
        None => match cells {
            [] => true,
            [_, ..] => false,
        },
        Some(kind) => listed_ok(program, n, kind, cells),
    }
}

// A constant for each field, and then the items.
fn fields_ok(
    program: &LlProgram,
    n: u64,
    kinds: &[LlType],
    items: Option<LlType>,
    cells: &[CCell],
) -> bool
    ensures { result ≡ spec.fields_ok program.now n kinds.now items (plain_cells cells.now) }
{
    for i in 0..kinds.len() {
        if i >= cells.len() || !is_plain(program, n, kinds[i], &cells[i]) {
            return false;
        }
    }
    items_ok(program, n, items, &cells[kinds.len()..])
}

fn own_fields_ok(program: &LlProgram, n: u64, item: &LlStruct, cells: &[CCell]) -> bool
    ensures { result ≡ spec.fields_ok program.now n item.now.fields item.now.items (plain_cells cells.now) }
{
    fields_ok(program, n, item.fields.as_slice(), item.items, cells)
}

fn is_braced(cell: &CCell) -> bool
    ensures { result ≡ is_braced_cell (plain_cell cell.now) }
{
    match cell {
        CCell::Const(_) => false,
        CCell::Braces(_) => true,
    }
}

// With a base, its cells come first, in braces.
fn own_ok(program: &LlProgram, n: u64, item: &LlStruct, cells: &[CCell]) -> bool
    ensures { result ≡ level.own_ok program.now n item.now item.now.base (plain_cells cells.now) }
{
    match item.base {
        None => own_fields_ok(program, n, item, cells),
        Some(_) => match cells {
            [] => false,
            [first, own @ ..] => is_braced(first) && own_fields_ok(program, n, item, own),
        },
    }
}

fn cells_in(cell: &CCell) -> &[CCell]
    ensures { plain_cells result.now ≡ cells_inside (plain_cell cell.now) }
{
    match cell {
        CCell::Const(_) => &[],
        CCell::Braces(cells) => cells.as_slice(),
    }
}

fn base_cells(cells: &[CCell]) -> &[CCell]
    ensures { plain_cells result.now ≡ cells_of_base (plain_cells cells.now) }
{
    match cells {
        [] => cells,
        [first, ..] => cells_in(first),
    }
}

fn without_base_ok(program: &LlProgram, n: u64, kind: u64, cells: &[CCell]) -> bool
    ensures { result ≡ spec.cells_within program.now n 1 kind (plain_cells cells.now) }
{
    let Some(item) = program.structs.get(kind as usize) else {
        return false;
    };
    match item.base {
        None => own_ok(program, n, item, cells),
        Some(_) => false,
    }
}

// A struct and then its base, as often as there can be one.
fn cells_within(program: &LlProgram, n: u64, kind: u64, cells: &[CCell]) -> bool
    ensures { result ≡ spec.cells_within program.now n (suc kind) kind (plain_cells cells.now) }
{
    let mut at = kind;
    let mut rest = cells;
    for _i in 0..kind {
        let Some(item) = program.structs.get(at as usize) else {
            return false;
        };
        if !own_ok(program, n, item, rest) {
            return false;
        }
        match item.base {
            None => return true,
            Some(base) => {
                at = base;
                rest = base_cells(rest);
            }
        }
    }
    without_base_ok(program, n, at, rest)
}

fn static_ok(program: &LlProgram, n: u64, item: &LlStatic) -> bool
    ensures { result ≡ spec.static_ok program.now n item.now }
{
    cells_within(program, n, item.kind, item.cells.as_slice())
}

pub fn statics_ok(program: &LlProgram, statics: &[LlStatic]) -> bool
    ensures { result ≡ spec.statics_ok program.now 0 statics.now }
{
    for i in 0..statics.len() {
        if !static_ok(program, i as u64, &statics[i]) {
            return false;
        }
    }
    true
}
