// Structs, heads of functions, and statics.
ghost use Rattle.std.specs.Prelude.{◌≡◌, ◌+◌, ◌++◌, ◌<◌, ◌≤◌, ◌^◌, OnOk, IfOk, codes, take, drop, length, map, [], ◌∷◌};
ghost use Rattle.std.specs.List.{flat_map};
ghost use Rattle.std.specs.Fmt.{decimal};
ghost use Rattle.csub_tree.specs.Spelling.{before_name, numbered, listed, more, base_line, first_field, field_line, items_line, struct_text, parameter, more_parameter, parameters, head, prototype_text, static_text, cell_text, cells_text, line, inner_line};

use crate::names::{put_before_name, put_constant, put_name, put_result_before_name};
use csub_tree::{CCell, CPrototype, CStatic, CStruct, CType};
use rpy_base::{NoMem, Seq, Text};

fn put_base_line(text: &mut Text, base: Option<u64>) -> Result<(), NoMem>
    ensures { OnOk result (text.new ≡ text.old ++ base_line base) }
{
    match base {
        None => Ok(()),
        Some(m) => {
            put_name(text, b"    struct s", m)?;
            text.append(b" a0;\n")
        }
    }
}

fn put_field_line(text: &mut Text, k: u64, kind: CType) -> Result<(), NoMem>
    ensures { OnOk result (text.new ≡ text.old ++ field_line k kind) }
{
    text.append(b"    ")?;
    put_before_name(text, kind)?;
    put_name(text, b"a", k)?;
    text.append(b";\n")
}

fn put_field_lines(text: &mut Text, first: u64, kinds: &[CType]) -> Result<(), NoMem>
    requires { first ≤ 1 }
    ensures { OnOk result (text.new ≡ text.old ++ numbered field_line first kinds.now) }
{
    for i in 0..kinds.len() {
        put_field_line(text, first + i as u64, kinds[i])?;
    }
    Ok(())
}

fn put_items_line(text: &mut Text, items: Option<CType>) -> Result<(), NoMem>
    ensures { OnOk result (text.new ≡ text.old ++ items_line items) }
{
    match items {
        None => Ok(()),
        Some(kind) => {
            text.append(b"    ")?;
            put_before_name(text, kind)?;
            text.append(b"items[];\n")
        }
    }
}

fn first_of(base: Option<u64>) -> u64
    ensures value { result ≡ first_field base }
    ensures small { result ≤ 1 }
{
    match base {
        None => 0,
        Some(_) => 1,
    }
}

pub fn put_struct(text: &mut Text, n: u64, item: &CStruct) -> Result<(), NoMem>
    ensures { OnOk result (text.new ≡ text.old ++ struct_text n item.now) }
{
    put_name(text, b"struct s", n)?;
    text.append(b" {\n")?;
    put_base_line(text, item.base)?;
    put_field_lines(text, first_of(item.base), item.fields.as_slice())?;
    put_items_line(text, item.items)?;
    text.append(b"};\n")
}

pub fn put_parameter(text: &mut Text, k: u64, kind: CType) -> Result<(), NoMem>
    ensures { OnOk result (text.new ≡ text.old ++ parameter k kind) }
{
    put_before_name(text, kind)?;
    put_name(text, b"v", k)
}

fn put_more_parameter(text: &mut Text, k: u64, kind: CType) -> Result<(), NoMem>
    ensures { OnOk result (text.new ≡ text.old ++ more_parameter k kind) }
{
    text.append(b", ")?;
    put_parameter(text, k, kind)
}

fn put_more_parameters(text: &mut Text, kinds: &[CType]) -> Result<(), NoMem>
    ensures { OnOk result (text.new ≡ text.old ++ numbered more_parameter 1 kinds.now) }
{
    for i in 0..kinds.len() {
        put_more_parameter(text, 1 + i as u64, kinds[i])?;
    }
    Ok(())
}

fn put_parameters(text: &mut Text, kinds: &[CType]) -> Result<(), NoMem>
    ensures { OnOk result (text.new ≡ text.old ++ parameters kinds.now) }
{
    match kinds {
        [] => text.append(b"void"),
        [first, rest @ ..] => {
            put_parameter(text, 0, *first)?;
            put_more_parameters(text, rest)
        }
    }
}

pub fn put_head(
    text: &mut Text,
    n: u64,
    result_type: Option<CType>,
    kinds: &[CType],
) -> Result<(), NoMem>
    ensures { OnOk result (text.new ≡ text.old ++ head n result_type kinds.now) }
{
    text.append(b"static ")?;
    put_result_before_name(text, result_type)?;
    put_name(text, b"f", n)?;
    text.append(b"(")?;
    put_parameters(text, kinds)?;
    text.append(b")")
}

pub fn put_prototype(text: &mut Text, n: u64, prototype: &CPrototype) -> Result<(), NoMem>
    ensures { OnOk result (text.new ≡ text.old ++ prototype_text n prototype.now) }
{
    put_head(text, n, prototype.result, prototype.params.as_slice())?;
    text.append(b";\n")
}

#[cycle(cells)]
fn put_cell(text: &mut Text, cell: &CCell) -> Result<(), NoMem>
    ensures { OnOk result (text.new ≡ text.old ++ cell_text cell.now) }
{
    match cell {
        CCell::Const(constant) => put_constant(text, *constant),
        CCell::Braces(cells) => put_cells(text, cells.as_slice()),
    }
}

#[cycle(cells)]
fn put_more_cell(text: &mut Text, cell: &CCell) -> Result<(), NoMem>
    ensures { OnOk result (text.new ≡ text.old ++ more cell_text cell.now) }
{
    text.append(b", ")?;
    put_cell(text, cell)
}

#[cycle(cells)]
fn put_more_cells(text: &mut Text, cells: &[CCell]) -> Result<(), NoMem>
    ensures { OnOk result (text.new ≡ text.old ++ flat_map (more (λ text. text)) (map cell_text cells.now)) }
{
    for cell in cells {
        put_more_cell(text, cell)?;
    }
    Ok(())
}

#[cycle(cells)]
fn put_listed_cells(text: &mut Text, cells: &[CCell]) -> Result<(), NoMem>
    ensures { OnOk result (text.new ≡ text.old ++ listed (λ text. text) (map cell_text cells.now)) }
{
    match cells {
        [] => Ok(()),
        [first, rest @ ..] => {
            put_cell(text, first)?;
            put_more_cells(text, rest)
        }
    }
}

#[cycle(cells)]
fn put_cells(text: &mut Text, cells: &[CCell]) -> Result<(), NoMem>
    ensures { OnOk result (text.new ≡ text.old ++ cells_text (map cell_text cells.now)) }
{
    match cells {
        [] => text.append(b"{ }"),
        [_, ..] => {
            text.append(b"{ ")?;
            put_listed_cells(text, cells)?;
            text.append(b" }")
        }
    }
}

// `static struct s1 g2 = `, with what comes before the struct's number.
fn put_static_start(text: &mut Text, start: &[u8], kind: u64, n: u64) -> Result<(), NoMem>
    ensures { OnOk result (text.new ≡ text.old ++ (start.now ++ decimal kind ++ codes " g" ++ decimal n ++ codes " = ")) }
{
    put_name(text, start, kind)?;
    put_name(text, b" g", n)?;
    text.append(b" = ")
}

// The whole line, with what comes before the struct's number.
fn put_static_line(text: &mut Text, start: &[u8], n: u64, item: &CStatic) -> Result<(), NoMem>
    ensures { OnOk result (text.new ≡ text.old ++ (start.now ++ (decimal item.now.kind ++ codes " g" ++ decimal n ++ codes " = ") ++ (cells_text (map cell_text item.now.cells) ++ codes ";\n"))) }
{
    put_static_start(text, start, item.kind, n)?;
    put_cells(text, item.cells.as_slice())?;
    text.append(b";\n")
}

pub fn put_static(text: &mut Text, n: u64, item: &CStatic) -> Result<(), NoMem>
    ensures { OnOk result (text.new ≡ text.old ++ static_text n item.now) }
{
    put_static_line(text, b"static struct s", n, item)
}
