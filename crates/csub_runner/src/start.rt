// The state in which a run begins.
ghost use Rattle.std.specs.Prelude.{◌≡◌, ◌≤◌, length, take, drop, map, All, IfOk};
ghost use Rattle.csub_tree.specs.Layout.{shapes_of, cell_constants, joined, static_values as static_list, static_block as static_as};
ghost use Rattle.csub_tree.specs.Machine.{start as starts};
ghost use Rattle.csub_runner.specs.Erased.{erase_cells, raw_constant};
ghost use Rattle.csub_runner.specs.Heap.{CellsOk};
ghost use Rattle.csub_runner.specs.Core.{core_of, MachineOk};
ghost use Rattle.csub_runner.specs.Parts.{IsPart};
ghost use Rattle.csub_runner.specs.declared.heap.Heap.{Heap};

use crate::code::locals_of;
use crate::machine::Machine;
use crate::shape::{Shape, size_of};
use crate::val::{Cells, Val, constant};
use csub_tree::{CCell, CConst, CFile, CStatic};
use rpy_base::NoMem;
use std::alloc::Global;

/// A cell, taken apart.
enum Part<'a> {
    Value(CConst),
    Parts(&'a [CCell]),
}

fn part_of(cell: &CCell) -> Part<'_>
    ensures { IsPart result cell.now }
{
    match cell {
        CCell::Const(value) => Part::Value(*value),
        CCell::Braces(parts) => Part::Parts(parts.as_slice()),
    }
}

fn behind_first(cells: &[CCell]) -> &[CCell]
    requires { 1 ≤ length cells.now }
    ensures { result.now ≡ drop 1 cells.now }
{
    &cells[1..]
}

// The constants of these cells in order, whatever the braces.
fn static_values(alloc: Global, cells: &[CCell]) -> Result<Vec<Val>, NoMem>
    ensures { IfOk result (λ values. values.items ≡ map raw_constant (joined (map cell_constants cells.now))) }
{
    let mut values = Vec::new(alloc);
    let mut waiting = Vec::new(alloc);
    waiting.push(cells)?;
    while let Some(cells) = waiting.pop() {
        if !cells.is_empty() {
            waiting.push(behind_first(cells))?;
            match part_of(&cells[0]) {
                Part::Value(value) => values.push(constant(value))?,
                Part::Parts(parts) => waiting.push(parts)?,
            }
        }
    }
    Ok(values)
}

// The values up to a place, and those from it on.
fn split(alloc: Global, values: &Vec<Val>, at: u64) -> Result<(Vec<Val>, Vec<Val>), NoMem>
    ensures first { IfOk result (λ parts. parts.0.items ≡ take at values.now.items) }
    ensures rest { IfOk result (λ parts. parts.1.items ≡ drop at values.now.items) }
{
    if at < values.len() as u64 {
        let first = Vec::from_slice(alloc, &values[..at as usize])?;
        let rest = Vec::from_slice(alloc, &values[at as usize..])?;
        return Ok((first, rest));
    }
    let all = Vec::from_slice(alloc, values.as_slice())?;
    Ok((all, Vec::new(alloc)))
}

fn static_block(alloc: Global, shapes: &Vec<Shape>, block: &CStatic) -> Result<Cells, NoMem>
    ensures ok { IfOk result (λ cells. (h : Heap) → CellsOk h cells) }
    ensures is { IfOk result (λ cells. erase_cells cells ≡ static_as shapes.now.items block.now) }
{
    let values = static_values(alloc, block.cells.as_slice())?;
    let (fields, elements) = split(alloc, &values, size_of(shapes, block.kind))?;
    Ok(Cells {
        kind: block.kind,
        fields,
        elements,
    })
}

fn static_blocks(
    alloc: Global,
    shapes: &Vec<Shape>,
    statics: &[CStatic],
) -> Result<Vec<Cells>, NoMem>
    ensures ok { IfOk result (λ blocks. (h : Heap) → All (CellsOk h) blocks.items) }
    ensures are { IfOk result (λ blocks. map erase_cells blocks.items ≡ map (static_as shapes.now.items) statics.now) }
{
    let mut blocks = Vec::new(alloc);
    for block in statics {
        let cells = static_block(alloc, shapes, block)?;
        blocks.push(cells)?;
    }
    Ok(blocks)
}

/// At the start of the last function, with so many steps.
pub fn start(alloc: Global, file: &CFile, shapes: &Vec<Shape>, steps: u64) -> Result<Machine, NoMem>
    requires { shapes.now.items ≡ shapes_of file.now.structs }
    ensures ok { IfOk result MachineOk }
    ensures core { IfOk result (λ machine. core_of machine ≡ starts file.now steps) }
{
    let statics = static_blocks(alloc, shapes, file.statics.as_slice())?;
    let last = (file.functions.len() as u64).saturating_sub(1);
    let locals = locals_of(file, last);
    Machine::new(alloc, last, locals, statics, steps)
}
