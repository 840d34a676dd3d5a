// The state in which a run begins.
use crate::machine::{Machine, graph_at};
use crate::shape::{Shape, size_of};
use crate::val::{Cells, Val, constant};
use csub_tree::CCell;
use ll_code::{LlProgram, LlStatic};
use rpy_base::NoMem;
use std::alloc::Global;

// The constants of a cell in order, whatever the braces.
#[cycle(cell)]
fn push_cell(cell: &CCell, into: &mut Vec<Val>) -> Result<(), NoMem> {
    match cell {
        CCell::Const(value) => {
            into.push(constant(*value))?;
            Ok(())
        }
        CCell::Braces(parts) => push_cells(parts.as_slice(), into),
    }
}

#[cycle(cell)]
fn push_cells(cells: &[CCell], into: &mut Vec<Val>) -> Result<(), NoMem> {
    for cell in cells {
        push_cell(cell, into)?;
    }
    Ok(())
}

// The values from a place on.
fn cut(alloc: Global, values: &mut Vec<Val>, at: usize) -> Result<Vec<Val>, NoMem> {
    if at >= values.len() {
        return Ok(Vec::new(alloc));
    }
    let rest = Vec::from_slice(alloc, &values[at..])?;
    values.truncate(at);
    Ok(rest)
}

fn static_block(alloc: Global, shapes: &Vec<Shape>, block: &LlStatic) -> Result<Cells, NoMem> {
    let mut fields = Vec::new(alloc);
    push_cells(block.cells.as_slice(), &mut fields)?;
    let items = cut(alloc, &mut fields, size_of(shapes, block.kind) as usize)?;
    Ok(Cells {
        kind: block.kind,
        fields,
        items,
    })
}

fn static_blocks(
    alloc: Global,
    shapes: &Vec<Shape>,
    statics: &[LlStatic],
) -> Result<Vec<Cells>, NoMem> {
    let mut blocks = Vec::new(alloc);
    for block in statics {
        let cells = static_block(alloc, shapes, block)?;
        blocks.push(cells)?;
    }
    Ok(blocks)
}

fn unset(alloc: Global, count: usize) -> Result<Vec<Val>, NoMem> {
    let values = vec![in alloc; Val::Unset; count]?;
    Ok(values)
}

/// At the start of the entry, with so many steps.
pub fn start(
    alloc: Global,
    program: &LlProgram,
    shapes: &Vec<Shape>,
    steps: u64,
) -> Result<Machine, NoMem> {
    let count = match graph_at(program, program.entry) {
        Some(graph) => graph.types.len(),
        None => 0,
    };
    Ok(Machine {
        graph: program.entry,
        block: 0,
        at: 0,
        vars: unset(alloc, count)?,
        frames: Vec::new(alloc),
        blocks: Vec::new(alloc),
        statics: static_blocks(alloc, shapes, program.statics.as_slice())?,
        exc_type: Val::Null,
        exc_value: Val::Null,
        steps,
        waiting: Vec::new(alloc),
    })
}
