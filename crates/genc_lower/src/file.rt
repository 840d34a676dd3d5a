// The whole file.
ghost use Rattle.std.specs.Prelude.{◌≡◌, ◌++◌, ◌∷◌, [], ◌-◌, IfOk, OnOk, length, map, slice_get};
ghost use Rattle.genc_lower.specs.Lower as spec;

use crate::functions::{function, prototype};
use crate::order::{Order, constant};
use crate::types::c_structs;
use csub_tree::{CCell, CFile, CFunction, CPrototype, CStatic};
use ll_code::{LlGraph, LlProgram, LlStatic};
use rpy_base::{NoMem, Seq};
use std::alloc::Global;

#[cycle(cell)]
fn cell(alloc: Global, order: Order, what: &CCell) -> Result<CCell, NoMem>
    ensures { IfOk result (λ made. made ≡ spec.cell_code order what.now) }
{
    match what {
        CCell::Const(what) => Ok(CCell::Const(constant(order, *what))),
        CCell::Braces(cells) => Ok(CCell::Braces(cells_of(alloc, order, cells.as_slice())?)),
    }
}

#[cycle(cell)]
fn cells_of(alloc: Global, order: Order, cells: &[CCell]) -> Result<Seq<CCell>, NoMem>
    ensures { IfOk result (λ made. made ≡ map (spec.cell_code order) cells.now) }
{
    let mut made = Seq::new(alloc);
    for what in cells {
        made.push(cell(alloc, order, what)?)?;
    }
    Ok(made)
}

fn statics(alloc: Global, order: Order, statics: &[LlStatic]) -> Result<Seq<CStatic>, NoMem>
    ensures { IfOk result (λ made. made ≡ map (spec.static_code order) statics.now) }
{
    let mut made = Seq::new(alloc);
    for item in statics {
        made.push(CStatic {
            kind: item.kind,
            cells: cells_of(alloc, order, item.cells.as_slice())?,
        })?;
    }
    Ok(made)
}

fn order_of(program: &LlProgram) -> Order
    ensures { result ≡ spec.order_of program.now }
{
    Order {
        entry: program.entry,
        last: (program.graphs.len() as u64).saturating_sub(1),
    }
}

// The function of a graph, unless it is the entry.
fn push_function(
    alloc: Global,
    order: Order,
    n: u64,
    graph: &LlGraph,
    into: &mut Seq<CFunction>,
) -> Result<(), NoMem>
    ensures { OnOk result (into.new ≡ into.old ++ spec.unless (spec.function_code order) order.entry n graph.now) }
{
    if n == order.entry {
        Ok(())
    } else {
        into.push(function(alloc, order, graph)?)
    }
}

fn push_functions(
    alloc: Global,
    order: Order,
    graphs: &[LlGraph],
    into: &mut Seq<CFunction>,
) -> Result<(), NoMem>
    ensures { OnOk result (into.new ≡ into.old ++ spec.others (spec.function_code order) order.entry 0 graphs.now) }
{
    for i in 0..graphs.len() {
        push_function(alloc, order, i as u64, &graphs[i], into)?;
    }
    Ok(())
}

// The prototype of a graph, unless it is the entry.
fn push_prototype(
    alloc: Global,
    entry: u64,
    n: u64,
    graph: &LlGraph,
    into: &mut Seq<CPrototype>,
) -> Result<(), NoMem>
    ensures { OnOk result (into.new ≡ into.old ++ spec.unless spec.prototype entry n graph.now) }
{
    if n == entry {
        Ok(())
    } else {
        into.push(prototype(alloc, graph)?)
    }
}

fn push_prototypes(
    alloc: Global,
    entry: u64,
    graphs: &[LlGraph],
    into: &mut Seq<CPrototype>,
) -> Result<(), NoMem>
    ensures { OnOk result (into.new ≡ into.old ++ spec.others spec.prototype entry 0 graphs.now) }
{
    for i in 0..graphs.len() {
        push_prototype(alloc, entry, i as u64, &graphs[i], into)?;
    }
    Ok(())
}

fn functions(alloc: Global, program: &LlProgram) -> Result<Seq<CFunction>, NoMem>
    ensures { IfOk result (λ made. made ≡ spec.in_order (spec.function_code (spec.order_of program.now)) program.now) }
{
    let order = order_of(program);
    let mut made = Seq::new(alloc);
    push_functions(alloc, order, program.graphs.as_slice(), &mut made)?;
    if let Some(entry) = program.graphs.get(program.entry as usize) {
        made.push(function(alloc, order, entry)?)?;
    }
    Ok(made)
}

fn prototypes(alloc: Global, program: &LlProgram) -> Result<Seq<CPrototype>, NoMem>
    ensures { IfOk result (λ made. made ≡ spec.in_order spec.prototype program.now) }
{
    let mut made = Seq::new(alloc);
    push_prototypes(alloc, program.entry, program.graphs.as_slice(), &mut made)?;
    if let Some(entry) = program.graphs.get(program.entry as usize) {
        made.push(prototype(alloc, entry)?)?;
    }
    Ok(made)
}

/// The C file of a well-typed program of the stage `Counted`: each graph becomes a function of its
/// name, the entry the last one.
pub fn lower(alloc: Global, program: &LlProgram) -> Result<CFile, NoMem>
    ensures { IfOk result (λ file. file ≡ spec.lowered program.now) }
{
    Ok(CFile {
        structs: c_structs(alloc, program.structs.as_slice())?,
        prototypes: prototypes(alloc, program)?,
        statics: statics(alloc, order_of(program), program.statics.as_slice())?,
        functions: functions(alloc, program)?,
    })
}
