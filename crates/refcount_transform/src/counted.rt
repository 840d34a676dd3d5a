// Whole programs.
ghost use Rattle.std.specs.Prelude.{◌≡◌, ◌++◌, map, true, IfOk, OnOk};
ghost use Rattle.ll_code.specs.declared.program.LlStage.TheVariants.{Counted};
ghost use Rattle.refcount_transform.specs.Counted as spec;
ghost use Rattle.refcount_transform.specs.Seen.{the_plan};

use crate::copies::copy_struct;
use crate::made::push_all_made;
use crate::plan::{Plan, add, base_at, counted_structs, counts_of_structs, has_count};
use crate::releases::graph_of;
use crate::slots::{first_made, slots_of};
use csub_tree::{CCell, CConst, CStatic};
use ll_code::{LlGraph, LlProgram, LlStage, LlStatic, LlStruct, LlType};
use rpy_base::{NoMem, Seq};
use std::alloc::Global;

// ---- structs

fn push_types(kinds: &[LlType], into: &mut Seq<LlType>) -> Result<(), NoMem>
    ensures { OnOk result (into.new ≡ into.old ++ kinds.now) }
{
    for kind in kinds {
        into.push(*kind)?;
    }
    Ok(())
}

fn with_count(alloc: Global, s: &LlStruct) -> Result<LlStruct, NoMem>
    ensures { IfOk result (λ made. made ≡ spec.struct_by true s.now) }
{
    let mut fields = Seq::new(alloc);
    fields.push(LlType::Signed)?;
    fields.push(LlType::Fn)?;
    push_types(s.fields.as_slice(), &mut fields)?;
    Ok(LlStruct {
        base: s.base,
        fields,
        items: s.items,
    })
}

fn struct_of(alloc: Global, plan: Plan<'_>, n: u64, s: &LlStruct) -> Result<LlStruct, NoMem>
    ensures { IfOk result (λ made. made ≡ spec.struct_at (the_plan plan.entry) n s.now) }
{
    if has_count(plan, n) {
        with_count(alloc, s)
    } else {
        copy_struct(alloc, s)
    }
}

fn structs_of(alloc: Global, plan: Plan<'_>) -> Result<Seq<LlStruct>, NoMem>
    ensures { IfOk result (λ made. made ≡ spec.structs_of (the_plan plan.entry)) }
{
    let mut made = Seq::new(alloc);
    let mut n: u64 = 0;
    let mut rest = plan.structs;
    while let [s, others @ ..] = rest {
        made.push(struct_of(alloc, plan, n, s)?)?;
        n = add(n, 1)?;
        rest = others;
    }
    Ok(made)
}

// ---- graphs

fn graphs_of(alloc: Global, plan: Plan<'_>, graphs: &[LlGraph]) -> Result<Seq<LlGraph>, NoMem>
    ensures { IfOk result (λ made. made ≡ spec.graphs_of (the_plan plan.entry) graphs.now) }
{
    let mut made = Seq::new(alloc);
    for graph in graphs {
        made.push(graph_of(alloc, plan, graph)?)?;
    }
    push_all_made(alloc, plan, &mut made)?;
    Ok(made)
}

// ---- statics

// A cell as it is, or with the cells of a base, which may begin with a count.
#[cycle(cell)]
fn counted_cell(
    alloc: Global,
    plan: Plan<'_>,
    cell: &CCell,
    base: Option<u64>,
) -> Result<CCell, NoMem>
    ensures { IfOk result (λ made. made ≡ spec.counted_cell (the_plan plan.entry) cell.now base) }
{
    match cell {
        CCell::Const(what) => Ok(CCell::Const(*what)),
        CCell::Braces(cells) => {
            let mut made = Seq::new(alloc);
            match base {
                None => push_cells(alloc, plan, cells.as_slice(), &mut made)?,
                Some(m) => push_struct(alloc, plan, m, cells.as_slice(), &mut made)?,
            }
            Ok(CCell::Braces(made))
        }
    }
}

#[cycle(cell)]
fn push_cells(
    alloc: Global,
    plan: Plan<'_>,
    cells: &[CCell],
    into: &mut Seq<CCell>,
) -> Result<(), NoMem>
    ensures { OnOk result (into.new ≡ into.old ++ spec.as_they_are (map (spec.counted_cell (the_plan plan.entry)) cells.now)) }
{
    for cell in cells {
        into.push(counted_cell(alloc, plan, cell, None)?)?;
    }
    Ok(())
}

// The cells of a block of this struct; those of the base stand within the first. A static has a
// reference of its own, so it is never released.
#[cycle(cell)]
fn push_struct(
    alloc: Global,
    plan: Plan<'_>,
    n: u64,
    cells: &[CCell],
    into: &mut Seq<CCell>,
) -> Result<(), NoMem>
    ensures { OnOk result (into.new ≡ into.old ++ spec.cells_of (the_plan plan.entry) n cells.now) }
{
    match base_at(plan, n) {
        None => {
            if has_count(plan, n) {
                into.push(CCell::Const(CConst::Word(1)))?;
                into.push(CCell::Const(CConst::Null))?;
            }
            push_cells(alloc, plan, cells, into)
        }
        Some(m) => match cells {
            [] => Ok(()),
            [first, rest @ ..] => {
                into.push(counted_cell(alloc, plan, first, Some(m))?)?;
                push_cells(alloc, plan, rest, into)
            }
        },
    }
}

fn statics_of(alloc: Global, plan: Plan<'_>, statics: &[LlStatic]) -> Result<Seq<LlStatic>, NoMem>
    ensures { IfOk result (λ made. made ≡ map (spec.static_of (the_plan plan.entry)) statics.now) }
{
    let mut made = Seq::new(alloc);
    for item in statics {
        let mut cells = Seq::new(alloc);
        push_struct(alloc, plan, item.kind, item.cells.as_slice(), &mut cells)?;
        made.push(CStatic {
            kind: item.kind,
            cells,
        })?;
    }
    Ok(made)
}

// ---- the program

fn counted_by(alloc: Global, plan: Plan<'_>, program: &LlProgram) -> Result<LlProgram, NoMem>
    ensures { IfOk result (λ made. made ≡ spec.counted_by (the_plan plan.entry) program.now) }
{
    Ok(LlProgram {
        stage: LlStage::Counted,
        structs: structs_of(alloc, plan)?,
        statics: statics_of(alloc, plan, program.statics.as_slice())?,
        graphs: graphs_of(alloc, plan, program.graphs.as_slice())?,
        entry: program.entry,
    })
}

/// A program of the stage `Counted` that means what a program of the stage `Explicit` does, and frees
/// each block once no reference leads to it.
pub fn count(alloc: Global, program: &LlProgram) -> Result<LlProgram, NoMem>
    ensures exact { IfOk result (λ made. made ≡ spec.counted program.now) }
    ensures stage { IfOk result (λ made. made.stage ≡ Counted) }
    ensures entry { IfOk result (λ made. made.entry ≡ program.now.entry) }
{
    let structs = program.structs.as_slice();
    let graphs = program.graphs.as_slice();
    let counted = counted_structs(alloc, structs, graphs)?;
    let slots = slots_of(counted.as_slice(), graphs, graphs.len() as u64);
    let counts = counts_of_structs(alloc, structs, counted.as_slice(), first_made(slots)?)?;
    let plan = Plan {
        structs,
        counted: counted.as_slice(),
        counts: counts.as_slice(),
        slots,
    };
    counted_by(alloc, plan, program)
}
