// A program with explicit exceptions that can be counted.
ghost use Rattle.std.specs.Prelude.{◌≡◌, true, IfOk};
ghost use Rattle.refcount_transform.specs.Plan.{plan_with};
ghost use Rattle.refcount_transform.specs.Seen.{the_plan};
ghost use Rattle.refcount_checks.specs.Passes as spec;
ghost use Rattle.refcount_checks.specs.Passes.{Passes};

use crate::countable::graphs_count;
use crate::leads::{references_lead, structs_numbered};
use crate::slots::{graphs_agree, slots_among};
use crate::watch::graphs_read_known;
use ll_code::{LlGraph, LlProgram, LlStruct};
use refcount_transform::{
    Counts, Plan, Slots, counted_structs, counts_of_structs, first_made, slots_of,
};
use rpy_base::NoMem;
use std::alloc::Global;

fn plan_passes(alloc: Global, plan: Plan<'_>, graphs: &[LlGraph]) -> Result<bool, NoMem>
    ensures { IfOk result (λ yes. yes ≡ spec.plan_passes (the_plan plan.entry) graphs.now) }
{
    let known = graphs_read_known(alloc, graphs)?;
    let count = graphs_count(alloc, plan, graphs, graphs)?;
    Ok(
        known
            && count
            && references_lead(plan, graphs)
            && structs_numbered(plan, plan.structs)
            && graphs_agree(slots_among(graphs), graphs),
    )
}

fn parts_pass(
    alloc: Global,
    structs: &[LlStruct],
    counted: &[bool],
    counts: &[Counts],
    slots: Slots,
    graphs: &[LlGraph],
) -> Result<bool, NoMem>
    ensures { IfOk result (λ yes. yes ≡ spec.plan_passes (plan_with structs.now counted.now counts.now slots) graphs.now) }
{
    let plan = Plan {
        structs,
        counted,
        counts,
        slots,
    };
    plan_passes(alloc, plan, graphs)
}

/// Whether a program passes all tests of this crate: then references in it can be counted.
pub fn passes(alloc: Global, program: &LlProgram) -> Result<bool, NoMem>
    ensures { IfOk result (λ yes. yes ≡ true → Passes program.now) }
{
    let structs = program.structs.as_slice();
    let graphs = program.graphs.as_slice();
    let counted = counted_structs(alloc, structs, graphs)?;
    let slots = slots_of(counted.as_slice(), graphs, graphs.len() as u64);
    let counts = counts_of_structs(alloc, structs, counted.as_slice(), first_made(slots)?)?;
    parts_pass(
        alloc,
        structs,
        counted.as_slice(),
        counts.as_slice(),
        slots,
        graphs,
    )
}
