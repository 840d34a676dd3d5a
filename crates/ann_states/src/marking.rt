// The cells in which no conflict may stand.
ghost use Rattle.std.specs.Prelude.{◌≡◌, replicate, false, IfOk};
ghost use Rattle.ann_needs.specs.View.{whole};
ghost use Rattle.ann_states.specs.Marked as spec;

use crate::starting::unset;
use ann_needs::{Places, Plan};
use flow_graph::{Block, Graph, Op};
use rpy_base::{NoMem, Seq, Text};
use std::alloc::Global;

fn put(marks: &mut Seq<bool>, cell: usize)
    ensures { marks.new ≡ spec.put marks.old cell }
{
    if cell < marks.len() {
        marks.set(cell, true);
    }
}

// ---- parts

fn mark_row(marks: &mut Seq<bool>, row: &[usize])
    ensures { marks.new ≡ spec.row row.now marks.old }
{
    for cell in row {
        put(marks, *cell);
    }
}

fn mark_rows(marks: &mut Seq<bool>, rows: &[Seq<usize>])
    ensures { marks.new ≡ spec.rows rows.now marks.old }
{
    for row in rows {
        mark_row(marks, row.as_slice());
    }
}

fn mark_named(marks: &mut Seq<bool>, row: &[(Text, usize)])
    ensures { marks.new ≡ spec.named row.now marks.old }
{
    for entry in row {
        put(marks, entry.1);
    }
}

fn mark_all_named(marks: &mut Seq<bool>, rows: &[Seq<(Text, usize)>])
    ensures { marks.new ≡ spec.all_named rows.now marks.old }
{
    for row in rows {
        mark_named(marks, row.as_slice());
    }
}

fn mark_parts(marks: &mut Seq<bool>, places: &Places)
    ensures { marks.new ≡ spec.parts places.now marks.old }
{
    mark_rows(marks, places.params.as_slice());
    mark_row(marks, places.results.as_slice());
    mark_all_named(marks, places.attributes.as_slice());
    mark_row(marks, places.items.as_slice());
    mark_row(marks, places.keys.as_slice());
}

// ---- results of operations

fn mark_ops(marks: &mut Seq<bool>, p: &Plan, g: usize, ops: &[Op])
    ensures { marks.new ≡ spec.ops (whole p.now) g ops.now marks.old }
{
    for op in ops {
        put(marks, p.variable(g, op.result));
    }
}

fn mark_blocks(marks: &mut Seq<bool>, p: &Plan, g: usize, blocks: &[Block])
    ensures { marks.new ≡ spec.blocks (whole p.now) g blocks.now marks.old }
{
    for block in blocks {
        mark_ops(marks, p, g, block.ops.as_slice());
    }
}

fn mark_graphs(marks: &mut Seq<bool>, p: &Plan, graphs: &[Graph])
    ensures { marks.new ≡ spec.graphs (whole p.now) 0 graphs.now marks.old }
{
    for (g, graph) in graphs.iter().enumerate() {
        mark_blocks(marks, p, g, graph.blocks.as_slice());
    }
}

// ---- the whole

fn marked(alloc: Global, p: &Plan, cells: usize) -> Result<Seq<bool>, NoMem>
    ensures { IfOk result (λ marks. marks ≡ spec.all p.now cells) }
{
    let mut marks = unset(alloc, cells)?;
    mark_parts(&mut marks, &p.places);
    mark_graphs(&mut marks, p, p.graphs.graphs.as_slice());
    Ok(marks)
}

/// Of so many cells those have a mark in which no conflict may stand: that of a parameter, a result, an
/// attribute, items, keys or the result of an operation.
#[tactic(auto, using(crate::proofs::Marks::spots_marked))]
pub fn spots_of(alloc: Global, p: &Plan, cells: usize) -> Result<Seq<bool>, NoMem>
    ensures { IfOk result (λ marks. spec.AreSpots p.now cells marks) }
{
    let marks = marked(alloc, p, cells)?;
    Ok(marks)
}
