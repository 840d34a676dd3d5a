// Which part or operation has a cell.
ghost use Rattle.std.specs.Prelude.{◌≡◌, ◌||◌, is_some, slice_get, IfSome, Some};
ghost use Rattle.ann_needs.specs.View.{row_of, whole};
ghost use Rattle.ann_places.specs.Spots.{all_named_cells, among, block_cells, graph_cells, named_cells, op_cells, part_cells, row_cells, spot_cells};
ghost use Rattle.ann_shown.specs.Place as spec;

use ann_needs::Plan;
use flow_graph::{Block, Graph, Op};
use rpy_base::{Seq, Text};

/// Where a cell stands: a parameter, a result, an attribute by its entry, items and keys of a site, or the
/// result of an operation by its graph, its block and its place there.
#[derive(Clone, Copy)]
pub enum Place {
    Param(usize, usize),
    Result(usize),
    Attribute(usize, usize),
    Item(usize),
    Key(usize),
    Op(usize, usize, usize),
}

// ---- rows

fn in_row(row: &[usize], cell: usize) -> Option<usize>
    ensures found { is_some result ≡ among cell row.now }
    ensures there { IfSome result (λ at. slice_get row.now at ≡ Some cell) }
{
    for (at, number) in row.iter().enumerate() {
        if *number == cell {
            return Some(at);
        }
    }
    None
}

#[tactic(auto, using(crate::proofs::Placing::found_row, crate::proofs::Placing::passed_row, crate::proofs::Placing::at_is))]
fn in_rows(rows: &[Seq<usize>], cell: usize) -> Option<(usize, usize)>
    ensures found { is_some result ≡ among cell (row_cells rows.now) }
    ensures there { IfSome result (λ at. slice_get (row_of rows.now at.0) at.1 ≡ Some cell) }
{
    for (number, row) in rows.iter().enumerate() {
        match in_row(row.as_slice(), cell) {
            None => {}
            Some(at) => return Some((number, at)),
        }
    }
    None
}

fn in_names(row: &[(Text, usize)], cell: usize) -> Option<usize>
    ensures found { is_some result ≡ among cell (named_cells row.now) }
    ensures there { IfSome result (λ at. spec.named_cell (slice_get row.now at) ≡ Some cell) }
{
    for (at, entry) in row.iter().enumerate() {
        if entry.1 == cell {
            return Some(at);
        }
    }
    None
}

#[tactic(auto, using(crate::proofs::Placing::found_names, crate::proofs::Placing::passed_names, crate::proofs::Placing::at_is))]
fn in_named_rows(rows: &[Seq<(Text, usize)>], cell: usize) -> Option<(usize, usize)>
    ensures found { is_some result ≡ among cell (all_named_cells rows.now) }
    ensures there { IfSome result (λ at. spec.named_cell (slice_get (spec.names_of rows.now at.0) at.1) ≡ Some cell) }
{
    for (number, row) in rows.iter().enumerate() {
        match in_names(row.as_slice(), cell) {
            None => {}
            Some(at) => return Some((number, at)),
        }
    }
    None
}

// ---- operations

fn in_ops(p: &Plan, g: usize, ops: &[Op], cell: usize) -> Option<usize>
    ensures found { is_some result ≡ among cell (op_cells (whole p.now) g ops.now) }
    ensures there { IfSome result (λ at. spec.result_cell (whole p.now) g (slice_get ops.now at) ≡ Some cell) }
{
    for (at, op) in ops.iter().enumerate() {
        if p.variable(g, op.result) == cell {
            return Some(at);
        }
    }
    None
}

#[tactic(auto, using(crate::proofs::Placing::found_block, crate::proofs::Placing::passed_block, crate::proofs::Placing::block_is))]
fn in_blocks(p: &Plan, g: usize, blocks: &[Block], cell: usize) -> Option<(usize, usize)>
    ensures found { is_some result ≡ among cell (block_cells (whole p.now) g blocks.now) }
    ensures there { IfSome result (λ at. spec.result_cell (whole p.now) g (spec.op_at blocks.now at) ≡ Some cell) }
{
    for (number, block) in blocks.iter().enumerate() {
        match in_ops(p, g, block.ops.as_slice(), cell) {
            None => {}
            Some(at) => return Some((number, at)),
        }
    }
    None
}

#[tactic(auto, using(crate::proofs::Placing::found_graph, crate::proofs::Placing::passed_graph, crate::proofs::Placing::graph_is))]
fn in_graphs(p: &Plan, graphs: &[Graph], cell: usize) -> Option<Place>
    ensures found { is_some result ≡ among cell (graph_cells (whole p.now) 0 graphs.now) }
    ensures there { graphs.now ≡ p.now.graphs.graphs → IfSome result (spec.IsPlace p.now cell) }
{
    for (g, graph) in graphs.iter().enumerate() {
        match in_blocks(p, g, graph.blocks.as_slice(), cell) {
            None => {}
            Some(at) => return Some(Place::Op(g, at.0, at.1)),
        }
    }
    None
}

// ---- the whole

fn in_params(p: &Plan, cell: usize) -> Option<Place>
    ensures found { is_some result ≡ among cell (row_cells p.now.places.params) }
    ensures there { IfSome result (spec.IsPlace p.now cell) }
{
    match in_rows(p.places.params.as_slice(), cell) {
        None => None,
        Some(at) => Some(Place::Param(at.0, at.1)),
    }
}

fn in_results(p: &Plan, cell: usize) -> Option<Place>
    ensures found { is_some result ≡ among cell p.now.places.results }
    ensures there { IfSome result (spec.IsPlace p.now cell) }
{
    match in_row(p.places.results.as_slice(), cell) {
        None => None,
        Some(f) => Some(Place::Result(f)),
    }
}

fn in_attributes(p: &Plan, cell: usize) -> Option<Place>
    ensures found { is_some result ≡ among cell (all_named_cells p.now.places.attributes) }
    ensures there { IfSome result (spec.IsPlace p.now cell) }
{
    match in_named_rows(p.places.attributes.as_slice(), cell) {
        None => None,
        Some(at) => Some(Place::Attribute(at.0, at.1)),
    }
}

fn in_items(p: &Plan, cell: usize) -> Option<Place>
    ensures found { is_some result ≡ among cell p.now.places.items }
    ensures there { IfSome result (spec.IsPlace p.now cell) }
{
    match in_row(p.places.items.as_slice(), cell) {
        None => None,
        Some(site) => Some(Place::Item(site)),
    }
}

fn in_keys(p: &Plan, cell: usize) -> Option<Place>
    ensures found { is_some result ≡ among cell p.now.places.keys }
    ensures there { IfSome result (spec.IsPlace p.now cell) }
{
    match in_row(p.places.keys.as_slice(), cell) {
        None => None,
        Some(site) => Some(Place::Key(site)),
    }
}

fn first(a: Option<Place>, b: Option<Place>) -> Option<Place>
    ensures { result ≡ spec.first a b }
{
    match a {
        None => b,
        Some(place) => Some(place),
    }
}

#[tactic(auto, using(crate::proofs::Placing::parts_found, crate::proofs::Placing::parts_there))]
fn in_parts(p: &Plan, cell: usize) -> Option<Place>
    ensures found { is_some result ≡ among cell (part_cells p.now.places) }
    ensures there { IfSome result (spec.IsPlace p.now cell) }
{
    let sites = first(in_items(p, cell), in_keys(p, cell));
    let attributes = first(in_attributes(p, cell), sites);
    let results = first(in_results(p, cell), attributes);
    first(in_params(p, cell), results)
}

/// The part or the operation that a cell is of, where it is of one.
#[tactic(auto, using(crate::proofs::Placing::first_found, crate::proofs::Placing::first_there))]
pub fn place_of(p: &Plan, cell: usize) -> Option<Place>
    ensures found { is_some result ≡ among cell (spot_cells p.now) }
    ensures there { IfSome result (spec.IsPlace p.now cell) }
{
    first(
        in_parts(p, cell),
        in_graphs(p, p.graphs.graphs.as_slice(), cell),
    )
}
