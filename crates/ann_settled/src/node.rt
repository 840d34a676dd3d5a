// The elements at the nodes of the program.
ghost use Rattle.std.specs.Prelude.{◌≡◌, replicate, IfOk, OnOk};
ghost use Rattle.ann_element.specs.declared.element.Element.TheVariants.{Unreached};
ghost use Rattle.ann_needs.specs.View.{whole};
ghost use Rattle.ann_settled.specs.Read.{element_at};
ghost use Rattle.ann_settled.specs.Nodes as spec;

use crate::read::cell_of;
use ann_element::Element;
use ann_needs::{Plan, State};
use flow_graph::{Block, Graph, Op};
use rpy_base::{NoMem, Seq};
use rpy_meaning::RowOp;
use rpy_tree::NodeId;
use std::alloc::Global;

fn unreached(alloc: Global, count: usize) -> Result<Seq<Element>, NoMem>
    ensures { IfOk result (λ nodes. nodes ≡ replicate count Unreached) }
{
    let mut nodes = Seq::new(alloc);
    for _node in 0..count {
        nodes.push(Element::Unreached)?;
    }
    Ok(nodes)
}

// The new value of an augmented assignment is the element of its statement.
fn is_augmented(op: &RowOp) -> bool
    ensures { result ≡ spec.is_augmented op.now }
{
    match op {
        RowOp::Binary(_, _) => true,
        RowOp::AddTo => true,
        _ => false,
    }
}

fn is_unreached(e: &Element) -> bool
    ensures { result ≡ spec.is_unreached e.now }
{
    match e {
        Element::Unreached => true,
        _ => false,
    }
}

// A node whose first copies are not reached has the element of a later one.
fn is_open(nodes: &Seq<Element>, node: NodeId) -> bool
    ensures { result ≡ spec.is_open nodes.now node }
{
    match nodes.get(node as usize) {
        None => false,
        Some(e) => is_unreached(e),
    }
}

#[tactic(auto, using(crate::proofs::Nodes::put_open, crate::proofs::Nodes::put_closed, crate::proofs::Nodes::put_past))]
fn put(
    alloc: Global,
    s: &State,
    cell: usize,
    nodes: &mut Seq<Element>,
    node: NodeId,
) -> Result<(), NoMem>
    ensures { OnOk result (nodes.new ≡ spec.put nodes.old node (element_at s.now.cells cell)) }
{
    if !is_open(nodes, node) {
        return Ok(());
    }
    let e = cell_of(alloc, s.cells.as_slice(), cell)?;
    if (node as usize) < nodes.len() {
        nodes.set(node as usize, e);
    }
    Ok(())
}

fn put_op(
    alloc: Global,
    p: &Plan,
    s: &State,
    g: usize,
    op: &Op,
    nodes: &mut Seq<Element>,
) -> Result<(), NoMem>
    ensures { OnOk result (nodes.new ≡ spec.put_op (whole p.now) s.now g op.now nodes.old) }
{
    if op.value || is_augmented(&op.op) {
        put(alloc, s, p.variable(g, op.result), nodes, op.node)
    } else {
        Ok(())
    }
}

fn put_ops(
    alloc: Global,
    p: &Plan,
    s: &State,
    g: usize,
    ops: &[Op],
    nodes: &mut Seq<Element>,
) -> Result<(), NoMem>
    ensures { OnOk result (nodes.new ≡ spec.put_ops (whole p.now) s.now g ops.now nodes.old) }
{
    for op in ops {
        put_op(alloc, p, s, g, op, nodes)?;
    }
    Ok(())
}

fn put_blocks(
    alloc: Global,
    p: &Plan,
    s: &State,
    g: usize,
    blocks: &[Block],
    nodes: &mut Seq<Element>,
) -> Result<(), NoMem>
    ensures { OnOk result (nodes.new ≡ spec.put_blocks (whole p.now) s.now g blocks.now nodes.old) }
{
    for block in blocks {
        put_ops(alloc, p, s, g, block.ops.as_slice(), nodes)?;
    }
    Ok(())
}

fn put_graphs(
    alloc: Global,
    p: &Plan,
    s: &State,
    graphs: &[Graph],
    nodes: &mut Seq<Element>,
) -> Result<(), NoMem>
    ensures { OnOk result (nodes.new ≡ spec.put_graphs (whole p.now) s.now 0 graphs.now nodes.old) }
{
    for (g, graph) in graphs.iter().enumerate() {
        put_blocks(alloc, p, s, g, graph.blocks.as_slice(), nodes)?;
    }
    Ok(())
}

fn all_nodes(alloc: Global, p: &Plan, s: &State) -> Result<Seq<Element>, NoMem>
    ensures { IfOk result (λ nodes. nodes ≡ spec.all p.now s.now) }
{
    let mut nodes = unreached(alloc, p.places.unbound.len())?;
    put_graphs(alloc, p, s, p.graphs.graphs.as_slice(), &mut nodes)?;
    Ok(nodes)
}

/// For each node the element of the first operation that gives its value and has one.
#[tactic(auto, using(crate::proofs::Nodes::are_nodes))]
pub fn nodes_of(alloc: Global, p: &Plan, s: &State) -> Result<Seq<Element>, NoMem>
    ensures { IfOk result (λ nodes. spec.AreNodes p.now s.now nodes) }
{
    let nodes = all_nodes(alloc, p, s)?;
    Ok(nodes)
}
