// A conflict in a cell is told.
ghost use Rattle.std.specs.Prelude.{◌≡◌, ◌<◌, true, length, map, IfOk};
ghost use Rattle.ann_lattice.specs.Shape.{shape};
ghost use Rattle.ann_lattice.specs.Laws.{named};
ghost use Rattle.rpy_kinds.specs.Places.{kind_at};
ghost use Rattle.ann_needs.specs.View.{assignment, whole};
ghost use Rattle.ann_places.specs.Spots.{among, spot_cells};
ghost use Rattle.ann_shown.specs.Place.{IsPlace};
ghost use Rattle.ann_shown.specs.declared.place.Place.TheVariants as place;
ghost use Rattle.ann_shown.specs.Operands as operands;
ghost use Rattle.ann_shown.specs.Told as spec;

use crate::functions::{function_node, param_node};
use crate::operands::{in_text, operands_of};
use crate::place::{Place, place_of};
use crate::told::Told;
use ann_element::{Element, Spot, SpotKind};
use ann_needs::{Plan, State};
use ann_states::all_named;
use flow_graph::Op;
use rpy_base::{NoMem, Seq, Text};
use rpy_kinds::kind_at as kind_of;
use rpy_tree::{NodeId, Program, SiteId};
use std::alloc::Global;

// ---- parts

fn part_told(alloc: Global, node: NodeId, kind: SpotKind) -> Told
    ensures { result ≡ spec.part_told node kind }
{
    Told {
        spot: Spot { node, kind },
        operands: Seq::new(alloc),
    }
}

fn narrow(node: u64) -> Result<NodeId, NoMem>
    ensures { IfOk result (λ narrowed. narrowed ≡ node) }
{
    if node <= 4294967295 {
        Ok(node as u32)
    } else {
        Err(NoMem)
    }
}

fn narrow_site(site: usize) -> Result<SiteId, NoMem>
    ensures { IfOk result (λ narrowed. narrowed ≡ site) }
{
    narrow(site as u64)
}

fn tell_param(
    alloc: Global,
    program: &Program,
    p: &Plan,
    s: &State,
    cell: usize,
    f: usize,
    at: usize,
) -> Result<Told, NoMem>
    requires plan { spec.IsPlanOf program.now p.now }
    requires place { IsPlace p.now cell (place.Param f at) }
    ensures { IfOk result (λ t. spec.IsTold program.now (whole p.now) (assignment s.now) cell t) }
{
    match param_node(alloc, program, f, at)? {
        None => unreachable!(),
        Some(node) => Ok(part_told(alloc, narrow(node)?, SpotKind::Param)),
    }
}

fn tell_result(
    alloc: Global,
    program: &Program,
    p: &Plan,
    s: &State,
    cell: usize,
    f: usize,
) -> Result<Told, NoMem>
    requires plan { spec.IsPlanOf program.now p.now }
    requires place { IsPlace p.now cell (place.Result f) }
    ensures { IfOk result (λ t. spec.IsTold program.now (whole p.now) (assignment s.now) cell t) }
{
    match function_node(alloc, program, f)? {
        None => unreachable!(),
        Some(node) => Ok(part_told(alloc, narrow(node)?, SpotKind::Result)),
    }
}

fn class_node(program: &Program, class: usize) -> Option<NodeId>
    ensures { result ≡ spec.class_node program.now class }
{
    match program.classes.get(class) {
        None => None,
        Some(info) => Some(info.node),
    }
}

fn site_node(program: &Program, site: SiteId) -> Option<NodeId>
    ensures { result ≡ spec.site_node program.now site }
{
    match program.sites.get(site as usize) {
        None => None,
        Some(info) => Some(info.node),
    }
}

fn tell_named(
    alloc: Global,
    program: &Program,
    p: &Plan,
    s: &State,
    cell: usize,
    class: usize,
    name: &Text,
) -> Result<Told, NoMem>
    requires class { class < length program.now.classes }
    requires place { (whole p.now).places.attribute class name.now ≡ cell }
    ensures { IfOk result (λ t. spec.IsTold program.now (whole p.now) (assignment s.now) cell t) }
{
    match class_node(program, class) {
        None => unreachable!(),
        Some(node) => {
            let copy = name.copy(alloc)?;
            Ok(part_told(alloc, node, SpotKind::Attr(copy)))
        }
    }
}

fn tell_attribute(
    alloc: Global,
    program: &Program,
    p: &Plan,
    s: &State,
    cell: usize,
    class: usize,
    at: usize,
) -> Result<Told, NoMem>
    requires plan { spec.IsPlanOf program.now p.now }
    requires place { IsPlace p.now cell (place.Attribute class at) }
    ensures { IfOk result (λ t. spec.IsTold program.now (whole p.now) (assignment s.now) cell t) }
{
    match p.places.attributes.get(class) {
        None => unreachable!(),
        Some(row) => match row.get(at) {
            None => unreachable!(),
            Some(entry) => tell_named(alloc, program, p, s, cell, class, &entry.0),
        },
    }
}

fn tell_item(
    alloc: Global,
    program: &Program,
    p: &Plan,
    s: &State,
    cell: usize,
    site: usize,
) -> Result<Told, NoMem>
    requires plan { spec.IsPlanOf program.now p.now }
    requires leaders { spec.HasLeaders program.now (assignment s.now).same }
    requires place { IsPlace p.now cell (place.Item site) }
    ensures { IfOk result (λ t. spec.IsTold program.now (whole p.now) (assignment s.now) cell t) }
{
    match site_node(program, s.same.leader(narrow_site(site)?)) {
        None => unreachable!(),
        Some(node) => Ok(part_told(alloc, node, SpotKind::Items)),
    }
}

fn tell_key(
    alloc: Global,
    program: &Program,
    p: &Plan,
    s: &State,
    cell: usize,
    site: usize,
) -> Result<Told, NoMem>
    requires plan { spec.IsPlanOf program.now p.now }
    requires leaders { spec.HasLeaders program.now (assignment s.now).same }
    requires place { IsPlace p.now cell (place.Key site) }
    ensures { IfOk result (λ t. spec.IsTold program.now (whole p.now) (assignment s.now) cell t) }
{
    match site_node(program, s.same.leader(narrow_site(site)?)) {
        None => unreachable!(),
        Some(node) => Ok(part_told(alloc, node, SpotKind::Keys)),
    }
}

// ---- operations

fn told_operands(
    alloc: Global,
    program: &Program,
    p: &Plan,
    s: &State,
    g: usize,
    op: &Op,
) -> Result<Seq<Element>, NoMem>
    ensures { IfOk result (λ told. map shape told ≡ map (named s.now.same) (operands.in_text (whole p.now) (assignment s.now) (kind_at program.now.modules op.now.node) op.now.op (operands.operands (whole p.now) (assignment s.now) g op.now))) }
{
    let kind = kind_of(program, op.node)?;
    let xs = operands_of(alloc, p, s, g, op)?;
    let list = in_text(alloc, p, s, kind, &op.op, xs.as_slice())?;
    all_named(alloc, &s.same, list.as_slice())
}

fn op_told(node: NodeId, operands: Seq<Element>) -> Told
    ensures { result ≡ spec.op_told node operands }
{
    Told {
        spot: Spot {
            node,
            kind: SpotKind::Node,
        },
        operands,
    }
}

#[tactic(auto, using(crate::proofs::Telling::operation_told))]
fn tell_op(
    alloc: Global,
    program: &Program,
    p: &Plan,
    s: &State,
    cell: usize,
    g: usize,
    number: usize,
    at: usize,
) -> Result<Told, NoMem>
    requires { IsPlace p.now cell (place.Op g number at) }
    ensures { IfOk result (λ t. spec.IsTold program.now (whole p.now) (assignment s.now) cell t) }
{
    match p.graphs.graphs.get(g) {
        None => unreachable!(),
        Some(graph) => match graph.blocks.get(number) {
            None => unreachable!(),
            Some(block) => match block.ops.get(at) {
                None => unreachable!(),
                Some(op) => {
                    let operands = told_operands(alloc, program, p, s, g, op)?;
                    Ok(op_told(op.node, operands))
                }
            },
        },
    }
}

// ---- the whole

fn tell_at(
    alloc: Global,
    program: &Program,
    p: &Plan,
    s: &State,
    cell: usize,
    found: Place,
) -> Result<Told, NoMem>
    requires plan { spec.IsPlanOf program.now p.now }
    requires leaders { spec.HasLeaders program.now (assignment s.now).same }
    requires place { IsPlace p.now cell found }
    ensures { IfOk result (λ t. spec.IsTold program.now (whole p.now) (assignment s.now) cell t) }
{
    match found {
        Place::Param(f, at) => tell_param(alloc, program, p, s, cell, f, at),
        Place::Result(f) => tell_result(alloc, program, p, s, cell, f),
        Place::Attribute(class, at) => tell_attribute(alloc, program, p, s, cell, class, at),
        Place::Item(site) => tell_item(alloc, program, p, s, cell, site),
        Place::Key(site) => tell_key(alloc, program, p, s, cell, site),
        Place::Op(g, number, at) => tell_op(alloc, program, p, s, cell, g, number, at),
    }
}

/// A conflict in a cell as it is told: by the part that the cell is of, or by the node of an operation and
/// the elements of its operands.
pub fn tell(
    alloc: Global,
    program: &Program,
    p: &Plan,
    s: &State,
    cell: usize,
) -> Result<Told, NoMem>
    requires plan { spec.IsPlanOf program.now p.now }
    requires leaders { spec.HasLeaders program.now (assignment s.now).same }
    requires spot { among cell (spot_cells p.now) ≡ true }
    ensures { IfOk result (λ t. spec.IsTold program.now (whole p.now) (assignment s.now) cell t) }
{
    match place_of(p, cell) {
        None => unreachable!(),
        Some(found) => tell_at(alloc, program, p, s, cell, found),
    }
}
