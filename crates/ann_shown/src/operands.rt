// The operands of what stands at a node, in the order of the text.
ghost use Rattle.std.specs.Prelude.{◌≡◌, ◌∷◌, [], map, option_map, IfOk};
ghost use Rattle.ann_lattice.specs.Shape.{shape};
ghost use Rattle.ann_lattice.specs.Kind.{is_nothing};
ghost use Rattle.ann_rules.specs.Rules.{value};
ghost use Rattle.ann_needs.specs.View.{assignment, whole};
ghost use Rattle.ann_shown.specs.Operands as spec;

use ann_element::{Element, copy_element, copy_elements};
use ann_needs::{Plan, State};
use flow_graph::{Block, Graph, Op, VarId};
use rpy_base::{NoMem, Seq};
use rpy_kinds::Kind;
use rpy_meaning::RowOp;
use std::alloc::Global;

fn value_of(alloc: Global, p: &Plan, s: &State, g: usize, v: VarId) -> Result<Element, NoMem>
    ensures { IfOk result (λ e. shape e ≡ value (whole p.now) (assignment s.now) g v) }
{
    s.element(alloc, p.variable(g, v))
}

/// The elements of an operation's operands.
pub fn operands_of(
    alloc: Global,
    p: &Plan,
    s: &State,
    g: usize,
    op: &Op,
) -> Result<Seq<Element>, NoMem>
    ensures { IfOk result (λ xs. map shape xs ≡ spec.operands (whole p.now) (assignment s.now) g op.now) }
{
    let mut xs = Seq::new(alloc);
    for v in op.args.as_slice() {
        xs.push(value_of(alloc, p, s, g, *v)?)?;
    }
    Ok(xs)
}

// ---- the element of a node

fn is_unreached(e: &Element) -> bool
    ensures { result ≡ is_nothing (shape e.now) }
{
    match e {
        Element::Unreached => true,
        _ => false,
    }
}

fn op_value(
    alloc: Global,
    p: &Plan,
    s: &State,
    node: u64,
    g: usize,
    op: &Op,
) -> Result<Option<Element>, NoMem>
    ensures { IfOk result (λ o. option_map shape o ≡ spec.op_value (whole p.now) (assignment s.now) node g op.now) }
{
    let e = value_of(alloc, p, s, g, op.result)?;
    if op.value && (u64::from(op.node) == node && !is_unreached(&e)) {
        Ok(Some(e))
    } else {
        Ok(None)
    }
}

fn ops_value(
    alloc: Global,
    p: &Plan,
    s: &State,
    node: u64,
    g: usize,
    ops: &[Op],
) -> Result<Option<Element>, NoMem>
    ensures { IfOk result (λ o. option_map shape o ≡ spec.ops_value (whole p.now) (assignment s.now) node g ops.now) }
{
    for op in ops {
        match op_value(alloc, p, s, node, g, op)? {
            None => {}
            Some(e) => return Ok(Some(e)),
        }
    }
    Ok(None)
}

fn blocks_value(
    alloc: Global,
    p: &Plan,
    s: &State,
    node: u64,
    g: usize,
    blocks: &[Block],
) -> Result<Option<Element>, NoMem>
    ensures { IfOk result (λ o. option_map shape o ≡ spec.blocks_value (whole p.now) (assignment s.now) node g blocks.now) }
{
    for block in blocks {
        match ops_value(alloc, p, s, node, g, block.ops.as_slice())? {
            None => {}
            Some(e) => return Ok(Some(e)),
        }
    }
    Ok(None)
}

fn graphs_value(
    alloc: Global,
    p: &Plan,
    s: &State,
    node: u64,
    graphs: &[Graph],
) -> Result<Option<Element>, NoMem>
    ensures { IfOk result (λ o. option_map shape o ≡ spec.graphs_value (whole p.now) (assignment s.now) node 0 graphs.now) }
{
    for (g, graph) in graphs.iter().enumerate() {
        match blocks_value(alloc, p, s, node, g, graph.blocks.as_slice())? {
            None => {}
            Some(e) => return Ok(Some(e)),
        }
    }
    Ok(None)
}

fn or_unreached(found: Option<Element>) -> Element
    ensures { shape result ≡ spec.or_nothing (option_map shape found) }
{
    match found {
        None => Element::Unreached,
        Some(e) => e,
    }
}

fn node_value(alloc: Global, p: &Plan, s: &State, node: u64) -> Result<Element, NoMem>
    ensures { IfOk result (λ e. shape e ≡ spec.node_value (whole p.now) (assignment s.now) node) }
{
    let found = graphs_value(alloc, p, s, node, p.graphs.graphs.as_slice())?;
    Ok(or_unreached(found))
}

// ---- by what stands there

fn two(alloc: Global, x: Element, y: Element) -> Result<Seq<Element>, NoMem>
    ensures { IfOk result (λ xs. map shape xs ≡ shape x ∷ shape y ∷ []) }
{
    let mut xs = Seq::new(alloc);
    xs.push(x)?;
    xs.push(y)?;
    Ok(xs)
}

fn sides(alloc: Global, p: &Plan, s: &State, kind: Option<Kind>) -> Result<Seq<Element>, NoMem>
    ensures { IfOk result (λ xs. map shape xs ≡ spec.sides (whole p.now) (assignment s.now) kind) }
{
    match kind {
        Some(Kind::Logic(left, right)) => {
            let left = node_value(alloc, p, s, left)?;
            let right = node_value(alloc, p, s, right)?;
            two(alloc, left, right)
        }
        _ => Ok(Seq::new(alloc)),
    }
}

fn arguments(alloc: Global, kind: Option<Kind>, xs: &[Element]) -> Result<Seq<Element>, NoMem>
    ensures { IfOk result (λ list. map shape list ≡ spec.arguments kind (map shape xs.now)) }
{
    match kind {
        Some(Kind::Call(true)) => match xs {
            [] => copy_elements(alloc, xs),
            [_callee, others @ ..] => copy_elements(alloc, others),
        },
        _ => copy_elements(alloc, xs),
    }
}

fn swapped(alloc: Global, xs: &[Element]) -> Result<Seq<Element>, NoMem>
    ensures { IfOk result (λ list. map shape list ≡ spec.swapped (map shape xs.now)) }
{
    match xs {
        [x, y] => {
            let first = copy_element(alloc, y)?;
            let second = copy_element(alloc, x)?;
            two(alloc, first, second)
        }
        _ => copy_elements(alloc, xs),
    }
}

/// The operands of an operation in the order of the text, by what stands at its node.
pub fn in_text(
    alloc: Global,
    p: &Plan,
    s: &State,
    kind: Option<Kind>,
    op: &RowOp,
    xs: &[Element],
) -> Result<Seq<Element>, NoMem>
    ensures { IfOk result (λ list. map shape list ≡ spec.in_text (whole p.now) (assignment s.now) kind op.now (map shape xs.now)) }
{
    match op {
        RowOp::Copy => sides(alloc, p, s, kind),
        RowOp::CallValue => arguments(alloc, kind, xs),
        RowOp::HasItem(Some(_)) => swapped(alloc, xs),
        _ => copy_elements(alloc, xs),
    }
}
