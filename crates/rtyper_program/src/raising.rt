// Whether a program has exceptions at all.
ghost use Rattle.std.specs.Prelude.{◌≡◌};
ghost use Rattle.rtyper_program.specs.Raises as spec;
ghost use Rattle.rtyper_program.specs.Seen.{the_known};

use crate::exits::catches;
use crate::known::{Known, is_block_reached, is_reached, variable_kind};
use ann_element::Annotation;
use flow_graph::{Block, Exit, Graph, Op, VarId};
use rpy_meaning::{Covers, RowOp};
use rtyper_data::NOTHING;
use rtyper_layout::{Kind, is_text};

/// Whether a failure is covered.
pub fn is_covered(covers: Covers) -> bool
    ensures { result ≡ spec.is_covered covers }
{
    covers != NOTHING
}

// The kind of the first argument.
fn first_kind(annotation: &Annotation, number: usize, args: &[VarId]) -> Kind
    ensures { result ≡ spec.first_kind annotation.now number args.now }
{
    match args {
        [] => Kind::Never,
        [v, ..] => variable_kind(annotation, number, *v),
    }
}

fn is_dict(kind: Kind) -> bool
    ensures { result ≡ spec.is_dict kind }
{
    match kind {
        Kind::Dict | Kind::MaybeDict => true,
        _ => false,
    }
}

// `int` of a string raises, and so does a key that is missing.
fn raises_by(op: &RowOp, kind: Kind, covered: bool) -> bool
    ensures { result ≡ spec.raises_by op.now kind covered }
{
    match op {
        RowOp::Raise | RowOp::Checked(_) | RowOp::CheckedNeg => true,
        RowOp::ToInt => is_text(kind),
        RowOp::Index(_) | RowOp::DeleteIndex => is_dict(kind) || covered,
        _ => covered,
    }
}

fn has_exceptions(annotation: &Annotation, number: usize, op: &Op) -> bool
    ensures { result ≡ spec.has_exceptions annotation.now number op.now }
{
    let kind = first_kind(annotation, number, op.args.as_slice());
    raises_by(&op.op, kind, is_covered(op.covered))
}

fn any_raises(annotation: &Annotation, number: usize, ops: &[Op]) -> bool
    ensures { result ≡ spec.any_raises annotation.now number ops.now }
{
    for op in ops {
        if has_exceptions(annotation, number, op) {
            return true;
        }
    }
    false
}

fn exit_catches(graph: &Graph, exit: &Exit) -> bool
    ensures { result ≡ spec.exit_catches graph.now exit.now }
{
    match exit {
        Exit::OnRaise(_, hands, by, _) => catches(graph, hands.as_slice(), by),
        Exit::Raise(_) | Exit::Goto(_) | Exit::If(_, _, _) | Exit::Return(_) => false,
    }
}

#[tactic(auto, unfolding(crate::specs::Raises::block_raises))]
fn block_raises(annotation: &Annotation, number: usize, graph: &Graph, block: &Block) -> bool
    ensures { result ≡ spec.block_raises annotation.now number graph.now block.now }
{
    any_raises(annotation, number, block.ops.as_slice()) || exit_catches(graph, &block.exit)
}

#[tactic(auto, unfolding(crate::specs::Raises::graph_raises))]
fn graph_raises(annotation: &Annotation, number: usize, graph: &Graph) -> bool
    ensures { result ≡ spec.graph_raises annotation.now number graph.now }
{
    let mut i: usize = 0;
    for block in graph.blocks.as_slice() {
        if is_block_reached(annotation, number, i)
            && block_raises(annotation, number, graph, block)
        {
            return true;
        }
        i += 1;
    }
    false
}

/// Whether what is reached of a program raises or catches exceptions.
pub fn raises(known: Known<'_>) -> bool
    ensures { result ≡ spec.raises (the_known known.entry) }
{
    let mut i: usize = 0;
    for graph in known.graphs {
        if is_reached(known.annotation, graph.function)
            && graph_raises(known.annotation, i, graph)
        {
            return true;
        }
        i += 1;
    }
    false
}
