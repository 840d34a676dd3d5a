// The transform.
ghost use Rattle.std.specs.Prelude.{◌≡◌, IfOk};
ghost use Rattle.exc_transform.specs.Explicit as spec;
ghost use Rattle.exc_transform.specs.Pieces as p;

use crate::blocks::graph_of;
use crate::calm::graphs_calm;
use crate::family::family_of;
use crate::raising::{Raising, any_marked, raising_graphs};
use ll_code::{LlGraph, LlProgram, LlStage, LlStruct};
use rpy_base::{NoMem, Seq};
use std::alloc::Global;

fn graphs_of(alloc: Global, structs: &[LlStruct], graphs: &[LlGraph]) -> Result<Seq<LlGraph>, NoMem>
    ensures { IfOk result (λ made. made ≡ p.graphs_of structs.now graphs.now) }
{
    let family = family_of(structs, graphs);
    let marks = raising_graphs(alloc, graphs)?;
    let raising = Raising {
        graphs: marks.as_slice(),
        any: any_marked(marks.as_slice()),
    };
    let mut made = Seq::new(alloc);
    for graph in graphs {
        made.push(graph_of(alloc, family, raising, graph)?)?;
    }
    Ok(made)
}

// Graphs in which nothing raises stay as they are.
fn explicit_graphs(
    alloc: Global,
    structs: &[LlStruct],
    graphs: Seq<LlGraph>,
) -> Result<Seq<LlGraph>, NoMem>
    ensures { IfOk result (λ made. made ≡ p.explicit_graphs structs.now graphs) }
{
    if graphs_calm(graphs.as_slice()) {
        return Ok(graphs);
    }
    graphs_of(alloc, structs, graphs.as_slice())
}

/// A program of the stage `Explicit` that means what a program of the stage `Raw` does.
#[tactic(auto, using(crate::proofs::Without::explicit_same))]
pub fn make_explicit(alloc: Global, program: LlProgram) -> Result<LlProgram, NoMem>
    ensures exact { IfOk result (λ made. made ≡ p.explicit program) }
    ensures calm { IfOk result spec.IsWithoutExceptions }
    ensures same { IfOk result (λ made. spec.IsWithoutExceptions program → made ≡ spec.restaged program) }
    ensures kept { IfOk result (spec.Keeps program) }
{
    let LlProgram {
        structs,
        statics,
        graphs,
        entry,
        ..
    } = program;
    let graphs = explicit_graphs(alloc, structs.as_slice(), graphs)?;
    Ok(LlProgram {
        stage: LlStage::Explicit,
        structs,
        statics,
        graphs,
        entry,
    })
}
