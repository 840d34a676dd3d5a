// The rules that a program keeps.
ghost use Rattle.std.specs.Prelude.{◌≡◌, slice_get};
ghost use Rattle.ll_code.specs.Typed as spec;

mod exits;
mod graphs;
mod operands;
mod operations;
mod statics;
mod types;

use crate::program::{LlGraph, LlProgram};

fn begins_run(graphs: &[LlGraph], entry: u64) -> bool
    ensures { result ≡ spec.begins_run (slice_get graphs.now entry) }
{
    match graphs.get(entry as usize) {
        None => false,
        Some(graph) => graph.params.is_empty() && types::is_signed(graph.result),
    }
}

/// Whether a program is well typed: its variables, operands, links, structs, statics, numbers and
/// names keep the rules of C files; its entry takes nothing and gives a word; blocks are freed at
/// the stage `Counted` alone, and exceptions leave calls by exits at the stage `Raw` alone.
pub fn well_typed(program: &LlProgram) -> bool
    ensures { result ≡ spec.well_typed program.now }
{
    types::structs_ok(program.structs.as_slice())
        && statics::statics_ok(program, program.statics.as_slice())
        && graphs::graphs_ok(program, program.graphs.as_slice())
        && begins_run(program.graphs.as_slice(), program.entry)
}
