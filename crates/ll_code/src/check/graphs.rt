// Graphs.
ghost use Rattle.std.specs.Prelude.{◌≡◌, slice_get};
ghost use Rattle.csub_tree.specs.Checked.{is_name_byte as is_a_name_byte, is_name as is_a_name};
ghost use Rattle.ll_code.specs.Typed as spec;

use crate::check::exits::exit_ok;
use crate::check::operands::type_of;
use crate::check::operations::operations_ok;
use crate::check::types::{are_kinds, is_kind, is_type_given};
use crate::program::{LlBlock, LlGraph, LlProgram, VarId};

fn is_name_byte(byte: u8) -> bool
    ensures { result ≡ is_a_name_byte byte }
{
    (97 <= byte && byte <= 122)
        || (65 <= byte && byte <= 90)
        || (48 <= byte && byte <= 57)
        || byte == 95
        || byte == 46
}

fn is_name(bytes: &[u8]) -> bool
    ensures { result ≡ is_a_name bytes.now }
{
    for byte in bytes {
        if !is_name_byte(*byte) {
            return false;
        }
    }
    true
}

fn block_ok(program: &LlProgram, graph: &LlGraph, block: &LlBlock) -> bool
    ensures { result ≡ spec.block_ok program.now graph.now block.now }
{
    operations_ok(program, graph, block.ops.as_slice()) && exit_ok(program, graph, &block.exit)
}

fn blocks_ok(program: &LlProgram, graph: &LlGraph, blocks: &[LlBlock]) -> bool
    ensures { result ≡ spec.blocks_ok program.now graph.now blocks.now }
{
    for block in blocks {
        if !block_ok(program, graph, block) {
            return false;
        }
    }
    true
}

// The parameters are the first variables, and each has a type.
fn params_ok(program: &LlProgram, graph: &LlGraph, params: &[VarId]) -> bool
    ensures { result ≡ spec.params_ok program.now graph.now.types 0 params.now }
{
    for i in 0..params.len() {
        if params[i] != i as u64
            || !is_type_given(program.structs.as_slice(), type_of(graph, params[i]))
        {
            return false;
        }
    }
    true
}

fn graph_ok(program: &LlProgram, graph: &LlGraph) -> bool
    ensures { result ≡ spec.graph_ok program.now graph.now }
{
    is_name(graph.name.bytes())
        && are_kinds(program.structs.as_slice(), graph.types.as_slice())
        && is_kind(program.structs.as_slice(), graph.result)
        && params_ok(program, graph, graph.params.as_slice())
        && 0 < graph.blocks.len()
        && blocks_ok(program, graph, graph.blocks.as_slice())
}

pub fn graphs_ok(program: &LlProgram, graphs: &[LlGraph]) -> bool
    ensures { result ≡ spec.graphs_ok program.now graphs.now }
{
    for graph in graphs {
        if !graph_ok(program, graph) {
            return false;
        }
    }
    true
}
