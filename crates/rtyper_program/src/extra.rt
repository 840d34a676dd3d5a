// The blocks that are made behind those of the graph.
ghost use Rattle.std.specs.Prelude.{◌≡◌, [], IfOk};
ghost use Rattle.rtyper_program.specs.Handlers as spec;
ghost use Rattle.rtyper_program.specs.Handlers.{Adds};

use crate::live::as_operands;
use ll_code::{LlBlock, LlLink};
use rpy_base::{NoMem, Seq};
use std::alloc::Global;

/// The blocks that are made behind those of the graph, of which there are so many.
#[derive(Drop)]
pub struct Extra {
    pub first: u64,
    pub blocks: Seq<LlBlock>,
}

/// One more block, and the link to that.
pub fn push_block(alloc: Global, block: LlBlock, extra: &mut Extra) -> Result<LlLink, NoMem>
    ensures { IfOk result (λ link. Adds (spec.added block extra.old) link extra.new) }
{
    let args = as_operands(alloc, block.inputs.as_slice())?;
    let to = extra.first.saturating_add(extra.blocks.len() as u64);
    extra.blocks.push(block)?;
    Ok(LlLink { to, args })
}
