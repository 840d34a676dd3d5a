// A program whose exceptions can be made explicit.
ghost use Rattle.std.specs.Prelude.{◌≡◌, IfOk};
ghost use Rattle.exc_ready.specs.Raisable as spec;

use crate::raisable::graphs_raisable;
use exc_transform::{Raising, any_marked, family_of, is_marked, raising_graphs};
use ll_code::LlProgram;
use rpy_base::NoMem;
use std::alloc::Global;

/// Whether the exceptions of a program can be made explicit, but for its types.
pub fn is_raisable(alloc: Global, program: &LlProgram) -> Result<bool, NoMem>
    ensures { IfOk result (λ yes. yes ≡ spec.is_raisable program.now) }
{
    let graphs = program.graphs.as_slice();
    let family = family_of(program.structs.as_slice(), graphs);
    let marks = raising_graphs(alloc, graphs)?;
    let raising = Raising {
        graphs: marks.as_slice(),
        any: any_marked(marks.as_slice()),
    };
    let raisable = graphs_raisable(alloc, raising, family.root, graphs)?;
    Ok(raisable && !is_marked(marks.as_slice(), program.entry))
}
