// Where a node of modules stands.
ghost use Rattle.std.specs.Prelude.{◌≡◌, IfOk};
ghost use Rattle.rpy_names.specs.Place as spec;

use rpy_base::NoMem;
use rpy_nodes::Named;
use rpy_tree::{NodeId, line_in};
use std::alloc::Global;

/// The place of the file of a node, and its line.
pub fn fault_place(_alloc: Global, modules: &[Named], node: NodeId) -> Result<(u32, u32), NoMem>
    ensures { IfOk result (λ place. place ≡ spec.place modules.now node) }
{
    let mut node = node;
    let mut file = 0;
    for of in modules {
        if node < of.module.nodes {
            return Ok((file, line_in(&of.module, node)));
        }
        node -= of.module.nodes;
        if file == u32::MAX {
            return Err(NoMem);
        }
        file += 1;
    }
    Ok((file, 0))
}
