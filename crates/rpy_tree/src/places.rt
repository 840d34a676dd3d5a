// Where the nodes of a program stand. They are those of its modules, one after the other.
ghost use Rattle.std.specs.Prelude.{◌≡◌, ◌<◌, ◌^◌, length};
ghost use Rattle.rpy_tree.specs.Places as spec;

use crate::program::Program;
use crate::syntax::{Module, NodeId};

fn count(modules: &[Module]) -> u32
    requires { spec.node_count modules.now < 2 ^ 32 }
    ensures { result ≡ spec.node_count modules.now }
{
    let mut count = 0;
    for module in modules {
        count += module.nodes;
    }
    count
}

fn file(modules: &[Module], node: NodeId) -> u32
    requires { length modules.now < 2 ^ 32 }
    ensures { result ≡ spec.node_file modules.now node }
{
    let mut node = node;
    for (place, module) in modules.iter().enumerate() {
        if node < module.nodes {
            return place as u32;
        }
        node -= module.nodes;
    }
    modules.len() as u32
}

/// The line of a node of a module, from 1; 0 where it has no such node.
pub fn line_in(of: &Module, node: NodeId) -> u32
    ensures { result ≡ spec.line_in of.now node }
{
    match of.lines.get(node as usize) {
        None => 0,
        Some(line) => *line,
    }
}

fn line(modules: &[Module], node: NodeId) -> u32
    ensures { result ≡ spec.node_line modules.now node }
{
    let mut node = node;
    for module in modules {
        if node < module.nodes {
            return line_in(module, node);
        }
        node -= module.nodes;
    }
    0
}

impl Program {
    /// How many nodes the modules have together.
    pub fn node_count(&self) -> u32
        requires { spec.node_count self.now.modules < 2 ^ 32 }
        ensures { result ≡ spec.node_count self.now.modules }
    {
        count(self.modules.as_slice())
    }

    /// The place of the file of a node.
    pub fn node_file(&self, node: NodeId) -> u32
        requires { length self.now.modules < 2 ^ 32 }
        ensures { result ≡ spec.node_file self.now.modules node }
    {
        file(self.modules.as_slice(), node)
    }

    /// The line of a node, from 1.
    pub fn node_line(&self, node: NodeId) -> u32
        ensures { result ≡ spec.node_line self.now.modules node }
    {
        line(self.modules.as_slice(), node)
    }
}
