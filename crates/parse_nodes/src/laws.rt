// A law of the numbers of nodes, whatever module tokens are.
ghost use Rattle.std.specs.Prelude.{ℕ, ◌≤◌, ◌^◌};
ghost use Rattle.rpy_tree.specs.declared.syntax.Module.{Module};
ghost use Rattle.rpy_parse.specs.Input.{Input};
ghost use Rattle.rpy_parse.specs.Modules.{IsModule};
ghost use Rattle.resolver_nodes.specs.Numbered.{IsNumbered};

/// In a module that tokens are, and that has at most 2^32 nodes, a number is the node of one expression or
/// target of its functions at most, and of none if it is not below the count of the module's nodes.
pub fn modules_number_their_nodes()
    ensures { (ts : Input) (m : Module) → IsModule ts m → m.nodes ≤ 2 ^ 32 → IsNumbered m }
{}
