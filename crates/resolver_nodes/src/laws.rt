// A law of the nodes of modules.
ghost use Rattle.std.specs.Prelude.{◌<◌, ◌^◌, List};
ghost use Rattle.rpy_tree.specs.Places.{node_count};
ghost use Rattle.rpy_tree.specs.declared.syntax.Module.{Module};
ghost use Rattle.resolver_laws.specs.Made.{HaveApartNodes};
ghost use Rattle.resolver_nodes.specs.Numbered.{AreNumbered};

/// Where in each module a number is the node of one expression or target of its functions at most, and of none
/// if it is not below the count of the module's nodes, and modules have fewer than 2^32 nodes, no number is the
/// node of expressions or targets of two functions.
pub fn numbered_modules_have_apart_nodes()
    ensures { (modules : List Module) → AreNumbered modules → node_count modules < 2 ^ 32 → HaveApartNodes modules }
{}
