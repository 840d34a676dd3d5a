// Laws of modules, whatever tokens or texts they are.
ghost use Rattle.std.specs.Prelude.{ℕ, List, [], ◌∷◌};
ghost use Rattle.rpy_tree.specs.declared.syntax.Module.{Module};
ghost use Rattle.rpy_parse.specs.Input.{Input};
ghost use Rattle.rpy_parse.specs.Modules.{IsModule};
ghost use Rattle.rpy_nodes.specs.declared.listing.Named.{Named};
ghost use Rattle.rpy_names.specs.Place.{modules_of};
ghost use Rattle.resolver_laws.specs.Listing.{HasNoInnerClasses};
ghost use Rattle.rpy_front.specs.Modules.{AreModules};

/// In a module that tokens are no class stands within a class, and so it is in all modules of texts.
pub fn modules_have_no_inner_classes()
    ensures tokens { (ts : Input) (m : Module) → IsModule ts m → HasNoInnerClasses (m ∷ []) }
    ensures texts { (sources names : List (List ℕ)) (ms : List Named) → AreModules sources names ms → HasNoInnerClasses (modules_of ms) }
{}
