// Laws of constants, over all modules.
ghost use Rattle.std.specs.Prelude.{◌≡◌, ℕ, List, [], ◌∷◌, length, Option};
ghost use Rattle.rpy_tree.specs.declared.program.Const.{Const};
ghost use Rattle.rpy_nodes.specs.Listing.{listing};
ghost use Rattle.rpy_nodes.specs.declared.listing.Named.{Named};
ghost use Rattle.names_bound.specs.Declare.{declared};
ghost use Rattle.names_bound.specs.declared.fault.Fault.{Fault};
ghost use Rattle.names_bound.specs.declared.scopes.Scopes.{Scopes};
ghost use Rattle.names_found.specs.Finder.{add_fault, start};
ghost use Rattle.names_found.specs.Units.{find_units};
ghost use Rattle.names_found.specs.declared.step.SiteAt.{SiteAt};
ghost use Rattle.names_rules.specs.Bindings.{Binding, bindings, class_bindings};
ghost use Rattle.names_rules.specs.Least.{least};
ghost use Rattle.names_rules.specs.Listed.{module_names};
ghost use Rattle.names_rules.specs.Members.{members};
ghost use Rattle.names_value.specs.Constants.{constant_values, bad_constants};
ghost use Rattle.names_constants.specs.Constants as rule;
ghost use Rattle.names_constants.specs.Constants.{Constant};
ghost use Rattle.names_constants.specs.Least.{AllBelow};

/// The values that the rounds of the code end with are those of the rules: of constants by those that
/// they name, however deep. The fault of constants is the least of those that the rules find: in
/// constants, defaults, steps of ranges and first arguments of os.write. The constant expressions
/// that the code tells with their values are those of the rules.
pub fn constants_follow_the_rules()
    ensures values { (ms : List Named) (s : Scopes) → s.bindings ≡ (declared (listing ms).modules (listing ms).units).bindings → s.members ≡ (declared (listing ms).modules (listing ms).units).members → (entry : SiteAt) (f : Option Fault) → (constant_values (listing ms).names (find_units s (listing ms).units (add_fault f (start entry))).0 (declared (listing ms).modules (listing ms).units).constants).constants ≡ rule.values (bindings (module_names ms) (members ms)) (class_bindings (members ms)) s.bases (rule.constants (bindings (module_names ms) (members ms)) (class_bindings (members ms)) s.bases (entry ∷ []) (members ms)) }
    ensures faults { (ms : List Named) (s : Scopes) → s.bindings ≡ (declared (listing ms).modules (listing ms).units).bindings → s.members ≡ (declared (listing ms).modules (listing ms).units).members → (entry : SiteAt) (f : Option Fault) → (bad_constants (listing ms).names (constant_values (listing ms).names (find_units s (listing ms).units (add_fault f (start entry))).0 (declared (listing ms).modules (listing ms).units).constants).constants (find_units s (listing ms).units (add_fault f (start entry))).0 (declared (listing ms).modules (listing ms).units).constants).fault ≡ least (rule.bad_constants (bindings (module_names ms) (members ms)) (class_bindings (members ms)) s.bases (entry ∷ []) (members ms)) }
    ensures roots { (ms : List Named) (s : Scopes) → s.bindings ≡ (declared (listing ms).modules (listing ms).units).bindings → s.members ≡ (declared (listing ms).modules (listing ms).units).members → (entry : SiteAt) (f : Option Fault) → (bad_constants (listing ms).names (constant_values (listing ms).names (find_units s (listing ms).units (add_fault f (start entry))).0 (declared (listing ms).modules (listing ms).units).constants).constants (find_units s (listing ms).units (add_fault f (start entry))).0 (declared (listing ms).modules (listing ms).units).constants).roots ≡ rule.roots (bindings (module_names ms) (members ms)) (class_bindings (members ms)) s.bases (entry ∷ []) (members ms) }
{}

/// The values of constants give themselves, and are the least that do: whatever values give no more
/// than themselves have all of them.
pub fn values_are_the_least()
    ensures given { (bs cs : List Binding) (bases : List (Option ℕ)) (all : List Constant) → rule.values bs cs bases all ≡ rule.all_values bs cs bases all (rule.values bs cs bases all) }
    ensures least { (bs cs : List Binding) (bases : List (Option ℕ)) (all : List Constant) (V : List (Option Const)) → length V ≡ length all → AllBelow (rule.all_values bs cs bases all V) V → AllBelow (rule.values bs cs bases all) V }
{}
