// Laws of the rules, over all modules.
ghost use Rattle.std.specs.Prelude.{◌≡◌, ◌<◌, ℕ, List, ◌∷◌, ◌++◌, Option};
ghost use Rattle.std.specs.List.{AllByRecursion};
ghost use Rattle.rpy_nodes.specs.Listing.{listing};
ghost use Rattle.rpy_nodes.specs.declared.listing.Named.{Named};
ghost use Rattle.rpy_tree.specs.Places.{node_count};
ghost use Rattle.names_bound.specs.declared.scopes.Scopes.{Scopes};
ghost use Rattle.names_found.specs.Units.{find_units};
ghost use Rattle.names_found.specs.declared.finder.Finder.{Finder};
ghost use Rattle.names_rules.specs.Listed.{whole, names_of, module_names};
ghost use Rattle.names_rules.specs.Members.{module_nodes, modules_nodes, members};
ghost use Rattle.names_rules.specs.ProgramSites.{sites_of};
ghost use Rattle.names_rules.specs.Locals.{Has, IsKnown, HasLocals};
ghost use Rattle.rpy_nodes.specs.Names.{number};
ghost use Rattle.names_bound.specs.Declare.{declared};
ghost use Rattle.names_rules.specs.Bindings.{bindings, class_bindings};
ghost use Rattle.names_rules.specs.Bound.{entries};
ghost use Rattle.names_rules.specs.Scopes.{FindsAlike, member};
ghost use Rattle.names_bound.specs.Scopes as scopes;
ghost use Rattle.names_bound.specs.declared.stand.Stand.{Stand};
ghost use Rattle.names_rules.specs.Words as words;
ghost use Rattle.names_bound.specs.Known as bound;
ghost use Rattle.names_bound.specs.Fault.{lesser};
ghost use Rattle.names_bound.specs.declared.fault.Fault.{Fault};
ghost use Rattle.names_rules.specs.Least.{IsTold, least};
ghost use Rattle.names_bound.specs.Imports.{faults};
ghost use Rattle.names_rules.specs.Missing.{missing};
ghost use Rattle.names_bound.specs.Base as base;
ghost use Rattle.names_rules.specs.Bases as bases;
ghost use Rattle.names_bound.specs.Clash as clash;
ghost use Rattle.names_rules.specs.Clashes as clashes;
ghost use Rattle.names_rules.specs.Twice.{twices};
ghost use Rattle.names_rules.specs.Used.{used};
ghost use Rattle.names_rules.specs.Laws.{modules, IsCounted, StandsIn};

/// What the code lists of modules are their members in order, each with the node, the parts and the
/// names that the rules give it.
#[tactic(auto, using(crate::proofs::Modules::listing_is))]
pub fn listing_follows_the_rules()
    ensures { (ms : List Named) → listing ms ≡ whole ms }
{}

/// Where modules say how many nodes they have, files, lines and counts of nodes are those of the
/// numbering.
#[tactic(auto, using(crate::proofs::Places::counts))]
pub fn places_follow_the_numbering()
    ensures count { (ms : List Named) → AllByRecursion IsCounted ms → node_count (modules ms) ≡ modules_nodes ms }
    ensures place { (before rest : List Named) (m : Named) → AllByRecursion IsCounted (before ++ m ∷ rest) → (i : ℕ) → i < module_nodes m.module.members → StandsIn before m rest i }
{}

/// The sites that the code finds, after those that it has, are those of the rules: in node order,
/// of the walk of each loop too.
pub fn sites_follow_the_rules()
    ensures { (ms : List Named) (scopes : Scopes) (w : Finder) → (find_units scopes (listing ms).units w).1.sites ≡ w.sites ++ sites_of (names_of ms) scopes (members ms) }
{}

/// All names that members say stand in the table of the program, where no two have one number.
pub fn names_have_numbers()
    ensures known { (ms : List Named) → AllByRecursion (IsKnown (names_of ms)) (members ms) }
    ensures apart { (names : List (List ℕ)) (a b : List ℕ) → Has names a → number names a ≡ number names b → a ≡ b }
{}

/// The locals that the code finds of each function are those of the rules, in their order.
pub fn locals_follow_the_rules()
    ensures { (ms : List Named) → AllByRecursion (HasLocals (names_of ms)) (members ms) }
{}

/// What a name stands for that neither a function nor a module binds, and whether it may not be bound,
/// is looked up by its number as by its text.
pub fn words_follow_the_table()
    ensures known { (ms : List Named) (name : List ℕ) → bound.known (number (names_of ms) name) ≡ words.known name }
    ensures fixed { (ms : List Named) (name : List ℕ) → bound.is_fixed (number (names_of ms) name) ≡ words.is_fixed name }
{}

/// The tables of the names of modules and of class bodies have what the rules bind, in the same order:
/// imports, constants, functions and classes, each numbered among those of its kind.
pub fn bindings_follow_the_rules()
    ensures modules { (ms : List Named) → (declared (listing ms).modules (listing ms).units).bindings ≡ entries (names_of ms) (bindings (module_names ms) (members ms)) }
    ensures classes { (ms : List Named) → (declared (listing ms).modules (listing ms).units).members ≡ entries (names_of ms) (class_bindings (members ms)) }
{}

/// What a name of a module is, what a module has under it, whether it is bound only later, and what
/// it is after a dot, are found by the number of the name as the rules find them by its text.
pub fn scopes_follow_the_rules()
    ensures modules { (ms : List Named) (s : Scopes) → s.bindings ≡ (declared (listing ms).modules (listing ms).units).bindings → (file : ℕ) (name : List ℕ) → Has (names_of ms) name → FindsAlike (names_of ms) (bindings (module_names ms) (members ms)) s file name }
    ensures after_a_dot { (ms : List Named) (s : Scopes) → s.bindings ≡ (declared (listing ms).modules (listing ms).units).bindings → s.members ≡ (declared (listing ms).modules (listing ms).units).members → (of : Stand) (name : List ℕ) → Has (names_of ms) name → scopes.member s of (number (names_of ms) name) ≡ member (bindings (module_names ms) (members ms)) (class_bindings (members ms)) s.bases of name }
{}

/// Of several faults the one at the smallest node is told, and of two at one node the one with the
/// smaller number: there is one such fault, and it is the lesser of those of two parts.
pub fn least_fault_is_told()
    ensures told { (fs : List Fault) → IsTold fs (least fs) }
    ensures one { (fs : List Fault) (o p : Option Fault) → IsTold fs o → IsTold fs p → o ≡ p }
    ensures beside { (fs gs : List Fault) → least (fs ++ gs) ≡ lesser (least fs) (least gs) }
{}

/// The fault of what the code declares is the least of the names that the rules find bound twice, in
/// a module or in the body of a class, or bound where they may not be.
#[tactic(auto, using(crate::proofs::Twice::twices_are))]
pub fn twice_follows_the_rules()
    ensures { (ms : List Named) → (declared (listing ms).modules (listing ms).units).fault ≡ least (twices (module_names ms) (members ms)) }
{}

/// The fault of imports is the least of those that the rules find: a module that is not given, a name
/// that its module lacks.
#[tactic(auto, using(crate::proofs::Missing::missing_are))]
pub fn imports_follow_the_rules()
    ensures { (ms : List Named) (s : Scopes) → s.bindings ≡ (declared (listing ms).modules (listing ms).units).bindings → faults s (listing ms).modules (listing ms).units ≡ least (missing (module_names ms) (bindings (module_names ms) (members ms)) (members ms)) }
{}

/// The base that each class names, and those that are left without the rings, are those of the rules;
/// the fault of bases is the least of those that the rules find.
pub fn bases_follow_the_rules()
    ensures named { (ms : List Named) (s : Scopes) → s.bindings ≡ (declared (listing ms).modules (listing ms).units).bindings → s.members ≡ (declared (listing ms).modules (listing ms).units).members → base.class_bases s (declared (listing ms).modules (listing ms).units).classes (listing ms).units ≡ bases.named (bindings (module_names ms) (members ms)) (class_bindings (members ms)) s.bases (bases.classes (members ms)) }
    ensures rings { (named : List (Option ℕ)) → base.without_rings named ≡ bases.without_rings named }
    ensures faults { (ms : List Named) (s : Scopes) (named : List (Option ℕ)) → s.bindings ≡ (declared (listing ms).modules (listing ms).units).bindings → s.members ≡ (declared (listing ms).modules (listing ms).units).members → base.base_faults s named (declared (listing ms).modules (listing ms).units).classes (listing ms).units ≡ least (bases.bad_bases (bindings (module_names ms) (members ms)) (class_bindings (members ms)) s.bases named (bases.classes (members ms))) }
{}

/// The fault of classes that have one name as a method and as an attribute is the least of those that
/// the rules find, whatever the bases are.
#[tactic(auto, using(crate::proofs::Clashes::clashes_are))]
pub fn clashes_follow_the_rules()
    ensures { (ms : List Named) (named : List (Option ℕ)) → clash.clash_faults named (clash.clashing (declared (listing ms).modules (listing ms).units).attributes (declared (listing ms).modules (listing ms).units).methods named) (declared (listing ms).modules (listing ms).units).classes (listing ms).units ≡ least (clashes.clashing (clashes.attributes (members ms)) (clashes.methods (members ms)) named (bases.classes (members ms))) }
{}

/// The fault of names in expressions and bodies, and of parameters, after the one so far, is the least
/// of those that the rules find.
#[tactic(auto, using(crate::proofs::Used::used_are))]
pub fn uses_follow_the_rules()
    ensures { (ms : List Named) (s : Scopes) (w : Finder) → s.bindings ≡ (declared (listing ms).modules (listing ms).units).bindings → s.members ≡ (declared (listing ms).modules (listing ms).units).members → (find_units s (listing ms).units w).1.fault ≡ lesser w.fault (least (used (bindings (module_names ms) (members ms)) (class_bindings (members ms)) s.bases (members ms))) }
{}
