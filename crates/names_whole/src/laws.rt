// Laws of the whole, over all modules.
ghost use Rattle.std.specs.Prelude.{◌≡◌, ◌<◌, ◌≤◌, ◌+◌, ◌-◌, ◌*◌, ◌^◌, ◌++◌, ◌∷◌, ℕ, List, Result, length};
ghost use Rattle.std.specs.List.{AllByRecursion};
ghost use Rattle.rpy_nodes.specs.Listing.{listing};
ghost use Rattle.rpy_nodes.specs.declared.listing.Named.{Named};
ghost use Rattle.rpy_tree.specs.Places.{line_in};
ghost use Rattle.rpy_tree.specs.declared.program.Program.{Program};
ghost use Rattle.names_rules.specs.Entry.{entry};
ghost use Rattle.names_rules.specs.Laws.{IsCounted, number_in};
ghost use Rattle.names_rules.specs.Least.{least};
ghost use Rattle.names_rules.specs.Members.{members, module_nodes, modules_nodes};
ghost use Rattle.names_rules.specs.Program.{bound_faults};
ghost use Rattle.names_value.specs.Machine.{narrow};
ghost use Rattle.rpy_names.specs.Build.{entry_of, bind};
ghost use Rattle.rpy_names.specs.Place.{place};
ghost use Rattle.rpy_names.specs.Resolve as code;
ghost use Rattle.rpy_names.specs.declared.fault.NameRefusal.{NameRefusal};
ghost use Rattle.names_whole.specs.Classes.{classes};
ghost use Rattle.names_whole.specs.Functions.{functions};
ghost use Rattle.names_whole.specs.Program.{prog, namefault, IsAnswer};
ghost use Rattle.names_whole.specs.Sites.{sites};
ghost use Rattle.names_whole.specs.Whole.{as_entry, scopes, IsWithout};

/// The entry point is the first function of this name of the main module that has one plain parameter.
#[tactic(auto, using(crate::proofs::Entry::entry_is))]
pub fn entry_follows_the_rules()
    ensures { (ms : List Named) → entry_of (listing ms).units ≡ as_entry (entry (members ms)) }
{}

/// The names that are bound are those of the rules, with the bases that classes have; the fault is
/// the least of the names that are bound twice, of the imports, of the bases and of the clashes.
pub fn bound_faults_follow_the_rules()
    ensures scopes { (ms : List Named) → (bind (listing ms)).scopes ≡ scopes ms }
    ensures fault { (ms : List Named) → (bind (listing ms)).fault ≡ least (bound_faults ms) }
{}

/// What `resolve` tells is the least of the faults by the rules: of names that are bound or used, and
/// of what has to be constant. No entry point is told exactly where no fault stands and there is none.
/// There is a program exactly where nothing is told.
pub fn fault_follows_the_rules()
    ensures fault { (ms : List Named) → code.namefault ms ≡ namefault ms }
    ensures program { (ms : List Named) → IsWithout (code.prog ms) (code.namefault ms) }
{}

/// The program that `resolve` gives is that of the rules, in every part: names and modules as they
/// were, functions, classes with the constants and methods of their bodies, sites with what they hold
/// before the run, clauses, the entry point, and the use of each node. What meets the contract of
/// `resolve` is the answer of the rules: the program where nothing is told, else what is told.
pub fn program_follows_the_rules()
    ensures program { (ms : List Named) → code.prog ms ≡ prog ms }
    ensures answer { (ms : List Named) (r : Result Program NameRefusal) → code.IsResolved ms r → IsAnswer ms r }
{}

/// Where modules say how many nodes they have, `fault_place` gives of a node the module in which it
/// stands, and the line that the module has for it.
#[tactic(auto, using(crate::proofs::Places::place_is))]
pub fn fault_place_follows_the_numbering()
    ensures { (before rest : List Named) (m : Named) → AllByRecursion IsCounted (before ++ m ∷ rest) → (i : ℕ) → i < module_nodes m.module.members → place (before ++ m ∷ rest) (number_in before i) ≡ (length before, line_in m.module i) }
{}

/// A number below 2 ^ 32 - 1 is kept. A program has no more functions than nodes, no more classes than
/// nodes and the builtin ones, and no more sites than two for each node and that of the arguments: so
/// where modules have few nodes the numbers of all these are kept.
pub fn numbers_are_kept()
    ensures kept { (n : ℕ) → n < 2 ^ 32 - 1 → narrow n ≡ n }
    ensures functions { (ms : List Named) → length (functions ms) ≤ modules_nodes ms }
    ensures classes { (ms : List Named) → length (classes ms) ≤ 13 + modules_nodes ms }
    ensures sites { (ms : List Named) → length (sites ms) ≤ 1 + 2 * modules_nodes ms }
{}
