// Laws of classes, over all modules.
ghost use Rattle.std.specs.Prelude.{◌≡◌, ◌<◌, ◌≤◌, ◌+◌, ◌-◌, ◌^◌, ℕ, true, List, Some, length};
ghost use Rattle.class_desc.specs.Range.{IsForest};
ghost use Rattle.rpy_nodes.specs.declared.listing.Named.{Named};
ghost use Rattle.rpy_tree.specs.declared.program.Program.{Program};
ghost use Rattle.rpy_meaning.specs.Classes.{is_below};
ghost use Rattle.rpy_meaning.specs.Operations.{builtin_classes};
ghost use Rattle.rpy_meaning.specs.Resolved.{Further, program_of};
ghost use Rattle.rpy_resolved.specs.Count.{function_count};
ghost use Rattle.names_rules.specs.Members.{modules_nodes};
ghost use Rattle.names_whole.specs.Classes.{classes};
ghost use Rattle.rpy_names.specs.Resolve.{prog};

/// The bases of the classes of each program are classes, and lead to no class twice: from each class on
/// they come to an end. So it is in every program that `resolve` gives. There are fewer classes than
/// numbers.
pub fn classes_are_a_forest()
    ensures rules { (ms : List Named) → length (classes ms) < 2 ^ 32 - 1 → IsForest (classes ms) }
    ensures programs { (ms : List Named) (p : Program) → prog ms ≡ Some p → length p.classes < 2 ^ 32 - 1 → IsForest p.classes }
{}

/// In the program that the meaning makes of each program that `resolve` gives, whatever is said further of
/// it, the builtin exception classes stand below `Exception`, the first of them.
pub fn builtins_stand_below_exception()
    ensures { (ms : List Named) (p : Program) → prog ms ≡ Some p → (further : Further) (class : ℕ) → class < builtin_classes → is_below (program_of p further).classes class 0 ≡ true }
{}

/// Each program that `resolve` gives has a site, and so has the program that the meaning makes of it.
pub fn programs_have_a_site()
    ensures program { (ms : List Named) (p : Program) → prog ms ≡ Some p → 0 < length p.sites }
    ensures meant { (ms : List Named) (p : Program) → prog ms ≡ Some p → (further : Further) → 0 < length (program_of p further).sites }
{}

/// Each program that `resolve` gives has no more classes than its modules have nodes, and the builtin ones.
pub fn programs_have_few_classes()
    ensures { (ms : List Named) (p : Program) → prog ms ≡ Some p → length p.classes ≤ 13 + modules_nodes ms }
{}

/// Each program that `resolve` gives has as many functions as its modules define, in their bodies and in
/// those of their classes.
pub fn programs_have_their_functions()
    ensures { (ms : List Named) (p : Program) → prog ms ≡ Some p → length p.functions ≡ function_count p.modules }
{}
