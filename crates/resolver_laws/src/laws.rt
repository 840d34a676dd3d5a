// Laws of programs that are resolved part by part.
ghost use Rattle.std.specs.Prelude.{◌≡◌, ◌≤◌, ℕ, map, length};
ghost use Rattle.rpy_tree.specs.declared.program.Program.{Program};
ghost use Rattle.rpy_resolved.specs.Count.{function_count};
ghost use Rattle.rpy_resolved.specs.Label.{class_labels};
ghost use Rattle.rpy_resolved.specs.declared.tree.Resolved.{Resolved};
ghost use Rattle.resolved_meaning.specs.Programs.{class_of};
ghost use Rattle.resolved_meaning.specs.Trees.{program_of};
ghost use Rattle.resolved_laws.specs.Meant.{meant_by};
ghost use Rattle.resolved_laws.specs.Uncopied.{uncopied};
ghost use Rattle.resolver_laws.specs.Listing.{tree_in, numbered, module_pairs, named_from, HasNoInnerClasses};

/// A resolved program whose functions, classes, sites and entry are made one by one of those of a program is,
/// without the copies of checked operations, the program that the meaning makes of it: where no class stands
/// within a class, and there are at least as many functions as the modules count.
pub fn parts_make_the_program()
    ensures { (p : Program) (r : Resolved) → map (tree_in p) r.functions ≡ numbered p.functions 0 (module_pairs p 0 p.modules) → map (class_of p.sites) r.classes ≡ named_from p (class_labels p) 0 p.classes → r.sites ≡ p.sites → r.entry ≡ p.entry → HasNoInnerClasses p.modules → function_count p.modules ≤ length p.functions → uncopied (program_of r) ≡ meant_by p }
{}

/// The functions that are taken from modules one by one are as many as the modules count.
pub fn numbered_functions_are_all()
    ensures { (p : Program) (first : ℕ) → length (module_pairs p first p.modules) ≡ function_count p.modules }
{}
