// Laws of the trees that are made of programs.
ghost use Rattle.std.specs.Prelude.{◌≡◌, ℕ, length, slice_get, Some};
ghost use Rattle.rpy_tree.specs.declared.program.Program.{Program};
ghost use Rattle.rpy_resolved.specs.declared.tree.Resolved.{Resolved};
ghost use Rattle.resolver_laws.specs.Made.{IsMadeOf, HaveApartNodes};
ghost use Rattle.flow_graph.specs.declared.graph.Graphs.{Graphs};
ghost use Rattle.flow_trees.specs.Tree.{Function};
ghost use Rattle.flow_space.specs.Trees.{functions_of};
ghost use Rattle.class_desc.specs.Tables.{Tables};
ghost use Rattle.ann_rules.specs.Program.{Callee};
ghost use Rattle.ann_needs.specs.View.{whole};
ghost use Rattle.ann_layout.specs.Layout.{plan};
ghost use Rattle.ann_read.specs.Plain.{AllReturnPlainly};
ghost use Rattle.ann_read.specs.Sound.{AreSound};

/// The callees of a program are the functions of the trees that are made of it: each has as many
/// parameters with their defaults, and takes more where its function does.
pub fn callees_have_their_parameters()
    ensures { (p : Program) (gs : Graphs) (t : Tables) (r : Resolved) → IsMadeOf p r → (f : ℕ) (function : Function) → slice_get (functions_of r) f ≡ Some function → (c : Callee) × (slice_get (whole (plan p gs t)).callees f ≡ Some c) × (length c.defaults ≡ length function.defaults) × (c.star ≡ function.takes_more) }
{}

/// No function of the trees that are made of a program gives back what only says what a test found.
pub fn made_functions_return_plainly()
    ensures { (p : Program) (r : Resolved) → IsMadeOf p r → (f : ℕ) (function : Function) → slice_get (functions_of r) f ≡ Some function → AllReturnPlainly function.body }
{}

/// Where no number is the node of two functions of a program, the trees that are made of it are as the law
/// of annotations at nodes asks.
pub fn made_trees_are_sound()
    ensures { (p : Program) (gs : Graphs) (t : Tables) (r : Resolved) → IsMadeOf p r → HaveApartNodes p.modules → AreSound (whole (plan p gs t)) (functions_of r) }
{}
