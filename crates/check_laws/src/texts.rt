// Laws of the checks of the program that texts are.
ghost use Rattle.std.specs.Prelude.{◌≡◌, ℕ, List, Some};
ghost use Rattle.rpy_tree.specs.declared.program.Program.{Program};
ghost use Rattle.rpy_nodes.specs.declared.listing.Named.{Named};
ghost use Rattle.rpy_names.specs.Resolve.{prog};
ghost use Rattle.rpy_front.specs.Modules.{AreModules};
ghost use Rattle.flow_graph.specs.declared.graph.Graphs.{Graphs};
ghost use Rattle.ann_element.specs.declared.annotation.Annotation as element;
ghost use Rattle.ann_tree.specs.Annotation.{Annotation};
ghost use Rattle.rpy_checked.specs.declared.fault.CheckFault.{CheckFault};
ghost use Rattle.rpy_checked.specs.declared.fault.CheckFault.TheVariants.{Typing};
ghost use Rattle.rpy_checked.specs.declared.fault.TypeKind.{TypeKind};
ghost use Rattle.rpy_checked.specs.Settles.{IsSmall, HasTypes, HasConflict, HasFault};
ghost use Rattle.check_laws.specs.Trees.{HasTrees, HasElements, ShowsNoFault, ShowsLeastFault, IsOfTrees, IsLeastOfTrees};

use crate::laws::{
    conflicts_leave_trees_without_annotation, faults_are_of_the_least_annotation_of_the_trees,
    nodes_have_the_elements_of_the_trees, the_least_fault_of_the_trees_is_told,
    types_are_of_the_least_annotation_of_the_trees, types_leave_trees_without_fault,
};
use names_forest::{classes_are_a_forest, programs_have_a_site};
use parse_nodes::modules_number_their_nodes;
use resolver_nodes::numbered_modules_have_apart_nodes;

/// Texts are modules and these make a program, whose numbers have room: then it has all that the laws of
/// trees ask. Its classes are a tree, it has a site, and no number is the node of two functions.
pub fn programs_of_texts_have_trees()
    ensures { (sources names : List (List ℕ)) (modules : List Named) (p : Program) (gs : Graphs) → AreModules sources names modules → prog modules ≡ Some p → IsSmall p gs → HasTrees p gs }
{
    classes_are_a_forest();
    programs_have_a_site();
    modules_number_their_nodes();
    numbered_modules_have_apart_nodes();
}

/// Where the checks find that the program has types, as `rpyc` ensures for status 0 of `check`, `annotate`,
/// `flow` and, but for programs of the first path, `build`, the annotation which they settled, read at the
/// nodes of the trees with bound names, is the least annotation of these trees. (Of `Answer.Annotates` the
/// premises are `make.are`, `make.is` and `annotates.types`; so it is of the other clauses.)
pub fn types_of_texts_are_of_the_least_annotation()
    ensures { (sources names : List (List ℕ)) (modules : List Named) (p : Program) (gs : Graphs) (n : element.Annotation) (types : HasTypes p gs n) → AreModules sources names modules → prog modules ≡ Some p → IsLeastOfTrees p gs types.stand types.state }
{
    programs_of_texts_have_trees();
    types_are_of_the_least_annotation_of_the_trees();
}

/// The elements of nodes that are answered are its elements.
pub fn nodes_have_the_elements_of_texts()
    ensures { (sources names : List (List ℕ)) (modules : List Named) (p : Program) (gs : Graphs) (n : element.Annotation) (types : HasTypes p gs n) → AreModules sources names modules → prog modules ≡ Some p → HasElements p gs n types.state }
{
    programs_of_texts_have_trees();
    nodes_have_the_elements_of_the_trees();
}

/// That annotation shows no fault of types.
pub fn types_leave_texts_without_fault()
    ensures { (sources names : List (List ℕ)) (modules : List Named) (p : Program) (gs : Graphs) (n : element.Annotation) (types : HasTypes p gs n) → AreModules sources names modules → prog modules ≡ Some p → ShowsNoFault p gs types.state }
{
    programs_of_texts_have_trees();
    types_leave_trees_without_fault();
}

/// Where a fault of types is told, for status 5, it is one of the least annotation of the trees.
pub fn faults_of_texts_are_of_the_least_annotation()
    ensures { (sources names : List (List ℕ)) (modules : List Named) (p : Program) (e : CheckFault) (fault : HasFault p e) → AreModules sources names modules → prog modules ≡ Some p → IsLeastOfTrees p fault.graphs fault.stand fault.state }
{
    programs_of_texts_have_trees();
    faults_are_of_the_least_annotation_of_the_trees();
}

/// It is the least that this annotation shows, told by the file and the line of its node, and its kind.
pub fn the_least_fault_of_texts_is_told()
    ensures { (sources names : List (List ℕ)) (modules : List Named) (p : Program) (file line : ℕ) (k : TypeKind) (fault : HasFault p (Typing file line k)) → AreModules sources names modules → prog modules ≡ Some p → ShowsLeastFault p fault.graphs fault.state file line k }
{
    programs_of_texts_have_trees();
    the_least_fault_of_the_trees_is_told();
}

/// Where a conflict is shown, for status 4, the trees have no annotation.
pub fn conflicts_leave_texts_without_annotation()
    ensures { (sources names : List (List ℕ)) (modules : List Named) (p : Program) (e : CheckFault) (conflict : HasConflict p e) → AreModules sources names modules → prog modules ≡ Some p → (a : Annotation) → IsOfTrees p conflict.graphs conflict.stand a → ⊥ }
{
    programs_of_texts_have_trees();
    conflicts_leave_trees_without_annotation();
}
