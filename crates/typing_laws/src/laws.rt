// Laws of faults of types.
ghost use Rattle.std.specs.Prelude.{◌≡◌, ◌≤◌, true, false, [], ◌∷◌, codes, Some, None};
ghost use Rattle.rpy_tree.specs.declared.program.Program.{Program};
ghost use Rattle.flow_graph.specs.declared.graph.Graphs.{Graphs};
ghost use Rattle.class_desc.specs.Tables.{Tables};
ghost use Rattle.ann_element.specs.declared.annotation.Annotation.{Annotation};
ghost use Rattle.ann_lattice.specs.Assign.{Fits};
ghost use Rattle.ann_lattice.specs.Shape.{Num, Lst, Dct, Fun};
ghost use Rattle.ann_needs.specs.View.{nowhere, whole, assignment};
ghost use Rattle.ann_needs.specs.declared.state.State.{State};
ghost use Rattle.ann_layout.specs.Layout.{plan, planned};
ghost use Rattle.ann_places.specs.Spots.{start};
ghost use Rattle.ann_settled.specs.Settled.{IsRead};
ghost use Rattle.ann_read.specs.Reading.{reading};
ghost use Rattle.ann_tree.specs.Faults.{OfConstant, OfFamily, shows};
ghost use Rattle.rpy_meaning.specs.declared.row.RowOp.TheVariants as row;
ghost use Rattle.rtyper_core.specs.Typing.{least_fault};
ghost use Rattle.typing_laws.specs.Least.{IsLeastOf};
ghost use Rattle.typing_laws.specs.Rows.{whole as worked, parts};

/// The least fault that is found by an annotation, the graphs and the tables of classes, is the least one
/// of the annotation of trees which is read from the same cells and marks; where none is found, that has
/// none.
pub fn the_least_fault_is_that_of_trees()
    ensures { (p : Program) (gs : Graphs) (t : Tables) (n : Annotation) (s : State) → IsRead (planned p gs t) s n → Fits t.classes (start (planned p gs t)) (assignment s) → (planned p gs t).cells ≤ nowhere → (planned p gs t).marks ≤ nowhere → IsLeastOf p (whole (plan p gs t)) (reading (whole (plan p gs t)) (assignment s)) (least_fault p gs n t) }
{}

/// Worked rows of what may be a constant: a list that is appended to is one where it is of the class of
/// one; what a display stores to its own dict is no flaw.
pub fn constants_may_not_be_modified()
    ensures constant { shows worked parts OfConstant true (row.Method (codes "append") None) (Lst 1 false ∷ Num false ∷ []) ≡ true }
    ensures of_its_class { shows worked parts OfConstant true (row.Method (codes "append") None) (Lst 4 false ∷ Num false ∷ []) ≡ true }
    ensures its_own { shows worked parts OfConstant true (row.Method (codes "append") None) (Lst 0 false ∷ Num false ∷ []) ≡ false }
    ensures looked_up { shows worked parts OfConstant true (row.Index None) (Lst 1 false ∷ Num false ∷ []) ≡ false }
    ensures stored { shows worked parts OfConstant true row.StoreIndex (Dct 3 false ∷ Num false ∷ Num false ∷ []) ≡ true }
    ensures displayed { shows worked parts OfConstant false row.StoreIndex (Dct 3 false ∷ Num false ∷ Num false ∷ []) ≡ false }
{}

/// Worked rows of calls: a default may be left out where one function alone is called, and not where there
/// is another beside it; a function that takes more is not called.
pub fn functions_take_their_arguments()
    ensures all { shows worked parts OfFamily true (row.Call 0) (Num false ∷ Num false ∷ []) ≡ false }
    ensures default { shows worked parts OfFamily true (row.Call 0) (Num false ∷ []) ≡ false }
    ensures too_few { shows worked parts OfFamily true (row.Call 0) [] ≡ true }
    ensures too_many { shows worked parts OfFamily true (row.Call 1) (Num false ∷ Num false ∷ []) ≡ true }
    ensures takes_more { shows worked parts OfFamily true (row.Call 2) (Num false ∷ []) ≡ true }
    ensures of_two { shows worked parts OfFamily true row.CallValue (Fun (0 ∷ 1 ∷ []) false ∷ Num false ∷ []) ≡ true }
{}
